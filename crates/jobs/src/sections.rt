// The section of a file that the last line stood in, in their order.
#[derive(Clone, Copy, PartialEq, PartialOrd, Debug)]
pub enum Section {
    Plan,
    Elements,
    Dead,
    Cells,
    Moves,
    Last,
}

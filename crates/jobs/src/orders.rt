// A move as a file or a caller's record has it: its number and its element.
// The number is no `Move`, since a job of records is judged by `write`, and a record may hold any number.
#[derive(Clone, Copy, PartialEq, Debug)]
pub struct Order {
    pub action: u8,
    pub element: usize,
}

ghost use Rattle.std.specs.Prelude.{◌≡◌, ◌≤◌, true, vec_len, vec_capacity};
ghost use Rattle.layers.specs.Layers.{distinct};

// A plate without the steps that start or end on one of at most 64 dead cells. They are a `Vec` with its room reserved, since `new` gives
// the plate back where memory is wanting.
#[derive(Drop)]
pub struct Dead<P> {
    pub lower: P,
    pub(crate) dead: Vec<usize>,
    ghost few: { vec_len dead ≤ 64 },
    ghost room: { 64 ≤ vec_capacity dead },
    ghost apart: { distinct dead.items ≡ true },
}

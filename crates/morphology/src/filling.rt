ghost use Rattle.std.specs.Prelude.{◌≡◌, length, replicate};

use kinds::Kind;

// Sets every cell to one value.
pub fn fill<K: Kind>(picture: &mut [K], value: K)
    ensures { picture.new ≡ replicate (length picture.old) value }
{
    // The slice's own `fill` asks that a clone of the value is the value, and the bound `Copy` does not say that: its proof stays open.
    for cell in picture.iter_mut() {
        *cell = value;
    }
}

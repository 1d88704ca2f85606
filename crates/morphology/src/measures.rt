ghost use Rattle.std.specs.Prelude.{◌≡◌};
ghost use Rattle.morphology.specs.Pictures.{area};

use kinds::Kind;

// How many cells are not least.
pub fn area<K: Kind>(picture: &[K]) -> usize
    ensures { result ≡ area K.Kind.values picture.now }
{
    let mut count = 0;
    for cell in picture {
        if cell.is_not_least() {
            count += 1;
        }
    }
    count
}

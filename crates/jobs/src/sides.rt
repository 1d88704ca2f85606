ghost use Rattle.std.specs.Prelude.{◌≡◌};
ghost use Rattle.jobs.specs.Entries.{first_side};

use plans::Mode;

// The number that a file has for the side of an element's first list; that for its second list is 2.
pub fn first_side(mode: Mode) -> usize
    ensures { result ≡ first_side mode }
{
    match mode {
        Mode::Independent => 1,
        Mode::Strict | Mode::Weak | Mode::Strong => 0,
    }
}

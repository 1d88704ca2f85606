// How the six columns of a field are read.
ghost use Rattle.std.specs.Prelude.{◌≡◌, ℕ, ◌*◌, ◌<◌, length, IfOk};
ghost use Rattle.lines.specs.Fields.{longer_of, next_of, end_of, field_of, Fitting, Short};

use crate::faults::LineFault;
use crate::numbers::Number;

// What the columns read so far hold.
#[derive(Clone, Copy, PartialEq, Debug)]
pub enum Seen {
    Blank,
    Minus,
    Zero,
    Plus(usize),
    Negative(usize),
}

// The number with one more digit.
fn longer(n: usize, b: u8) -> Result<usize, LineFault>
    requires { n < 100000 }
    ensures { result ≡ longer_of n b }
{
    if !b.is_ascii_digit() {
        return Err(LineFault::Field);
    }
    Ok(n * 10 + usize::from(b - b'0'))
}

impl Seen {
    // What the columns hold with one more byte.
    fn next(self, b: u8) -> Result<Seen, LineFault>
        requires { Short self 100000 }
        ensures is { result ≡ next_of self b }
        ensures short { (n : ℕ) → Short self n → IfOk result (λ s. Short s (n * 10)) }
    {
        match (self, b) {
            (Seen::Blank, b' ') => Ok(Seen::Blank),
            (Seen::Blank, b'-') => Ok(Seen::Minus),
            (Seen::Blank, b'0') => Ok(Seen::Zero),
            (Seen::Blank, b'1'..=b'9') => Ok(Seen::Plus(usize::from(b - b'0'))),
            (Seen::Minus, b'1'..=b'9') => Ok(Seen::Negative(usize::from(b - b'0'))),
            (Seen::Plus(n), _) => Ok(Seen::Plus(longer(n, b)?)),
            (Seen::Negative(n), _) => Ok(Seen::Negative(longer(n, b)?)),
            _ => Err(LineFault::Field),
        }
    }

    // What six columns hold: a number, none where they are blank, or a fault where a minus has no digits.
    fn end(self) -> Result<Option<Number>, LineFault>
        requires { Short self 1000000 }
        ensures is { result ≡ end_of self }
        ensures fits { IfOk result Fitting }
    {
        match self {
            Seen::Blank => Ok(None),
            Seen::Minus => Err(LineFault::Field),
            Seen::Zero => Ok(Some(Number::Natural(0))),
            Seen::Plus(n) => Ok(Some(Number::Natural(n))),
            Seen::Negative(n) => Ok(Some(Number::Below(n))),
        }
    }
}

// The number of a field, none where it is blank, or the fault.
pub(crate) fn field(columns: &[u8]) -> Result<Option<Number>, LineFault>
    requires { length columns.now ≡ 6 }
    ensures is { result ≡ field_of columns.now }
    ensures fits { IfOk result Fitting }
{
    let mut seen = Seen::Blank;
    for b in columns {
        seen = seen.next(*b)?;
    }
    seen.end()
}

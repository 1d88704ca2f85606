ghost use Rattle.std.specs.Prelude.{◌≡◌, ◌≤◌, drop};
ghost use Rattle.std.specs.List.{list_any};
ghost use Rattle.std.specs.Option.{is_some};
ghost use Rattle.lines.specs.Numbers.{four_fields, numbers_of};

use crate::faults::LineFault;
use crate::numbers::Number;
use crate::words::Word;

// A word and what the four fields hold; a blank field holds none. The fields are no array: a clause sees an array as a list of any
// length, so each definition of a line would have to say that there are four.
#[derive(Clone, Copy, PartialEq, Debug)]
pub struct Line {
    pub word: Word,
    pub one: Option<Number>,
    pub two: Option<Number>,
    pub three: Option<Number>,
    pub four: Option<Number>,
}

// Whether one of the fields holds a number.
fn is_any_filled(fields: &[Option<Number>]) -> bool
    ensures { result ≡ list_any is_some fields.now }
{
    fields.iter().any(|field| field.is_some())
}

// Whether a field after those that are due holds a number.
fn is_filled_after(fields: &[Option<Number>; 4], due: usize) -> bool
    requires { due ≤ 4 }
    ensures { result ≡ list_any is_some (drop due fields.now) }
{
    is_any_filled(&fields[due..])
}

impl Line {
    // The numbers of the first N fields. Refuses where one of them is blank or one of the other fields is filled.
    #[inline(always)]
    pub fn numbers<const N: usize>(self) -> Result<[Number; N], LineFault>
        requires { N ≤ 4 }
        ensures { result ≡ numbers_of N (four_fields self) }
    {
        let fields = [self.one, self.two, self.three, self.four];
        if is_filled_after(&fields, N) {
            return Err(LineFault::Field);
        }
        let (due, _) = fields.split_first_chunk().unwrap();
        due.try_map(|field| field.ok_or(LineFault::Field))
    }
}

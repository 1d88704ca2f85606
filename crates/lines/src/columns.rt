// How the six columns of a field are written.
ghost use Rattle.std.specs.Prelude.{◌≡◌};
ghost use Rattle.lines.specs.Fields.{mark_of, size_of, field_bytes};

use crate::numbers::Number;

// What stands left of the digits, and the number whose digits are written.
fn marked(value: Option<Number>) -> (u8, usize)
    ensures mark { result.0 ≡ mark_of value }
    ensures size { result.1 ≡ size_of value }
{
    match value {
        None => (b' ', 0),
        Some(Number::Natural(0)) => (b'0', 0),
        Some(Number::Natural(n)) => (b' ', n),
        Some(Number::Below(n)) => (b'-', n),
    }
}

// The six columns of a field: the last six digits where the number has more.
pub(crate) fn field_columns(value: Option<Number>) -> [u8; 6]
    ensures { result ≡ field_bytes value }
{
    let (mut mark, mut n) = marked(value);
    let mut out = [b' '; 6];
    // By the index, since of what `iter_mut` under a `rev` lends a proof knows only the length afterwards.
    for k in (0..6).rev() {
        if n == 0 {
            out[k] = mark;
            mark = b' ';
        } else {
            out[k] = b'0' + (n % 10) as u8;
            n /= 10;
        }
    }
    out
}

// Numbers of a line, as a job has them. They are functions, since a conversion could stand only in `lines`, where a number below 0 is no
// fault.
ghost use Rattle.std.specs.Prelude.{◌≡◌, Some};
ghost use Rattle.jobs.specs.Heads.{natural};
ghost use Rattle.jobs.specs.Steps.{whole_number};
ghost use Rattle.lines.specs.Fields.{Fitting};

use crate::faults::FileFault;
use lines::Number;

// A number that may not lie below 0.
pub fn natural(number: Number) -> Result<usize, FileFault>
    ensures { result ≡ natural number }
{
    match number {
        Number::Natural(n) => Ok(n),
        Number::Below(_) => Err(FileFault::Number),
    }
}

// The whole number that a number of six columns is.
pub fn whole(number: Number) -> i32
    requires { Fitting (Some number) }
    ensures { result ≡ whole_number number }
{
    match number {
        Number::Natural(n) => n as i32,
        Number::Below(n) => -(n as i32),
    }
}

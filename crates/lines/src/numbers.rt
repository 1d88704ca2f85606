ghost use Rattle.std.specs.Prelude.{◌≡◌};
ghost use Rattle.lines.specs.Numbers.{number_of};
ghost use Rattle.lines.specs.declared.numbers.Number.TheVariants.{Natural};

// A number in a field: Natural(n) is n, Below(n) is minus n. No bound stands in the type, since any number can be written, cut to its columns.
#[derive(Clone, Copy, PartialEq, Debug)]
pub enum Number {
    Natural(usize),
    Below(usize),
}

impl From<usize> for Number {
    ghost from_gives = { λ n r. r ≡ Natural n };

    fn from(n: usize) -> Number {
        Number::Natural(n)
    }
}

impl From<i32> for Number {
    ghost from_gives = { λ z r. r ≡ number_of z };

    fn from(z: i32) -> Number {
        let size = z.unsigned_abs() as usize;
        if z < 0 {
            Number::Below(size)
        } else {
            Number::Natural(size)
        }
    }
}

ghost use Rattle.std.specs.Prelude.{◌≡◌};
ghost use Rattle.kinds.specs.Lattices.{Values, Lawful, not_least};
ghost use Rattle.kinds.specs.Numbers.{Written, Numbered};

// A kind of cell value: a bounded lattice. Its calls refuse nothing and alter nothing.
pub trait Kind: Copy {
    ghost values: { Values Self };

    fn least() -> Self
        ensures { result ≡ values.least };

    fn greatest() -> Self
        ensures { result ≡ values.greatest };

    // The lowest value over both.
    fn join(self, other: Self) -> Self
        ensures { result ≡ values.join self other };

    // The highest value under both.
    fn meet(self, other: Self) -> Self
        ensures { result ≡ values.meet self other };

    fn lies_under(self, other: Self) -> bool
        ensures { result ≡ values.under self other };

    // Whether this is any value but the least.
    fn is_not_least(self) -> bool
        ensures { result ≡ not_least values self }
    {
        !self.lies_under(Self::least())
    }

    ghost lawful: { Lawful values };
}

// A kind that a file can carry: it has a code, and numbers for its values. The conversions are no `From` and `TryFrom`, since one record,
// `written`, says the three together, and the law speaks of it.
pub trait WrittenKind: Kind {
    ghost written: { Written Self };

    fn code() -> u32
        ensures { result ≡ written.code };

    fn number(self) -> u32
        ensures { result ≡ written.number self };

    // The value with that number, or none.
    fn from_number(number: u32) -> Option<Self>
        ensures { result ≡ written.value number };

    ghost numbered: { Numbered Self.Kind.values written };
}

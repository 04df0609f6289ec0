//! The instants of a wall clock.
ghost use Rattle.std.specs.Prelude.{◌≡◌, Some, None};
ghost use Rattle.zones.specs.Choices.{earlier_of, later_of, compatible_of, only_of, first_of};

/// The seconds at which the clocks of a zone show a wall clock, as Unix seconds.
#[derive(Clone, Copy)]
pub enum LocalInstants {
    /// One second.
    Single(i64),
    /// None, since clocks are put forward past it: the seconds that the offset after the gap and
    /// the one before it give, in this order, and between them the second of the transition.
    Gap(i64, i64, i64),
    /// Two seconds in their order, since clocks are put back over it.
    Fold(i64, i64),
}

impl LocalInstants {
    /// Returns the earlier second, in a gap by the offset after it.
    pub fn earlier(self) -> i64
        ensures { result ≡ earlier_of self }
    {
        match self {
            LocalInstants::Single(second) => second,
            LocalInstants::Gap(earlier, _, _) => earlier,
            LocalInstants::Fold(earlier, _) => earlier,
        }
    }

    /// Returns the later second, in a gap by the offset before it.
    pub fn later(self) -> i64
        ensures { result ≡ later_of self }
    {
        match self {
            LocalInstants::Single(second) => second,
            LocalInstants::Gap(_, later, _) => later,
            LocalInstants::Fold(_, later) => later,
        }
    }

    /// Returns the earlier second in a fold and the later one in a gap: both by the offset before
    /// the transition. So RFC 5545 reads a wall clock.
    pub fn compatible(self) -> i64
        ensures { result ≡ compatible_of self }
    {
        match self {
            LocalInstants::Single(second) => second,
            LocalInstants::Gap(_, later, _) => later,
            LocalInstants::Fold(earlier, _) => earlier,
        }
    }

    /// Returns the second if it is the only one, and `None` in a gap or in a fold.
    pub fn only(self) -> Option<i64>
        ensures { result ≡ only_of self }
    {
        match self {
            LocalInstants::Single(second) => Some(second),
            LocalInstants::Gap(_, _, _) => None,
            LocalInstants::Fold(_, _) => None,
        }
    }

    /// Returns the first second at which the clocks show the wall clock or a later one: in a gap
    /// the second of the transition.
    pub fn first(self) -> i64
        ensures { result ≡ first_of self }
    {
        match self {
            LocalInstants::Single(second) => second,
            LocalInstants::Gap(_, _, transition) => transition,
            LocalInstants::Fold(earlier, _) => earlier,
        }
    }
}

//! A transition.
ghost use Rattle.zones.specs.Ranges.{IsTailSecond};

use crate::TimeType;

/// A second at which the clocks of a zone go from one kind of local time to another.
#[derive(Clone, Copy)]
pub struct Transition {
    /// The Unix second from which on the kind after it holds.
    pub second: i64,
    pub before: TimeType,
    pub after: TimeType,
    pub ghost second_in: { IsTailSecond second },
}

impl Transition {
    ghost use Rattle.std.specs.Prelude.{◌≡◌};
    ghost use Rattle.zones.specs.Tables.{row_start, row_end};

    /// Returns the wall clock at which its gap or its fold starts, in seconds from 1970-01-01 0:00
    /// on that clock.
    pub fn start(self) -> i64
        ensures { result ≡ row_start self }
    {
        self.second + self.before.offset.min(self.after.offset) as i64
    }

    /// Returns the wall clock at which its gap or its fold has ended.
    pub fn end(self) -> i64
        ensures { result ≡ row_end self }
    {
        self.second + self.before.offset.max(self.after.offset) as i64
    }
}

//! A gap in the wall clocks of a zone.
ghost use Rattle.zones.specs.Ranges.{IsTailSecond};

use crate::seconds::wall_clock_at;
use calendar_values::UtcOffset;
use plain_times::PlainDateTime;

/// The wall clocks that a zone skips, since its clocks are put forward.
#[derive(Clone, Copy, Debug, PartialEq, Eq)]
pub struct Gap {
    /// The Unix second at which clocks are put forward.
    pub second: i64,
    /// The offset until then.
    pub before: UtcOffset,
    /// The offset from then on.
    pub after: UtcOffset,
    pub ghost second_in: { IsTailSecond second },
}

impl Gap {
    ghost use Rattle.calendar_values.specs.WallClock.{SomeInRange};
    ghost use Rattle.zoned_times.specs.Gaps.{gap_start, gap_end};

    /// The first wall clock that is skipped. None if it is out of range.
    pub fn start(self) -> Option<PlainDateTime>
        ensures { SomeInRange result (gap_start self) }
    {
        wall_clock_at(self.second, self.before)
    }

    /// The first wall clock after those that are skipped. None if it is out of range.
    pub fn end(self) -> Option<PlainDateTime>
        ensures { SomeInRange result (gap_end self) }
    {
        wall_clock_at(self.second, self.after)
    }
}

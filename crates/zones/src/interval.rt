//! Stretches of time with one kind of local time.
ghost use Rattle.zones.specs.Ranges.{IsTailSecond};

use crate::TimeType;

/// The seconds from one transition of a zone up to the next one, in which it has one kind of local
/// time. A caller keeps it to ask no zone about seconds that lie in it.
#[derive(Clone, Copy)]
pub struct Interval {
    /// The Unix second of the transition before it, or the first second that zones know.
    pub from: i64,
    /// The Unix second of the next transition, or the second after the last one that zones know.
    pub until: i64,
    pub kind: TimeType,
    pub ghost from_in: { IsTailSecond from },
    pub ghost until_in: { IsTailSecond until },
}

impl Interval {
    ghost use Rattle.std.specs.Prelude.{◌↔◌, IsTrue};
    ghost use Rattle.zones.specs.Intervals.{IsWithin};

    /// Returns whether the second lies in it: at or after its start, and before its end.
    pub fn contains(self, second: i64) -> bool
        ensures { IsTrue result ↔ IsWithin self second }
    {
        if second < self.from {
            return false;
        }
        second < self.until
    }
}

//! The stretch of time between two transitions.
ghost use Rattle.std.specs.Prelude.{◌≡◌, IfSome, IfNone};
ghost use Rattle.zones.specs.Intervals.{IsInterval};
ghost use Rattle.zones.specs.Ranges.{IsTailSecond};
ghost use Rattle.zones.specs.Seconds.{IsSecond};

use crate::{Interval, Transition, Zone};

// The first second that zones know, and the one after the last.
const FIRST_SECOND: i64 = -34_560_000_000_000;

const AFTER_LAST: i64 = 34_560_000_000_001;

impl<'a> Zone<'a> {
    /// Returns the interval in which the second lies: from the last transition at or before it up
    /// to the next one. The zone has one kind of local time in it.
    pub fn interval_at(&self, second: i64) -> Interval
        requires { IsSecond second }
        ensures { IsInterval self.now second result }
    {
        let _ = &self.first;
        Interval {
            from: second_or(self.last_transition(second), FIRST_SECOND),
            until: second_or(self.next_transition(second), AFTER_LAST),
            kind: self.type_at(second),
        }
    }
}

// The second of a transition, or another one where there is none.
fn second_or(row: Option<Transition>, other: i64) -> i64
    requires { IsTailSecond other }
    ensures some { IfSome row (λ r. result ≡ r.second) }
    ensures none { IfNone row (result ≡ other) }
    ensures in_range { IsTailSecond result }
{
    match row {
        Some(row) => row.second,
        None => other,
    }
}

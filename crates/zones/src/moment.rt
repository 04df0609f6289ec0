//! A moment of each year.
ghost use Rattle.std.specs.Prelude.{◌≡◌, IsTrue, pos, neg_ℤ, ◌≤ℤ◌};
ghost use Rattle.zones.specs.Ranges.{IsRuleTime};
ghost use Rattle.zones.specs.Rules.{IsRuleYear, is_rule_day};

use crate::RuleDay;

const SECONDS_PER_DAY: i64 = 86_400;

/// A moment of each year, by the clocks up to it.
#[derive(Clone, Copy)]
pub struct Moment {
    pub day: RuleDay,
    /// Seconds after the midnight that begins the day, from -604799 to 604799.
    pub time: i32,
    pub ghost day_in: { IsTrue (is_rule_day day) },
    pub ghost time_in: { IsRuleTime time },
}

impl Moment {
    ghost use Rattle.zones.specs.Cycles.{ComesNear, local_second};

    // The second on the clocks up to it.
    pub(crate) fn local_in_year(self, year: i64) -> i64
        requires { IsRuleYear year }
        ensures value { result ≡ local_second self year }
        ensures low { neg_ℤ (pos 40_000_000_000_000) ≤ℤ result }
        ensures high { result ≤ℤ pos 40_000_000_000_000 }
    {
        self.day.in_year(year) * SECONDS_PER_DAY + self.time as i64
    }

    // A second that is counted from the start of a year: on the clocks up to it the moment of each
    // year comes at it, or up to 21 days later.
    pub(crate) fn earliest(self) -> i64
        ensures near { ComesNear (local_second self) result }
        ensures low { neg_ℤ (pos 700_000) ≤ℤ result }
        ensures high { result ≤ℤ pos 35_000_000 }
    {
        self.day.earliest() * SECONDS_PER_DAY + self.time as i64
    }
}

//! Rules that repeat each year: two moments at which clocks change.
ghost use Rattle.std.specs.Prelude.{true, ◌≡◌, ◌↔◌, IsTrue, IfSome, pos, neg_ℤ, ◌+ℤ◌, ◌-ℤ◌, ◌≤ℤ◌, ◌<ℤ◌, ◌*ℤ◌, ℤ};
ghost use Rattle.calendar_values.specs.Offsets.{IsOffset};
ghost use Rattle.zones.specs.Ranges.{IsMoment, IsCycleSecond};
ghost use Rattle.zones.specs.Seconds.{IsSecond};
ghost use Rattle.zones.specs.Cycles.{cycle_type, cycle_second, low_offset, high_offset, IsApart, RunsForward, IsCycleType, IsOneType, Meets};
ghost use Rattle.zones.specs.Cycles.{ComesNear, IsFromStart, IsLastMoment, IsSearchedYear, IsSettled};
ghost use Rattle.calendar_values.specs.Calendar.{year_start};

use crate::rule_day::year_start;
use crate::{Moment, TimeType, Transition};

// The mean length of a year, in seconds.
const YEAR_SECONDS: i64 = 31_556_952;

// 70 days, in seconds.
const FAR_APART: i64 = 6_048_000;

// The 21 days in which a moment comes each year, in seconds.
const SPREAD: i64 = 1_814_400;

// The days of a common year, in seconds.
const LEAST_YEAR: i64 = 31_536_000;

const SECONDS_PER_DAY: i64 = 86_400;

/// Two moments of each year, in their order, and the kind of local time after each.
#[derive(Clone, Copy)]
pub struct Cycle {
    pub first: Moment,
    pub second: Moment,
    pub after_first: TimeType,
    pub after_second: TimeType,
}

// The year in which the second lies, or the year before or after it.
fn year_near(second: i64) -> i64
    requires { IsCycleSecond second }
    ensures { IsSearchedYear result }
{
    1970 + second.div_euclid(YEAR_SECONDS)
}

impl Cycle {
    // The kind of local time before a moment. Moments are counted, two a year, from the
    // first of the year 0.
    pub(crate) fn type_before(self, moment: i64) -> TimeType
        requires { IsMoment moment }
        ensures { result ≡ cycle_type self moment }
    {
        if moment <= 2 * moment.div_euclid(2) {
            self.after_second
        } else {
            self.after_first
        }
    }

    /// Returns the Unix second of the moment.
    pub fn second_of(self, moment: i64) -> i64
        requires { IsMoment moment }
        ensures value { result ≡ cycle_second self moment }
        ensures low { neg_ℤ (pos 40_000_000_100_000) ≤ℤ result }
        ensures high { result ≤ℤ pos 40_000_000_100_000 }
    {
        let year = moment.div_euclid(2);
        if moment <= 2 * year {
            self.first.local_in_year(year) - self.after_second.offset as i64
        } else {
            self.second.local_in_year(year) - self.after_first.offset as i64
        }
    }

    // A second that is counted from the start of a year: the first moment of each year comes at it,
    // or up to 21 days later.
    fn earliest_first(self) -> i64
        ensures near { ComesNear (λ y. cycle_second self (pos 2 *ℤ y)) result }
        ensures low { neg_ℤ (pos 800_000) ≤ℤ result }
        ensures high { result ≤ℤ pos 40_000_000 }
    {
        self.first.earliest() - self.after_second.offset as i64
    }

    // The same of the second moment.
    fn earliest_second(self) -> i64
        ensures near { ComesNear (λ y. cycle_second self (pos 2 *ℤ y +ℤ pos 1)) result }
        ensures low { neg_ℤ (pos 800_000) ≤ℤ result }
        ensures high { result ≤ℤ pos 40_000_000 }
    {
        self.second.earliest() - self.after_first.offset as i64
    }

    // The last moment at or before the one second of a year, if the next one comes after the other,
    // and the months of the moments tell so. Seconds are counted from the start of the year, and may
    // lie out of it.
    fn last_in_year(self, year: i64, from: i64, until: i64) -> Option<i64>
        requires year_in { IsSearchedYear year }
        requires from_in { IsFromStart from }
        requires until_in { IsFromStart until }
        ensures { IfSome result (λ m. IsLastMoment self (year_start year *ℤ pos 86_400 +ℤ from)
            (year_start year *ℤ pos 86_400 +ℤ until) m) }
    {
        let first = self.earliest_first();
        let second = self.earliest_second();
        if from >= second + SPREAD {
            if until < first + LEAST_YEAR {
                return Some(2 * year + 1);
            }
            return None;
        }
        if until >= second {
            return None;
        }
        if from >= first + SPREAD {
            return Some(2 * year);
        }
        if until >= first {
            return None;
        }
        if from >= second + SPREAD - LEAST_YEAR {
            return Some(2 * year - 1);
        }
        None
    }

    // The last moment at or before the one second, if the next one comes after the other, and the
    // months of the moments tell so.
    pub(crate) fn last_by_months(self, from: i64, until: i64) -> Option<i64>
        requires from { IsCycleSecond from }
        requires until { IsCycleSecond until }
        ensures { IfSome result (λ m. IsLastMoment self from until m) }
    {
        let year = year_near(from);
        let start = year_start(year) * SECONDS_PER_DAY;
        self.last_in_year(year, from - start, until - start)
    }

    // The last moment at or before the second.
    pub(crate) fn last_at(self, second: i64) -> i64
        requires { IsCycleSecond second }
        ensures begun { cycle_second self result ≤ℤ second }
        ensures not_next { second <ℤ cycle_second self (result +ℤ pos 1) }
        ensures low { neg_ℤ (pos 2_390_000) ≤ℤ result }
        ensures high { result ≤ℤ pos 2_390_000 }
    {
        match self.last_by_months(second, second) {
            Some(moment) => moment,
            None => self.last_by_days(second),
        }
    }

    // The last moment at or before the second, by the days of the moments near it.
    fn last_by_days(self, second: i64) -> i64
        requires { IsCycleSecond second }
        ensures begun { cycle_second self result ≤ℤ second }
        ensures not_next { second <ℤ cycle_second self (result +ℤ pos 1) }
        ensures low { neg_ℤ (pos 2_390_000) ≤ℤ result }
        ensures high { result ≤ℤ pos 2_390_000 }
    {
        let mut moment = 2 * year_near(second);
        if self.second_of(moment) <= second {
            'on: while self.second_of(moment + 1) <= second {
                moment += 1;
            }
            return moment;
        }
        moment -= 1;
        'back: while self.second_of(moment) > second {
            moment -= 1;
        }
        moment
    }

    // The kind of local time at the second: that after the last moment at or before it.
    pub(crate) fn type_at(self, second: i64) -> TimeType
        requires { IsCycleSecond second }
        ensures { IsCycleType self second result }
    {
        self.type_before(self.last_at(second) + 1)
    }

    /// Returns the moment as a transition.
    pub fn transition_of(self, moment: i64) -> Transition
        requires low { neg_ℤ (pos 2_399_000) ≤ℤ moment }
        requires high { moment <ℤ pos 2_399_000 }
        ensures second { result.second ≡ cycle_second self moment }
        ensures second_low { neg_ℤ (pos 40_000_000_100_000) ≤ℤ result.second }
        ensures second_high { result.second ≤ℤ pos 40_000_000_100_000 }
        ensures before { result.before ≡ cycle_type self moment }
        ensures after { result.after ≡ cycle_type self (moment +ℤ pos 1) }
    {
        Transition {
            second: self.second_of(moment),
            before: self.type_before(moment),
            after: self.type_before(moment + 1),
        }
    }

    // The lesser of the two offsets.
    pub(crate) fn low(self) -> i64
        ensures value { result ≡ low_offset self }
        ensures in_range { IsOffset result }
    {
        self.after_first.offset.min(self.after_second.offset) as i64
    }

    // The greater of the two offsets.
    pub(crate) fn high(self) -> i64
        ensures value { result ≡ high_offset self }
        ensures in_range { IsOffset result }
    {
        self.after_first.offset.max(self.after_second.offset) as i64
    }

    // The last moment whose gap or fold starts at or before the wall clock.
    pub(crate) fn last_start_at(self, local: i64) -> i64
        requires { IsSecond local }
        ensures begun { (cycle_second self result +ℤ low_offset self) ≤ℤ local }
        ensures not_next { local <ℤ (cycle_second self (result +ℤ pos 1) +ℤ low_offset self) }
        ensures low { neg_ℤ (pos 2_390_000) ≤ℤ result }
        ensures high { result ≤ℤ pos 2_390_000 }
    {
        self.last_at(local - self.low())
    }

    // The kind of local time at the wall clock, if no gap or fold lies near it, and the months of
    // the moments tell so.
    pub(crate) fn settled_type(self, local: i64) -> Option<TimeType>
        requires { IsSecond local }
        ensures { IfSome result (λ kind. IsSettled self local kind) }
    {
        match self.last_by_months(local - self.high(), local - self.low()) {
            Some(moment) => Some(self.type_before(moment + 1)),
            None => None,
        }
    }

    /// Returns whether each moment comes after the one before it, and no gap or fold starts before
    /// the last one has ended. Years repeat after 400, so that 800 moments decide it for all;
    /// moments that are far apart in one year are so in all.
    pub fn runs_forward(self) -> bool
        ensures { IsTrue result ↔ RunsForward self }
    {
        if self.is_far_apart() {
            return true;
        }
        let shift = self.high() - self.low();
        for i in 0..800u64 {
            if !self.is_apart(shift, 4000 + i as i64) {
                return false;
            }
        }
        true
    }

    // Whether the moments of the year 2000 are 70 days apart or more. In another year each of them
    // comes 31 days earlier or later in the year at most, and gaps and folds last 53 hours at most.
    fn is_far_apart(self) -> bool
        ensures { IsTrue result → RunsForward self }
    {
        let first = self.second_of(4000);
        let second = self.second_of(4001);
        if second - first < FAR_APART {
            return false;
        }
        if self.second_of(4002) - second < FAR_APART {
            return false;
        }
        true
    }

    // Whether the next moment comes late enough after this one.
    fn is_apart(self, shift: i64, moment: i64) -> bool
        requires shift_is { shift ≡ (high_offset self -ℤ low_offset self) }
        requires moment_in { (pos 0 ≤ℤ moment) × (moment ≤ℤ pos 10_000) }
        ensures { IsTrue result ↔ IsApart self moment }
    {
        let gap = self.second_of(moment + 1) - self.second_of(moment);
        if gap < 1 {
            return false;
        }
        if gap < shift {
            return false;
        }
        true
    }

    /// Returns the kind of local time that a rule keeps all year, because the other one lasts no
    /// time in any year, as in `EST5EDT,0/0,J365/25`, and `None` if the rule has both.
    pub fn one_type(self) -> Option<TimeType>
        ensures { IsOneType self result }
    {
        if self.meets_in_all_years(1) {
            return Some(self.after_first);
        }
        if self.meets_in_all_years(0) {
            return Some(self.after_second);
        }
        None
    }

    // Whether the moment and the next one fall together.
    fn meets(self, moment: i64) -> bool
        requires { (pos 0 ≤ℤ moment) × (moment ≤ℤ pos 10_000) }
        ensures { IsTrue result ↔ Meets self moment }
    {
        let first = self.second_of(moment);
        let second = self.second_of(moment + 1);
        if first < second {
            return false;
        }
        if second < first {
            return false;
        }
        true
    }

    // Whether the moment of that number in each year falls together with the next one. Years repeat
    // after 400.
    fn meets_in_all_years(self, number: i64) -> bool
        requires { (pos 0 ≤ℤ number) × (number ≤ℤ pos 1) }
        ensures { IsTrue result ↔ ((y : ℤ) → Meets self (pos 2 *ℤ y +ℤ number)) }
    {
        for i in 0..400u64 {
            if !self.meets(4000 + number + 2 * i as i64) {
                return false;
            }
        }
        true
    }
}

//! Periods, each from its first instant up to one that is no longer in it.
ghost use Rattle.std.specs.Prelude.{◌↔◌, ◌≤ℤ◌, ◌<ℤ◌, IfSome, IsTrue, SomeIff, ◌≡◌};
ghost use Rattle.offset_times.specs.Local.{instant_of};
ghost use Rattle.uses.specs.Periods.{earlier_of, later_of};

use offset_times::OffsetDateTime;

/// A period, whose ends may be noted at two offsets.
#[derive(Clone, Copy)]
pub struct Period {
    pub from: OffsetDateTime,
    pub until: OffsetDateTime,
}

/// Whether the instant lies in the period.
pub fn is_in(period: Period, at: OffsetDateTime) -> bool
    ensures { IsTrue result ↔
        ((instant_of period.from ≤ℤ instant_of at) × (instant_of at <ℤ instant_of period.until)) }
{
    period.from <= at && at < period.until
}

/// Whether two periods have an instant in common, where neither is empty.
pub fn overlap(first: Period, second: Period) -> bool
    ensures { IsTrue result ↔ ((instant_of first.from <ℤ instant_of second.until)
        × (instant_of second.from <ℤ instant_of first.until)) }
{
    first.from < second.until && second.from < first.until
}

/// The later of two.
pub fn later(one: OffsetDateTime, other: OffsetDateTime) -> OffsetDateTime
    ensures value { result ≡ later_of one other }
    ensures one { instant_of one ≤ℤ instant_of result }
    ensures other { instant_of other ≤ℤ instant_of result }
{
    one.max(other)
}

/// The earlier of two.
pub fn earlier(one: OffsetDateTime, other: OffsetDateTime) -> OffsetDateTime
    ensures value { result ≡ earlier_of one other }
    ensures one { instant_of result ≤ℤ instant_of one }
    ensures other { instant_of result ≤ℤ instant_of other }
{
    one.min(other)
}

/// The first and the last instant of what two periods share. None where they share nothing.
pub fn common(first: Period, second: Period) -> Option<(OffsetDateTime, OffsetDateTime)>
    ensures value { let from = later_of first.from second.from in
        let until = earlier_of first.until second.until in
        SomeIff result (instant_of from <ℤ instant_of until) (from, until) }
    ensures in_first { IfSome result (λ both. instant_of first.from ≤ℤ instant_of both.0) }
    ensures in_second { IfSome result (λ both. instant_of second.from ≤ℤ instant_of both.0) }
    ensures until_first { IfSome result (λ both. instant_of both.1 ≤ℤ instant_of first.until) }
    ensures until_second { IfSome result (λ both. instant_of both.1 ≤ℤ instant_of second.until) }
    ensures some { IfSome result (λ both. instant_of both.0 <ℤ instant_of both.1) }
{
    let from = later(first.from, second.from);
    let until = earlier(first.until, second.until);
    if from < until {
        Some((from, until))
    } else {
        None
    }
}

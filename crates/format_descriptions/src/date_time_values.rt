//! The date-times that the parts of a text name.
ghost use Rattle.std.specs.Prelude.{◌≡◌, ◌==◌, ◌&&◌, ℤ, IfOk, IsTrue, Ok, true};
ghost use Rattle.calendar_values.specs.Calendar.{day_of_month_of};
ghost use Rattle.calendar_values.specs.WallClock.{IsWallClock, wall_day, wall_time};
ghost use Rattle.offset_times.specs.Local.{Local, instant_of, IsLocal};
ghost use Rattle.rfc3339.specs.LeapSeconds.{is_last_of_month};
ghost use Rattle.format_descriptions.specs.ClockValues.{tells_time};
ghost use Rattle.format_descriptions.specs.DateTimeValues.{plain_of_parts, local_of_parts, leap_of_parts};
ghost use Rattle.format_descriptions.specs.DateTimeValues.{is_sixty, with_last_nanosecond, leap_parts};
ghost use Rattle.format_descriptions.specs.DateTimeValues.{leap_outcome, is_leap_stand_in, IsLeapStandIn};
ghost use Rattle.format_descriptions.specs.DateTimeValues.{HasPlainParts, HasLocalParts};
ghost use Rattle.format_descriptions.specs.OffsetValues.{tells_offset};
ghost use Rattle.format_descriptions.specs.Values.{tells_date};

use crate::{Field, Parts, ValueRefusal};
use calendar_values::{SignedDuration, Time};
use offset_times::{Assume, OffsetDateTime};
use plain_times::PlainDateTime;
use utc_times::UtcDateTime;

impl Parts {
    /// The wall clock of these parts. Fails as `date` does, and then as `time` does.
    ///
    /// ```
    /// let parts = format_descriptions::parse_iso8601(b"1970-01-01T00:00");
    /// let wall = PlainDateTime::new(Date::UNIX_EPOCH, Time::MIDNIGHT);
    /// assert_eq!(rt; parts.map(|parts| parts.plain_date_time()), Ok(Ok(wall)));
    /// ```
    pub fn plain_date_time(&self) -> Result<PlainDateTime, ValueRefusal>
        ensures equation { result ≡ plain_of_parts self.now }
        ensures value { IfOk result (λ wall. HasPlainParts self.now wall) }
        ensures only { (wall : ℤ) → IsWallClock wall → IsTrue (tells_date self.now) →
            IsTrue (tells_time self.now) → HasPlainParts self.now wall → result ≡ Ok wall }
    {
        named_plain(self)
    }

    /// The date-time of these parts at its offset. It compares no count of a Unix timestamp, which
    /// `timestamp` does. Fails as `date` does, then as `time` does, and then as `offset` does.
    ///
    /// ```
    /// let parts = format_descriptions::parse_rfc2822(b"1 Jan 1970 00:00:00 GMT");
    /// let epoch = OffsetDateTime::UNIX_EPOCH;
    /// assert_eq!(rt; parts.map(|parts| parts.offset_date_time()), Ok(Ok(epoch)));
    /// ```
    pub fn offset_date_time(&self) -> Result<OffsetDateTime, ValueRefusal>
        ensures equation { result ≡ local_of_parts self.now }
        ensures value { IfOk result (λ at. HasLocalParts self.now at) }
        ensures only { (at : Local) → IsLocal at → IsTrue (tells_date self.now) →
            IsTrue (tells_time self.now) → IsTrue (tells_offset self.now) →
            HasLocalParts self.now at → result ≡ Ok at }
    {
        named_local(self)
    }

    /// The same, also with a second of 60. A leap second is valid only as the last second of a
    /// month in UTC. It becomes the last nanosecond before the next month, for any fraction, and
    /// the call returns `true` with it. Fails as `offset_date_time` does; then with `Wrong` for the
    /// second if no month ends with a second of 60.
    ///
    /// ```
    /// let parts = format_descriptions::parse_rfc2822(b"31 Dec 2016 23:59:60 GMT");
    /// let read = parts.map(|parts| parts.leap_date_time());
    /// let is_last = read.map(|read| read.map(|(at, is_leap)| (at.nanosecond(), is_leap)));
    /// assert_eq!(rt; is_last, Ok(Ok((999_999_999, true))));
    /// ```
    pub fn leap_date_time(&self) -> Result<(OffsetDateTime, bool), ValueRefusal>
        ensures equation { result ≡ leap_of_parts self.now }
        ensures value { IfOk result (λ read. HasLocalParts (leap_parts self.now) read.0) }
        ensures mark { IfOk result (λ read. read.1 ≡ is_sixty self.now.second) }
        ensures marked { IfOk result (λ read. read.1 ≡ true →
            IsLeapStandIn (instant_of read.0)) }
        ensures only { (at : Local) → IsLocal at → IsTrue (tells_date self.now) →
            IsTrue (tells_time self.now) → IsTrue (tells_offset self.now) →
            HasLocalParts (leap_parts self.now) at →
            (is_sixty self.now.second ≡ true → IsLeapStandIn (instant_of at)) →
            result ≡ Ok (at, is_sixty self.now.second) }
    {
        named_leap(self)
    }
}

// The wall clock.
#[tactic(auto, unfolding(crate::specs::DateTimeValues::plain_of_parts), using(calendar_values::specs::WallClockLemmas::wall_clock_parts))]
fn named_plain(parts: &Parts) -> Result<PlainDateTime, ValueRefusal>
    ensures equation { result ≡ plain_of_parts parts.now }
    ensures value { IfOk result (λ wall. HasPlainParts parts.now wall) }
{
    match parts.date() {
        Ok(date) => match parts.time() {
            Ok(time) => {
                // For the proof alone: what is read lies in its range.
                let _in_range = time.hour();
                Ok(PlainDateTime::new(date, time))
            }
            Err(refusal) => Err(refusal),
        },
        Err(refusal) => Err(refusal),
    }
}

// The date-time.
#[tactic(auto, unfolding(crate::specs::DateTimeValues::local_of_parts))]
fn named_local(parts: &Parts) -> Result<OffsetDateTime, ValueRefusal>
    ensures equation { result ≡ local_of_parts parts.now }
    ensures value { IfOk result (λ at. HasLocalParts parts.now at) }
{
    match parts.plain_date_time() {
        Ok(wall) => match parts.offset() {
            Ok(offset) => Ok(wall.assume_offset(offset)),
            Err(refusal) => Err(refusal),
        },
        Err(refusal) => Err(refusal),
    }
}

// The date-time, whose second may be 60, with the mark.
#[tactic(auto, unfolding(crate::specs::DateTimeValues::leap_of_parts))]
fn named_leap(parts: &Parts) -> Result<(OffsetDateTime, bool), ValueRefusal>
    ensures equation { result ≡ leap_of_parts parts.now }
    ensures value { IfOk result (λ read. HasLocalParts (leap_parts parts.now) read.0) }
    ensures mark { IfOk result (λ read. read.1 ≡ is_sixty parts.now.second) }
    ensures marked { IfOk result (λ read. read.1 ≡ true → IsLeapStandIn (instant_of read.0)) }
{
    let is_leap = is_sixty(parts.second);
    match with_last_nanosecond(is_leap, *parts).offset_date_time() {
        Ok(at) => with_mark(is_leap, at),
        Err(refusal) => Err(refusal),
    }
}

// The date-time with the mark, if a month ends with a leap second.
fn with_mark(is_leap: bool, at: OffsetDateTime) -> Result<(OffsetDateTime, bool), ValueRefusal>
    ensures equation { result ≡ leap_outcome is_leap (Ok at) }
    ensures value { IfOk result (λ read. read ≡ (at, is_leap)) }
    ensures marked { IfOk result (λ read. read.1 ≡ true → IsLeapStandIn (instant_of read.0)) }
{
    if !is_leap {
        return Ok((at, false));
    }
    if is_leap_stand_in(at) {
        Ok((at, true))
    } else {
        Err(ValueRefusal::Wrong(Field::Second))
    }
}

// Whether a second is 60.
fn is_sixty(second: Option<u32>) -> bool
    ensures { result ≡ is_sixty second }
{
    match second {
        Some(second) => second == 60,
        None => false,
    }
}

// The parts, with the last nanosecond of the minute for a leap second.
fn with_last_nanosecond(is_leap: bool, parts: Parts) -> Parts
    ensures { result ≡ with_last_nanosecond is_leap parts }
{
    if is_leap {
        Parts {
            second: Some(59),
            nanosecond: Some(999_999_999),
            ..parts
        }
    } else {
        parts
    }
}

// Whether it is an instant of the range, and the last nanosecond of a month in UTC.
fn is_leap_stand_in(at: OffsetDateTime) -> bool
    ensures { result ≡ is_leap_stand_in (instant_of at) }
{
    match at.checked_to_utc() {
        Some(utc) => is_last_of_month(utc),
        None => false,
    }
}

// Whether the next nanosecond begins a month.
#[tactic(auto, using(crate::proofs::DateTimeLemmas::last_ends_month))]
fn is_last_of_month(at: UtcDateTime) -> bool
    ensures { result ≡ is_last_of_month at }
{
    // For the proof alone: what is read lies in its range.
    let _in_range = at.date();
    match at.checked_add(SignedDuration::nanoseconds(1)) {
        Some(next) => begins_month(next),
        None => true,
    }
}

// Whether a month begins.
fn begins_month(at: UtcDateTime) -> bool
    ensures { result ≡ (day_of_month_of (wall_day at) == 1 && wall_time at == 0) }
{
    at.day() == 1 && at.time() == Time::MIDNIGHT
}

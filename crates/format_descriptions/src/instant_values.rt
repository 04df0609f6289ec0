//! The instant that the Unix timestamps of a text name.
ghost use Rattle.std.specs.Prelude.{◌≡◌, ◌+ℤ◌, ◌≤ℤ◌, ℤ, pos, negsuc, IfOk, IsTrue, Ok, codes};
ghost use Rattle.calendar_values.specs.WallClock.{IsInstant};
ghost use Rattle.calendar_values.specs.Outcomes.{Gives};
ghost use Rattle.utc_times.specs.UnixTime.{instant_outcome};
ghost use Rattle.format_descriptions.specs.InstantValues.{or_no_count, unix_nanoseconds, wrong_instant, instant_at};
ghost use Rattle.format_descriptions.specs.InstantValues.{counted_instant, instant_of_counts};
ghost use Rattle.format_descriptions.specs.InstantValues.{HasInstantParts, tells_instant};

use crate::clock_values::or_zero;
use crate::parts::{fits, fits_count};
use crate::unix::split_seconds;
use crate::{Field, Parts, UnixPrecision, ValueRefusal};
use calendar_values::{ComponentRange, Part};
use stamp_times::Timestamp;
use utc_times::UtcDateTime;

impl Parts {
    /// The instant of these parts, by the finest count of a Unix timestamp. The fraction of the
    /// second gives the digits below the unit of that count. Each other count and the fraction have
    /// to be those of the instant. So an instant that has all parts is read, if a count of
    /// nanoseconds or a fraction tells it. Fails with `Missing` if there is no count. Fails with
    /// `Wrong` for the first out of range, or other than that of the instant.
    ///
    /// ```
    /// use format_descriptions::{Component, Item, Sign, UnixPrecision};
    /// let count = Component::UnixTimestamp(UnixPrecision::Seconds, Sign::Automatic);
    /// let parts = format_descriptions::parse(&[Item::Part(count)], b"-1");
    /// assert_eq!(rt; parts.map(|parts| parts.timestamp()), Ok(Ok(Timestamp::new(-1, 0)?)));
    /// ```
    pub fn timestamp(&self) -> Result<Timestamp, ValueRefusal>
        ensures equation { result ≡ instant_of_counts self.now }
        ensures value { IfOk result (λ instant. HasInstantParts self.now instant) }
        ensures only { (i : ℤ) → IsInstant i → IsTrue (tells_instant self.now) →
            HasInstantParts self.now i → result ≡ Ok i }
    {
        named_instant(self)
    }

    /// The same as a date and a time of day in UTC.
    ///
    /// ```
    /// use format_descriptions::{Component, Item, Sign, UnixPrecision};
    /// let count = Component::UnixTimestamp(UnixPrecision::Seconds, Sign::Automatic);
    /// let parts = format_descriptions::parse(&[Item::Part(count)], b"-1");
    /// let at = UtcDateTime::from_unix_timestamp(-1)?;
    /// assert_eq!(rt; parts.map(|parts| parts.utc_date_time()), Ok(Ok(at)));
    /// ```
    pub fn utc_date_time(&self) -> Result<UtcDateTime, ValueRefusal>
        ensures equation { result ≡ instant_of_counts self.now }
        ensures value { IfOk result (λ instant. HasInstantParts self.now instant) }
        ensures only { (i : ℤ) → IsInstant i → IsTrue (tells_instant self.now) →
            HasInstantParts self.now i → result ≡ Ok i }
    {
        match self.timestamp() {
            Ok(at) => Ok(UtcDateTime::from(at)),
            Err(refusal) => Err(refusal),
        }
    }
}

// The same.
#[tactic(auto, unfolding(crate::specs::InstantValues::instant_of_counts))]
fn named_instant(parts: &Parts) -> Result<Timestamp, ValueRefusal>
    ensures { result ≡ instant_of_counts parts.now }
{
    if parts.unix_nanosecond.is_some() {
        let count = or_no_count(parts.unix_nanosecond);
        return counted_instant(
            parts,
            Field::UnixNanosecond,
            UnixPrecision::Nanoseconds,
            0,
            count,
        );
    }
    if parts.unix_microsecond.is_some() {
        let count = or_no_count(parts.unix_microsecond);
        return counted_instant(
            parts,
            Field::UnixMicrosecond,
            UnixPrecision::Microseconds,
            or_zero(parts.nanosecond) % 1_000,
            count,
        );
    }
    if parts.unix_millisecond.is_some() {
        let count = or_no_count(parts.unix_millisecond);
        return counted_instant(
            parts,
            Field::UnixMillisecond,
            UnixPrecision::Milliseconds,
            or_zero(parts.nanosecond) % 1_000_000,
            count,
        );
    }
    if parts.unix_second.is_some() {
        let count = or_no_count(parts.unix_second);
        let more = or_zero(parts.nanosecond);
        return counted_instant(
            parts,
            Field::UnixSecond,
            UnixPrecision::Seconds,
            more,
            count,
        );
    }
    Err(ValueRefusal::Missing(Field::UnixSecond))
}

// A count that is 0 where it is not known.
fn or_no_count(known: Option<i128>) -> i128
    ensures { result ≡ or_no_count known }
{
    match known {
        Some(count) => count,
        None => 0,
    }
}

// The instant of a count of a unit, and of further nanoseconds.
#[tactic(auto, unfolding(crate::specs::InstantValues::counted_instant))]
fn counted_instant(
    parts: &Parts,
    wrong: Field,
    precision: UnixPrecision,
    more: u32,
    count: i128,
) -> Result<Timestamp, ValueRefusal>
    ensures { result ≡ counted_instant parts.now wrong precision more count }
{
    if count < -99_999_999_999_999_999_999_999 || count > 99_999_999_999_999_999_999_999 {
        return Err(ValueRefusal::Wrong(wrong));
    }
    let instant = later(nanoseconds(precision, count), more);
    instant_at(parts, wrong, instant)
}

// A count, in nanoseconds.
fn nanoseconds(precision: UnixPrecision, count: i128) -> i128
    requires least { negsuc 99_999_999_999_999_999_999_998 ≤ℤ count }
    requires most { count ≤ℤ pos 99_999_999_999_999_999_999_999 }
    ensures value { result ≡ unix_nanoseconds precision count }
    ensures first { negsuc 99_999_999_999_999_999_999_999_999_999_999 ≤ℤ result }
    ensures last { result ≤ℤ pos 100_000_000_000_000_000_000_000_000_000_000 }
{
    match precision {
        UnixPrecision::Seconds => count * 1_000_000_000,
        UnixPrecision::Milliseconds => count * 1_000_000,
        UnixPrecision::Microseconds => count * 1_000,
        UnixPrecision::Nanoseconds => count,
    }
}

// So many nanoseconds later.
fn later(nanoseconds: i128, more: u32) -> i128
    requires least { negsuc 99_999_999_999_999_999_999_999_999_999_999 ≤ℤ nanoseconds }
    requires most { nanoseconds ≤ℤ pos 100_000_000_000_000_000_000_000_000_000_000 }
    ensures { result ≡ nanoseconds +ℤ pos more }
{
    nanoseconds + more as i128
}

// The instant of this number of nanoseconds, if each count is that of it.
fn instant_at(parts: &Parts, wrong: Field, nanoseconds: i128) -> Result<Timestamp, ValueRefusal>
    ensures { result ≡ instant_at parts.now wrong nanoseconds }
{
    match timestamp_of(nanoseconds) {
        Ok(at) => match wrong_instant(parts, at) {
            None => Ok(at),
            Some(field) => Err(ValueRefusal::Wrong(field)),
        },
        Err(_) => Err(ValueRefusal::Wrong(wrong)),
    }
}

// The instant of this number of nanoseconds.
#[tactic(auto, unfolding(utc_times::specs::UnixTime::instant_or_refusal))]
fn timestamp_of(nanoseconds: i128) -> Result<Timestamp, ComponentRange>
    ensures { Gives result (instant_outcome (codes "nanoseconds") nanoseconds) }
{
    if nanoseconds < -31_619_087_596_800_000_000_000
        || nanoseconds > 31_494_784_780_799_999_999_999
    {
        return Err(ComponentRange::of_part(Part::Nanoseconds, false));
    }
    let (second, nanosecond) = split_seconds(nanoseconds);
    match Timestamp::new(second as i64, nanosecond) {
        Ok(at) => Ok(at),
        Err(_) => Err(ComponentRange::of_part(Part::Nanoseconds, false)),
    }
}

// The first count that is not that of this instant.
#[tactic(auto, unfolding(crate::specs::InstantValues::wrong_instant))]
fn wrong_instant(parts: &Parts, at: Timestamp) -> Option<Field>
    ensures { result ≡ wrong_instant parts.now at }
{
    if !fits_count(parts.unix_second, at.as_seconds() as i128) {
        return Some(Field::UnixSecond);
    }
    if !fits_count(parts.unix_millisecond, at.as_milliseconds() as i128) {
        return Some(Field::UnixMillisecond);
    }
    if !fits_count(parts.unix_microsecond, at.as_microseconds()) {
        return Some(Field::UnixMicrosecond);
    }
    if !fits_count(parts.unix_nanosecond, at.as_nanoseconds()) {
        return Some(Field::UnixNanosecond);
    }
    if !fits(parts.nanosecond, at.nanosecond()) {
        return Some(Field::Subsecond);
    }
    None
}

//! Events that were noted at offsets of their own: their instants tell which came first.
ghost use Rattle.std.specs.Prelude.{◌≡◌, ◌↔◌, ◌+ℤ◌, ◌-ℤ◌, ◌≤ℤ◌, ◌<ℤ◌, IfSome, IsTrue, SomeIff};
ghost use Rattle.calendar_values.specs.Offsets.{IsOffset};
ghost use Rattle.calendar_values.specs.WallClock.{IsWallClock};
ghost use Rattle.offset_times.specs.Local.{instant_of, local_at, offset_nanos, shown_at, wall_at, ShownAt};

use calendar_values::{SignedDuration, UtcOffset};
use offset_times::OffsetDateTime;
use stamp_times::{Moment, Timestamp};

/// Whether the first came before the second, wherever they were noted.
pub fn is_before(first: OffsetDateTime, second: OffsetDateTime) -> bool
    ensures { IsTrue result ↔ (instant_of first <ℤ instant_of second) }
{
    first < second
}

/// Whether both are one instant.
pub fn is_same(first: OffsetDateTime, second: OffsetDateTime) -> bool
    ensures { IsTrue result ↔ (instant_of first ≡ instant_of second) }
{
    first == second
}

/// The earlier of two.
pub fn earlier(first: OffsetDateTime, second: OffsetDateTime) -> OffsetDateTime
    ensures not_after_first { instant_of result ≤ℤ instant_of first }
    ensures not_after_second { instant_of result ≤ℤ instant_of second }
{
    if second < first { second } else { first }
}

/// How long after the first the second came.
pub fn time_between(first: OffsetDateTime, second: OffsetDateTime) -> SignedDuration
    ensures { result ≡ instant_of second -ℤ instant_of first }
{
    second - first
}

/// The second, as clocks show it where the first was noted. None where they show no date of the
/// range.
pub fn shown_like(first: OffsetDateTime, second: OffsetDateTime) -> Option<OffsetDateTime>
    ensures value { ShownAt result (instant_of second) first.offset }
    ensures offset { IfSome result (λ shown. shown.offset ≡ first.offset) }
    ensures instant { IfSome result (λ shown. instant_of shown ≡ instant_of second) }
{
    second.checked_to_offset(first.offset())
}

/// The seconds from one offset to another, both given in seconds.
pub fn seconds_apart(there: i32, here: i32) -> i32
    requires there { IsOffset there }
    requires here { IsOffset here }
    ensures { result ≡ there -ℤ here }
{
    there - here
}

/// How many seconds clocks at the one offset are ahead of those at the other.
pub fn ahead(there: UtcOffset, here: UtcOffset) -> i32
    ensures { result ≡ there -ℤ here }
{
    seconds_apart(there.whole_seconds(), here.whole_seconds())
}

/// The wall clocks of two offsets at an instant: they are as far apart as the offsets. None if the
/// date of one is out of range.
pub fn shown_in_both(
    at: Timestamp,
    here: UtcOffset,
    there: UtcOffset,
) -> Option<(OffsetDateTime, OffsetDateTime)>
    ensures value { let at_here = local_at at here in let at_there = local_at at there in
        SomeIff result (IsWallClock at_here.wall × IsWallClock at_there.wall) (at_here, at_there) }
    ensures here { IfSome result (λ both. both.0 ≡ local_at at here) }
    ensures there { IfSome result (λ both. both.1 ≡ local_at at there) }
    ensures apart { IfSome result (λ both.
        both.1.wall -ℤ both.0.wall ≡ offset_nanos (there -ℤ here)) }
{
    Some((at.at_offset(here)?, at.at_offset(there)?))
}

/// The first, put where the second is, by the time from the one to the other. None where clocks
/// show no date of the range there.
pub fn put_at(first: OffsetDateTime, second: OffsetDateTime) -> Option<OffsetDateTime>
    ensures value { let wall = first.wall +ℤ (instant_of second -ℤ instant_of first) in
        SomeIff result (IsWallClock wall) (wall_at wall first.offset) }
    ensures instant { IfSome result (λ put. instant_of put ≡ instant_of second) }
{
    first.checked_add(time_between(first, second))
}

/// The same, back by the time from the second to the first.
pub fn put_back_at(first: OffsetDateTime, second: OffsetDateTime) -> Option<OffsetDateTime>
    ensures value { let wall = first.wall -ℤ (instant_of first -ℤ instant_of second) in
        SomeIff result (IsWallClock wall) (wall_at wall first.offset) }
    ensures instant { IfSome result (λ put. instant_of put ≡ instant_of second) }
{
    first.checked_sub(first - second)
}

/// A date-time with its offset corrected: the wall clock stays, and the instant is that of the wall
/// clock at the new offset.
pub fn noted_at(noted: OffsetDateTime, offset: UtcOffset) -> OffsetDateTime
    ensures clocks { result.wall ≡ noted.wall }
    ensures instant { instant_of result ≡ noted.wall -ℤ offset_nanos offset }
{
    noted.replace_offset(offset)
}

/// The offset of a number of seconds, exactly if there is one.
pub fn offset_of(seconds: i32) -> Option<UtcOffset>
    ensures { SomeIff result (IsOffset seconds) seconds }
{
    UtcOffset::from_whole_seconds(seconds).ok()
}

/// A timestamp at an offset that comes as a number of seconds. None where there is no such offset,
/// or clocks there show no date of the range.
pub fn at_seconds(at: Timestamp, seconds: i32) -> Option<OffsetDateTime>
    ensures value { let shown = local_at at seconds in
        SomeIff result (IsOffset seconds × IsWallClock shown.wall) shown }
{
    let offset = offset_of(seconds)?;
    Some(at.checked_to_offset(offset)?)
}

/// The same in one function.
pub fn at_offset_seconds(at: Timestamp, seconds: i32) -> Option<OffsetDateTime>
    ensures value { let shown = local_at at seconds in
        SomeIff result (IsOffset seconds × IsWallClock shown.wall) shown }
{
    let Ok(offset) = UtcOffset::from_whole_seconds(seconds) else {
        return None;
    };
    Some(at.checked_to_offset(offset)?)
}

/// The date-time at another offset, and back at its own: itself, exactly if clocks at the other
/// offset show a date of the range.
pub fn there_and_back(at: OffsetDateTime, offset: UtcOffset) -> Option<OffsetDateTime>
    ensures { SomeIff result (IsWallClock (shown_at (instant_of at) offset)) at }
{
    at.checked_to_offset(offset)?.checked_to_offset(at.offset())
}

/// The instant at one offset, and then at a second. None where clocks at one of them show no date
/// of the range.
pub fn across(at: Timestamp, first: UtcOffset, second: UtcOffset) -> Option<OffsetDateTime>
    ensures value { let there = local_at at second in
        SomeIff result (IsWallClock (shown_at at first) × IsWallClock there.wall) there }
{
    at.checked_to_offset(first)?.checked_to_offset(second)
}

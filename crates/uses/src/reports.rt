//! Reports by the hour.
ghost use Rattle.std.specs.Prelude.{◌≡◌, ◌+ℤ◌, ◌≤ℤ◌, ◌<ℤ◌, pos, IfSome, SomeIff};
ghost use Rattle.calendar_values.specs.Clock.{nanos_per_hour, minute_of, second_of, nanosecond_of};
ghost use Rattle.calendar_values.specs.Clock as clocks;
ghost use Rattle.calendar_values.specs.WallClock.{wall_day, wall_time, IsWallClock, SomeInRange};
ghost use Rattle.offset_times.specs.Local.{instant_of, local_multiple_below, wall_at};
ghost use Rattle.plain_times.specs.Truncations.{wall_multiple_below};

use calendar_values::SignedDuration;
use offset_times::OffsetDateTime;
use utc_times::UtcDateTime;

/// The hour that an instant is reported under; that of such an hour is the hour itself.
pub fn hour_of(at: UtcDateTime) -> UtcDateTime
    ensures hour { result ≡ wall_multiple_below nanos_per_hour at }
    ensures stays { wall_multiple_below nanos_per_hour result ≡ result }
{
    utc_times::laws::truncations_round_down_once();
    at.truncate_to_hour()
}

/// The hour after the one that an instant is reported under. None past the range.
pub fn next_hour(at: UtcDateTime) -> Option<UtcDateTime>
    ensures value { SomeInRange result
        (wall_multiple_below nanos_per_hour at +ℤ pos nanos_per_hour) }
    ensures whole { IfSome result (λ next. wall_multiple_below nanos_per_hour next ≡ next) }
    ensures later { IfSome result (λ next. at <ℤ next) }
    ensures soon { IfSome result (λ next. next ≤ℤ (at +ℤ pos nanos_per_hour)) }
{
    Some(at.truncate_to_hour().checked_add(SignedDuration::hours(1))?)
}

/// The same by the constant of an hour. None past the range.
pub fn hour_after(at: UtcDateTime) -> Option<UtcDateTime>
    ensures value { SomeInRange result
        (wall_multiple_below nanos_per_hour at +ℤ pos nanos_per_hour) }
    ensures whole { IfSome result (λ next. wall_multiple_below nanos_per_hour next ≡ next) }
    ensures later { IfSome result (λ next. at <ℤ next) }
    ensures soon { IfSome result (λ next. next ≤ℤ (at +ℤ pos nanos_per_hour)) }
{
    at.truncate_to_hour().checked_add(SignedDuration::HOUR)
}

/// The hour that a sale is reported under where it was made: on the same date, in the same hour, at
/// its first nanosecond.
pub fn hour_there(sale: OffsetDateTime) -> OffsetDateTime
    ensures value { result ≡ local_multiple_below nanos_per_hour sale }
    ensures whole { wall_multiple_below nanos_per_hour result.wall ≡ result.wall }
    ensures date { wall_day result.wall ≡ wall_day sale.wall }
    ensures hour { clocks.hour_of (wall_time result.wall) ≡ clocks.hour_of (wall_time sale.wall) }
    ensures minute { minute_of (wall_time result.wall) ≡ 0 }
    ensures second { second_of (wall_time result.wall) ≡ 0 }
    ensures nanosecond { nanosecond_of (wall_time result.wall) ≡ 0 }
    ensures not_after { instant_of result ≤ℤ instant_of sale }
    ensures within { instant_of sale <ℤ (instant_of result +ℤ pos nanos_per_hour) }
{
    sale.truncate_to_hour()
}

/// The hour after that, where the sale was made. None past the range.
pub fn next_hour_there(sale: OffsetDateTime) -> Option<OffsetDateTime>
    ensures value { let wall = sale.wall +ℤ pos nanos_per_hour in
        SomeIff result (IsWallClock wall)
        (wall_at (wall_multiple_below nanos_per_hour wall) sale.offset) }
    ensures whole { IfSome result (λ next.
        wall_multiple_below nanos_per_hour next.wall ≡ next.wall) }
    ensures minute { IfSome result (λ next. minute_of (wall_time next.wall) ≡ 0) }
    ensures later { IfSome result (λ next. instant_of sale <ℤ instant_of next) }
    ensures soon { IfSome result (λ next.
        instant_of next ≤ℤ (instant_of sale +ℤ pos nanos_per_hour)) }
{
    Some(hour_there(sale.checked_add(SignedDuration::hours(1))?))
}

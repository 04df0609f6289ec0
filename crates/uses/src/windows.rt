//! Windows of five minutes, counted from midnight in UTC.
ghost use Rattle.std.specs.Prelude.{◌≡◌, ◌*◌, ◌+ℤ◌, ◌*ℤ◌, ◌≤ℤ◌, ◌<ℤ◌, pos};
ghost use Rattle.std.specs.Int.{int_div_euclid};
ghost use Rattle.calendar_values.specs.Clock.{nanos_per_minute};
ghost use Rattle.calendar_values.specs.WallClock.{unix_seconds_of};
ghost use Rattle.plain_times.specs.Truncations.{wall_multiple_below};

use stamp_times::Timestamp;

const SECONDS: i64 = 300;

/// The Unix second with which the window of an instant begins.
pub fn first_second(at: Timestamp) -> i64
    ensures { result ≡ int_div_euclid (unix_seconds_of at) (pos 300) *ℤ pos 300 }
{
    let second = at.as_seconds();
    second - second.rem_euclid(SECONDS)
}

/// The beginning of the window that holds the instant.
#[tactic(auto, unfolding(plain_times::specs::Truncations::wall_multiple_below))]
pub fn window_of(at: Timestamp) -> Timestamp
    ensures value { result ≡ wall_multiple_below (5 * nanos_per_minute) at }
    ensures not_after { result ≤ℤ at }
    ensures holds { at <ℤ (result +ℤ pos (5 * nanos_per_minute)) }
{
    Timestamp::from_seconds(first_second(at)).unwrap()
}

/// The beginning of the minute in UTC that holds the instant.
pub fn minute_of(at: Timestamp) -> Timestamp
    ensures value { result ≡ wall_multiple_below nanos_per_minute at }
    ensures not_after { result ≤ℤ at }
    ensures holds { at <ℤ (result +ℤ pos nanos_per_minute) }
{
    at.truncate_to_minute()
}

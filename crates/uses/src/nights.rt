//! Rates and rests of the night, which is from 22:00 to 6:00 by the clocks of a place.
#![tactic(auto, using(local_texts::specs::Callers::callers))]

ghost use Rattle.std.specs.Prelude.{◌≡◌, ◌*◌, ◌<◌, ◌≤◌, ◌*ℤ◌, ◌≤ℤ◌, pos};
ghost use Rattle.local_texts.specs.Words.{hour_of, nanos_per_hour, wall_time, whole_minutes_of};

use calendar_values::{SignedDuration, Time};
use offset_times::OffsetDateTime;

/// The price of a call, in cents, by its minutes: 20 a minute, and 10 at night.
pub fn price(at: OffsetDateTime, minutes: u16) -> u32
    ensures day { 6 ≤ hour_of (wall_time at.wall) → hour_of (wall_time at.wall) < 22 →
        result ≡ minutes * 20 }
    ensures early { hour_of (wall_time at.wall) < 6 → result ≡ minutes * 10 }
    ensures late { 22 ≤ hour_of (wall_time at.wall) → result ≡ minutes * 10 }
{
    let hour = at.hour();
    if hour >= 6 && hour < 22 {
        u32::from(minutes) * 20
    } else {
        u32::from(minutes) * 10
    }
}

/// The time to 6:00 of the same day, and zero after 6:00: six hours at most.
pub fn left_of_night(at: OffsetDateTime) -> SignedDuration
    ensures not_negative { pos 0 ≤ℤ result }
    ensures at_most { result ≤ℤ pos (6 * nanos_per_hour) }
{
    let six = at.replace_time(Time::from_hms(6, 0, 0).unwrap());
    if at < six {
        six - at
    } else {
        SignedDuration::ZERO
    }
}

/// The price of a call, in cents, by its whole minutes: 20 a minute, and 10 at night.
pub fn cost(at: OffsetDateTime, call: SignedDuration) -> i128
    ensures day { 6 ≤ hour_of (wall_time at.wall) → hour_of (wall_time at.wall) < 22 →
        result ≡ whole_minutes_of call *ℤ pos 20 }
    ensures early { hour_of (wall_time at.wall) < 6 → result ≡ whole_minutes_of call *ℤ pos 10 }
    ensures late { 22 ≤ hour_of (wall_time at.wall) → result ≡ whole_minutes_of call *ℤ pos 10 }
{
    let minutes = i128::from(call.whole_minutes());
    let hour = at.hour();
    if hour >= 6 && hour < 22 {
        minutes * 20
    } else {
        minutes * 10
    }
}

//! Leases: what may be done some time before an instant, and up to some time after it.
ghost use Rattle.std.specs.Prelude.{◌≡◌, ◌*◌, ◌+ℤ◌, ◌-ℤ◌, ◌≤ℤ◌, pos, IfSome, IsSome, SomeIff, ◌↔◌};
ghost use Rattle.rfc3339.specs.Words.{instant_of, nanos_per_minute, IsWallClock, wall_at};

use calendar_values::SignedDuration;
use offset_times::OffsetDateTime;
use stamp_times::Timestamp;

/// The first and the last instant within the margin. None where one is out of range.
pub fn around(at: Timestamp, margin: SignedDuration) -> Option<(Timestamp, Timestamp)>
    requires { pos 0 ≤ℤ margin }
    ensures value { SomeIff result (IsWallClock (at -ℤ margin) × IsWallClock (at +ℤ margin))
        (at -ℤ margin, at +ℤ margin) }
    ensures begin { IfSome result (λ both. both.0 ≤ℤ at) }
    ensures end { IfSome result (λ both. at ≤ℤ both.1) }
    ensures width { IfSome result (λ both. both.1 -ℤ both.0 ≡ margin +ℤ margin) }
{
    Some((at.checked_sub(margin)?, at.checked_add(margin)?))
}

/// The same at the offset of a date-time, by a number of minutes.
pub fn minutes_around(at: OffsetDateTime, minutes: u32) -> Option<(OffsetDateTime, OffsetDateTime)>
    ensures some { let margin = pos (minutes * nanos_per_minute) in
        IsSome result ↔ (IsWallClock (at.wall -ℤ margin) × IsWallClock (at.wall +ℤ margin)) }
    ensures from { IfSome result (λ both. let margin = pos (minutes * nanos_per_minute) in
        both.0 ≡ wall_at (at.wall -ℤ margin) at.offset) }
    ensures until { IfSome result (λ both. let margin = pos (minutes * nanos_per_minute) in
        both.1 ≡ wall_at (at.wall +ℤ margin) at.offset) }
    ensures begin { IfSome result (λ both. instant_of both.0 ≤ℤ instant_of at) }
    ensures end { IfSome result (λ both. instant_of at ≤ℤ instant_of both.1) }
    ensures width { IfSome result (λ both. instant_of both.1 -ℤ instant_of both.0 ≡
        pos (2 * minutes * nanos_per_minute)) }
{
    let margin = SignedDuration::minutes(i64::from(minutes));
    Some((at.checked_sub(margin)?, at.checked_add(margin)?))
}

/// The instant of a warning: some minutes before the lease expires, at its offset. None before the
/// range.
pub fn warn_at(expires: OffsetDateTime, minutes: u32) -> Option<OffsetDateTime>
    ensures value { let wall = expires.wall -ℤ pos (minutes * nanos_per_minute) in
        SomeIff result (IsWallClock wall) (wall_at wall expires.offset) }
    ensures instant { IfSome result (λ at.
        instant_of at ≡ instant_of expires -ℤ pos (minutes * nanos_per_minute)) }
{
    expires.checked_sub(SignedDuration::minutes(i64::from(minutes)))
}

//! A caller that imports the words of its clauses from one module, and those of std from its
//! Prelude.
ghost use Rattle.std.specs.Prelude.{◌≡◌, ◌+ℤ◌, pos, IfSome, SomeIff};
ghost use Rattle.rfc3339.specs.Words.{instant_of, nanos_per_day, IsWallClock, wall_at};

use calendar_values::SignedDuration;
use offset_times::OffsetDateTime;

/// The same instant a day later. None outside the range.
pub fn a_day_later(at: OffsetDateTime) -> Option<OffsetDateTime>
    ensures value { let wall = at.wall +ℤ pos nanos_per_day in
        SomeIff result (IsWallClock wall) (wall_at wall at.offset) }
    ensures instant { IfSome result (λ later.
        instant_of later ≡ instant_of at +ℤ pos nanos_per_day) }
{
    at.checked_add(SignedDuration::DAY)
}

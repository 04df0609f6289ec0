//! A meeting, at the offset of each who takes part in it.
ghost use Rattle.std.specs.Prelude.{◌≡◌, OkIff, IfErr, codes};
ghost use Rattle.calendar_values.specs.Refusals.{conditional_refusal};
ghost use Rattle.calendar_values.specs.WallClock.{IsWallClock};
ghost use Rattle.offset_times.specs.Local.{instant_of, shown_at, local_at};

use calendar_values::{ComponentRange, UtcOffset};
use offset_times::OffsetDateTime;

/// The meeting at the offset. Refused `offset_seconds`, conditionally, if the date there is out of
/// range: other meetings have a date there.
pub fn shown_to(
    meeting: OffsetDateTime,
    offset: UtcOffset,
) -> Result<OffsetDateTime, ComponentRange>
    ensures value { let i = instant_of meeting in
        OkIff result (IsWallClock (shown_at i offset)) (local_at i offset) }
    ensures refused { IfErr result (λ refusal.
        refusal ≡ conditional_refusal (codes "offset_seconds")) }
{
    match meeting.checked_to_offset(offset) {
        Some(shown) => Ok(shown),
        None => Err(ComponentRange::new("offset_seconds", true)),
    }
}

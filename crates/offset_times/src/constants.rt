//! The constant by its numbers, which the contract has.
ghost use Rattle.std.specs.Prelude.{◌≡◌, pos};
ghost use Rattle.offset_times.specs.Local.{wall_at};

use crate::OffsetDateTime;

/// [`OffsetDateTime::UNIX_EPOCH`].
#[tactic(auto, using(calendar_values::specs::Constants::constants))]
pub fn offset_date_times() -> OffsetDateTime
    ensures { result ≡ wall_at (pos 0) (pos 0) }
{
    OffsetDateTime::UNIX_EPOCH
}

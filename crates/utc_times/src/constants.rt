//! The constants by their numbers, which the contract has.
ghost use Rattle.std.specs.Prelude.{◌≡◌, pos};
ghost use Rattle.calendar_values.specs.WallClock.{first_wall_clock, last_wall_clock};

use crate::UtcDateTime;

/// The constants of [`UtcDateTime`].
#[derive(Clone, Copy)]
pub struct UtcDateTimeConstants {
    pub first: UtcDateTime,
    pub last: UtcDateTime,
    pub epoch: UtcDateTime,
}

/// [`UtcDateTime::MIN`], [`UtcDateTime::MAX`] and [`UtcDateTime::UNIX_EPOCH`].
pub fn utc_date_times() -> UtcDateTimeConstants
    ensures first { result.first ≡ first_wall_clock }
    ensures last { result.last ≡ last_wall_clock }
    ensures epoch { result.epoch ≡ pos 0 }
{
    UtcDateTimeConstants {
        first: UtcDateTime::MIN,
        last: UtcDateTime::MAX,
        epoch: UtcDateTime::UNIX_EPOCH,
    }
}

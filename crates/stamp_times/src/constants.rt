//! The constants by their numbers, which the contract has.
ghost use Rattle.std.specs.Prelude.{◌≡◌, pos};
ghost use Rattle.calendar_values.specs.WallClock.{first_wall_clock, last_wall_clock};

use crate::Timestamp;

/// The constants of [`Timestamp`].
#[derive(Clone, Copy)]
pub struct TimestampConstants {
    pub first: Timestamp,
    pub last: Timestamp,
    pub epoch: Timestamp,
}

/// [`Timestamp::MIN`], [`Timestamp::MAX`] and [`Timestamp::UNIX_EPOCH`].
pub fn timestamps() -> TimestampConstants
    ensures first { result.first ≡ first_wall_clock }
    ensures last { result.last ≡ last_wall_clock }
    ensures epoch { result.epoch ≡ pos 0 }
{
    TimestampConstants {
        first: Timestamp::MIN,
        last: Timestamp::MAX,
        epoch: Timestamp::UNIX_EPOCH,
    }
}

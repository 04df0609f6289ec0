//! The constants by their numbers, which the contract has.
ghost use Rattle.std.specs.Prelude.{◌≡◌, pos};
ghost use Rattle.calendar_values.specs.WallClock.{first_wall_clock, last_wall_clock};

use crate::PlainDateTime;

/// The constants of [`PlainDateTime`].
#[derive(Clone, Copy)]
pub struct PlainDateTimeConstants {
    pub first: PlainDateTime,
    pub last: PlainDateTime,
    pub epoch: PlainDateTime,
}

/// [`PlainDateTime::MIN`], [`PlainDateTime::MAX`] and [`PlainDateTime::UNIX_EPOCH`].
pub fn plain_date_times() -> PlainDateTimeConstants
    ensures first { result.first ≡ first_wall_clock }
    ensures last { result.last ≡ last_wall_clock }
    ensures epoch { result.epoch ≡ pos 0 }
{
    PlainDateTimeConstants {
        first: PlainDateTime::MIN,
        last: PlainDateTime::MAX,
        epoch: PlainDateTime::UNIX_EPOCH,
    }
}

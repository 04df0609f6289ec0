//! The choices for wall clocks that a time zone shows twice or skips.
ghost use Rattle.std.specs.Prelude.{◌≡◌};
ghost use Rattle.muxandu_c.specs.ZoneChoices.{choice_numbered, chosen_of, error_of};

use crate::refused::Refused;
use offset_times::OffsetDateTime;
use zoned_times::{LocalRefusal, LocalTimes};

/// The number of a choice.
pub type MuxanduChoice = u32;

/// A choice for a wall clock that a time zone shows twice, in a fold, or skips, in a gap. A call
/// takes its number.
#[derive(Clone, Copy, Drop)]
pub enum Choice {
    /// The earlier date-time in a fold and the later one in a gap, as RFC 5545 reads a wall clock.
    Compatible = 1,
    /// The earlier date-time, which in a gap is earlier than the wall clock by the length of the
    /// gap.
    Earlier = 2,
    /// The later date-time, which in a gap is later than the wall clock by the length of the gap.
    Later = 3,
    /// The only date-time, or the errors GAP and FOLD.
    Reject = 4,
}

// The choice of a number.
pub(crate) fn read_choice(number: u32) -> Result<Choice, Refused>
    ensures { result ≡ choice_numbered number }
{
    match number {
        1 => Ok(Choice::Compatible),
        2 => Ok(Choice::Earlier),
        3 => Ok(Choice::Later),
        4 => Ok(Choice::Reject),
        _ => Err(Refused::Unit),
    }
}

// The date-time that a choice takes.
pub(crate) fn choose(times: LocalTimes, choice: Choice) -> Result<OffsetDateTime, LocalRefusal>
    ensures { result ≡ chosen_of choice times }
{
    match choice {
        Choice::Compatible => times.compatible(),
        Choice::Earlier => times.earlier(),
        Choice::Later => times.later(),
        Choice::Reject => times.reject(),
    }
}

// The error of a wall clock without a date-time, or with two.
pub(crate) fn refused_as(refusal: LocalRefusal) -> Refused
    ensures { result ≡ error_of refusal }
{
    match refusal {
        LocalRefusal::Gap(_) => Refused::Gap,
        LocalRefusal::Fold => Refused::Fold,
        LocalRefusal::OutOfRange => Refused::Result,
    }
}

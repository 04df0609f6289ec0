//! Times of day.
ghost use Rattle.std.specs.Prelude.{◌≡◌};
ghost use Rattle.muxandu_c.specs.Answers.{status_of};
ghost use Rattle.muxandu_c.specs.Clocks.{time_value};

use crate::refused::{MuxanduStatus, Refused, status_of};
use calendar_values::Time;

#[tactic(auto, using(crate::proofs::ClockLemmas::refused_parts))]
fn read_time(hour: u32, minute: u32, second: u32, nanosecond: u32) -> Result<Time, Refused>
    ensures { result ≡ time_value hour minute second nanosecond }
{
    if hour > 23 {
        return Err(Refused::Hour);
    }
    if minute > 59 {
        return Err(Refused::Minute);
    }
    if second > 59 {
        return Err(Refused::Second);
    }
    Ok(Time::from_hms_nano(hour as u8, minute as u8, second as u8, nanosecond)?)
}

/// Checks that an hour, a minute, a second and a nanosecond make a time of day. Errors, in this
/// order: HOUR, MINUTE, SECOND, NANOSECOND.
#[unsafe(no_mangle)]
pub extern "C" fn muxandu_time_check(
    hour: u32,
    minute: u32,
    second: u32,
    nanosecond: u32,
) -> MuxanduStatus
    ensures status { result ≡ status_of (time_value hour minute second nanosecond) }
{
    status_of(read_time(hour, minute, second, nanosecond))
}

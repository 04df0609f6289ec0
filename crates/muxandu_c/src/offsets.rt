//! Offsets from UTC, as hours, minutes and seconds.
ghost use Rattle.std.specs.Prelude.{◌≡◌};
ghost use Rattle.muxandu_c.specs.Answers.{Answers};
ghost use Rattle.muxandu_c.specs.OffsetParts.{offset_from_parts, offset_to_parts, refused_offset_part};

use crate::parts::read_offset;
use crate::refused::{MuxanduStatus, Refused, answer};
use calendar_values::{ComponentRange, Part, UtcOffset};

/// An offset from UTC as hours, minutes and seconds, all of one sign.
#[repr(C)]
#[derive(Clone, Copy)]
pub struct MuxanduOffset {
    /// The hours, -25 to 25.
    pub hours: i8,
    /// The minutes, -59 to 59.
    pub minutes: i8,
    /// The seconds, -59 to 59.
    pub seconds: i8,
}

// The part of an offset that is refused.
fn refused_offset_part(refusal: ComponentRange) -> Refused
    ensures { result ≡ refused_offset_part refusal }
{
    match refusal.part() {
        Part::Hours => Refused::OffsetHour,
        Part::Minutes => Refused::OffsetMinute,
        _ => Refused::OffsetSeconds,
    }
}

fn offset_from_parts(parts: MuxanduOffset) -> Result<i32, Refused>
    ensures { result ≡ offset_from_parts parts }
{
    match UtcOffset::from_hms(parts.hours, parts.minutes, parts.seconds) {
        Ok(offset) => Ok(offset.whole_seconds()),
        Err(refusal) => Err(refused_offset_part(refusal)),
    }
}

/// The seconds of an offset of hours, minutes and seconds. Smaller parts take the sign of the
/// hours, or of the minutes if the hours are 0. Errors, in this order: OFFSET_HOUR if not -25 to
/// 25, OFFSET_MINUTE if not -59 to 59, OFFSET_SECONDS if the seconds are not -59 to 59.
#[unsafe(no_mangle)]
pub extern "C" fn muxandu_offset_from_parts(parts: MuxanduOffset, out: &mut i32) -> MuxanduStatus
    ensures { Answers result out.old out.new (offset_from_parts parts) }
{
    answer(offset_from_parts(parts), out)
}

fn offset_to_parts(offset_seconds: i32) -> Result<MuxanduOffset, Refused>
    ensures { result ≡ offset_to_parts offset_seconds }
{
    let (hours, minutes, seconds) = read_offset(offset_seconds)?.as_hms();
    Ok(MuxanduOffset {
        hours,
        minutes,
        seconds,
    })
}

/// The hours, the minutes and the seconds of an offset in seconds, all of one sign. Errors:
/// OFFSET_SECONDS.
#[unsafe(no_mangle)]
pub extern "C" fn muxandu_offset_to_parts(
    offset_seconds: i32,
    out: &mut MuxanduOffset,
) -> MuxanduStatus
    ensures { Answers result out.old out.new (offset_to_parts offset_seconds) }
{
    answer(offset_to_parts(offset_seconds), out)
}

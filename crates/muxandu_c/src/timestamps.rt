//! Timestamps: instants by their Unix seconds.
ghost use Rattle.std.specs.Prelude.{◌≡◌};
ghost use Rattle.muxandu_c.specs.Answers.{Answers, status_of};
ghost use Rattle.muxandu_c.specs.Values.{timestamp_value, timestamp_parts, timestamp_compare};
ghost use Rattle.muxandu_c.specs.Values.{timestamp_add, timestamp_saturating_add};
ghost use Rattle.muxandu_c.specs.Values.{timestamp_subtract, timestamp_saturating_subtract};
ghost use Rattle.muxandu_c.specs.Values.{timestamp_difference, timestamp_truncate};
ghost use Rattle.muxandu_c.specs.Values.{timestamp_from_milliseconds, timestamp_to_milliseconds};
ghost use Rattle.muxandu_c.specs.Values.{timestamp_to_microseconds, timestamp_to_nanoseconds};
ghost use Rattle.muxandu_c.specs.Values.{count_if_any, in_64_bits};
ghost use Rattle.stamp_times.specs.Instants.{instant_of_parts, instant_of_milliseconds, instant_of_microseconds};

use crate::parts::{
    checked_difference, checked_sum, duration_of, read_duration, read_timestamp, sign, timestamp_of,
};
use crate::refused::{MuxanduStatus, Refused, answer, status_of};
use crate::rounded_instants::parts_in_unit;
use crate::unit::{MuxanduUnit, read_unit};
use crate::values::{MuxanduDuration, MuxanduTimestamp};
use calendar_values::SignedDuration;
use calendar_values::units::NANOS_PER_SECOND;
use stamp_times::Timestamp;

/// Checks that the parts make a timestamp. Errors, in this order: TIMESTAMP, NANOSECOND.
#[unsafe(no_mangle)]
pub extern "C" fn muxandu_timestamp_check(at: MuxanduTimestamp) -> MuxanduStatus
    ensures status { result ≡ status_of (timestamp_value at) }
{
    status_of(read_timestamp(at))
}

/// The order of two timestamps: -1 if `first` comes first, 0 if both are one instant, 1 if `second`
/// comes first. It compares seconds and nanoseconds together, and takes any parts, also invalid
/// ones, so you can sort with it.
#[unsafe(no_mangle)]
pub extern "C" fn muxandu_timestamp_compare(
    first: MuxanduTimestamp,
    second: MuxanduTimestamp,
) -> i32
    ensures { result ≡ timestamp_compare first second }
{
    sign(nanoseconds(first).cmp(&nanoseconds(second)))
}

fn nanoseconds(at: MuxanduTimestamp) -> i128
    ensures { result ≡ instant_of_parts at.seconds at.nanoseconds }
{
    at.seconds as i128 * NANOS_PER_SECOND as i128 + at.nanoseconds as i128
}

fn timestamp_add(
    at: MuxanduTimestamp,
    duration: MuxanduDuration,
) -> Result<MuxanduTimestamp, Refused>
    ensures { result ≡ timestamp_add at duration }
{
    let at = read_timestamp(at)?;
    Ok(timestamp_of(checked_sum(at, read_duration(duration)?)?))
}

/// The instant plus a duration. Errors, in this order: those of the timestamp, DURATION, RESULT if
/// out of range.
#[unsafe(no_mangle)]
pub extern "C" fn muxandu_timestamp_add(
    at: MuxanduTimestamp,
    duration: MuxanduDuration,
    out: &mut MuxanduTimestamp,
) -> MuxanduStatus
    ensures { Answers result out.old out.new (timestamp_add at duration) }
{
    answer(timestamp_add(at, duration), out)
}

fn timestamp_subtract(
    at: MuxanduTimestamp,
    duration: MuxanduDuration,
) -> Result<MuxanduTimestamp, Refused>
    ensures { result ≡ timestamp_subtract at duration }
{
    let at = read_timestamp(at)?;
    Ok(timestamp_of(checked_difference(at, read_duration(duration)?)?))
}

/// The instant minus a duration. Errors, in this order: those of the timestamp, DURATION, RESULT if
/// out of range.
#[unsafe(no_mangle)]
pub extern "C" fn muxandu_timestamp_subtract(
    at: MuxanduTimestamp,
    duration: MuxanduDuration,
    out: &mut MuxanduTimestamp,
) -> MuxanduStatus
    ensures { Answers result out.old out.new (timestamp_subtract at duration) }
{
    answer(timestamp_subtract(at, duration), out)
}

fn timestamp_saturating_add(
    at: MuxanduTimestamp,
    duration: MuxanduDuration,
) -> Result<MuxanduTimestamp, Refused>
    ensures { result ≡ timestamp_saturating_add at duration }
{
    let at = read_timestamp(at)?;
    Ok(timestamp_of(at.saturating_add(read_duration(duration)?)))
}

/// The instant plus a duration, or the nearer end of the range. Errors, in this order: those of the
/// timestamp, DURATION.
#[unsafe(no_mangle)]
pub extern "C" fn muxandu_timestamp_saturating_add(
    at: MuxanduTimestamp,
    duration: MuxanduDuration,
    out: &mut MuxanduTimestamp,
) -> MuxanduStatus
    ensures { Answers result out.old out.new (timestamp_saturating_add at duration) }
{
    answer(timestamp_saturating_add(at, duration), out)
}

fn timestamp_saturating_subtract(
    at: MuxanduTimestamp,
    duration: MuxanduDuration,
) -> Result<MuxanduTimestamp, Refused>
    ensures { result ≡ timestamp_saturating_subtract at duration }
{
    let at = read_timestamp(at)?;
    Ok(timestamp_of(at.saturating_sub(read_duration(duration)?)))
}

/// The instant minus a duration, or the nearer end of the range. Errors, in this order: those of
/// the timestamp, DURATION.
#[unsafe(no_mangle)]
pub extern "C" fn muxandu_timestamp_saturating_subtract(
    at: MuxanduTimestamp,
    duration: MuxanduDuration,
    out: &mut MuxanduTimestamp,
) -> MuxanduStatus
    ensures { Answers result out.old out.new (timestamp_saturating_subtract at duration) }
{
    answer(timestamp_saturating_subtract(at, duration), out)
}

fn timestamp_difference(
    later: MuxanduTimestamp,
    earlier: MuxanduTimestamp,
) -> Result<MuxanduDuration, Refused>
    ensures { result ≡ timestamp_difference later earlier }
{
    let later = read_timestamp(later)?;
    Ok(duration_of(later - read_timestamp(earlier)?))
}

/// The duration from `earlier` to `later`, negative if `later` comes first. Errors, in this order:
/// those of `later`, those of `earlier`.
#[unsafe(no_mangle)]
pub extern "C" fn muxandu_timestamp_difference(
    later: MuxanduTimestamp,
    earlier: MuxanduTimestamp,
    out: &mut MuxanduDuration,
) -> MuxanduStatus
    ensures { Answers result out.old out.new (timestamp_difference later earlier) }
{
    answer(timestamp_difference(later, earlier), out)
}

fn timestamp_truncate(at: MuxanduTimestamp, unit: u32) -> Result<MuxanduTimestamp, Refused>
    ensures { result ≡ timestamp_truncate at unit }
{
    let at = read_timestamp(at)?;
    Ok(parts_in_unit(at, read_unit(unit)?))
}

/// The instant, rounded down to a unit in UTC, also before 1970. Errors, in this order: those of
/// the timestamp, UNIT.
#[unsafe(no_mangle)]
pub extern "C" fn muxandu_timestamp_truncate(
    at: MuxanduTimestamp,
    unit: MuxanduUnit,
    out: &mut MuxanduTimestamp,
) -> MuxanduStatus
    ensures { Answers result out.old out.new (timestamp_truncate at unit) }
{
    answer(timestamp_truncate(at, unit), out)
}

fn from_milliseconds(milliseconds: i64) -> Result<Timestamp, Refused>
    ensures { result ≡ count_if_any (instant_of_milliseconds milliseconds) }
{
    match Timestamp::from_milliseconds(milliseconds) {
        Ok(at) => Ok(at),
        Err(_) => Err(Refused::Timestamp),
    }
}

pub(crate) fn timestamp_from_milliseconds(milliseconds: i64) -> Result<MuxanduTimestamp, Refused>
    ensures { result ≡ timestamp_from_milliseconds milliseconds }
{
    Ok(timestamp_of(from_milliseconds(milliseconds)?))
}

/// The instant of a number of milliseconds from 1970-01-01 0:00 UTC. Errors: TIMESTAMP if out of
/// range.
#[unsafe(no_mangle)]
pub extern "C" fn muxandu_timestamp_from_milliseconds(
    milliseconds: i64,
    out: &mut MuxanduTimestamp,
) -> MuxanduStatus
    ensures { Answers result out.old out.new (timestamp_from_milliseconds milliseconds) }
{
    answer(timestamp_from_milliseconds(milliseconds), out)
}

pub(crate) fn timestamp_to_milliseconds(at: MuxanduTimestamp) -> Result<i64, Refused>
    ensures { result ≡ timestamp_to_milliseconds at }
{
    Ok(read_timestamp(at)?.as_milliseconds())
}

/// The whole milliseconds from 1970-01-01 0:00 UTC, rounded down. Errors: those of the timestamp.
#[unsafe(no_mangle)]
pub extern "C" fn muxandu_timestamp_to_milliseconds(
    at: MuxanduTimestamp,
    out: &mut i64,
) -> MuxanduStatus
    ensures { Answers result out.old out.new (timestamp_to_milliseconds at) }
{
    answer(timestamp_to_milliseconds(at), out)
}

/// The instant of a number of microseconds from 1970-01-01 0:00 UTC. It is always in range.
#[unsafe(no_mangle)]
pub extern "C" fn muxandu_timestamp_from_microseconds(microseconds: i64) -> MuxanduTimestamp
    ensures { result ≡ timestamp_parts (instant_of_microseconds microseconds) }
{
    timestamp_of(Timestamp::UNIX_EPOCH + SignedDuration::microseconds(microseconds))
}

pub(crate) fn timestamp_to_microseconds(at: MuxanduTimestamp) -> Result<i64, Refused>
    ensures { result ≡ timestamp_to_microseconds at }
{
    in_64_bits(read_timestamp(at)?.as_microseconds())
}

/// The whole microseconds from 1970-01-01 0:00 UTC, rounded down. They fit in 64 bits from
/// -290308-12-21 to 294247-01-10. Errors, in this order: those of the timestamp, RESULT if they do
/// not fit.
#[unsafe(no_mangle)]
pub extern "C" fn muxandu_timestamp_to_microseconds(
    at: MuxanduTimestamp,
    out: &mut i64,
) -> MuxanduStatus
    ensures { Answers result out.old out.new (timestamp_to_microseconds at) }
{
    answer(timestamp_to_microseconds(at), out)
}

/// The instant of a number of nanoseconds from 1970-01-01 0:00 UTC. It is always in range.
#[unsafe(no_mangle)]
pub extern "C" fn muxandu_timestamp_from_nanoseconds(nanoseconds: i64) -> MuxanduTimestamp
    ensures { result ≡ timestamp_parts nanoseconds }
{
    timestamp_of(Timestamp::UNIX_EPOCH + SignedDuration::nanoseconds(nanoseconds))
}

pub(crate) fn timestamp_to_nanoseconds(at: MuxanduTimestamp) -> Result<i64, Refused>
    ensures { result ≡ timestamp_to_nanoseconds at }
{
    in_64_bits(read_timestamp(at)?.as_nanoseconds())
}

/// The nanoseconds from 1970-01-01 0:00 UTC. They fit in 64 bits from 1677-09-21 to 2262-04-11.
/// Errors, in this order: those of the timestamp, RESULT if they do not fit.
#[unsafe(no_mangle)]
pub extern "C" fn muxandu_timestamp_to_nanoseconds(
    at: MuxanduTimestamp,
    out: &mut i64,
) -> MuxanduStatus
    ensures { Answers result out.old out.new (timestamp_to_nanoseconds at) }
{
    answer(timestamp_to_nanoseconds(at), out)
}

// The number in 64 bits, if they hold it.
pub(crate) fn in_64_bits(number: i128) -> Result<i64, Refused>
    ensures { result ≡ in_64_bits number }
{
    if number < i64::MIN as i128 || number > i64::MAX as i128 {
        return Err(Refused::Result);
    }
    Ok(number as i64)
}

//! Values as databases store them: microseconds from 2000 on, digits of a fraction, and date-times
//! that have a text.
ghost use Rattle.std.specs.Prelude.{◌≡◌, ◌<◌, pos};
ghost use Rattle.calendar_values.specs.Range.{is_outside};
ghost use Rattle.muxandu_c.specs.Answers.{Answers, status_of};
ghost use Rattle.muxandu_c.specs.Storage.{nanos_of_digits, date_time_with_text};
ghost use Rattle.muxandu_c.specs.Storage.{timestamp_from_microseconds_2000, timestamp_to_microseconds_2000};
ghost use Rattle.muxandu_c.specs.Storage.{timestamp_truncate_digits};
ghost use Rattle.muxandu_c.specs.Exchange.{date_time_to_rfc3339, offset_has_no_text};

use crate::parts::{read_date_time, read_timestamp, timestamp_of};
use crate::refused::{MuxanduStatus, Refused, answer, status_of};
use crate::timestamps::in_64_bits;
use crate::values::{MuxanduDateTime, MuxanduTimestamp};
use calendar_values::SignedDuration;
use stamp_times::Timestamp;

// The seconds and the microseconds from 1970-01-01 to 2000-01-01.
const SECONDS_TO_2000: i64 = 946_684_800;

const MICROSECONDS_TO_2000: i128 = 946_684_800_000_000;

/// The instant of a number of microseconds from 2000-01-01 0:00 UTC, as a `timestamptz` of
/// PostgreSQL counts them. It is always in range.
#[unsafe(no_mangle)]
pub extern "C" fn muxandu_timestamp_from_microseconds_2000(microseconds: i64) -> MuxanduTimestamp
    ensures { result ≡ timestamp_from_microseconds_2000 microseconds }
{
    let from_1970 = Timestamp::UNIX_EPOCH + SignedDuration::microseconds(microseconds);
    timestamp_of(from_1970 + SignedDuration::seconds(SECONDS_TO_2000))
}

fn timestamp_to_microseconds_2000(at: MuxanduTimestamp) -> Result<i64, Refused>
    ensures { result ≡ timestamp_to_microseconds_2000 at }
{
    in_64_bits(read_timestamp(at)?.as_microseconds() - MICROSECONDS_TO_2000)
}

/// The whole microseconds from 2000-01-01 0:00 UTC, rounded down. They fit in 64 bits from
/// -290278-12-22 to 294277-01-09. Errors, in this order: those of the timestamp, RESULT if they do
/// not fit.
#[unsafe(no_mangle)]
pub extern "C" fn muxandu_timestamp_to_microseconds_2000(
    at: MuxanduTimestamp,
    out: &mut i64,
) -> MuxanduStatus
    ensures { Answers result out.old out.new (timestamp_to_microseconds_2000 at) }
{
    answer(timestamp_to_microseconds_2000(at), out)
}

// The nanoseconds between two fractions of a number of digits.
fn nanos_of_digits(digits: u32) -> u32
    ensures value { result ≡ nanos_of_digits digits }
    ensures some { 0 < result }
{
    match digits {
        0 => 1_000_000_000,
        1 => 100_000_000,
        2 => 10_000_000,
        3 => 1_000_000,
        4 => 100_000,
        5 => 10_000,
        6 => 1_000,
        7 => 100,
        8 => 10,
        _ => 1,
    }
}

fn timestamp_truncate_digits(at: MuxanduTimestamp, digits: u32) -> Result<MuxanduTimestamp, Refused>
    ensures { result ≡ timestamp_truncate_digits at digits }
{
    let at = read_timestamp(at)?;
    let nanosecond = at.nanosecond();
    Ok(MuxanduTimestamp {
        seconds: at.as_seconds(),
        nanoseconds: nanosecond - nanosecond % nanos_of_digits(digits),
    })
}

/// The instant with the first `digits` digits of its fraction: it is rounded down, also before
/// 1970. A number above nine keeps all nine. Errors: those of the timestamp.
#[unsafe(no_mangle)]
pub extern "C" fn muxandu_timestamp_truncate_digits(
    at: MuxanduTimestamp,
    digits: u32,
    out: &mut MuxanduTimestamp,
) -> MuxanduStatus
    ensures { Answers result out.old out.new (timestamp_truncate_digits at digits) }
{
    answer(timestamp_truncate_digits(at, digits), out)
}

// Whether a year has not four digits.
#[inline(always)]
fn year_has_no_text(year: i32) -> bool
    ensures { result ≡ is_outside (pos 0) (pos 9_999) year }
{
    year < 0 || year > 9_999
}

// Whether an offset has seconds, or is of a day or more.
#[inline(always)]
fn offset_has_no_text(offset_seconds: i32) -> bool
    ensures { result ≡ offset_has_no_text offset_seconds }
{
    let seconds = offset_seconds.unsigned_abs();
    seconds % 60 != 0 || seconds > 86_399
}

fn date_time_with_text(date_time: MuxanduDateTime) -> Result<MuxanduDateTime, Refused>
    ensures { result ≡ date_time_with_text date_time }
{
    let at = read_date_time(date_time)?;
    if year_has_no_text(at.year()) | offset_has_no_text(at.offset().whole_seconds()) {
        return Err(Refused::NoText);
    }
    Ok(date_time)
}

#[tactic(auto, using(crate::proofs::StorageLemmas::texts))]
fn text_status(date_time: MuxanduDateTime) -> MuxanduStatus
    ensures status { result ≡ status_of (date_time_with_text date_time) }
    ensures text { result ≡ status_of (date_time_to_rfc3339 date_time) }
{
    status_of(date_time_with_text(date_time))
}

/// Checks that the date-time has a text of RFC 3339, as muxandu_date_time_to_rfc3339 writes it.
/// Errors, in this order: those of the date-time, NO_TEXT.
#[unsafe(no_mangle)]
pub extern "C" fn muxandu_date_time_check_rfc3339(date_time: MuxanduDateTime) -> MuxanduStatus
    ensures status { result ≡ status_of (date_time_with_text date_time) }
    ensures text { result ≡ status_of (date_time_to_rfc3339 date_time) }
{
    text_status(date_time)
}

//! Texts without an offset.
ghost use Rattle.std.specs.Prelude.{◌≡◌, ◌≤◌, ◌⊎◌, ◌++◌, ◌==◌, ℕ, List, length, take, Ok, Err};
ghost use Rattle.calendar_values.specs.Offsets.{offset_of_seconds};
ghost use Rattle.local_texts.specs.LocalForms.{IsLocalDateTime, IsLocalTime};
ghost use Rattle.rfc3339.specs.Form.{IsDateTime};
ghost use Rattle.rfc3339.specs.declared.parts.Parts.{Parts};
ghost use Rattle.muxandu_c.specs.Answers.{status_of, status_number, value_or, and_then, as_refused};
ghost use Rattle.muxandu_c.specs.Exchange.{date_time_spelled};
ghost use Rattle.muxandu_c.specs.LocalTexts.{plain_read, plain_at, local_read, at_offset, time_of};
ghost use Rattle.muxandu_c.specs.LocalTexts.{time_read, time_spelled};
ghost use Rattle.muxandu_c.specs.TextBatches.{date_time_read};
ghost use Rattle.muxandu_c.specs.declared.refused.Refused.TheVariants as refused;

use crate::parts::checked_offset;
use crate::refused::{MuxanduStatus, Refused, answer, status};
use crate::text_batches::date_time_of_text;
use crate::values::MuxanduDateTime;
use local_texts::{
    UTC_ROOM, date_time_fault, time_fault, write_date_time_in_utc, write_time_in_utc,
};

/// A time of day.
#[repr(C)]
#[derive(Clone, Copy)]
pub struct MuxanduTime {
    /// The hour, 0 to 23.
    pub hour: u8,
    /// The minute, 0 to 59.
    pub minute: u8,
    /// The second, 0 to 59: there are no leap seconds.
    pub second: u8,
    /// The nanosecond of the second, 0 to 999999999.
    pub nanosecond: u32,
}

// The date-time of a text without an offset, at the offset 0.
pub(crate) fn date_time_from_plain(text: &[u8]) -> Result<MuxanduDateTime, Refused>
    ensures reading { result ≡ plain_read text.now }
    ensures spelled { (p : Parts) → IsLocalDateTime text.now p → result ≡ date_time_spelled p }
    ensures syntax { ((p : Parts) × IsLocalDateTime text.now p) ⊎ (result ≡ Err refused.Syntax) }
{
    read_plain(text)
}

// The same by the text in UTC.
fn read_plain(text: &[u8]) -> Result<MuxanduDateTime, Refused>
    ensures { result ≡ plain_read text.now }
{
    let mut room = [0; UTC_ROOM];
    match write_date_time_in_utc(text, &mut room) {
        Some(length) => date_time_of_text(&room[..length]),
        None => Err(Refused::Syntax),
    }
}

/// The date and the time of day in an RFC 3339 text without an offset, with nothing before or after
/// it, such as `2024-02-29T12:34:56.5`. The call sets `offset_seconds` to 0, and reads all else as
/// muxandu_date_time_from_rfc3339 does. Errors: SYNTAX if the text has another form, else that of
/// the first part out of range: MONTH, DAY or DAY_OF_MONTH, HOUR, MINUTE, SECOND.
#[unsafe(no_mangle)]
pub extern "C" fn muxandu_date_time_from_plain(
    text: &[u8],
    out: &mut MuxanduDateTime,
) -> MuxanduStatus
    ensures status { (p : Parts) → IsLocalDateTime text.now p →
        result ≡ status_of (date_time_spelled p) }
    ensures written { (p : Parts) → IsLocalDateTime text.now p →
        out.new ≡ value_or (date_time_spelled p) out.old }
    ensures syntax { ((p : Parts) × IsLocalDateTime text.now p)
        ⊎ ((result ≡ status_number refused.Syntax) × (out.new ≡ out.old)) }
{
    answer(date_time_from_plain(text), out)
}

// The date-time of a text with an offset, or of one without it at this offset.
pub(crate) fn date_time_from_local(
    text: &[u8],
    offset_seconds: i32,
) -> Result<MuxanduDateTime, Refused>
    ensures { result ≡ local_read offset_seconds text.now }
{
    let offset_seconds = checked_offset(offset_seconds)?;
    match date_time_of_text(text) {
        Ok(date_time) => Ok(date_time),
        Err(refused) => {
            if is_syntax(refused) {
                plain_at(text, offset_seconds)
            } else {
                Err(refused)
            }
        }
    }
}

// Whether the error is one of syntax.
fn is_syntax(refusal: Refused) -> bool
    ensures { result ≡ (status_number refusal == status_number refused.Syntax) }
{
    status(refusal) == status(Refused::Syntax)
}

// The date-time of a text without an offset, at this one.
fn plain_at(text: &[u8], offset_seconds: i32) -> Result<MuxanduDateTime, Refused>
    ensures { result ≡ plain_at offset_seconds text.now }
{
    Ok(at_offset(read_plain(text)?, offset_seconds))
}

// The same clocks at another offset.
#[inline(always)]
fn at_offset(date_time: MuxanduDateTime, offset_seconds: i32) -> MuxanduDateTime
    ensures { result ≡ at_offset offset_seconds date_time }
{
    MuxanduDateTime {
        offset_seconds,
        ..date_time
    }
}

/// The date-time in an RFC 3339 text with or without an offset. The call reads a text with an
/// offset as muxandu_date_time_from_rfc3339 does. It reads a text without an offset as
/// muxandu_date_time_from_plain does, and sets its offset to `offset_seconds`. Errors:
/// OFFSET_SECONDS, SYNTAX if the text has another form, else that of the first part out of range:
/// MONTH, DAY or DAY_OF_MONTH, HOUR, MINUTE, SECOND, OFFSET_HOUR, OFFSET_MINUTE.
#[unsafe(no_mangle)]
pub extern "C" fn muxandu_date_time_from_local(
    text: &[u8],
    offset_seconds: i32,
    out: &mut MuxanduDateTime,
) -> MuxanduStatus
    ensures status { result ≡ status_of (local_read offset_seconds text.now) }
    ensures written { out.new ≡ value_or (local_read offset_seconds text.now) out.old }
    // A text with an offset keeps it, and one without has the offset of the caller.
    ensures own { (p : Parts) → IsDateTime text.now p → local_read offset_seconds text.now ≡
        and_then (as_refused (offset_of_seconds offset_seconds)) (λ o. date_time_spelled p) }
    ensures plain { (p : Parts) → IsLocalDateTime text.now p → local_read offset_seconds text.now ≡
        and_then (as_refused (offset_of_seconds offset_seconds))
        (λ o. and_then (date_time_spelled p) (λ v. Ok (at_offset o v))) }
{
    answer(date_time_from_local(text, offset_seconds), out)
}

// The time of day of a text.
fn time_from_rfc3339(text: &[u8]) -> Result<MuxanduTime, Refused>
    ensures spelled { (p : Parts) → IsLocalTime text.now p → result ≡ time_spelled p }
    ensures syntax { ((p : Parts) × IsLocalTime text.now p) ⊎ (result ≡ Err refused.Syntax) }
{
    read_time(text)
}

// The same by the text in UTC.
fn read_time(text: &[u8]) -> Result<MuxanduTime, Refused>
    ensures { result ≡ time_read text.now }
{
    let mut room = [0; UTC_ROOM];
    match write_time_in_utc(text, &mut room) {
        Some(length) => time_of_text(&room[..length]),
        None => Err(Refused::Syntax),
    }
}

// The time of day of a text with a date and an offset.
fn time_of_text(text: &[u8]) -> Result<MuxanduTime, Refused>
    ensures { result ≡ and_then (date_time_read text.now) (λ v. Ok (time_of v)) }
{
    Ok(time_of(date_time_of_text(text)?))
}

// The time of day of a date-time.
#[inline(always)]
fn time_of(date_time: MuxanduDateTime) -> MuxanduTime
    ensures { result ≡ time_of date_time }
{
    MuxanduTime {
        hour: date_time.hour,
        minute: date_time.minute,
        second: date_time.second,
        nanosecond: date_time.nanosecond,
    }
}

/// The time of day in an RFC 3339 text such as `12:34:56.5`, with nothing before or after it. The
/// call drops digits past the ninth of the fraction. Errors: SYNTAX if the text has another form,
/// else HOUR, MINUTE or SECOND for the first part out of range.
#[unsafe(no_mangle)]
pub extern "C" fn muxandu_time_from_rfc3339(text: &[u8], out: &mut MuxanduTime) -> MuxanduStatus
    ensures status { (p : Parts) → IsLocalTime text.now p → result ≡ status_of (time_spelled p) }
    ensures written { (p : Parts) → IsLocalTime text.now p →
        out.new ≡ value_or (time_spelled p) out.old }
    ensures syntax { ((p : Parts) × IsLocalTime text.now p)
        ⊎ ((result ≡ status_number refused.Syntax) × (out.new ≡ out.old)) }
{
    answer(time_from_rfc3339(text), out)
}

/// The index of the fault in a text that muxandu_date_time_from_plain rejects with SYNTAX: 19 for
/// `1985-04-12T23:20:50Z`. No date-time without an offset continues with the byte at that index; or
/// the text ends there, too early. For a text that has the form it is the length of the text.
#[unsafe(no_mangle)]
pub extern "C" fn muxandu_plain_fault(text: &[u8]) -> usize
    ensures at_most { result ≤ length text.now }
    // Some text of the form begins with the bytes before that place,
    ensures begins { (rest : List ℕ) × (p : Parts) ×
        IsLocalDateTime (take result text.now ++ rest) p }
    // and none with more of them.
    ensures longest { (n : ℕ) (rest : List ℕ) (p : Parts) → n ≤ length text.now
        → IsLocalDateTime (take n text.now ++ rest) p → n ≤ result }
{
    date_time_fault(text)
}

/// The index of the fault in a text that muxandu_time_from_rfc3339 rejects with SYNTAX, as
/// muxandu_plain_fault returns it: 5 for `23:20Z`.
#[unsafe(no_mangle)]
pub extern "C" fn muxandu_time_fault(text: &[u8]) -> usize
    ensures at_most { result ≤ length text.now }
    ensures begins { (rest : List ℕ) × (p : Parts) ×
        IsLocalTime (take result text.now ++ rest) p }
    ensures longest { (n : ℕ) (rest : List ℕ) (p : Parts) → n ≤ length text.now
        → IsLocalTime (take n text.now ++ rest) p → n ≤ result }
{
    time_fault(text)
}

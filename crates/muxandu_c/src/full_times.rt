//! Times of day with an offset, and offsets alone, as texts of RFC 3339.
ghost use Rattle.std.specs.Prelude.{◌≡◌, ◌<◌, ◌≤◌, ◌⊎◌, ◌++◌, ℕ, Bool, Err, List, length, take};
ghost use Rattle.local_texts.specs.LocalForms.{IsFullTime};
ghost use Rattle.rfc3339.specs.Form.{IsOffsetText};
ghost use Rattle.rfc3339.specs.declared.parts.Parts.{Parts};
ghost use Rattle.muxandu_c.specs.Answers.{Answers, status_of, value_or, refused_text};
ghost use Rattle.muxandu_c.specs.FrontTexts.{first_of, second_of};
ghost use Rattle.muxandu_c.specs.FullTimes.{full_time_read, full_time_spelled, time_parts};
ghost use Rattle.muxandu_c.specs.FullTimes.{offset_read, offset_spelled};
ghost use Rattle.muxandu_c.specs.declared.refused.Refused.TheVariants as refused;

use crate::exchange::refused_text;
use crate::local_date_times::MuxanduTime;
use crate::refused::{MuxanduStatus, Refused, answer, status};
use calendar_values::Time;
use local_texts::{parse_time_with_offset, time_with_offset_fault};
use rfc3339::{TextRefusal, parse_rfc3339_offset};

// A refusal of a text whose day is the first of a month.
fn refused_part(refusal: TextRefusal) -> Refused
    ensures { result ≡ refused_text 1 refusal }
{
    refused_text(refusal, b"1970-01-01")
}

fn full_time_from_rfc3339(text: &[u8]) -> Result<(MuxanduTime, i32), Refused>
    ensures { result ≡ full_time_read text.now }
{
    match parse_time_with_offset(text) {
        Ok((time, offset)) => Ok((time_parts(time), offset.whole_seconds())),
        Err(refusal) => Err(refused_part(refusal)),
    }
}

// The parts of a time of day.
fn time_parts(time: Time) -> MuxanduTime
    ensures { result ≡ time_parts time }
{
    MuxanduTime {
        hour: time.hour(),
        minute: time.minute(),
        second: time.second(),
        nanosecond: time.nanosecond(),
    }
}

/// The time of day and the offset in an RFC 3339 text such as `12:34:56.5+01:00`, with nothing
/// before or after them. The call drops digits past the ninth of the fraction. Errors: SYNTAX if
/// the text has another form, else HOUR, MINUTE, SECOND, OFFSET_HOUR or OFFSET_MINUTE for the first
/// part out of range.
#[unsafe(no_mangle)]
pub extern "C" fn muxandu_full_time_from_rfc3339(
    text: &[u8],
    out: &mut MuxanduTime,
    offset_seconds: &mut i32,
) -> MuxanduStatus
    ensures status { result ≡ status_of (full_time_read text.now) }
    ensures written { out.new ≡ value_or (first_of (full_time_read text.now)) out.old }
    ensures offset { offset_seconds.new ≡
        value_or (second_of (full_time_read text.now)) offset_seconds.old }
    // What is read is what the form of the text spells.
    ensures spelled { (p : Parts) → IsFullTime text.now p →
        full_time_read text.now ≡ full_time_spelled p }
    ensures syntax { ((p : Parts) × IsFullTime text.now p)
        ⊎ (full_time_read text.now ≡ Err refused.Syntax) }
{
    match full_time_from_rfc3339(text) {
        Ok((time, offset)) => {
            *out = time;
            *offset_seconds = offset;
            0
        }
        Err(refused) => status(refused),
    }
}

/// The index of the fault in a text that muxandu_full_time_from_rfc3339 rejects with SYNTAX, as
/// muxandu_plain_fault returns it: 10 for `23:20:50+1:00`.
#[unsafe(no_mangle)]
pub extern "C" fn muxandu_full_time_fault(text: &[u8]) -> usize
    ensures at_most { result ≤ length text.now }
    // Some text of the form begins with the bytes before that place,
    ensures begins { (rest : List ℕ) × (p : Parts) ×
        IsFullTime (take result text.now ++ rest) p }
    // and none with more of them.
    ensures longest { (n : ℕ) (rest : List ℕ) (p : Parts) → n ≤ length text.now
        → IsFullTime (take n text.now ++ rest) p → n ≤ result }
{
    time_with_offset_fault(text)
}

fn offset_from_rfc3339(text: &[u8]) -> Result<i32, Refused>
    ensures { result ≡ offset_read text.now }
{
    match parse_rfc3339_offset(text) {
        Ok(offset) => Ok(offset.whole_seconds()),
        Err(refusal) => Err(refused_part(refusal)),
    }
}

/// The seconds of the offset in an RFC 3339 text such as `+05:30` or `Z`, with nothing before or
/// after it. Errors: SYNTAX if the text has another form, else OFFSET_HOUR or OFFSET_MINUTE for the
/// first part out of range.
#[unsafe(no_mangle)]
pub extern "C" fn muxandu_offset_from_rfc3339(text: &[u8], out: &mut i32) -> MuxanduStatus
    ensures read { Answers result out.old out.new (offset_read text.now) }
    ensures spelled { (is_west : Bool) (hour minute : ℕ)
        → IsOffsetText text.now is_west hour minute → hour < 100 → minute < 100
        → offset_read text.now ≡ offset_spelled is_west hour minute }
{
    answer(offset_from_rfc3339(text), out)
}

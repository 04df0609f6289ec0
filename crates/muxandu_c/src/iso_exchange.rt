//! Texts of ISO 8601 for every year and every offset, written and read.
ghost use Rattle.std.specs.Prelude.{◌≡◌, ◌≤◌, ◌⊎◌, ◌++◌, ℕ, List, length, take, Err, IfOk};
ghost use Rattle.iso_texts.specs.IsoForms.{IsIsoDateTime};
ghost use Rattle.iso_texts.specs.declared.parts.IsoParts.{IsoParts};
ghost use Rattle.rfc3339.specs.declared.refusal.TextRefusal.TheVariants.{Syntax};
ghost use Rattle.muxandu_c.specs.Answers.{status_of, status_number, value_or, refused_day, refused_text};
ghost use Rattle.muxandu_c.specs.Answers.{written_over, text_if_room, length_of_answer};
ghost use Rattle.muxandu_c.specs.IsoExchange.{date_time_to_iso, iso_spelled};
ghost use Rattle.muxandu_c.specs.declared.refused.Refused.TheVariants as refused;

use crate::parts::{date_time_of, read_date_time};
use crate::refused::{MuxanduStatus, Refused, answer};
use crate::texts::put_text;
use crate::values::MuxanduDateTime;
use calendar_values::Text;
use iso_texts::{
    date_time_from_iso as read_iso, date_time_to_iso as iso_text, iso_fault, iso_parts,
};
use rfc3339::{Component, TextRefusal};

fn date_time_to_iso(date_time: MuxanduDateTime) -> Result<Text, Refused>
    ensures value { result ≡ date_time_to_iso date_time }
    ensures room { IfOk result (λ text. length text ≤ 41) }
{
    Ok(iso_text(read_date_time(date_time)?))
}

/// Writes the ISO 8601 text of a date-time, in at most 41 bytes, as muxandu_date_time_text does.
/// Every date-time has one. It is the text of muxandu_date_time_to_rfc3339 if there is one. Else
/// the year has a sign and six digits, such as `-004712-11-24T12:00:00Z`, or the offset has
/// seconds, such as `+01:19:32`. muxandu_date_time_from_iso reads it back. Errors, in this order:
/// those of the date-time, BUFFER.
#[unsafe(no_mangle)]
pub extern "C" fn muxandu_date_time_to_iso(
    date_time: MuxanduDateTime,
    buffer: &mut [u8],
    size: &mut usize,
) -> MuxanduStatus
    ensures status { result ≡ status_of (text_if_room (date_time_to_iso date_time) buffer.old) }
    ensures written { buffer.new ≡
        written_over (text_if_room (date_time_to_iso date_time) buffer.old) buffer.old }
    ensures size { size.new ≡ value_or (length_of_answer (date_time_to_iso date_time)) size.old }
    ensures room { IfOk (date_time_to_iso date_time) (λ text. length text ≤ 41) }
{
    put_text(date_time_to_iso(date_time), buffer, size)
}

// A refusal of a text, as a caller sees it.
fn refused_iso(refusal: TextRefusal, text: &[u8]) -> Refused
    ensures spelled { (p : IsoParts) → IsIsoDateTime text.now p →
        result ≡ refused_text p.day refusal }
    ensures syntax { refusal ≡ Syntax → result ≡ refused.Syntax }
{
    match refusal {
        TextRefusal::Syntax => Refused::Syntax,
        TextRefusal::OutOfRange(Component::Month) => Refused::Month,
        TextRefusal::OutOfRange(Component::Day) => refused_iso_day(text),
        TextRefusal::OutOfRange(Component::Hour) => Refused::Hour,
        TextRefusal::OutOfRange(Component::Minute) => Refused::Minute,
        TextRefusal::OutOfRange(Component::Second) => Refused::Second,
        TextRefusal::OutOfRange(Component::OffsetHour) => Refused::OffsetHour,
        TextRefusal::OutOfRange(Component::OffsetMinute) => Refused::OffsetMinute,
    }
}

// Why the day of a text is refused: it is none of any month, or none of its month.
fn refused_iso_day(text: &[u8]) -> Refused
    ensures { (p : IsoParts) → IsIsoDateTime text.now p → result ≡ refused_day p.day }
{
    match iso_parts(text) {
        Some(parts) => refused_number(parts.day),
        None => Refused::Day,
    }
}

// The same of the number of the day.
fn refused_number(day: u8) -> Refused
    ensures { result ≡ refused_day day }
{
    if day == 0 || day > 31 {
        Refused::Day
    } else {
        Refused::DayOfMonth
    }
}

fn date_time_from_iso(text: &[u8]) -> Result<MuxanduDateTime, Refused>
    ensures spelled { (p : IsoParts) → IsIsoDateTime text.now p → result ≡ iso_spelled p }
    ensures syntax { ((p : IsoParts) × IsIsoDateTime text.now p) ⊎ (result ≡ Err refused.Syntax) }
{
    match read_iso(text) {
        Ok(at) => Ok(date_time_of(at)),
        Err(refusal) => Err(refused_iso(refusal, text)),
    }
}

/// The date-time and the offset in an ISO 8601 text, with nothing before or after it: one that
/// muxandu_date_time_from_rfc3339 reads, or with a sign and six digits of the year, such as
/// `-004712-11-24T12:00:00Z`. The offset has at most 25 hours, and seconds can follow its minutes,
/// 00 to 59, as in `+01:19:32`. `-000000` is the year 0. Errors: SYNTAX if the text has another
/// form, else that of the first part out of range: MONTH, DAY or DAY_OF_MONTH, HOUR, MINUTE,
/// SECOND, OFFSET_HOUR, OFFSET_MINUTE.
#[unsafe(no_mangle)]
pub extern "C" fn muxandu_date_time_from_iso(
    text: &[u8],
    out: &mut MuxanduDateTime,
) -> MuxanduStatus
    ensures status { (p : IsoParts) → IsIsoDateTime text.now p →
        result ≡ status_of (iso_spelled p) }
    ensures written { (p : IsoParts) → IsIsoDateTime text.now p →
        out.new ≡ value_or (iso_spelled p) out.old }
    ensures syntax { ((p : IsoParts) × IsIsoDateTime text.now p)
        ⊎ ((result ≡ status_number refused.Syntax) × (out.new ≡ out.old)) }
{
    answer(date_time_from_iso(text), out)
}

/// The index of the fault in a text that muxandu_date_time_from_iso rejects with SYNTAX: 7 for
/// `-004712`. No date-time of the form continues with the byte at that index; or the text ends
/// there, too early. For a text that has the form it is the length of the text.
#[unsafe(no_mangle)]
pub extern "C" fn muxandu_iso_fault(text: &[u8]) -> usize
    ensures at_most { result ≤ length text.now }
    // Some text of the form begins with the bytes before that place,
    ensures begins { (rest : List ℕ) × (p : IsoParts) ×
        IsIsoDateTime (take result text.now ++ rest) p }
    // and none with more of them.
    ensures longest { (n : ℕ) (rest : List ℕ) (p : IsoParts) → n ≤ length text.now
        → IsIsoDateTime (take n text.now ++ rest) p → n ≤ result }
{
    iso_fault(text)
}

//! Days as texts of RFC 3339, written and read.
ghost use Rattle.std.specs.Prelude.{◌≡◌, ◌⊎◌, ℕ, length, Err, IfOk};
ghost use Rattle.rfc3339.specs.FullDates.{IsFullDate};
ghost use Rattle.muxandu_c.specs.Answers.{status_of, status_number, value_or};
ghost use Rattle.muxandu_c.specs.Answers.{written_over, text_if_room, length_of_answer};
ghost use Rattle.muxandu_c.specs.DateTexts.{full_date_of, date_to_rfc3339, date_spelled};
ghost use Rattle.muxandu_c.specs.declared.refused.Refused.TheVariants as refused;

use crate::exchange::refused_text;
use crate::parts::{date_parts_of, read_date};
use crate::refused::{MuxanduStatus, Refused, answer};
use crate::texts::put_text;
use crate::values::MuxanduDate;
use calendar_values::{Date, Text};

fn full_date_of(date: Date) -> Result<Text, Refused>
    ensures value { result ≡ full_date_of date }
    ensures room { IfOk result (λ text. length text ≡ 10) }
{
    match rfc3339::date_to_rfc3339(date) {
        Some(text) => Ok(text),
        None => Err(Refused::NoText),
    }
}

fn date_to_rfc3339(date: MuxanduDate) -> Result<Text, Refused>
    ensures value { result ≡ date_to_rfc3339 date }
    ensures room { IfOk result (λ text. length text ≡ 10) }
{
    full_date_of(read_date(date.year, date.month, date.day)?)
}

/// Writes the RFC 3339 text of a date, such as `1985-04-12`, in 10 bytes, as muxandu_date_time_text
/// does. Errors, in this order: those of the date, NO_TEXT, BUFFER.
#[unsafe(no_mangle)]
pub extern "C" fn muxandu_date_to_rfc3339(
    date: MuxanduDate,
    buffer: &mut [u8],
    size: &mut usize,
) -> MuxanduStatus
    ensures status { result ≡ status_of (text_if_room (date_to_rfc3339 date) buffer.old) }
    ensures written { buffer.new ≡
        written_over (text_if_room (date_to_rfc3339 date) buffer.old) buffer.old }
    ensures size { size.new ≡ value_or (length_of_answer (date_to_rfc3339 date)) size.old }
    ensures room { IfOk (date_to_rfc3339 date) (λ text. length text ≡ 10) }
{
    put_text(date_to_rfc3339(date), buffer, size)
}

fn date_from_rfc3339(text: &[u8]) -> Result<MuxanduDate, Refused>
    ensures spelled { (year month day : ℕ) → IsFullDate text.now year month day →
        result ≡ date_spelled year month day }
    ensures syntax { ((year : ℕ) × (month : ℕ) × (day : ℕ) × IsFullDate text.now year month day)
        ⊎ (result ≡ Err refused.Syntax) }
{
    match rfc3339::date_from_rfc3339(text) {
        Ok(date) => Ok(date_parts_of(date)),
        Err(refusal) => Err(refused_text(refusal, text)),
    }
}

/// The date in an RFC 3339 text such as `1985-04-12`, with nothing before or after it. Errors:
/// SYNTAX if the text has another form, else MONTH, DAY or DAY_OF_MONTH for the first part out of
/// range.
#[unsafe(no_mangle)]
pub extern "C" fn muxandu_date_from_rfc3339(text: &[u8], out: &mut MuxanduDate) -> MuxanduStatus
    ensures status { (year month day : ℕ) → IsFullDate text.now year month day →
        result ≡ status_of (date_spelled year month day) }
    ensures written { (year month day : ℕ) → IsFullDate text.now year month day →
        out.new ≡ value_or (date_spelled year month day) out.old }
    ensures syntax { ((year : ℕ) × (month : ℕ) × (day : ℕ) × IsFullDate text.now year month day)
        ⊎ ((result ≡ status_number refused.Syntax) × (out.new ≡ out.old)) }
{
    answer(date_from_rfc3339(text), out)
}

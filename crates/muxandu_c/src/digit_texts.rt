//! Texts of RFC 3339 with a number of digits.
ghost use Rattle.std.specs.Prelude.{◌≡◌, ◌≤◌, length, IfOk};
ghost use Rattle.muxandu_c.specs.Answers.{status_of, value_or};
ghost use Rattle.muxandu_c.specs.Answers.{written_over, text_if_room, length_of_answer};
ghost use Rattle.muxandu_c.specs.DigitTexts.{rfc3339_of_digits, date_time_to_rfc3339_digits};

use crate::parts::read_date_time;
use crate::refused::{MuxanduStatus, Refused};
use crate::texts::put_text;
use crate::values::MuxanduDateTime;
use calendar_values::Text;
use offset_times::OffsetDateTime;
use rfc3339::to_rfc3339_digits;

// The text with a number of digits, and with nine for a greater number.
#[tactic(auto, using(crate::proofs::DigitTextLemmas::more_digits))]
fn rfc3339_of_digits(at: OffsetDateTime, digits: u32) -> Result<Text, Refused>
    ensures value { result ≡ rfc3339_of_digits digits at }
    ensures room { IfOk result (λ text. length text ≤ 35) }
{
    if digits > 9 {
        return rfc3339_of_few_digits(at, 9);
    }
    rfc3339_of_few_digits(at, digits as u8)
}

fn rfc3339_of_few_digits(at: OffsetDateTime, digits: u8) -> Result<Text, Refused>
    ensures value { result ≡ rfc3339_of_digits digits at }
    ensures room { IfOk result (λ text. length text ≤ 35) }
{
    match to_rfc3339_digits(at, digits) {
        Some(text) => Ok(text),
        None => Err(Refused::NoText),
    }
}

fn date_time_to_rfc3339_digits(date_time: MuxanduDateTime, digits: u32) -> Result<Text, Refused>
    ensures value { result ≡ date_time_to_rfc3339_digits digits date_time }
    ensures room { IfOk result (λ text. length text ≤ 35) }
{
    rfc3339_of_digits(read_date_time(date_time)?, digits)
}

/// Writes the RFC 3339 text of a date-time with `digits` digits of the fraction, in at most 35
/// bytes, as muxandu_date_time_text does. With three it is `1985-04-12T23:20:50.520Z`. The call
/// cuts further digits off, and takes a number above nine as nine. Errors, in this order: those of
/// the date-time, NO_TEXT, BUFFER.
#[unsafe(no_mangle)]
pub extern "C" fn muxandu_date_time_to_rfc3339_digits(
    date_time: MuxanduDateTime,
    digits: u32,
    buffer: &mut [u8],
    size: &mut usize,
) -> MuxanduStatus
    ensures status { result ≡
        status_of (text_if_room (date_time_to_rfc3339_digits digits date_time) buffer.old) }
    ensures written { buffer.new ≡ written_over
        (text_if_room (date_time_to_rfc3339_digits digits date_time) buffer.old) buffer.old }
    ensures size { size.new ≡
        value_or (length_of_answer (date_time_to_rfc3339_digits digits date_time)) size.old }
    ensures room { IfOk (date_time_to_rfc3339_digits digits date_time) (λ text. length text ≤ 35) }
{
    put_text(date_time_to_rfc3339_digits(date_time, digits), buffer, size)
}

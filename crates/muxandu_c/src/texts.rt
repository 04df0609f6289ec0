//! The texts of the library, into a buffer of the caller's.
ghost use Rattle.std.specs.Prelude.{◌≡◌, ◌≤◌, length, IfOk};
ghost use Rattle.muxandu_c.specs.Answers.{status_of, value_or, written_over, bytes_if_room, text_if_room, length_of_answer};
ghost use Rattle.muxandu_c.specs.Values.{date_time_text, timestamp_text_of};

use crate::parts::{read_date_time, read_timestamp};
use crate::refused::{MuxanduStatus, Refused, status};
use crate::values::{MuxanduDateTime, MuxanduTimestamp};
use calendar_values::Text;

// Puts a text at the front of the buffer, if it has room, and its length into `size`.
#[inline(always)]
pub(crate) fn put_text(answer: Result<Text, Refused>, buffer: &mut [u8], size: &mut usize) -> u32
    ensures status { result ≡ status_of (text_if_room answer buffer.old) }
    ensures written { buffer.new ≡ written_over (text_if_room answer buffer.old) buffer.old }
    ensures size { size.new ≡ value_or (length_of_answer answer) size.old }
{
    match answer {
        Ok(text) => {
            *size = text.as_bytes().len();
            put_bytes(text.as_bytes(), buffer)
        }
        Err(refused) => status(refused),
    }
}

// Puts a text at the front of the buffer, if it has room.
#[inline(always)]
pub(crate) fn put_bytes(text: &[u8], buffer: &mut [u8]) -> u32
    ensures status { result ≡ status_of (bytes_if_room buffer.old text.now) }
    ensures written { buffer.new ≡ written_over (bytes_if_room buffer.old text.now) buffer.old }
{
    if buffer.len() < text.len() {
        return status(Refused::Buffer);
    }
    buffer[..text.len()].copy_from_slice(text);
    0
}

fn date_time_text(date_time: MuxanduDateTime) -> Result<Text, Refused>
    ensures value { result ≡ date_time_text date_time }
    ensures room { IfOk result (λ text. length text ≤ 42) }
{
    Ok(read_date_time(date_time)?.text())
}

/// Writes the text of a date-time, such as `1970-01-01 0:00:00.0 +00:00:00`, to the front of
/// `buffer`, and its length to `size`. The text has at most 42 bytes, all ASCII and none 0. Its
/// form is `[sign]year-month-day hour:minute:second.fraction sign hours:minutes:seconds`, with no
/// blank after the last sign. The year has four to six digits, with `-` before it below 0, and `+`
/// above 9999. The hour has one digit below 10. The fraction has one to nine digits, and ends with
/// 0 only if it is `0`. Each other number has two digits. The offset has `-` below 0, else `+`.
/// Errors, in this order: those of the date-time, BUFFER if the text is longer than `buffer`;
/// `size` is then its length, and `buffer` is unchanged.
#[unsafe(no_mangle)]
pub extern "C" fn muxandu_date_time_text(
    date_time: MuxanduDateTime,
    buffer: &mut [u8],
    size: &mut usize,
) -> MuxanduStatus
    ensures status { result ≡ status_of (text_if_room (date_time_text date_time) buffer.old) }
    ensures written { buffer.new ≡
        written_over (text_if_room (date_time_text date_time) buffer.old) buffer.old }
    ensures size { size.new ≡ value_or (length_of_answer (date_time_text date_time)) size.old }
    ensures room { IfOk (date_time_text date_time) (λ text. length text ≤ 42) }
{
    put_text(date_time_text(date_time), buffer, size)
}

fn timestamp_text(at: MuxanduTimestamp) -> Result<Text, Refused>
    ensures value { result ≡ timestamp_text_of at }
    ensures room { IfOk result (λ text. length text ≤ 25) }
{
    Ok(read_timestamp(at)?.text())
}

/// Writes the seconds of a timestamp as a signed decimal, such as `-0.5`, in at most 25 bytes, as
/// muxandu_date_time_text does. Errors, in this order: those of the timestamp, BUFFER.
#[unsafe(no_mangle)]
pub extern "C" fn muxandu_timestamp_text(
    at: MuxanduTimestamp,
    buffer: &mut [u8],
    size: &mut usize,
) -> MuxanduStatus
    ensures status { result ≡ status_of (text_if_room (timestamp_text_of at) buffer.old) }
    ensures written { buffer.new ≡
        written_over (text_if_room (timestamp_text_of at) buffer.old) buffer.old }
    ensures size { size.new ≡ value_or (length_of_answer (timestamp_text_of at)) size.old }
    ensures room { IfOk (timestamp_text_of at) (λ text. length text ≤ 25) }
{
    put_text(timestamp_text(at), buffer, size)
}

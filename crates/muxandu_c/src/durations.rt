//! Durations as texts.
ghost use Rattle.std.specs.Prelude.{◌≡◌, ◌≤◌, ℤ, Ok, length, IfOk};
ghost use Rattle.duration_texts.specs.Grammar.{Derives};
ghost use Rattle.muxandu_c.specs.Answers.{Answers, length_of_answer, status_of, text_if_room};
ghost use Rattle.muxandu_c.specs.Answers.{value_or, written_over};
ghost use Rattle.muxandu_c.specs.DurationTexts.{duration_fault, duration_read, duration_refused};
ghost use Rattle.muxandu_c.specs.DurationTexts.{duration_text};
ghost use Rattle.muxandu_c.specs.Values.{duration_parts};

use crate::parts::{duration_of, read_duration};
use crate::refused::{MuxanduStatus, Refused, answer};
use crate::texts::put_text;
use crate::values::MuxanduDuration;
use calendar_values::Text;
use duration_texts::{DurationFault, parse_duration, seconds_text};

// The error of a text that is no duration.
fn duration_refused(fault: DurationFault) -> Refused
    ensures { result ≡ duration_refused fault }
{
    match fault {
        DurationFault::Range => Refused::Duration,
        _ => Refused::Syntax,
    }
}

fn duration_from_text(text: &[u8]) -> Result<MuxanduDuration, Refused>
    ensures read { result ≡ duration_read text.now }
    ensures spelled { (n : ℤ) → Derives text.now n → result ≡ Ok (duration_parts n) }
{
    match parse_duration(text) {
        Ok(duration) => Ok(duration_of(duration)),
        Err(refusal) => Err(duration_refused(refusal.fault)),
    }
}

/// The duration in a text such as `90 minutes`, `1 day -0.5 seconds`, `1h30m`, `PT36H` or `1.5`.
/// A term has an optional sign, a number and the name of a unit, in letters of any case: `d`, `h`,
/// `m`, `s`, `ms`, `us` or `ns`, or the word, such as `day` or `days`. The micro sign is another
/// `u`. Blanks may precede and follow the name. A sign counts for all terms up to the next sign or
/// blank. A number alone is of seconds. The form of ISO 8601 has days, hours, minutes and seconds.
/// Each term is a whole number of nanoseconds. Errors, for the first part at fault: SYNTAX, also
/// for months and years, which have no fixed length; DURATION if a term, or the sum with it, is
/// out of range.
#[unsafe(no_mangle)]
pub extern "C" fn muxandu_duration_from_text(
    text: &[u8],
    out: &mut MuxanduDuration,
) -> MuxanduStatus
    ensures read { Answers result out.old out.new (duration_read text.now) }
    // What the grammar derives is read.
    ensures spelled { (n : ℤ) → Derives text.now n →
        duration_read text.now ≡ Ok (duration_parts n) }
{
    answer(duration_from_text(text), out)
}

/// The index of the part at fault in a text that muxandu_duration_from_text rejects, or the length
/// of one that it reads: 4 for `2024-02-29`, where a number without a unit ends, and 2 for
/// `1 month`.
#[unsafe(no_mangle)]
pub extern "C" fn muxandu_duration_fault(text: &[u8]) -> usize
    ensures place { result ≡ duration_fault text.now }
    ensures at_most { result ≤ length text.now }
{
    match parse_duration(text) {
        Ok(_) => text.len(),
        Err(refusal) => refusal.place,
    }
}

fn duration_text(duration: MuxanduDuration) -> Result<Text, Refused>
    ensures value { result ≡ duration_text duration }
    ensures room { IfOk result (λ text. length text ≤ 31) }
{
    Ok(seconds_text(read_duration(duration)?))
}

/// Writes the seconds of a duration as a signed decimal, such as `-0.5`, in at most 31 bytes, as
/// muxandu_date_time_text does. The fraction has no zeros at its end, and a whole number has
/// none. muxandu_duration_from_text reads the text back. Errors, in this order: DURATION, BUFFER.
#[unsafe(no_mangle)]
pub extern "C" fn muxandu_duration_text(
    duration: MuxanduDuration,
    buffer: &mut [u8],
    size: &mut usize,
) -> MuxanduStatus
    ensures status { result ≡ status_of (text_if_room (duration_text duration) buffer.old) }
    ensures written { buffer.new ≡
        written_over (text_if_room (duration_text duration) buffer.old) buffer.old }
    ensures size { size.new ≡ value_or (length_of_answer (duration_text duration)) size.old }
    ensures room { IfOk (duration_text duration) (λ text. length text ≤ 31) }
{
    put_text(duration_text(duration), buffer, size)
}

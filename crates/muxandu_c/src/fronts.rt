//! Date-times read from the front of a text, and the place of a fault in a text.
ghost use Rattle.std.specs.Prelude.{◌≡◌, ◌≤◌, ◌++◌, ℕ, List, length, take, Ok};
ghost use Rattle.rfc3339.specs.Form.{IsDateTime};
ghost use Rattle.rfc3339.specs.declared.parts.Parts.{Parts};
ghost use Rattle.muxandu_c.specs.Answers.{Answers, and_then, status_of, value_or};
ghost use Rattle.muxandu_c.specs.Exchange.{date_time_spelled};
ghost use Rattle.muxandu_c.specs.FrontTexts.{date_time_front, first_of, second_of};

use crate::exchange::refused_text;
use crate::parts::date_time_of;
use crate::refused::{MuxanduStatus, Refused, status};
use crate::values::MuxanduDateTime;
use rfc3339::{parse_rfc3339_front, syntax_fault};

fn date_time_front(text: &[u8]) -> Result<(MuxanduDateTime, usize), Refused>
    ensures { result ≡ date_time_front text.now }
{
    match parse_rfc3339_front(text) {
        Ok((at, length)) => Ok((date_time_of(at), length)),
        Err(refusal) => Err(refused_text(refusal, text)),
    }
}

/// The date-time and the offset at the front of a text, as muxandu_date_time_from_rfc3339 reads
/// them. Writes the number of bytes it read to `size`: 23 for `1985-04-12T23:20:50.52Z done`.
/// Errors: SYNTAX if no front of the text has that form, else those of that call.
#[unsafe(no_mangle)]
pub extern "C" fn muxandu_date_time_from_rfc3339_front(
    text: &[u8],
    out: &mut MuxanduDateTime,
    size: &mut usize,
) -> MuxanduStatus
    ensures status { result ≡ status_of (date_time_front text.now) }
    ensures written { out.new ≡ value_or (first_of (date_time_front text.now)) out.old }
    ensures size { size.new ≡ value_or (second_of (date_time_front text.now)) size.old }
    // A beginning of the text that has the form is what is read, and as it is read alone.
    ensures same { (stamp rest : List ℕ) (p : Parts) → text.now ≡ stamp ++ rest
        → IsDateTime stamp p → date_time_front text.now
        ≡ and_then (date_time_spelled p) (λ v. Ok (v, length stamp)) }
{
    match date_time_front(text) {
        Ok((date_time, length)) => {
            *out = date_time;
            *size = length;
            0
        }
        Err(refused) => status(refused),
    }
}

/// The index of the fault in a text that fails with SYNTAX: 10 for `1985-04-12_23:20:50Z`. No RFC
/// 3339 date-time continues with the byte at that index; or the text ends there, too early. For a
/// text that has the form it is the length of the text.
#[unsafe(no_mangle)]
pub extern "C" fn muxandu_rfc3339_fault(text: &[u8]) -> usize
    ensures at_most { result ≤ length text.now }
    // Some text of the form begins with the bytes before that place,
    ensures begins { (rest : List ℕ) × (p : Parts) × IsDateTime (take result text.now ++ rest) p }
    // and none with more of them.
    ensures longest { (n : ℕ) (rest : List ℕ) (p : Parts) → n ≤ length text.now
        → IsDateTime (take n text.now ++ rest) p → n ≤ result }
{
    syntax_fault(text)
}

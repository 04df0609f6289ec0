//! Date-times read from texts whose second may be 60.
ghost use Rattle.std.specs.Prelude.{◌≡◌, ◌⊎◌, Err};
ghost use Rattle.rfc3339.specs.Form.{IsDateTime};
ghost use Rattle.rfc3339.specs.declared.parts.Parts.{Parts};
ghost use Rattle.muxandu_c.specs.Answers.{status_of, status_number, value_or};
ghost use Rattle.muxandu_c.specs.FrontTexts.{leap_spelled, first_of, second_of, mark_number};
ghost use Rattle.muxandu_c.specs.declared.refused.Refused.TheVariants as refused;

use crate::exchange::refused_text;
use crate::parts::date_time_of;
use crate::refused::{MuxanduStatus, Refused, status};
use crate::values::MuxanduDateTime;
use rfc3339::parse_rfc3339_leap;

fn date_time_from_rfc3339_leap(text: &[u8]) -> Result<(MuxanduDateTime, bool), Refused>
    ensures spelled { (p : Parts) → IsDateTime text.now p → result ≡ leap_spelled p }
    ensures syntax { ((p : Parts) × IsDateTime text.now p) ⊎ (result ≡ Err refused.Syntax) }
{
    match parse_rfc3339_leap(text) {
        Ok((at, is_leap)) => Ok((date_time_of(at), is_leap)),
        Err(refusal) => Err(refused_text(refusal, text)),
    }
}

/// The date-time and the offset in a text, as muxandu_date_time_from_rfc3339 reads them, also with
/// a second of 60, as in `2016-12-31T23:59:60Z`. A leap second is valid only as the last second of
/// a month in UTC. It becomes the last nanosecond before the next month, for any fraction;
/// `is_leap` is then 1, else 0. So values keep the order of their texts. Errors: those of that
/// call, with SECOND above 60; then SECOND if no month ends with a second of 60.
#[unsafe(no_mangle)]
pub extern "C" fn muxandu_date_time_from_rfc3339_leap(
    text: &[u8],
    out: &mut MuxanduDateTime,
    is_leap: &mut u8,
) -> MuxanduStatus
    ensures status { (p : Parts) → IsDateTime text.now p → result ≡ status_of (leap_spelled p) }
    ensures written { (p : Parts) → IsDateTime text.now p →
        out.new ≡ value_or (first_of (leap_spelled p)) out.old }
    ensures is_leap { (p : Parts) → IsDateTime text.now p →
        is_leap.new ≡ value_or (mark_number (second_of (leap_spelled p))) is_leap.old }
    ensures syntax { ((p : Parts) × IsDateTime text.now p)
        ⊎ ((result ≡ status_number refused.Syntax) × (out.new ≡ out.old)
        × (is_leap.new ≡ is_leap.old)) }
{
    match date_time_from_rfc3339_leap(text) {
        Ok((date_time, leap)) => {
            *out = date_time;
            *is_leap = leap as u8;
            0
        }
        Err(refused) => status(refused),
    }
}

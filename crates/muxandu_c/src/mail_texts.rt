//! Date-times read from texts of mail.
ghost use Rattle.std.specs.Prelude.{◌≡◌};
ghost use Rattle.muxandu_c.specs.Answers.{Answers};
ghost use Rattle.muxandu_c.specs.MailTexts.{mail_value};

use crate::parsed_values::{offset_value, refused_value};
use crate::refused::{MuxanduStatus, Refused, answer};
use crate::values::MuxanduDateTime;
use format_descriptions::parse_rfc2822;

// The date-time of a text.
fn mail_value(text: &[u8]) -> Result<MuxanduDateTime, Refused>
    ensures { result ≡ mail_value text.now }
{
    let Ok(parts) = parse_rfc2822(text) else {
        return Err(Refused::Syntax);
    };
    match offset_value(&parts) {
        Ok(date_time) => Ok(date_time),
        Err(refusal) => Err(refused_value(refusal)),
    }
}

/// The date-time and the offset in a text of RFC 2822, such as `Sun, 06 Nov 1994 08:49:37 +0000`,
/// which mail, RSS and HTTP have. The day of the week and the second can be absent, and a year can
/// have two digits. The offset can be `GMT`, `UTC`, a zone such as `EST`, or one letter, which is
/// UTC. White space may have any length, and comments may follow. Errors, in this order: SYNTAX if
/// the text has another form, such as a year with a sign or before 1900. RESULT if a part is out of
/// range, or if the day of the week is another than that of the date.
#[unsafe(no_mangle)]
pub extern "C" fn muxandu_date_time_from_rfc2822(
    text: &[u8],
    out: &mut MuxanduDateTime,
) -> MuxanduStatus
    ensures { Answers result out.old out.new (mail_value text.now) }
{
    answer(mail_value(text), out)
}

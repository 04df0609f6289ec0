//! Unix seconds written with a fraction of fixed width.
ghost use Rattle.std.specs.Prelude.{◌≡◌, ◌≤◌, ◌/◌, ◌%◌, length, unsigned_abs};
ghost use Rattle.calendar_values.specs.Clock.{nanos_per_second};
ghost use Rattle.rfc3339.specs.UnixTexts.{unix_text};

use crate::write::push_whole_fraction;
use calendar_values::Text;
use utc_times::UtcDateTime;

/// The Unix seconds of an instant, as a signed decimal with a point and nine digits:
/// `1722500000.000000000`, and half a second before 1970 `-0.500000000`.
///
/// ```
/// let before = UtcDateTime::from_unix_timestamp_nanos(-1)?;
/// assert_eq!(rt; rfc3339::to_unix_nanos(before).as_str(), "-0.000000001");
/// ```
#[tactic(auto, unfolding(crate::specs::UnixTexts::unix_text))]
pub fn to_unix_nanos(at: UtcDateTime) -> Text
    ensures text { result ≡ unix_text at }
    ensures length { length result ≤ 31 }
{
    let (seconds, nanoseconds) = magnitude(at);
    let mut text = Text::new();
    if at.unix_timestamp() < 0 {
        text.push(b'-');
    }
    text.push_decimal(seconds);
    push_whole_fraction(&mut text, nanoseconds);
    text
}

// The whole seconds from 1970 or to it, and the nanoseconds that they leave.
#[tactic(auto, using(crate::proofs::UnixLemmas::second_magnitudes))]
fn magnitude(at: UtcDateTime) -> (u64, u32)
    ensures seconds { result.0 ≡ unsigned_abs at / nanos_per_second }
    ensures nanoseconds { result.1 ≡ unsigned_abs at % nanos_per_second }
{
    let seconds = at.unix_timestamp();
    if seconds >= 0 {
        return (seconds as u64, at.nanosecond());
    }
    let size = at.unix_timestamp_nanos().unsigned_abs();
    ((size / 1_000_000_000) as u64, (size % 1_000_000_000) as u32)
}

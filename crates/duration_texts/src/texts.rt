//! The texts of durations.
ghost use Rattle.std.specs.Prelude.{◌≡◌, ◌+◌, ◌/◌, ◌%◌, ◌++◌, ◌<◌, ◌≤◌, length, unsigned_abs};
ghost use Rattle.calendar_values.specs.Clock.{nanos_per_second};
ghost use Rattle.calendar_values.specs.Durations.{IsDuration};
ghost use Rattle.calendar_values.specs.Digits.{text_capacity};
ghost use Rattle.duration_texts.specs.Grammar.{Derives, sign_text};
ghost use Rattle.duration_texts.specs.Numbers.{number_text};
ghost use Rattle.duration_texts.specs.Texts.{seconds_number, seconds_text, sign_of};

use calendar_values::{SignedDuration, Text};

/// Returns the seconds of a duration as a decimal, such as `-0.5`. The fraction has no zeros at its
/// end, and a whole number has none.
///
/// ```
/// let duration = SignedDuration::milliseconds(-90_500);
/// assert_eq!(rt; duration_texts::seconds_text(duration).as_str(), "-90.5");
/// ```
pub fn seconds_text(duration: SignedDuration) -> Text
    ensures text { result ≡ seconds_text duration }
    ensures length { length result ≤ 31 }
    // The text derives the duration, so parse_duration reads it back.
    ensures back { Derives result duration }
{
    written_seconds(duration)
}

// The seconds of a duration as a decimal.
#[tactic(auto, unfolding(crate::specs::Texts::seconds_text))]
fn written_seconds(duration: SignedDuration) -> Text
    ensures in_range { IsDuration duration }
    ensures text { result ≡ seconds_text duration }
    ensures length { length result ≤ 31 }
{
    let mut text = Text::new();
    push_sign(&mut text, duration);
    let (seconds, nanoseconds) = magnitude(duration);
    push_seconds(&mut text, seconds, nanoseconds);
    text
}

// Adds a minus before a negative duration.
pub(crate) fn push_sign(text: &mut Text, duration: SignedDuration)
    requires { length text.old < text_capacity }
    ensures text { text.new ≡ text.old ++ sign_text (sign_of duration) }
    ensures length { length text.new ≤ length text.old + 1 }
{
    if duration.is_negative() {
        text.push(b'-');
    }
}

// The whole seconds of a duration without its sign, and the nanoseconds that they leave.
#[tactic(auto, using(crate::proofs::WrittenLemmas::magnitudes))]
pub(crate) fn magnitude(duration: SignedDuration) -> (u64, u32)
    ensures in_range { IsDuration duration }
    ensures seconds { result.0 ≡ unsigned_abs duration / nanos_per_second }
    ensures nanoseconds { result.1 ≡ unsigned_abs duration % nanos_per_second }
{
    (
        duration.whole_seconds().unsigned_abs(),
        duration.subsec_nanoseconds().unsigned_abs(),
    )
}

// Adds seconds and nanoseconds of a second as a decimal of seconds.
fn push_seconds(text: &mut Text, seconds: u64, nanoseconds: u32)
    requires nanoseconds { nanoseconds < nanos_per_second }
    requires room { length text.old + 30 ≤ text_capacity }
    ensures text { text.new ≡ text.old ++ number_text (seconds_number seconds nanoseconds) }
    ensures length { length text.new ≤ length text.old + 30 }
{
    text.push_decimal(seconds);
    if nanoseconds > 0 {
        text.push(b'.');
        text.push_fraction(nanoseconds);
    }
}

//! The text of a duration in short units.
ghost use Rattle.std.specs.Prelude.{◌≡◌, ◌+◌, ◌*◌, ◌^◌, ◌++◌, ◌<◌, ◌≤◌, IsAscii, length};
ghost use Rattle.calendar_values.specs.Clock.{nanos_per_second};
ghost use Rattle.calendar_values.specs.Digits.{text_capacity};
ghost use Rattle.calendar_values.specs.Durations.{IsDuration};
ghost use Rattle.duration_texts.specs.Grammar.{Derives};
ghost use Rattle.duration_texts.specs.Texts.{count_text, counts_text, short_text, short_units};

use crate::texts::{magnitude, push_sign};
use calendar_values::{SignedDuration, Text};

/// Returns the text of a duration in short units, such as `-1d2h3m`: days, hours, minutes, seconds,
/// `ms`, `us` and `ns`, each with its number, but for the numbers of 0. The text of 0 is `0s`.
///
/// ```
/// let duration = SignedDuration::milliseconds(-93_780_500);
/// assert_eq!(rt; duration_texts::short_text(duration).as_str(), "-1d2h3m500ms");
/// ```
pub fn short_text(duration: SignedDuration) -> Text
    ensures text { result ≡ short_text duration }
    ensures length { length result ≤ 44 }
    // The text derives the duration, so parse_duration reads it back.
    ensures back { Derives result duration }
{
    written_units(duration)
}

// The text of a duration in short units.
#[tactic(auto, unfolding(crate::specs::Texts::short_text))]
fn written_units(duration: SignedDuration) -> Text
    ensures in_range { IsDuration duration }
    ensures text { result ≡ short_text duration }
    ensures length { length result ≤ 44 }
{
    let mut text = Text::new();
    let (seconds, nanoseconds) = magnitude(duration);
    if seconds == 0 && nanoseconds == 0 {
        text.push_bytes(b"0s");
    } else {
        push_sign(&mut text, duration);
        push_units(&mut text, seconds, nanoseconds);
    }
    text
}

// Adds the numbers of all units that there are some of.
fn push_units(text: &mut Text, seconds: u64, nanoseconds: u32)
    requires seconds { seconds ≤ 2 ^ 63 }
    requires nanoseconds { nanoseconds < nanos_per_second }
    requires room { length text.old ≤ 1 }
    ensures text { text.new ≡
        text.old ++ counts_text short_units (seconds * nanos_per_second + nanoseconds) }
    ensures length { length text.new ≤ length text.old + 43 }
{
    let (days, second) = (seconds / 86_400, (seconds % 86_400) as u32);
    push_count(text, days, b"d");
    push_count(text, (second / 3_600) as u64, b"h");
    push_count(text, (second % 3_600 / 60) as u64, b"m");
    push_count(text, (second % 60) as u64, b"s");
    push_count(text, (nanoseconds / 1_000_000) as u64, b"ms");
    push_count(text, (nanoseconds % 1_000_000 / 1_000) as u64, b"us");
    push_count(text, (nanoseconds % 1_000) as u64, b"ns");
}

// Adds a number of a unit, unless it is 0.
#[tactic(auto, using(crate::proofs::ShortLemmas::count_lengths))]
fn push_count(text: &mut Text, count: u64, name: &[u8])
    requires count { count < 10 ^ 15 }
    requires name { IsAscii name.now }
    requires short { length name.now ≤ 2 }
    requires room { length text.old + 22 ≤ text_capacity }
    ensures text { text.new ≡ text.old ++ count_text count name.now }
    ensures length { length text.new ≤ length text.old + 15 + length name.now }
    ensures least { count < 1_000 → length text.new ≤ length text.old + 3 + length name.now }
{
    if count > 0 {
        text.push_decimal(count);
        text.push_bytes(name);
    }
}

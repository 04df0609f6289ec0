//! The text of a timestamp.
ghost use Rattle.std.specs.Prelude.{◌≡◌, ◌<◌, ◌≤◌, ◌+◌, ◌/◌, ◌%◌, ◌^◌, ◌++◌, length, Some, unsigned_abs};
ghost use Rattle.std.specs.Fmt.{padded};
ghost use Rattle.calendar_values.specs.Clock.{nanos_per_second};
ghost use Rattle.calendar_values.specs.Digits.{text_capacity};
ghost use Rattle.stamp_times.specs.Texts.{timestamp_text, seconds_text, fraction_text};

use crate::Timestamp;
use calendar_values::Text;
use calendar_values::units::NANOS_PER_SECOND;
use std::fmt;

impl Timestamp {
    /// The text: the signed decimal of the instant in seconds, as `-0.5`. The fraction has no zeros
    /// at its end, and is left out where it is 0.
    ///
    /// ```
    /// let at = Timestamp::new(1_577_710_979, 480_300_002)?;
    /// assert_eq!(rt; at.text().as_str(), "1577710979.480300002");
    /// ```
    pub fn text(self) -> Text
        ensures text { result ≡ timestamp_text self }
        ensures length { length result ≤ 25 }
    {
        let mut text = Text::new();
        self.append_to(&mut text);
        text
    }

    /// Adds the text of the instant.
    #[tactic(auto, unfolding(crate::specs::Texts::timestamp_text))]
    pub fn append_to(self, text: &mut Text)
        requires { length text.old + 25 ≤ text_capacity }
        ensures text { text.new ≡ text.old ++ timestamp_text self }
        ensures length { length text.new ≤ length text.old + 25 }
    {
        let (seconds, nanoseconds) = self.magnitude();
        if self.as_seconds() < 0 {
            text.push(b'-');
        }
        push_seconds(text, seconds, nanoseconds);
    }

    // The whole seconds from 1970 or to it, and the nanoseconds that they leave.
    #[tactic(auto, using(crate::proofs::TimestampTextLemmas::second_magnitudes))]
    fn magnitude(self) -> (u64, u32)
        ensures seconds { result.0 ≡ unsigned_abs self / nanos_per_second }
        ensures nanoseconds { result.1 ≡ unsigned_abs self % nanos_per_second }
        ensures in_range { result.0 < 10 ^ 14 }
    {
        let seconds = self.as_seconds();
        let nanosecond = self.nanosecond();
        if seconds >= 0 {
            (seconds as u64, nanosecond)
        } else if nanosecond == 0 {
            ((-seconds) as u64, 0)
        } else {
            ((-seconds - 1) as u64, NANOS_PER_SECOND as u32 - nanosecond)
        }
    }
}

// Adds seconds and nanoseconds of a second as a decimal of seconds.
#[tactic(auto, using(crate::proofs::TimestampTextLemmas::text_lengths), unfolding(crate::specs::Texts::seconds_text, crate::specs::Texts::fraction_text))]
fn push_seconds(text: &mut Text, seconds: u64, nanoseconds: u32)
    requires seconds { seconds < 10 ^ 14 }
    requires nanoseconds { nanoseconds < nanos_per_second }
    requires room { length text.old + 24 ≤ text_capacity }
    ensures text { text.new ≡ text.old ++ seconds_text seconds nanoseconds }
    ensures length { length text.new ≤ length text.old + 24 }
{
    text.push_decimal(seconds);
    if nanoseconds > 0 {
        text.push(b'.');
        text.push_fraction(nanoseconds);
    }
}

impl fmt::Display for Timestamp {
    ghost output = { λ i. Some (timestamp_text i) };

    ghost styled_output = { λ i spec. Some (padded spec (timestamp_text i)) };

    fn fmt<W: fmt::Write>(&self, f: &mut fmt::Formatter<W>) -> fmt::Result {
        fmt::Display::fmt(&self.text(), f)
    }
}

impl fmt::Debug for Timestamp {
    ghost debug_output = { λ i. Some (timestamp_text i) };

    fn fmt<W: fmt::Write>(&self, f: &mut fmt::Formatter<W>) -> fmt::Result {
        fmt::Debug::fmt(&self.text(), f)
    }
}

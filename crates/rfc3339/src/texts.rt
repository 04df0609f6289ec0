//! Every type that has texts of RFC 3339.
ghost use Rattle.std.specs.Prelude.{◌≡◌, ℤ, IfOk, ◌≤◌, ◌⊎◌, SomeIff, IfSome, OkIff, Err, Ok, pos, length};
ghost use Rattle.std.specs.Result.{result_map_both};
ghost use Rattle.calendar_values.specs.WallClock.{IsInstant};
ghost use Rattle.offset_times.specs.Local.{Local, local_in_utc, instant_of};
ghost use Rattle.rfc3339.specs.Form.{IsDateTime};
ghost use Rattle.rfc3339.specs.Meaning.{meaning, value_of, AreInRange};
ghost use Rattle.rfc3339.specs.Reading.{reading_of, reading_as};
ghost use Rattle.rfc3339.specs.Texts.{HasText, rfc3339_text, HasFixedText, fixed_text};
ghost use Rattle.rfc3339.specs.declared.parts.Parts.{Parts};
ghost use Rattle.rfc3339.specs.declared.refusal.TextRefusal.TheVariants.{Syntax};

use crate::write::text_of;
use crate::{TextRefusal, parse_rfc3339};
use calendar_values::Text;
use offset_times::OffsetDateTime;
use stamp_times::Timestamp;
use utc_times::UtcDateTime;

/// A type with texts of RFC 3339: a wall clock at an offset, or an instant.
pub trait Rfc3339: Copy {
    /// The wall clock and the offset that the text has. An instant has those in UTC.
    ghost shown: { Self → Local };

    /// The value of a wall clock at an offset: itself, or its instant.
    ghost value_shown: { Local → Self };

    /// Reads a text as [`parse_rfc3339`] does, as a value of this type, and with its errors. The
    /// instant of such a text always exists.
    ///
    /// ```
    /// let at = OffsetDateTime::from_rfc3339(b"1990-12-31T15:59:59-08:00")?;
    /// assert_eq!(rt; at.hour(), 15);
    /// assert_eq!(rt; UtcDateTime::from_rfc3339(b"1990-12-31T15:59:59-08:00")?.hour(), 23);
    /// assert_eq!(rt; Timestamp::from_rfc3339(b"1990-12-31"), Err(TextRefusal::Syntax));
    /// ```
    fn from_rfc3339(text: &[u8]) -> Result<Self, TextRefusal>
        // The whole answer, as a word that computes.
        ensures reading { result ≡ reading_as value_shown text.now }

        // The same by the form of the text.
        ensures value { (p : Parts) → IsDateTime text.now p →
            OkIff result (AreInRange p) (value_shown (value_of p)) }
        ensures equation { (p : Parts) → IsDateTime text.now p →
            result ≡ result_map_both value_shown (λ refusal. refusal) (meaning p) }
        ensures syntax { (result ≡ Err Syntax) ⊎ ((p : Parts) × IsDateTime text.now p) }

        // What is accepted spells parts in their ranges; what was read of it can be written at its own offset, and has
        // an instant in the range.
        ensures accepted { IfOk result (λ at. (p : Parts) × IsDateTime text.now p ×
            AreInRange p × (at ≡ value_shown (value_of p))) }
        ensures has_text { IfOk (reading_of text.now) HasText }
        ensures instant { IfOk result (λ at. IsInstant (instant_of (shown at))) }

        // What was written is read back.
        ensures written { (at : Self) → HasText (shown at) →
            text.now ≡ rfc3339_text (shown at) → result ≡ Ok at }
        ensures written_fixed { (i : ℤ) → HasFixedText i → text.now ≡ fixed_text i →
            result ≡ Ok (value_shown (local_in_utc i)) };

    /// The shortest text, such as `1985-04-12T23:20:50.52Z` or `1996-12-19T16:39:57-08:00`. It has
    /// `T` between the date and the time of day, and `Z` for the offset 0. A whole second has no
    /// fraction, and no fraction ends in 0. None if the year there is not one of 0 to 9999, or if
    /// the offset has seconds or is of 24 hours or more.
    ///
    /// ```
    /// let text = UtcDateTime::UNIX_EPOCH.to_rfc3339().ok_or("no text")?;
    /// assert_eq!(rt; text.as_str(), "1970-01-01T00:00:00Z");
    /// assert_eq!(rt; UtcDateTime::MAX.to_rfc3339().is_none(), true);
    /// ```
    fn to_rfc3339(self) -> Option<Text>
        ensures text { SomeIff result (HasText (shown self)) (rfc3339_text (shown self)) }
        ensures length { IfSome result (λ text. length text ≤ 35) };
}

impl Rfc3339 for OffsetDateTime {
    ghost shown = { λ at. at };

    ghost value_shown = { λ at. at };

    #[inline(always)]
    fn from_rfc3339(text: &[u8]) -> Result<OffsetDateTime, TextRefusal> {
        parse_rfc3339(text)
    }

    #[inline(always)]
    fn to_rfc3339(self) -> Option<Text> {
        text_of(self)
    }
}

impl Rfc3339 for UtcDateTime {
    ghost shown = { λ instant. local_in_utc instant };

    ghost value_shown = { λ at. instant_of at };

    fn from_rfc3339(text: &[u8]) -> Result<UtcDateTime, TextRefusal> {
        Ok(parse_rfc3339(text)?.to_utc())
    }

    fn to_rfc3339(self) -> Option<Text> {
        text_of(OffsetDateTime::from(self))
    }
}

impl Rfc3339 for Timestamp {
    ghost shown = { λ instant. local_in_utc instant };

    ghost value_shown = { λ at. instant_of at };

    fn from_rfc3339(text: &[u8]) -> Result<Timestamp, TextRefusal> {
        Ok(Timestamp::from(UtcDateTime::from_rfc3339(text)?))
    }

    fn to_rfc3339(self) -> Option<Text> {
        UtcDateTime::from(self).to_rfc3339()
    }
}

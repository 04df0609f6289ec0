//! Texts read at the front of others, and offsets alone.
ghost use Rattle.std.specs.Prelude.{◌≡◌, ◌≤◌, ◌<◌, ◌++◌, ◌⊎◌, List, ℕ, Bool, IfOk, OkIff, Err, length, drop};
ghost use Rattle.calendar_values.specs.WallClock.{IsInstant};
ghost use Rattle.offset_times.specs.Local.{instant_of};
ghost use Rattle.rfc3339.specs.Form.{IsDateTime, IsOffsetText};
ghost use Rattle.rfc3339.specs.Front.{front_reading_of, offset_numbers, offset_reading_of, with_length, offset_of_numbers};
ghost use Rattle.rfc3339.specs.Meaning.{meaning, offset_of, value_of, AreInRange};
ghost use Rattle.rfc3339.specs.Texts.{HasText};
ghost use Rattle.rfc3339.specs.declared.parts.Parts.{Parts};
ghost use Rattle.rfc3339.specs.declared.refusal.TextRefusal.TheVariants.{Syntax};

use crate::parse::{date_time, offset};
use crate::reading::{front, zone};
use crate::{Component, TextRefusal};
use calendar_values::UtcOffset;
use offset_times::OffsetDateTime;

/// The wall clock and the offset at the front of a text, and the number of bytes read: 23 for
/// `1985-04-12T23:20:50.52Z done`. It reads them as [`parse_rfc3339`](crate::parse_rfc3339) reads
/// these bytes alone. Fails with `Syntax` if no front of the text has that form.
///
/// ```
/// let (at, length) = rfc3339::parse_rfc3339_front(b"1990-12-31T23:59:59Z ready")?;
/// assert_eq!(rt; at.year(), 1990);
/// assert_eq!(rt; length, 20);
/// ```
pub fn parse_rfc3339_front(text: &[u8]) -> Result<(OffsetDateTime, usize), TextRefusal>
    // The whole answer, as a word that computes.
    ensures reading { result ≡ front_reading_of text.now }

    // A beginning that spells parts is accepted exactly where they are in their ranges, and then as what they mean. Else
    // the error has the first that is not. Any other text fails for its form.
    ensures value { (stamp rest : List ℕ) (p : Parts) → text.now ≡ stamp ++ rest
        → IsDateTime stamp p → OkIff result (AreInRange p) (value_of p, length stamp) }
    ensures equation { (stamp rest : List ℕ) (p : Parts) → text.now ≡ stamp ++ rest
        → IsDateTime stamp p → result ≡ with_length (length stamp) (meaning p) }
    ensures syntax { (result ≡ Err Syntax) ⊎ ((stamp : List ℕ) × (rest : List ℕ) × (p : Parts) ×
        (text.now ≡ stamp ++ rest) × IsDateTime stamp p) }

    // What is accepted begins with such a stamp, in its ranges, and the rest follows it.
    ensures accepted { IfOk result (λ read. (stamp : List ℕ) × (rest : List ℕ) × (p : Parts) ×
        (text.now ≡ stamp ++ rest) × (length stamp ≡ read.1) × (rest ≡ drop read.1 text.now) ×
        IsDateTime stamp p × AreInRange p × (read.0 ≡ value_of p)) }
    // It is the longest beginning that has the form.
    ensures longest { (stamp rest : List ℕ) (p : Parts) → text.now ≡ stamp ++ rest
        → IsDateTime stamp p → IfOk result (λ read. length stamp ≤ read.1) }
    ensures length { IfOk result (λ read. read.1 ≤ length text.now) }
    // What is read can be written, and its instant lies in the range.
    ensures has_text { IfOk result (λ read. HasText read.0) }
    ensures instant { IfOk result (λ read. IsInstant (instant_of read.0)) }
{
    read_front(text)
}

// The same, and that what is read can be written.
#[tactic(auto, unfolding(crate::specs::Front::front_reading_of), using(crate::proofs::FrontLemmas::fronts))]
#[inline(always)]
fn read_front(text: &[u8]) -> Result<(OffsetDateTime, usize), TextRefusal>
    ensures reading { result ≡ front_reading_of text.now }
    ensures length { IfOk result (λ read. read.1 ≤ length text.now) }
    ensures has_text { IfOk result (λ read. HasText read.0) }
{
    let Some((parts, rest)) = front(text) else {
        return Err(TextRefusal::Syntax);
    };
    match date_time(parts) {
        Ok(at) => Ok((at, text.len() - rest.len())),
        Err(refusal) => Err(refusal),
    }
}

/// Reads an offset of RFC 3339 with nothing before or after it, as `+05:30` or `Z`. Fails with
/// `Syntax` if the text has another form, else with the first of its numbers that is out of range.
///
/// ```
/// assert_eq!(rt; rfc3339::parse_rfc3339_offset(b"-02:30"), Ok(UtcOffset::from_hms(-2, -30, 0)?));
/// assert_eq!(rt;
///     rfc3339::parse_rfc3339_offset(b"+24:00"),
///     Err(TextRefusal::OutOfRange(Component::OffsetHour))
/// );
/// ```
pub fn parse_rfc3339_offset(text: &[u8]) -> Result<UtcOffset, TextRefusal>
    // The whole answer, as a word that computes.
    ensures reading { result ≡ offset_reading_of text.now }

    // The same by the form of the text.
    ensures value { (is_west : Bool) (hour minute : ℕ)
        → IsOffsetText text.now is_west hour minute → hour < 100 → minute < 100
        → OkIff result ((hour ≤ 23) × (minute ≤ 59)) (offset_of is_west hour minute) }
    ensures equation { (is_west : Bool) (hour minute : ℕ)
        → IsOffsetText text.now is_west hour minute → hour < 100 → minute < 100
        → result ≡ offset_of_numbers is_west hour minute }
    ensures syntax { (result ≡ Err Syntax) ⊎ ((is_west : Bool) × (hour : ℕ) × (minute : ℕ) ×
        IsOffsetText text.now is_west hour minute × (hour < 100) × (minute < 100)) }
{
    read_offset(text)
}

// The same by its digits.
#[tactic(auto, unfolding(crate::specs::Front::offset_reading_of))]
fn read_offset(text: &[u8]) -> Result<UtcOffset, TextRefusal>
    ensures reading { result ≡ offset_reading_of text.now }
{
    let Some((is_west, hour, minute)) = offset_numbers(text) else {
        return Err(TextRefusal::Syntax);
    };
    if hour > 23 {
        return Err(TextRefusal::OutOfRange(Component::OffsetHour));
    }
    if minute > 59 {
        return Err(TextRefusal::OutOfRange(Component::OffsetMinute));
    }
    Ok(offset(is_west, hour, minute))
}

// The sign, the hours and the minutes, if nothing follows them.
fn offset_numbers(text: &[u8]) -> Option<(bool, u8, u8)>
    ensures { result ≡ offset_numbers text.now }
{
    let (numbers, rest) = zone(text)?;
    if rest.is_empty() { Some(numbers) } else { None }
}

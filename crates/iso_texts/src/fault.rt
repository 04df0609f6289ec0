//! Where a text has not the form.
ghost use Rattle.std.specs.Prelude.{◌≡◌, ◌≤◌, ◌<◌, ◌+◌, ◌∷◌, ◌++◌, true, List, ℕ, length, take, option_map};
ghost use Rattle.std.specs.Char.{is_ascii_digit};
ghost use Rattle.rfc3339.specs.Reading.{zone_at};
ghost use Rattle.iso_texts.specs.IsoFaults.{offset_on, is_whole, has_signed_offset, units_standing};
ghost use Rattle.iso_texts.specs.IsoFaults.{tens_standing, seconds_standing};
ghost use Rattle.iso_texts.specs.IsoFaults.{IsLongest, IsTail, IsIso};
ghost use Rattle.iso_texts.specs.IsoForms.{IsIsoDateTime};
ghost use Rattle.iso_texts.specs.IsoReading.{is_sign};
ghost use Rattle.iso_texts.specs.declared.parts.IsoParts.{IsoParts};

use crate::reading::{
    after_separator, begins_with_sign, fraction, is_sign, part, plain_year, two_digits, zone,
};
use rfc3339::syntax_fault;

/// The index of the fault in a text that fails with `Syntax`: 7 for `-004712` and 2 for
/// `-4 712-01-01T00:00:00Z`. No text of the form continues with the byte at that index; or the text
/// ends there, too early. For a text of the form it is the length of the text.
///
/// ```
/// assert_eq!(rt; iso_texts::iso_fault(b"2024-02-29T12:34:56+01:19:60"), 26);
/// ```
pub fn iso_fault(text: &[u8]) -> usize
    ensures at_most { result ≤ length text.now }
    // Some text of the form begins with the bytes before that place,
    ensures begins { (rest : List ℕ) × (p : IsoParts) ×
        IsIsoDateTime (take result text.now ++ rest) p }
    // and none with more of them.
    ensures longest { (n : ℕ) (rest : List ℕ) (p : IsoParts) → n ≤ length text.now
        → IsIsoDateTime (take n text.now ++ rest) p → n ≤ result }
{
    iso_standing(text)
}

// How many bytes may stand where they do.
fn iso_standing(text: &[u8]) -> usize
    ensures longest { IsLongest IsIso text.now result }
{
    let Some((byte, rest)) = text.split_first() else {
        return 0;
    };
    if is_sign(*byte) {
        return 1 + digits_standing(rest);
    }
    plain_standing(text)
}

// The same of two digits of a year, and what follows them, after a sign.
fn digits_standing(text: &[u8]) -> usize
    ensures longest { (sign : ℕ) → is_sign sign ≡ true →
        IsLongest (λ rest. IsIso (sign ∷ rest)) text.now result }
    ensures at_most { result ≤ length text.now }
{
    let Some((byte, rest)) = text.split_first() else {
        return 0;
    };
    if byte.is_ascii_digit() {
        return 1 + digit_standing(rest);
    }
    0
}

// The same of one digit, and what follows it, after a sign and a digit.
fn digit_standing(text: &[u8]) -> usize
    ensures longest { (sign tens : ℕ) → is_sign sign ≡ true → is_ascii_digit tens ≡ true →
        IsLongest (λ rest. IsIso (sign ∷ tens ∷ rest)) text.now result }
    ensures at_most { result ≤ length text.now }
{
    let Some((byte, rest)) = text.split_first() else {
        return 0;
    };
    if byte.is_ascii_digit() {
        return 1 + plain_standing(rest);
    }
    0
}

// The same of a date-time of RFC 3339, and of the seconds of its offset.
fn plain_standing(text: &[u8]) -> usize
    ensures longest { IsLongest IsTail text.now result }
    ensures at_most { result ≤ length text.now }
{
    let place = syntax_fault(text);
    let (front, rest) = text.split_at(place);
    if has_signed_offset(front) {
        place + seconds_standing(rest)
    } else {
        place
    }
}

// The same of the seconds of an offset.
#[tactic(auto, unfolding(crate::specs::IsoFaults::seconds_standing))]
fn seconds_standing(text: &[u8]) -> usize
    ensures value { result ≡ seconds_standing text.now }
    ensures at_most { result ≤ length text.now }
{
    match text.split_first() {
        Some((byte, rest)) if *byte == b':' => 1 + tens_standing(rest),
        _ => 0,
    }
}

// The same of their two digits.
fn tens_standing(text: &[u8]) -> usize
    ensures value { result ≡ tens_standing text.now }
    ensures at_most { result ≤ length text.now }
{
    match text.split_first() {
        Some((byte, rest)) if byte.is_ascii_digit() && *byte < b'6' => 1 + units_standing(rest),
        _ => 0,
    }
}

// The same of the second of them.
fn units_standing(text: &[u8]) -> usize
    ensures value { result ≡ units_standing text.now }
    ensures at_most { result ≤ length text.now }
{
    match text.split_first() {
        Some((byte, _)) if byte.is_ascii_digit() => 1,
        _ => 0,
    }
}

// Whether the text is a date-time of RFC 3339 whose offset has a sign.
#[tactic(auto, unfolding(crate::specs::IsoFaults::has_signed_offset))]
fn has_signed_offset(text: &[u8]) -> bool
    ensures { result ≡ has_signed_offset text.now }
{
    match offset_on(text) {
        Some(rest) => begins_with_sign(rest) && is_whole(rest),
        None => false,
    }
}

// Whether the text is an offset.
fn is_whole(text: &[u8]) -> bool
    ensures { result ≡ is_whole (zone_at text.now) }
{
    match zone(text) {
        Some((_, rest)) => rest.is_empty(),
        None => false,
    }
}

// What follows the fraction of a date-time.
#[tactic(auto, unfolding(crate::specs::IsoFaults::offset_on))]
fn offset_on(text: &[u8]) -> Option<&[u8]>
    ensures { option_map (λ rest. rest.now) result ≡ offset_on text.now }
{
    let (_, text) = plain_year(text)?;
    let (_, text) = part(b'-', text)?;
    let (_, text) = part(b'-', text)?;
    let (_, text) = two_digits(after_separator(text)?)?;
    let (_, text) = part(b':', text)?;
    let (_, text) = part(b':', text)?;
    let (_, rest) = fraction(text)?;
    Some(rest)
}

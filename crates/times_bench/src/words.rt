//! The words between separators.
ghost use Rattle.std.specs.Prelude.{◌≡◌, [], ◌∷◌, option_map};
ghost use Rattle.std.specs.Option.{option_map_or};
ghost use Rattle.std.specs.Str.{bytes_eq};
ghost use Rattle.times_bench.specs.Words.{cut_at, exactly_one, exactly_two, exactly_three, exactly_four};

use line_devices::places::place_of;

// The most bytes that are compared as a number.
const LONGEST_NUMBER: usize = 8;

/// Whether a word is this text.
#[inline(always)]
pub fn is(word: &[u8], text: &str) -> bool
    ensures { result ≡ bytes_eq word.now text.now }
{
    if text.len() > LONGEST_NUMBER {
        return word == text.as_bytes();
    }
    if word.len() != text.len() {
        return false;
    }
    // Where the text is constant, this is a comparison of numbers or two.
    text.as_bytes().starts_with(word)
}

/// The text before the first separator, and the text after it if there is one.
pub fn cut_at(separator: u8, text: &[u8]) -> (&[u8], Option<&[u8]>)
    ensures { cut_at separator text.now
        ≡ result.0.now ∷ option_map_or (λ rest. cut_at separator rest.now) result.1 [] }
{
    let end = place_of(separator, text, 0);
    if end == text.len() {
        return (text, None);
    }
    (&text[..end], Some(&text[end + 1..]))
}

/// The one field of a text.
#[tactic(auto, unfolding(crate::specs::Words::exactly_one), using(crate::proofs::WordLemmas::no_field_more))]
pub fn one_field(separator: u8, text: &[u8]) -> Option<&[u8]>
    ensures { option_map (λ field. field.now) result ≡ exactly_one (cut_at separator text.now) }
{
    match cut_at(separator, text) {
        (field, None) => Some(field),
        (_, Some(_)) => None,
    }
}

/// The two fields of a text.
#[tactic(auto, unfolding(crate::specs::Words::exactly_one, crate::specs::Words::exactly_two))]
pub fn two_fields(separator: u8, text: &[u8]) -> Option<(&[u8], &[u8])>
    ensures { option_map (λ fields. (fields.0.now, fields.1.now)) result
        ≡ exactly_two (cut_at separator text.now) }
{
    let (first, Some(rest)) = cut_at(separator, text) else {
        return None;
    };
    let second = one_field(separator, rest)?;
    Some((first, second))
}

/// The three fields of a text.
#[tactic(auto, unfolding(crate::specs::Words::exactly_two, crate::specs::Words::exactly_three))]
pub fn three_fields(separator: u8, text: &[u8]) -> Option<(&[u8], &[u8], &[u8])>
    ensures { option_map (λ fields. (fields.0.now, fields.1.now, fields.2.now)) result
        ≡ exactly_three (cut_at separator text.now) }
{
    let (first, Some(rest)) = cut_at(separator, text) else {
        return None;
    };
    let (second, third) = two_fields(separator, rest)?;
    Some((first, second, third))
}

/// The four fields of a text.
#[tactic(auto, unfolding(crate::specs::Words::exactly_three, crate::specs::Words::exactly_four))]
pub fn four_fields(separator: u8, text: &[u8]) -> Option<(&[u8], &[u8], &[u8], &[u8])>
    ensures { option_map (λ fields. (fields.0.now, fields.1.now, fields.2.now, fields.3.now)) result
        ≡ exactly_four (cut_at separator text.now) }
{
    let (first, Some(rest)) = cut_at(separator, text) else {
        return None;
    };
    let (second, third, fourth) = three_fields(separator, rest)?;
    Some((first, second, third, fourth))
}

//! Numbers, names and signs, read from the front of a text.
ghost use Rattle.std.specs.Prelude.{◌≡◌, ◌+◌, ◌-◌, ◌*◌, ◌≤◌, ◌<◌, length, option_map, IfSome, Some};
ghost use Rattle.std.specs.Int.{IsInRange};
ghost use Rattle.rfc3339.specs.Reading.{digit_at, two_digits_at, mark_at, year_at};
ghost use Rattle.format_descriptions.specs.Reading.{two_at, three_digits_at, three_at, four_at, more_at};
ghost use Rattle.format_descriptions.specs.Reading.{sign_at, is_letter, letter_at, word_at, digit_more};

use crate::{Padding, ReadCase, YearRange};

// A number of two digits, or of one, by its padding. Two digits are read whatever the padding is.
#[inline(always)]
pub(crate) fn two(padding: Padding, text: &[u8]) -> Option<(u32, &[u8])>
    ensures value { option_map (λ read. (read.0, read.1.now)) result ≡ two_at padding text.now }
    ensures below { IfSome result (λ read. read.0 < 100) }
    ensures shorter { IfSome result (λ read. length read.1.now ≤ length text.now) }
{
    match two_digits(text) {
        Some((number, rest)) => Some((number, rest)),
        None => two_padded(padding, text),
    }
}

// The same of any padding.
#[tactic(auto, unfolding(crate::specs::Reading::two_at))]
#[inline(never)]
fn two_padded(padding: Padding, text: &[u8]) -> Option<(u32, &[u8])>
    ensures value { option_map (λ read. (read.0, read.1.now)) result ≡ two_at padding text.now }
    ensures below { IfSome result (λ read. read.0 < 100) }
    ensures shorter { IfSome result (λ read. length read.1.now ≤ length text.now) }
{
    match padding {
        Padding::Zero => two_digits(text),
        Padding::Space => match after_mark(b' ', text) {
            Some(digits) => digit(digits),
            None => two_digits(text),
        },
        Padding::Bare => {
            let (first, rest) = digit(text)?;
            Some(digit_more(first, rest))
        }
    }
}

// A number of three digits, or of fewer, by its padding.
#[tactic(auto, unfolding(crate::specs::Reading::three_at))]
pub(crate) fn three(padding: Padding, text: &[u8]) -> Option<(u32, &[u8])>
    ensures value { option_map (λ read. (read.0, read.1.now)) result ≡ three_at padding text.now }
    ensures below { IfSome result (λ read. read.0 < 1_000) }
    ensures shorter { IfSome result (λ read. length read.1.now ≤ length text.now) }
{
    match padding {
        Padding::Zero => three_digits(text),
        Padding::Space => match after_mark(b' ', text) {
            Some(rest) => two(Padding::Space, rest),
            None => three_digits(text),
        },
        Padding::Bare => {
            let (first, rest) = two(Padding::Bare, text)?;
            Some(digit_more(first, rest))
        }
    }
}

// A number with another digit, if there is one.
fn digit_more(number: u32, text: &[u8]) -> (u32, &[u8])
    requires { number < 100_000 }
    ensures value { Some (result.0, result.1.now)
        ≡ digit_more (number, text.now) (digit_at text.now) }
    ensures below { result.0 < 10 * number + 10 }
    ensures shorter { length result.1.now ≤ length text.now }
{
    match digit(text) {
        Some((digit, rest)) => (number * 10 + digit, rest),
        None => (number, text),
    }
}

// A number of four digits, or of fewer, by its padding. Four digits are read whatever the padding is.
#[tactic(auto, using(crate::proofs::DigitsFirstLemmas::four_first))]
#[inline(always)]
pub(crate) fn four(padding: Padding, text: &[u8]) -> Option<(u32, &[u8])>
    ensures value { option_map (λ read. (read.0, read.1.now)) result ≡ four_at padding text.now }
    ensures below { IfSome result (λ read. read.0 < 10_000) }
    ensures shorter { IfSome result (λ read. length read.1.now ≤ length text.now) }
{
    match year(text) {
        Some((number, rest)) => Some((number, rest)),
        None => four_padded(padding, text),
    }
}

// The same of any padding.
#[tactic(auto, unfolding(crate::specs::Reading::four_at, crate::specs::Reading::three_at, crate::specs::Reading::two_at))]
#[inline(never)]
fn four_padded(padding: Padding, text: &[u8]) -> Option<(u32, &[u8])>
    ensures value { option_map (λ read. (read.0, read.1.now)) result ≡ four_at padding text.now }
    ensures below { IfSome result (λ read. read.0 < 10_000) }
    ensures shorter { IfSome result (λ read. length read.1.now ≤ length text.now) }
{
    match padding {
        Padding::Zero => year(text),
        Padding::Space => match after_mark(b' ', text) {
            Some(rest) => three(Padding::Space, rest),
            None => year(text),
        },
        Padding::Bare => {
            let (one, rest) = digit(text)?;
            let (two, rest) = digit_more(one, rest);
            let (three, rest) = digit_more(two, rest);
            Some(digit_more(three, rest))
        }
    }
}

// A number with up to two more digits, where the years of the range have them.
#[tactic(auto, unfolding(crate::specs::Reading::more_at))]
pub(crate) fn more(range: YearRange, number: u32, text: &[u8]) -> (u32, &[u8])
    requires { number < 10_000 }
    ensures value { Some (result.0, result.1.now) ≡ more_at range (number, text.now) }
    ensures below { result.0 < 1_000_000 }
    ensures shorter { length result.1.now ≤ length text.now }
{
    if range.is_extended() {
        let (five, rest) = digit_more(number, text);
        digit_more(five, rest)
    } else {
        (number, text)
    }
}

// Four digits.
#[tactic(auto, unfolding(rfc3339::specs::Reading::year_at, rfc3339::specs::Reading::two_digits_at, rfc3339::specs::Reading::digit_at))]
#[inline(always)]
pub(crate) fn year(text: &[u8]) -> Option<(u32, &[u8])>
    ensures value { option_map (λ read. (read.0, read.1.now)) result ≡ year_at text.now }
    ensures below { IfSome result (λ read. read.0 < 10_000) }
    ensures shorter { IfSome result (λ read. length read.1.now ≤ length text.now) }
{
    let [first, second, third, fourth, rest @ ..] = text else {
        return None;
    };
    if first.is_ascii_digit()
        && second.is_ascii_digit()
        && third.is_ascii_digit()
        && fourth.is_ascii_digit()
    {
        Some((
            number(*first, *second) * 100 + number(*third, *fourth),
            rest,
        ))
    } else {
        None
    }
}

// Three digits.
#[tactic(auto, unfolding(crate::specs::Reading::three_digits_at))]
fn three_digits(text: &[u8]) -> Option<(u32, &[u8])>
    ensures value { option_map (λ read. (read.0, read.1.now)) result ≡ three_digits_at text.now }
    ensures below { IfSome result (λ read. read.0 < 1_000) }
    ensures shorter { IfSome result (λ read. length read.1.now ≤ length text.now) }
{
    let (hundreds, text) = digit(text)?;
    let (number, text) = two_digits(text)?;
    Some((hundreds * 100 + number, text))
}

// Two digits.
#[tactic(auto, unfolding(rfc3339::specs::Reading::two_digits_at, rfc3339::specs::Reading::digit_at))]
pub(crate) fn two_digits(text: &[u8]) -> Option<(u32, &[u8])>
    ensures value { option_map (λ read. (read.0, read.1.now)) result ≡ two_digits_at text.now }
    ensures below { IfSome result (λ read. read.0 < 100) }
    ensures shorter { IfSome result (λ read. length read.1.now ≤ length text.now) }
{
    let [tens, units, rest @ ..] = text else {
        return None;
    };
    if tens.is_ascii_digit() && units.is_ascii_digit() {
        Some((number(*tens, *units), rest))
    } else {
        None
    }
}

// The number of two digits.
fn number(tens: u8, units: u8) -> u32
    requires tens { IsInRange 48 57 tens }
    requires units { IsInRange 48 57 units }
    ensures value { result ≡ (tens - 48) * 10 + (units - 48) }
    ensures below { result < 100 }
{
    tens as u32 * 10 + units as u32 - 528
}

// A digit.
#[tactic(auto, unfolding(rfc3339::specs::Reading::digit_at))]
pub(crate) fn digit(text: &[u8]) -> Option<(u32, &[u8])>
    ensures value { option_map (λ read. (read.0, read.1.now)) result ≡ digit_at text.now }
    ensures below { IfSome result (λ read. read.0 < 10) }
    ensures shorter { IfSome result (λ read. length read.1.now ≤ length text.now) }
{
    let (first, text) = text.split_first()?;
    if first.is_ascii_digit() {
        Some(((*first - b'0') as u32, text))
    } else {
        None
    }
}

// The sign `-`, which gives true, or `+`.
#[tactic(auto, unfolding(crate::specs::Reading::sign_at))]
pub(crate) fn sign(text: &[u8]) -> Option<(bool, &[u8])>
    ensures value { option_map (λ read. (read.0, read.1.now)) result ≡ sign_at text.now }
    ensures shorter { IfSome result (λ read. length read.1.now ≤ length text.now) }
{
    let (first, text) = text.split_first()?;
    match *first {
        b'-' => Some((true, text)),
        b'+' => Some((false, text)),
        _ => None,
    }
}

// What follows a word.
#[tactic(auto, unfolding(crate::specs::Reading::word_at))]
pub(crate) fn after_word<'a>(case: ReadCase, word: &[u8], text: &'a [u8]) -> Option<&'a [u8]>
    ensures value { option_map (λ rest. rest.now) result ≡ word_at case word.now text.now }
    ensures shorter { IfSome result (λ read. length read.now ≤ length text.now) }
{
    let mut word = word;
    let mut rest = text;
    while let Some((letter, letters)) = word.split_first() {
        let Some(more) = after_letter(case, *letter, rest) else {
            return None;
        };
        word = letters;
        rest = more;
    }
    Some(rest)
}

// What follows a letter.
#[tactic(auto, unfolding(crate::specs::Reading::letter_at))]
fn after_letter(case: ReadCase, letter: u8, text: &[u8]) -> Option<&[u8]>
    ensures value { option_map (λ rest. rest.now) result ≡ letter_at case letter text.now }
    ensures shorter { IfSome result (λ read. length read.now ≤ length text.now) }
{
    let (first, text) = text.split_first()?;
    if is_letter(case, *first, letter) {
        Some(text)
    } else {
        None
    }
}

// Whether two letters are one, or one but for their case where any case is read.
fn is_letter(case: ReadCase, a: u8, b: u8) -> bool
    ensures { result ≡ is_letter case a b }
{
    if case.reads_any_case() {
        a.to_ascii_lowercase() == b.to_ascii_lowercase()
    } else {
        a == b
    }
}

// What follows a byte.
#[tactic(auto, unfolding(rfc3339::specs::Reading::mark_at))]
pub(crate) fn after_mark(mark: u8, text: &[u8]) -> Option<&[u8]>
    ensures value { option_map (λ rest. rest.now) result ≡ mark_at mark text.now }
    ensures shorter { IfSome result (λ read. length read.now ≤ length text.now) }
{
    match text.split_first() {
        Some((first, text)) if *first == mark => Some(text),
        _ => None,
    }
}

//! Digits of a fraction, read from the front of a text.
ghost use Rattle.std.specs.Prelude.{◌≡◌, ◌*◌, ◌≤◌, length, option_map, IfSome};
ghost use Rattle.rfc3339.specs.Reading.{digits_at};
ghost use Rattle.format_descriptions.specs.Modifiers.{digit_count};
ghost use Rattle.format_descriptions.specs.Reading.{counted_at, fraction_at};

use crate::SubsecondDigits;
use crate::reading::digit;

// The digits of a fraction, in nanoseconds: this number of them, or all that there are.
#[tactic(auto, unfolding(crate::specs::Reading::fraction_at))]
pub(crate) fn fraction(digits: SubsecondDigits, text: &[u8]) -> Option<(u32, &[u8])>
    ensures value { option_map (λ read. (read.0, read.1.now)) result
        ≡ fraction_at (digit_count digits) text.now }
    ensures below { IfSome result (λ read. read.0 ≤ 1_000_000_000) }
    ensures shorter { IfSome result (λ read. length read.1.now ≤ length text.now) }
{
    let count = digits.count();
    if count == 0 {
        digit(text)?;
        return Some(all_digits(text));
    }
    if count == 9 {
        return nine_digits(text);
    }
    read_digits(count, 100_000_000, text)
}

// Nine digits. A text that has room for them all is read without a test of what is left of it at each digit.
#[tactic(auto, unfolding(crate::specs::Reading::counted_at))]
#[inline(never)]
fn nine_digits(text: &[u8]) -> Option<(u32, &[u8])>
    ensures value { option_map (λ read. (read.0, read.1.now)) result
        ≡ counted_at 9 100_000_000 text.now }
    ensures below { IfSome result (λ read. read.0 ≤ 1_000_000_000) }
    ensures shorter { IfSome result (λ read. length read.1.now ≤ length text.now) }
{
    if text.len() < 9 {
        return read_digits(9, 100_000_000, text);
    }
    let (a, rest) = digit(text)?;
    let (b, rest) = digit(rest)?;
    let (c, rest) = digit(rest)?;
    let (d, rest) = digit(rest)?;
    let (e, rest) = digit(rest)?;
    let (f, rest) = digit(rest)?;
    let (g, rest) = digit(rest)?;
    let (h, rest) = digit(rest)?;
    let (i, rest) = digit(rest)?;
    let last_three = g * 100 + (h * 10 + i);
    let last_six = d * 100_000 + (e * 10_000 + (f * 1_000 + last_three));
    Some((
        a * 100_000_000 + (b * 10_000_000 + (c * 1_000_000 + last_six)),
        rest,
    ))
}

// A number of digits: the first counts this many units, each other a tenth of the one before.
pub(crate) fn read_digits(count: u8, unit: u32, text: &[u8]) -> Option<(u32, &[u8])>
    requires { unit ≤ 100_000_000 }
    ensures value { option_map (λ read. (read.0, read.1.now)) result
        ≡ counted_at count unit text.now }
    ensures below { IfSome result (λ read. read.0 ≤ 10 * unit) }
    ensures shorter { IfSome result (λ read. length read.1.now ≤ length text.now) }
{
    let mut rest = text;
    let mut left = count;
    let mut unit = unit;
    let mut number = 0;
    while left > 0 {
        let Some((digit, more)) = digit(rest) else {
            return None;
        };
        number += digit * unit;
        unit /= 10;
        left -= 1;
        rest = more;
    }
    Some((number, rest))
}

// All the digits that there are, those past the ninth dropped.
fn all_digits(text: &[u8]) -> (u32, &[u8])
    ensures value { (result.0, result.1.now) ≡ digits_at 100_000_000 text.now }
    ensures in_range { result.0 ≤ 999_999_999 }
    ensures shorter { length result.1.now ≤ length text.now }
{
    let mut rest = text;
    let mut unit = 100_000_000;
    let mut nanosecond = 0;
    while unit > 0 {
        let Some((digit, more)) = digit(rest) else {
            return (nanosecond, rest);
        };
        nanosecond += digit * unit;
        unit /= 10;
        rest = more;
    }
    (nanosecond, after_digits(rest))
}

// What follows digits.
pub(crate) fn after_digits(text: &[u8]) -> &[u8]
    ensures value { (0, result.now) ≡ digits_at 0 text.now }
    ensures shorter { length result.now ≤ length text.now }
{
    let mut rest = text;
    while let Some((_, more)) = digit(rest) {
        rest = more;
    }
    rest
}

//! The numbers of a duration's text, and their nanoseconds.
ghost use Rattle.std.specs.Prelude.{◌≡◌, ◌<◌, ◌≤◌, ◌*◌, IfNone, IfOk, IfSome};
ghost use Rattle.std.specs.Int.{IsInRange};
ghost use Rattle.std.specs.Result.{result_map_both};
ghost use Rattle.duration_texts.specs.Numbers.{most_nanoseconds, number_of, part_of, value_of};
ghost use Rattle.duration_texts.specs.Reading.{after_whole, nanoseconds_of, no_digit, number_at, with_fraction};

use crate::faults::{DurationFault, Stop};
use crate::pieces::{Kind, split};

// The greatest number of nanoseconds of a term.
const MOST_NANOSECONDS: u128 = 18_446_744_073_709_551_616_999_999_998;

// The digits of the number in front before its point, those after it, and what follows the number.
#[tactic(auto, unfolding(crate::specs::Reading::number_at))]
pub(crate) fn number(text: &[u8]) -> Result<(&[u8], &[u8], &[u8]), Stop>
    ensures { result_map_both (λ read. (number_of read.0.now read.1.now, read.2.now)) (λ stop. stop)
        result ≡ number_at text.now }
{
    let (whole, rest) = split(Kind::Digit, text);
    if whole.is_empty() {
        Err(no_digit(text))
    } else {
        after_whole(whole, rest)
    }
}

// The number of these whole digits, with a point and digits if they follow, and what follows them.
fn after_whole<'a>(whole: &'a [u8], text: &'a [u8]) -> Result<(&'a [u8], &'a [u8], &'a [u8]), Stop>
    ensures { result_map_both (λ read. (number_of read.0.now read.1.now, read.2.now)) (λ stop. stop)
        result ≡ after_whole whole.now text.now }
{
    match text.split_first() {
        Some((b'.', digits)) => with_fraction(whole, digits),
        _ => Ok((whole, &[], text)),
    }
}

// The number of these whole digits, with the digits after a point, and what follows them.
fn with_fraction<'a>(
    whole: &'a [u8],
    text: &'a [u8],
) -> Result<(&'a [u8], &'a [u8], &'a [u8]), Stop>
    ensures { result_map_both (λ read. (number_of read.0.now read.1.now, read.2.now)) (λ stop. stop)
        result ≡ with_fraction whole.now text.now }
{
    let (fraction, rest) = split(Kind::Digit, text);
    if fraction.is_empty() {
        Err(no_digit(text))
    } else {
        Ok((whole, fraction, rest))
    }
}

// The fault of a text that does not begin with a digit.
pub(crate) fn no_digit(text: &[u8]) -> Stop
    ensures { result ≡ no_digit text.now }
{
    Stop {
        fault: DurationFault::Digit,
        left: text.len(),
    }
}

// The nanoseconds of a number of a unit.
pub(crate) fn nanoseconds(whole: &[u8], fraction: &[u8], unit: u64) -> Result<u128, DurationFault>
    requires { IsInRange 1 86_400_000_000_000 unit }
    ensures value { result ≡ nanoseconds_of unit (number_of whole.now fraction.now) }
    ensures bound { IfOk result (λ count. count ≤ most_nanoseconds) }
{
    let Some(part) = part_of(unit, fraction) else {
        return Err(DurationFault::Fraction);
    };
    let Some(count) = value_of(whole) else {
        return Err(DurationFault::Range);
    };
    let Some(product) = count.checked_mul(unit as u128) else {
        return Err(DurationFault::Range);
    };
    if product > MOST_NANOSECONDS - part as u128 {
        return Err(DurationFault::Range);
    }
    Ok(product + part as u128)
}

// The number of decimal digits, if it is not above the most nanoseconds.
fn value_of(digits: &[u8]) -> Option<u128>
    ensures value { IfSome result (λ value. value ≡ value_of digits.now) }
    ensures bound { IfSome result (λ value. value ≤ most_nanoseconds) }
    ensures above { IfNone result (most_nanoseconds < value_of digits.now) }
{
    let mut value = 0;
    for digit in digits {
        value = value * 10 + digit.saturating_sub(b'0') as u128;
        if value > MOST_NANOSECONDS {
            return None;
        }
    }
    Some(value)
}

// The nanoseconds of the digits after the point of a number of a unit, if they are whole.
fn part_of(unit: u64, digits: &[u8]) -> Option<u64>
    requires { unit ≤ 86_400_000_000_000 }
    ensures value { result ≡ part_of unit digits.now }
    ensures bound { IfSome result (λ part. part ≤ 23 * unit) }
{
    let mut part = 0;
    let mut k = digits.len();
    while k > 0 {
        k -= 1;
        let sum = digits[k].saturating_sub(b'0') as u64 * unit + part;
        if sum % 10 != 0 {
            return None;
        }
        part = sum / 10;
    }
    Some(part)
}

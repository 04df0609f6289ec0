//! Terms, such as `1 day -0.5 seconds`, and their sum.
ghost use Rattle.std.specs.Prelude.{◌≡◌, ◌≤◌, IfOk, false, length, pos};
ghost use Rattle.std.specs.Int.{IsInRange};
ghost use Rattle.std.specs.Result.{result_map_both};
ghost use Rattle.calendar_values.specs.Durations.{IsDuration};
ghost use Rattle.duration_texts.specs.Numbers.{most_nanoseconds, number_of};
ghost use Rattle.duration_texts.specs.Reading.{duration_sum, goes_on, sign_at};
ghost use Rattle.duration_texts.specs.Reading.{stop_at, sum_with, term_at, terms_from};
ghost use Rattle.duration_texts.specs.Reading.{unit_at, with_sign};

use crate::faults::{DurationFault, Stop};
use crate::numbers::{nanoseconds, no_digit, number};
use crate::pieces::{Kind, past_blanks, split};
use crate::units::{is_calendar_word, unit_of};

// The least and the greatest number of nanoseconds of a duration.
const LEAST: i128 = -9_223_372_036_854_775_808_999_999_999;

const GREATEST: i128 = 9_223_372_036_854_775_807_999_999_999;

// The sum of the terms of a text.
pub(crate) fn terms(text: &[u8]) -> Result<i128, Stop>
    ensures value { result ≡ terms_from (length text.now) false (pos 0) text.now }
    ensures in_range { IfOk result (λ sum. IsDuration sum) }
{
    let mut negative = false;
    let mut sum = 0;
    let mut rest = text;
    for _ in 0..text.len() {
        let (sign, more, after) = match term(negative, sum, rest) {
            Ok(read) => read,
            Err(stop) => return Err(stop),
        };
        let next = past_blanks(after);
        if next.is_empty() {
            return Ok(more);
        }
        negative = goes_on(sign, after);
        sum = more;
        rest = next;
    }
    Err(no_digit(rest))
}

// Whether the term in front is negative, the sum with it, and what follows it.
#[tactic(auto, unfolding(crate::specs::Reading::term_at))]
fn term(negative: bool, sum: i128, text: &[u8]) -> Result<(bool, i128, &[u8]), Stop>
    requires { IsDuration sum }
    ensures value { result_map_both (λ read. (read.0, read.1, read.2.now)) (λ stop. stop) result
        ≡ term_at negative sum text.now }
    ensures in_range { IfOk result (λ read. IsDuration read.1) }
{
    let (sign, after) = sign(negative, text);
    let (whole, fraction, after) = number(after)?;
    let (unit, after) = unit(after)?;
    let more = sum_with(sign, sum, unit, whole, fraction, text)?;
    Ok((sign, more, after))
}

// Whether a sign in front makes the term negative, and what follows it.
pub(crate) fn sign(negative: bool, text: &[u8]) -> (bool, &[u8])
    ensures { (result.0, result.1.now) ≡ sign_at negative text.now }
{
    match text.split_first() {
        Some((b'-', rest)) => (true, rest),
        Some((b'+', rest)) => (false, rest),
        _ => (negative, text),
    }
}

// Whether a sign goes on to the next term: unless a blank is between.
fn goes_on(negative: bool, text: &[u8]) -> bool
    ensures { result ≡ goes_on negative text.now }
{
    match text.split_first() {
        Some((b' ', _)) => false,
        _ => negative,
    }
}

// The unit after a number and perhaps blanks, and what follows it.
#[tactic(auto, unfolding(crate::specs::Reading::unit_at, crate::specs::Reading::named_unit))]
fn unit(text: &[u8]) -> Result<(u64, &[u8]), Stop>
    ensures value { result_map_both (λ read. (read.0, read.1.now)) (λ stop. stop) result
        ≡ unit_at text.now }
    ensures bound { IfOk result (λ read. IsInRange 1 86_400_000_000_000 read.0) }
{
    let begun = past_blanks(text);
    let (word, rest) = split(Kind::Letter, begun);
    if word.is_empty() {
        return Err(stop(DurationFault::Alone, text));
    }
    match unit_of(word) {
        Some(unit) => Ok((unit, rest)),
        None if is_calendar_word(word) => Err(stop(DurationFault::Calendar, begun)),
        None => Err(stop(DurationFault::Unit, begun)),
    }
}

// A fault at the beginning of what is left of the text.
pub(crate) fn stop(fault: DurationFault, text: &[u8]) -> Stop
    ensures { result ≡ stop_at fault text.now }
{
    Stop {
        fault,
        left: text.len(),
    }
}

// The sum with a number of a unit; a fault is that of the term, which begins at the text.
#[tactic(auto, unfolding(crate::specs::Reading::sum_with))]
pub(crate) fn sum_with(
    negative: bool,
    sum: i128,
    unit: u64,
    whole: &[u8],
    fraction: &[u8],
    text: &[u8],
) -> Result<i128, Stop>
    requires sum { IsDuration sum }
    requires unit { IsInRange 1 86_400_000_000_000 unit }
    ensures value { result ≡
        sum_with negative sum unit (number_of whole.now fraction.now) text.now }
    ensures in_range { IfOk result (λ sum. IsDuration sum) }
{
    match nanoseconds(whole, fraction, unit) {
        Ok(count) => duration_sum(sum + with_sign(negative, count), text),
        Err(fault) => Err(stop(fault, text)),
    }
}

// A number with a sign.
fn with_sign(negative: bool, count: u128) -> i128
    requires { count ≤ most_nanoseconds }
    ensures { result ≡ with_sign negative count }
{
    if negative {
        -(count as i128)
    } else {
        count as i128
    }
}

// A sum, if it is a duration.
fn duration_sum(sum: i128, text: &[u8]) -> Result<i128, Stop>
    ensures value { result ≡ duration_sum text.now sum }
    ensures in_range { IfOk result (λ sum. IsDuration sum) }
{
    if sum < LEAST || sum > GREATEST {
        Err(stop(DurationFault::Range, text))
    } else {
        Ok(sum)
    }
}

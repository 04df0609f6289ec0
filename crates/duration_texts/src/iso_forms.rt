//! The form of ISO 8601, such as `P1DT2H` or `PT36H`.
ghost use Rattle.std.specs.Prelude.{◌≡◌, IfOk};
ghost use Rattle.std.specs.Int.{IsInRange};
ghost use Rattle.std.specs.Result.{result_map_both};
ghost use Rattle.calendar_values.specs.Durations.{IsDuration};
ghost use Rattle.duration_texts.specs.Reading.{after_days, sum_at_end, iso_from};
ghost use Rattle.duration_texts.specs.Reading.{part_at, time_from};

use crate::faults::{DurationFault, Stop};
use crate::numbers::{no_digit, number};
use crate::pieces::{Kind, past_blanks, split};
use crate::terms::{stop, sum_with};

// The sum of the parts after the P.
#[tactic(auto, unfolding(crate::specs::Reading::iso_from))]
pub(crate) fn iso(negative: bool, text: &[u8]) -> Result<i128, Stop>
    ensures value { result ≡ iso_from negative text.now }
    ensures in_range { IfOk result (λ sum. IsDuration sum) }
{
    let (sum, rest) = part(b'D', 86_400_000_000_000, negative, 0, text)?;
    after_days(negative, sum, rest, past_blanks(text))
}

// The sum with a time of day, if there is a T; else it is the days alone.
fn after_days(negative: bool, sum: i128, rest: &[u8], begun: &[u8]) -> Result<i128, Stop>
    requires { IsDuration sum }
    ensures value { result ≡ after_days negative sum rest.now begun.now }
    ensures in_range { IfOk result (λ sum. IsDuration sum) }
{
    match rest.split_first() {
        Some((b'T', time)) => time_after(negative, sum, time),
        _ => sum_at_end(sum, past_blanks(rest), begun),
    }
}

// The sum with the hours, minutes and seconds after the T.
#[tactic(auto, unfolding(crate::specs::Reading::time_from))]
fn time_after(negative: bool, sum: i128, text: &[u8]) -> Result<i128, Stop>
    requires { IsDuration sum }
    ensures value { result ≡ time_from negative sum text.now }
    ensures in_range { IfOk result (λ sum. IsDuration sum) }
{
    let (sum, rest) = part(b'H', 3_600_000_000_000, negative, sum, text)?;
    let (sum, rest) = part(b'M', 60_000_000_000, negative, sum, rest)?;
    let (sum, rest) = part(b'S', 1_000_000_000, negative, sum, rest)?;
    sum_at_end(sum, past_blanks(rest), past_blanks(text))
}

// The sum with the part of a letter, if the text begins with one, and what follows it.
#[tactic(auto, unfolding(crate::specs::Reading::part_at))]
fn part(
    letter: u8,
    unit: u64,
    negative: bool,
    sum: i128,
    text: &[u8],
) -> Result<(i128, &[u8]), Stop>
    requires sum { IsDuration sum }
    requires unit { IsInRange 1 86_400_000_000_000 unit }
    ensures value { result_map_both (λ read. (read.0, read.1.now)) (λ stop. stop) result
        ≡ part_at letter unit negative sum text.now }
    ensures in_range { IfOk result (λ read. IsDuration read.0) }
{
    let (digits, _) = split(Kind::Digit, text);
    if digits.is_empty() {
        return Ok((sum, text));
    }
    let (whole, fraction, rest) = number(text)?;
    match rest.split_first() {
        Some((byte, after)) if *byte == letter => {
            let more = sum_with(negative, sum, unit, whole, fraction, text)?;
            Ok((more, after))
        }
        _ => Ok((sum, text)),
    }
}

// The sum of parts of a text that begins so, if nothing is left, and at least one part was read.
fn sum_at_end(sum: i128, rest: &[u8], begun: &[u8]) -> Result<i128, Stop>
    requires { IsDuration sum }
    ensures value { result ≡ sum_at_end sum rest.now begun.now }
    ensures in_range { IfOk result (λ sum. IsDuration sum) }
{
    match rest.split_first() {
        Some((byte, _)) if byte.is_ascii_digit() => Err(stop(DurationFault::Unit, rest)),
        Some(_) => Err(no_digit(rest)),
        None if begun.is_empty() => Err(no_digit(rest)),
        None => Ok(sum),
    }
}

//! Reading the text of a duration.
ghost use Rattle.std.specs.Prelude.{◌*◌, ◌+◌, ◌<◌, ◌≡◌, ◌≤◌, IfErr, IfOk, Ok, length, neg_ℤ, pos, unsigned_abs, ℤ};
ghost use Rattle.calendar_values.specs.Clock.{nanos_per_second};
ghost use Rattle.calendar_values.specs.Durations.{IsDuration, least_duration};
ghost use Rattle.duration_texts.specs.Grammar.{Derives};
ghost use Rattle.duration_texts.specs.Reading.{nanoseconds_in, number_or_terms, reading_of};
ghost use Rattle.duration_texts.specs.Reading.{refusal_of};

use crate::faults::{DurationRefusal, Stop};
use crate::iso_forms::iso;
use crate::numbers::number;
use crate::pieces::past_blanks;
use crate::terms::{sign, sum_with, terms};
use calendar_values::SignedDuration;

// The numbers of 32 bits.
const WORD: u64 = 1 << 32;

/// Reads the text of a duration: terms such as `1 day -0.5 seconds`, `1h30m` or `90s`, a number of
/// seconds alone such as `1.5`, or the form of ISO 8601 such as `PT36H`. Blanks may precede and
/// follow it.
///
/// ```
/// assert_eq!(rt; duration_texts::parse_duration(b"1h30m")?, SignedDuration::minutes(90));
/// ```
pub fn parse_duration(text: &[u8]) -> Result<SignedDuration, DurationRefusal>
    // What is read is derived by the grammar,
    ensures derived { IfOk result (λ n. Derives text.now n) }
    // what the grammar derives is read,
    ensures all { (n : ℤ) → Derives text.now n → result ≡ Ok n }
    // and a fault is the first one from the left.
    ensures reading { result ≡ reading_of text.now }
    ensures place { IfErr result (λ refusal. refusal.place ≤ length text.now) }
{
    reading(text)
}

// The duration of a text, which derives it, or its first fault.
#[tactic(auto, unfolding(crate::specs::Reading::reading_of))]
fn reading(text: &[u8]) -> Result<SignedDuration, DurationRefusal>
    ensures derived { IfOk result (λ n. Derives text.now n) }
    ensures reading { result ≡ reading_of text.now }
    ensures place { IfErr result (λ refusal. refusal.place ≤ length text.now) }
{
    match nanoseconds_in(text) {
        Ok(sum) => Ok(duration_of(sum)),
        Err(stop) => Err(refusal_of(stop, text)),
    }
}

// The duration of a number of nanoseconds.
fn duration_of(nanoseconds: i128) -> SignedDuration
    requires { IsDuration nanoseconds }
    ensures { result ≡ nanoseconds }
{
    let (seconds, rest) = seconds_and_rest(nanoseconds.unsigned_abs());
    if nanoseconds < 0 {
        below_zero(seconds, rest)
    } else {
        SignedDuration::new(seconds as i64, rest as i32)
    }
}

// The duration that is so much less than zero.
fn below_zero(seconds: u64, nanoseconds: u32) -> SignedDuration
    requires range { IsDuration (neg_ℤ (pos (seconds * nanos_per_second + nanoseconds))) }
    requires nanoseconds { nanoseconds < nanos_per_second }
    ensures { result ≡ neg_ℤ (pos (seconds * nanos_per_second + nanoseconds)) }
{
    SignedDuration::new((-(seconds as i128)) as i64, -(nanoseconds as i32))
}

// The whole seconds of so many nanoseconds, and the rest. They are divided in two steps of 64 bits,
// because a division of 128 bits calls a function that the archive would then want.
fn seconds_and_rest(nanoseconds: u128) -> (u64, u32)
    requires { nanoseconds ≤ unsigned_abs least_duration }
    ensures value { result.0 * nanos_per_second + result.1 ≡ nanoseconds }
    ensures rest { result.1 < nanos_per_second }
{
    let high = (nanoseconds / WORD as u128) as u64;
    let low = high % 1_000_000_000 * WORD + (nanoseconds % WORD as u128) as u64;
    (
        high / 1_000_000_000 * WORD + low / 1_000_000_000,
        (low % 1_000_000_000) as u32,
    )
}

// A fault, at the index of its byte.
fn refusal_of(stop: Stop, text: &[u8]) -> DurationRefusal
    ensures value { result ≡ refusal_of text.now stop }
    ensures place { result.place ≤ length text.now }
{
    DurationRefusal {
        fault: stop.fault,
        place: text.len().saturating_sub(stop.left),
    }
}

// The nanoseconds of a text, which derives them, or its first fault.
fn nanoseconds_in(text: &[u8]) -> Result<i128, Stop>
    ensures value { result ≡ nanoseconds_in text.now }
    ensures in_range { IfOk result (λ sum. IsDuration sum) }
    ensures derived { IfOk result (λ sum. Derives text.now sum) }
{
    sum_in(text)
}

// The nanoseconds of a text, or its first fault.
#[tactic(auto, unfolding(crate::specs::Reading::nanoseconds_in))]
fn sum_in(text: &[u8]) -> Result<i128, Stop>
    ensures value { result ≡ nanoseconds_in text.now }
    ensures in_range { IfOk result (λ sum. IsDuration sum) }
{
    let trimmed = past_blanks(text);
    let (negative, after) = sign(false, trimmed);
    match after.split_first() {
        Some((b'P', parts)) => iso(negative, parts),
        _ => number_or_terms(negative, after, trimmed),
    }
}

// A number alone is of seconds, and others are terms.
#[tactic(auto, unfolding(crate::specs::Reading::number_or_terms))]
fn number_or_terms(negative: bool, after: &[u8], text: &[u8]) -> Result<i128, Stop>
    ensures value { result ≡ number_or_terms negative after.now text.now }
    ensures in_range { IfOk result (λ sum. IsDuration sum) }
{
    let (whole, fraction, rest) = number(after)?;
    if past_blanks(rest).is_empty() {
        sum_with(negative, 0, 1_000_000_000, whole, fraction, text)
    } else {
        terms(text)
    }
}

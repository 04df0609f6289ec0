//! The durations of the command line, as 90s, 5m or 1h30m.
ghost use Rattle.std.specs.Prelude.{◌≡◌, ◌≤◌, ◌<◌, IfSome};
ghost use Rattle.stamps.specs.Durations.{duration_from, duration_of, most_seconds, number_of, unit_seconds, with_digit, with_unit};

// The most seconds of a duration.
const MOST_SECONDS: u64 = 1_000_000_000_000;

/// The seconds of a text, if it is a duration: whole numbers with the units d, h, m and s, in this
/// order, each at most once.
#[tactic(auto, unfolding(crate::specs::Durations::duration_of))]
pub fn duration_of(text: &[u8]) -> Option<u64>
    ensures value { result ≡ duration_of text.now }
    ensures bound { IfSome result (λ seconds. seconds ≤ most_seconds) }
{
    if text.is_empty() {
        return None;
    }
    duration_from(0, 86_401, None, text)
}

// The seconds of a text after some seconds and a unit, and after the digits of a number if there
// are any.
fn duration_from(total: u64, last: u64, number: Option<u64>, text: &[u8]) -> Option<u64>
    requires total { total ≤ most_seconds }
    requires number { IfSome number (λ count. count < 1_000_000_000) }
    ensures value { result ≡ duration_from total last number text.now }
    ensures bound { IfSome result (λ seconds. seconds ≤ most_seconds) }
{
    match (text.split_first(), number) {
        (None, None) => Some(total),
        (None, Some(_)) => None,
        (Some((byte, rest)), _) if byte.is_ascii_digit() => {
            let more = with_digit(number_of(number), *byte)?;
            duration_from(total, last, Some(more), rest)
        }
        (Some(_), None) => None,
        (Some((byte, rest)), Some(count)) => {
            let unit = unit_seconds(*byte);
            let sum = with_unit(total, last, count, unit)?;
            duration_from(sum, unit, None, rest)
        }
    }
}

// The number of digits, or 0 of none.
fn number_of(number: Option<u64>) -> u64
    ensures { result ≡ number_of number }
{
    match number {
        Some(number) => number,
        None => 0,
    }
}

// The number with one more digit, if it has nine at most.
fn with_digit(number: u64, digit: u8) -> Option<u64>
    requires { (48 ≤ digit) × (digit ≤ 57) }
    ensures value { result ≡ with_digit number digit }
    ensures bound { IfSome result (λ more. more < 1_000_000_000) }
{
    if number < 100_000_000 {
        Some(number * 10 + (digit - b'0') as u64)
    } else {
        None
    }
}

// The seconds with a number of a unit, if that is smaller than the last one.
fn with_unit(total: u64, last: u64, number: u64, unit: u64) -> Option<u64>
    requires total { total ≤ most_seconds }
    requires number { number < 1_000_000_000 }
    requires unit { unit ≤ 86_400 }
    ensures value { result ≡ with_unit total last number unit }
    ensures bound { IfSome result (λ sum. sum ≤ most_seconds) }
{
    let sum = total + number * unit;
    if 0 < unit && unit < last && !(MOST_SECONDS < sum) {
        Some(sum)
    } else {
        None
    }
}

// The seconds of a unit by its letter, or 0 of another letter.
fn unit_seconds(letter: u8) -> u64
    ensures value { result ≡ unit_seconds letter }
    ensures bound { result ≤ 86_400 }
{
    match letter {
        b'd' => 86_400,
        b'h' => 3_600,
        b'm' => 60,
        b's' => 1,
        _ => 0,
    }
}

//! The words of a chain.
ghost use Rattle.std.specs.Prelude.{◌≡◌, ◌≤◌, ◌≤ℤ◌, [], ◌∷◌, length, pos, IfSome, OnSome};
ghost use Rattle.times_bench.specs.StepWords.{two_digits, seconds_of_words, parse_offset, step_of};
ghost use Rattle.times_bench.specs.Words.{cut_at};

use super::words::is;
use calendar_values::UtcOffset;
use stamp_times::Step;

/// The step of a word: `stamp`, `utc` or an offset.
#[inline(always)]
pub fn step_of(word: &[u8]) -> Option<Step>
    ensures value { result ≡ step_of word.now }
    ensures three_bytes { OnSome result (3 ≤ length word.now) }
{
    if is(word, "stamp") {
        return Some(Step::ToStamp);
    }
    if is(word, "utc") {
        return Some(Step::ToUtc);
    }
    Some(Step::ToOffset(parse_offset(word)?))
}

/// The offset of a word: `+` or `-`, then `HH:MM:SS`, at most 25, 59 and 59.
pub fn parse_offset(word: &[u8]) -> Option<UtcOffset>
    ensures { result ≡ parse_offset word.now }
{
    let (sign, text) = word.split_first()?;
    match *sign {
        b'+' => UtcOffset::from_whole_seconds(seconds_of(text)?).ok(),
        b'-' => UtcOffset::from_whole_seconds(-seconds_of(text)?).ok(),
        _ => None,
    }
}

// The seconds of `HH:MM:SS`.
fn seconds_of(text: &[u8]) -> Option<i32>
    ensures value { result ≡ seconds_of_words (cut_at 58 text.now) }
    ensures in_range { IfSome result (λ seconds. (pos 0 ≤ℤ seconds) × (seconds ≤ℤ pos 93_599)) }
{
    let [
        hour_tens,
        hour,
        third,
        minute_tens,
        minute,
        sixth,
        second_tens,
        second,
    ] = text
    else {
        return None;
    };
    if *third != b':' {
        return None;
    }
    if *sixth != b':' {
        return None;
    }
    let hours = two_digits(25, *hour_tens, *hour)?;
    let minutes = two_digits(59, *minute_tens, *minute)?;
    let seconds = two_digits(59, *second_tens, *second)?;
    let seconds = hours as u32 * 3_600 + minutes as u32 * 60 + seconds as u32;
    Some(seconds as i32)
}

// The number of two digits, if it is at most `most`.
#[inline(always)]
#[tactic(auto, unfolding(crate::specs::StepWords::two_digits))]
fn two_digits(most: u8, tens: u8, units: u8) -> Option<u8>
    ensures value { result ≡ two_digits most (tens ∷ units ∷ []) }
    ensures in_range { IfSome result (λ number. number ≤ most) }
{
    if tens.is_ascii_digit() && units.is_ascii_digit() {
        let number = (tens - b'0') * 10 + (units - b'0');
        if number <= most {
            return Some(number);
        }
    }
    None
}

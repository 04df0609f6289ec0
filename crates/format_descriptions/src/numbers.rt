//! Numbers written with their padding.
ghost use Rattle.std.specs.Prelude.{◌≡◌, ◌≤◌, ◌<◌, ◌++◌, decimal, length, take};
ghost use Rattle.calendar_values.specs.Digits.{last_digits};
ghost use Rattle.format_descriptions.specs.Modifiers.{digit_count};
ghost use Rattle.calendar_values.specs.Texts.{year_digits};
ghost use Rattle.format_descriptions.specs.Written.{two_text, three_text, four_text, century_digits, subsecond_text};

use crate::{Padding, SubsecondDigits};
use calendar_values::Text;

// Adds a number of at most two digits.
#[tactic(auto, unfolding(crate::specs::Written::two_text))]
pub(crate) fn put_two(padding: Padding, number: u8, text: &mut Text)
    requires number { number < 100 }
    requires room { length text.old ≤ 43 }
    ensures { text.new ≡ text.old ++ two_text padding number }
{
    match padding {
        Padding::Zero => text.push_two_digits(number),
        Padding::Space => {
            if number < 10 {
                text.push(b' ');
            }
            put_short_decimal(number, text);
        }
        Padding::Bare => put_short_decimal(number, text),
    }
}

// Adds a number of one or two digits, with no zero in front.
#[tactic(auto, using(crate::proofs::DigitLemmas::short_decimals))]
#[inline(never)]
fn put_short_decimal(number: u8, text: &mut Text)
    requires number { number < 100 }
    requires room { length text.old ≤ 44 }
    ensures { text.new ≡ text.old ++ decimal number }
{
    if number < 10 {
        text.push(b'0' + number);
    } else {
        text.push_two_digits(number);
    }
}

// Adds a number of at most three digits.
#[tactic(auto, unfolding(crate::specs::Written::three_text, calendar_values::specs::Digits::last_digits))]
#[inline(never)]
pub(crate) fn put_three(padding: Padding, number: u16, text: &mut Text)
    requires number { number < 1_000 }
    requires room { length text.old ≤ 42 }
    ensures { text.new ≡ text.old ++ three_text padding number }
{
    match padding {
        Padding::Zero => text.push_bytes(&[
            b'0' + (number / 100 % 10) as u8,
            b'0' + (number / 10 % 10) as u8,
            b'0' + (number % 10) as u8,
        ]),
        Padding::Space => {
            if number < 10 {
                text.push_bytes(b"  ");
            } else if number < 100 {
                text.push(b' ');
            }
            text.push_decimal(number as u64);
        }
        Padding::Bare => text.push_decimal(number as u64),
    }
}

// Adds a number of four digits, or of more where it has more.
#[tactic(auto, unfolding(crate::specs::Written::four_text, calendar_values::specs::Texts::year_digits))]
pub(crate) fn put_four(padding: Padding, number: u32, text: &mut Text)
    requires room { length text.old ≤ 41 }
    ensures { text.new ≡ text.old ++ four_text padding number }
{
    match padding {
        Padding::Zero => put_year_digits(number, text),
        Padding::Space => {
            if number < 1_000 {
                text.push(b' ');
                put_three(Padding::Space, number as u16, text);
            } else {
                put_year_digits(number, text);
            }
        }
        Padding::Bare => {
            if number < 1_000 {
                text.push_decimal(number as u64);
            } else {
                put_year_digits(number, text);
            }
        }
    }
}

// Adds the digits of a year, at least four.
#[tactic(auto, unfolding(calendar_values::specs::Texts::year_digits))]
fn put_year_digits(year: u32, text: &mut Text)
    requires room { length text.old ≤ 42 }
    ensures { text.new ≡ text.old ++ year_digits year }
{
    if year < 10_000 {
        text.push_four_digits(year);
    } else {
        text.push_decimal(year as u64);
    }
}

// Adds the last six digits of a number.
#[tactic(auto, unfolding(calendar_values::specs::Digits::last_digits))]
pub(crate) fn put_six_digits(number: u32, text: &mut Text)
    requires room { length text.old ≤ 42 }
    ensures { text.new ≡ text.old ++ last_digits 6 number }
{
    text.push_four_digits(number / 100);
    text.push_two_digits((number % 100) as u8);
}

// Adds a number of two digits, or of more where it has more.
#[tactic(auto, unfolding(crate::specs::Written::century_digits))]
pub(crate) fn put_century_digits(padding: Padding, number: u32, text: &mut Text)
    requires room { length text.old ≤ 42 }
    ensures { text.new ≡ text.old ++ century_digits padding number }
{
    if number < 100 {
        put_two(padding, number as u8, text);
    } else {
        text.push_decimal(number as u64);
    }
}

// Adds the digits of a fraction.
#[tactic(auto, unfolding(crate::specs::Written::subsecond_text))]
pub(crate) fn put_subsecond(digits: SubsecondDigits, nanosecond: u32, text: &mut Text)
    requires room { length text.old ≤ 42 }
    ensures { text.new ≡ text.old ++ subsecond_text digits nanosecond }
{
    let count = digits.count();
    if count == 0 {
        text.push_fraction(nanosecond);
    } else {
        put_first_digits(count, nanosecond, text);
    }
}

// Adds the first digits of the nine.
fn put_first_digits(count: u8, nanosecond: u32, text: &mut Text)
    requires room { length text.old ≤ 42 }
    ensures { text.new ≡ text.old ++ take count (last_digits 9 nanosecond) }
{
    let nine = nine_digits(nanosecond);
    text.push_bytes(&nine.as_bytes()[..(count as usize).min(9)]);
}

// The last nine digits of a number.
#[tactic(auto, using(crate::proofs::DigitLemmas::pushed_digits))]
fn nine_digits(number: u32) -> Text
    ensures value { result ≡ last_digits 9 number }
    ensures length { length result ≡ 9 }
{
    let mut text = Text::new();
    text.push(b'0' + (number / 100_000_000 % 10) as u8);
    text.push_four_digits(number / 10_000);
    text.push_four_digits(number);
    text
}

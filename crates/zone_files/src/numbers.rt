//! The numbers of a rule's text.
ghost use Rattle.std.specs.Prelude.{◌≡◌, ◌-◌, ◌≤◌, IfOk, IfSome, length};
ghost use Rattle.std.specs.Result.{result_map_both};
ghost use Rattle.zone_files.specs.Numbers.{high, is_number, least_digits, low, most_digits, number_of, value_of};
ghost use Rattle.zone_files.specs.Reading.{after_byte, no_number, number_at};

use crate::faults::{RuleFault, Stop, stop_at};
use crate::pieces::{Kind, split};

// A number of a rule's text.
#[derive(Clone, Copy)]
pub(crate) enum Field {
    Month,
    Week,
    Weekday,
    Common,
    Counted,
    OffsetHours,
    TimeHours,
    Sixtieth,
}

impl Field {
    // The least number of digits.
    fn least_digits(self) -> usize
        ensures { result ≡ least_digits self }
    {
        match self {
            Field::Sixtieth => 2,
            _ => 1,
        }
    }

    // The greatest number of digits.
    fn most_digits(self) -> usize
        ensures value { result ≡ most_digits self }
        ensures bound { result ≤ 3 }
    {
        match self {
            Field::Week | Field::Weekday => 1,
            Field::Month | Field::Sixtieth => 2,
            _ => 3,
        }
    }

    // The least number.
    fn low(self) -> u16
        ensures { result ≡ low self }
    {
        match self {
            Field::Month | Field::Week | Field::Common => 1,
            _ => 0,
        }
    }

    // The greatest number.
    fn high(self) -> u16
        ensures { result ≡ high self }
    {
        match self {
            Field::Month => 12,
            Field::Week => 5,
            Field::Weekday => 6,
            Field::Common => 365,
            Field::Counted => 365,
            Field::OffsetHours => 24,
            Field::TimeHours => 167,
            Field::Sixtieth => 59,
        }
    }
}

// The number of a field in front, and what follows it.
#[tactic(auto, unfolding(crate::specs::Reading::number_at))]
pub(crate) fn number(field: Field, text: &[u8]) -> Result<(u16, &[u8]), Stop>
    ensures value { result_map_both (λ read. (read.0, read.1.now)) (λ stop. stop) result
        ≡ number_at field text.now }
    ensures low { IfOk result (λ read. low field ≤ read.0) }
    ensures high { IfOk result (λ read. read.0 ≤ high field) }
{
    let (digits, rest) = split(Kind::Digit, text);
    match number_of(field, digits) {
        Some(value) => Ok((value, rest)),
        None => Err(no_number(digits, text)),
    }
}

// The number of the digits of a field, if they are as many as it has, and in its range.
fn number_of(field: Field, digits: &[u8]) -> Option<u16>
    ensures value { result ≡ number_of field digits.now }
    ensures low { IfSome result (λ value. low field ≤ value) }
    ensures high { IfSome result (λ value. value ≤ high field) }
{
    if digits.len() < field.least_digits() || digits.len() > field.most_digits() {
        return None;
    }
    let value = value_of(digits);
    if value < field.low() || value > field.high() {
        return None;
    }
    Some(value)
}

// The fault of a text that does not begin with a number of a field.
fn no_number(digits: &[u8], text: &[u8]) -> Stop
    ensures { result ≡ no_number digits.now text.now }
{
    if digits.is_empty() {
        stop_at(RuleFault::Digit, text)
    } else {
        stop_at(RuleFault::Range, text)
    }
}

// The number of at most three decimal digits.
#[tactic(auto, using(crate::proofs::NumberLemmas::values))]
fn value_of(digits: &[u8]) -> u16
    requires { length digits.now ≤ 3 }
    ensures { result ≡ value_of digits.now }
{
    match digits {
        [a] => digit(*a),
        [a, b] => digit(*a) * 10 + digit(*b),
        [a, b, c] => digit(*a) * 100 + digit(*b) * 10 + digit(*c),
        _ => 0,
    }
}

// What a byte counts as a digit.
fn digit(byte: u8) -> u16
    ensures value { result ≡ byte - 48 }
    ensures bound { result ≤ 207 }
{
    byte.saturating_sub(b'0') as u16
}

// What follows a byte that has to stand in front.
pub(crate) fn after_byte(wanted: u8, text: &[u8]) -> Result<&[u8], Stop>
    ensures { result_map_both (λ rest. rest.now) (λ stop. stop) result
        ≡ after_byte wanted text.now }
{
    match text.split_first() {
        Some((byte, rest)) if *byte == wanted => Ok(rest),
        _ => Err(stop_at(RuleFault::Byte, text)),
    }
}

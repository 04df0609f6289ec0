//! The parts of a text, read from its front on.
ghost use Rattle.std.specs.Prelude.{◌≡◌, ◌+◌, ◌-◌, ◌*◌, ◌≤◌, ◌==◌, option_map, IfSome};
ghost use Rattle.std.specs.Int.{IsInRange};
ghost use Rattle.rfc3339.specs.Reading.{digit_at, two_digits_at, mark_at, part_at, year_at};
ghost use Rattle.rfc3339.specs.Reading.{separator_at, digits_at, fraction_at, zone_at};
ghost use Rattle.iso_texts.specs.IsoReading.{is_sign, six_digits_on, four_digits_on, iso_year_at};
ghost use Rattle.iso_texts.specs.IsoReading.{seconds_at, seconds_on, begins_with_sign, iso_offset_at};
ghost use Rattle.iso_texts.specs.IsoReading.{iso_second_on, iso_time_on, iso_parts_at};

use crate::IsoParts;

// The parts of a text, if the grammar derives it.
#[tactic(auto, unfolding(crate::specs::IsoReading::iso_parts_at))]
pub(crate) fn parts(text: &[u8]) -> Option<IsoParts>
    ensures value { result ≡ iso_parts_at text.now }
    ensures in_range { IfSome result (λ p.
        (p.nanosecond ≤ 999_999_999) × (p.year ≤ 999_999) × (p.offset_second ≤ 59)) }
{
    let (year, text) = year(text)?;
    let (month, text) = part(b'-', text)?;
    let (day, text) = part(b'-', text)?;
    after_date(year, month, day, text)
}

// The same, from what follows its date on.
fn after_date(year: (bool, u32), month: u8, day: u8, text: &[u8]) -> Option<IsoParts>
    requires { year.1 ≤ 999_999 }
    ensures value { result ≡ iso_time_on year month day text.now }
    ensures in_range { IfSome result (λ p.
        (p.nanosecond ≤ 999_999_999) × (p.year ≤ 999_999) × (p.offset_second ≤ 59)) }
{
    let (hour, text) = two_digits(after_separator(text)?)?;
    let (minute, text) = part(b':', text)?;
    after_minute(year, month, day, hour, minute, text)
}

// The same, from what follows its minute on.
fn after_minute(
    year: (bool, u32),
    month: u8,
    day: u8,
    hour: u8,
    minute: u8,
    text: &[u8],
) -> Option<IsoParts>
    requires { year.1 ≤ 999_999 }
    ensures value { result ≡ iso_second_on year month day hour minute text.now }
    ensures in_range { IfSome result (λ p.
        (p.nanosecond ≤ 999_999_999) × (p.year ≤ 999_999) × (p.offset_second ≤ 59)) }
{
    let (second, text) = part(b':', text)?;
    let (nanosecond, text) = fraction(text)?;
    let ((is_west, offset_hour, offset_minute), offset_second) = offset(text)?;
    let (is_before, year) = year;
    Some(IsoParts {
        is_before,
        year,
        month,
        day,
        hour,
        minute,
        second,
        nanosecond,
        is_west,
        offset_hour,
        offset_minute,
        offset_second,
    })
}

// A sign and six digits, or four digits: whether the sign is `-`, and the number; and what follows them.
#[tactic(auto, unfolding(crate::specs::IsoReading::iso_year_at))]
fn year(text: &[u8]) -> Option<((bool, u32), &[u8])>
    ensures value { option_map (λ read. (read.0, read.1.now)) result ≡ iso_year_at text.now }
    ensures in_range { IfSome result (λ read. read.0.1 ≤ 999_999) }
{
    let (first, rest) = text.split_first()?;
    if is_sign(*first) {
        six_digits(*first == b'-', rest)
    } else {
        four_digits(text)
    }
}

// Whether it is `+` or `-`.
pub(crate) fn is_sign(byte: u8) -> bool
    ensures { result ≡ is_sign byte }
{
    (byte == b'+') | (byte == b'-')
}

// The six digits after the sign.
fn six_digits(is_before: bool, text: &[u8]) -> Option<((bool, u32), &[u8])>
    ensures value { option_map (λ read. (read.0, read.1.now)) result
        ≡ six_digits_on is_before text.now }
    ensures in_range { IfSome result (λ read. read.0.1 ≤ 999_999) }
{
    let (front, text) = two_digits(text)?;
    let (back, text) = plain_year(text)?;
    Some(((is_before, front as u32 * 10_000 + back), text))
}

// Four digits.
fn four_digits(text: &[u8]) -> Option<((bool, u32), &[u8])>
    ensures value { option_map (λ read. (read.0, read.1.now)) result ≡ four_digits_on text.now }
    ensures in_range { IfSome result (λ read. read.0.1 ≤ 999_999) }
{
    let (year, text) = plain_year(text)?;
    Some(((false, year), text))
}

// The number of four digits, and what follows them.
#[tactic(auto, unfolding(rfc3339::specs::Reading::year_at))]
pub(crate) fn plain_year(text: &[u8]) -> Option<(u32, &[u8])>
    ensures value { option_map (λ read. (read.0, read.1.now)) result ≡ year_at text.now }
    ensures in_range { IfSome result (λ read. read.0 ≤ 9_999) }
{
    let (century, text) = two_digits(text)?;
    let (year, text) = two_digits(text)?;
    Some((century as u32 * 100 + year as u32, text))
}

// The two digits after a mark, and what follows them.
#[tactic(auto, unfolding(rfc3339::specs::Reading::part_at))]
pub(crate) fn part(mark: u8, text: &[u8]) -> Option<(u8, &[u8])>
    ensures value { option_map (λ read. (read.0, read.1.now)) result ≡ part_at mark text.now }
    ensures in_range { IfSome result (λ read. read.0 ≤ 99) }
{
    two_digits(after_mark(mark, text)?)
}

// A number of two digits, and what follows it.
#[tactic(auto, unfolding(rfc3339::specs::Reading::two_digits_at, rfc3339::specs::Reading::digit_at))]
pub(crate) fn two_digits(text: &[u8]) -> Option<(u8, &[u8])>
    ensures value { option_map (λ read. (read.0, read.1.now)) result ≡ two_digits_at text.now }
    ensures in_range { IfSome result (λ read. read.0 ≤ 99) }
{
    let [tens, units, rest @ ..] = text else {
        return None;
    };
    if tens.is_ascii_digit() & units.is_ascii_digit() {
        Some((number(*tens, *units), rest))
    } else {
        None
    }
}

// The number of two digits.
fn number(tens: u8, units: u8) -> u8
    requires tens { IsInRange 48 57 tens }
    requires units { IsInRange 48 57 units }
    ensures { result ≡ (tens - 48) * 10 + (units - 48) }
{
    (tens - b'0') * 10 + (units - b'0')
}

// The digit in front, and what follows it.
#[tactic(auto, unfolding(rfc3339::specs::Reading::digit_at))]
fn digit(text: &[u8]) -> Option<(u8, &[u8])>
    ensures value { option_map (λ read. (read.0, read.1.now)) result ≡ digit_at text.now }
    ensures in_range { IfSome result (λ read. read.0 ≤ 9) }
{
    let (first, text) = text.split_first()?;
    if first.is_ascii_digit() {
        Some((*first - b'0', text))
    } else {
        None
    }
}

// What follows the mark, if the text begins with it.
#[tactic(auto, unfolding(rfc3339::specs::Reading::mark_at))]
fn after_mark(mark: u8, text: &[u8]) -> Option<&[u8]>
    ensures { option_map (λ rest. rest.now) result ≡ mark_at mark text.now }
{
    let (first, text) = text.split_first()?;
    if *first == mark { Some(text) } else { None }
}

// What follows `T`, `t` or a space, if the text begins with one.
#[tactic(auto, unfolding(rfc3339::specs::Reading::separator_at))]
pub(crate) fn after_separator(text: &[u8]) -> Option<&[u8]>
    ensures { option_map (λ rest. rest.now) result ≡ separator_at text.now }
{
    let (first, text) = text.split_first()?;
    if *first == b'T' || *first == b't' || *first == b' ' {
        Some(text)
    } else {
        None
    }
}

// The nanosecond that a point and digits make, and what follows them; 0 without a point.
#[tactic(auto, unfolding(rfc3339::specs::Reading::fraction_at))]
pub(crate) fn fraction(text: &[u8]) -> Option<(u32, &[u8])>
    ensures value { option_map (λ read. (read.0, read.1.now)) result ≡ fraction_at text.now }
    ensures in_range { IfSome result (λ read. read.0 ≤ 999_999_999) }
{
    let Some(digits) = after_mark(b'.', text) else {
        return Some((0, text));
    };
    let (nanosecond, rest) = nanosecond(digits);
    if rest.len() == digits.len() {
        return None;
    }
    Some((nanosecond, rest))
}

// The nanosecond of the digits of a fraction, those past the ninth dropped, and what follows them.
fn nanosecond(text: &[u8]) -> (u32, &[u8])
    ensures value { (result.0, result.1.now) ≡ digits_at 100_000_000 text.now }
    ensures in_range { result.0 ≤ 999_999_999 }
{
    let mut rest = text;
    let mut unit = 100_000_000;
    let mut nanosecond = 0;
    while unit > 0 {
        let Some((digit, more)) = digit(rest) else {
            return (nanosecond, rest);
        };
        nanosecond += digit as u32 * unit;
        unit /= 10;
        rest = more;
    }
    (nanosecond, after_digits(rest))
}

// What follows the digits in front.
fn after_digits(text: &[u8]) -> &[u8]
    ensures { (0, result.now) ≡ digits_at 0 text.now }
{
    let mut rest = text;
    while let Some((_, more)) = digit(rest) {
        rest = more;
    }
    rest
}

// An offset, with nothing after it: whether it is west, the hours and the minutes; and the seconds.
#[tactic(auto, unfolding(crate::specs::IsoReading::iso_offset_at))]
fn offset(text: &[u8]) -> Option<((bool, u8, u8), u8)>
    ensures value { result ≡ iso_offset_at text.now }
    ensures in_range { IfSome result (λ read. read.1 ≤ 59) }
{
    let (zone, rest) = zone(text)?;
    let second = seconds_after(begins_with_sign(text), rest)?;
    Some((zone, second))
}

// Whether the text begins with `+` or `-`.
pub(crate) fn begins_with_sign(text: &[u8]) -> bool
    ensures { result ≡ begins_with_sign text.now }
{
    match text.split_first() {
        Some((first, _)) => is_sign(*first),
        None => false,
    }
}

// `Z` or `z`, or a sign, hours and minutes: whether it is west, the hours, the minutes; and what follows them.
#[tactic(auto, unfolding(rfc3339::specs::Reading::zone_at))]
pub(crate) fn zone(text: &[u8]) -> Option<((bool, u8, u8), &[u8])>
    ensures { option_map (λ read. (read.0, read.1.now)) result ≡ zone_at text.now }
{
    let (first, rest) = text.split_first()?;
    if *first == b'Z' || *first == b'z' {
        return Some(((false, 0, 0), rest));
    }
    if *first == b'+' || *first == b'-' {
        let (hour, rest) = two_digits(rest)?;
        let (minute, rest) = part(b':', rest)?;
        return Some(((*first == b'-', hour, minute), rest));
    }
    None
}

// The seconds that may follow the minutes of an offset with a sign, with nothing after them.
fn seconds_after(is_signed: bool, text: &[u8]) -> Option<u8>
    ensures value { result ≡ seconds_on is_signed text.now }
    ensures in_range { IfSome result (λ second. second ≤ 59) }
{
    if is_signed {
        seconds(text)
    } else if text.is_empty() {
        Some(0)
    } else {
        None
    }
}

// The seconds of an offset, or 0 if the text is empty.
#[tactic(auto, unfolding(crate::specs::IsoReading::seconds_at))]
fn seconds(text: &[u8]) -> Option<u8>
    ensures value { result ≡ seconds_at text.now }
    ensures in_range { IfSome result (λ second. second ≤ 59) }
{
    if text.is_empty() {
        return Some(0);
    }
    let (second, rest) = part(b':', text)?;
    if second < 60 && rest.is_empty() {
        Some(second)
    } else {
        None
    }
}

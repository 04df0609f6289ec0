//! Texts written into bytes of the caller's.
ghost use Rattle.std.specs.Prelude.{◌≡◌, ◌≤◌, ◌<◌, ◌+◌, ◌++◌, ◌∷◌, length, take, drop, codes, if◌then◌else◌};
ghost use Rattle.calendar_values.specs.Digits.{last_digits, fraction_digits};
ghost use Rattle.rfc3339.specs.Meaning.{offset_of, value_of, AreInRange};
ghost use Rattle.rfc3339.specs.Texts.{time_offset_text, rfc3339_text};
ghost use Rattle.rfc3339.specs.Walls.{wall_text};
ghost use Rattle.stamp_times.specs.Texts.{fraction_text};

use crate::Parts;
use crate::pairs::pair;

/// The bytes of the longest text that is written, as `1985-04-12T23:20:50.520000001+05:30`.
pub const TEXT_ROOM: usize = 35;

/// Writes the text of the date-time that these numbers mean, as
/// [`Rfc3339::to_rfc3339`](crate::Rfc3339::to_rfc3339) has it, at the front of `bytes`, and gives
/// its length. Each number must be in its range, and `bytes` must have 35 bytes or more, which no
/// text is longer than. The bytes after the text do not change.
#[inline(always)]
pub fn write_rfc3339_parts(parts: Parts, bytes: &mut [u8]) -> usize
    requires parts { AreInRange parts }
    requires year { parts.year ≤ 9_999 }
    requires nanosecond { parts.nanosecond ≤ 999_999_999 }
    requires room { 35 ≤ length bytes.old }
    ensures text { bytes.new ≡ rfc3339_text (value_of parts) ++ drop result bytes.old }
    ensures length { result ≡ length (rfc3339_text (value_of parts)) }
    ensures at_most { result ≤ 35 }
{
    put_wall(bytes, parts);
    let end = put_fraction(bytes, 19, parts.nanosecond);
    put_offset(
        bytes,
        end,
        parts.is_west,
        parts.offset_hour,
        parts.offset_minute,
    )
}

// Puts a date, a `T` and a time of day to the second in front. Two digits are stored at once.
#[inline(always)]
fn put_wall(bytes: &mut [u8], parts: Parts)
    requires year { parts.year ≤ 9_999 }
    requires month { parts.month < 100 }
    requires day { parts.day < 100 }
    requires hour { parts.hour < 100 }
    requires minute { parts.minute < 100 }
    requires second { parts.second < 100 }
    requires room { 19 ≤ length bytes.old }
    ensures { bytes.new ≡ wall_text parts ++ drop 19 bytes.old }
{
    put_pair(bytes, 0, (parts.year / 100) as u8);
    put_pair(bytes, 2, (parts.year % 100) as u8);
    put_part(bytes, 4, b'-', parts.month);
    put_part(bytes, 7, b'-', parts.day);
    put_part(bytes, 10, b'T', parts.hour);
    put_part(bytes, 13, b':', parts.minute);
    put_part(bytes, 16, b':', parts.second);
}

// Puts a mark and two digits at a place.
#[inline(always)]
fn put_part(bytes: &mut [u8], place: usize, mark: u8, number: u8)
    requires number { number < 100 }
    requires room { place + 3 ≤ length bytes.old }
    ensures { bytes.new ≡ take place bytes.old ++ (mark ∷ last_digits 2 number)
        ++ drop (place + 3) bytes.old }
{
    write_at(bytes, place, &[mark]);
    put_pair(bytes, place + 1, number);
}

// Puts two digits at a place.
#[inline(always)]
fn put_pair(bytes: &mut [u8], place: usize, number: u8)
    requires number { number < 100 }
    requires room { place + 2 ≤ length bytes.old }
    ensures { bytes.new ≡ take place bytes.old ++ last_digits 2 number
        ++ drop (place + 2) bytes.old }
{
    write_at(bytes, place, &pair(number));
}

// Puts the fraction at a place, if there is one, and returns the place after it.
#[inline(always)]
fn put_fraction(bytes: &mut [u8], place: usize, nanosecond: u32) -> usize
    requires nanosecond { nanosecond ≤ 999_999_999 }
    requires room { place + 10 ≤ length bytes.old }
    ensures value { bytes.new ≡ take place bytes.old ++ fraction_text nanosecond
        ++ drop result bytes.old }
    ensures place { result ≡ place + length (fraction_text nanosecond) }
    ensures at_most { result ≤ place + 10 }
{
    if nanosecond == 0 {
        place
    } else {
        put_some_fraction(bytes, place, nanosecond)
    }
}

// The same for a nanosecond that is not 0. It is not in line, since many texts have no fraction.
#[inline(never)]
fn put_some_fraction(bytes: &mut [u8], place: usize, nanosecond: u32) -> usize
    requires nanosecond { nanosecond ≤ 999_999_999 }
    requires some { 1 ≤ nanosecond }
    requires room { place + 10 ≤ length bytes.old }
    ensures value { bytes.new ≡ take place bytes.old ++ fraction_text nanosecond
        ++ drop result bytes.old }
    ensures place { result ≡ place + length (fraction_text nanosecond) }
    ensures at_most { result ≤ place + 10 }
{
    if nanosecond % 10 != 0 {
        return write_at(bytes, place, &nine_digits(nanosecond));
    }
    let microsecond = nanosecond / 1_000;
    if nanosecond % 1_000 == 0 && microsecond % 10 != 0 {
        return write_at(bytes, place, &six_digits(microsecond));
    }
    let millisecond = nanosecond / 1_000_000;
    if nanosecond % 1_000_000 == 0 && millisecond % 10 != 0 {
        return write_at(bytes, place, &three_digits(millisecond));
    }
    put_any_fraction(bytes, place, nanosecond)
}

// The same of any, by nine digits, of which the zeros at the end are left out.
fn put_any_fraction(bytes: &mut [u8], place: usize, nanosecond: u32) -> usize
    requires nanosecond { nanosecond ≤ 999_999_999 }
    requires some { 1 ≤ nanosecond }
    requires room { place + 10 ≤ length bytes.old }
    ensures value { bytes.new ≡ take place bytes.old ++ fraction_text nanosecond
        ++ drop result bytes.old }
    ensures place { result ≡ place + length (fraction_text nanosecond) }
    ensures at_most { result ≤ place + 10 }
{
    let digits = nine_digits(nanosecond);
    let end = 1 + count_before_zeros(nanosecond);
    write_at(bytes, place, &digits[..end])
}

// How many of the nine digits of a fraction come before the zeros at its end, and 1 where all are zeros.
#[inline(always)]
fn count_before_zeros(nanosecond: u32) -> usize
    ensures value { take result (last_digits 9 nanosecond) ≡ fraction_digits 9 nanosecond }
    ensures at_most { result ≤ 9 }
{
    let mut rest = nanosecond;
    let mut count = 9;
    while count > 1 {
        if rest % 10 != 0 {
            return count;
        }
        rest /= 10;
        count -= 1;
    }
    count
}

// A point and nine digits.
#[tactic(auto, unfolding(calendar_values::specs::Digits::last_digits))]
#[inline(always)]
fn nine_digits(number: u32) -> [u8; 10]
    requires { number ≤ 999_999_999 }
    ensures { result ≡ codes "." ++ last_digits 9 number }
{
    let [b, c] = pair((number / 1_000_000 % 100) as u8);
    let [d, e] = pair((number / 10_000 % 100) as u8);
    let [f, g] = pair((number / 100 % 100) as u8);
    let [h, i] = pair((number % 100) as u8);
    [
        b'.',
        b'0' + (number / 100_000_000) as u8,
        b,
        c,
        d,
        e,
        f,
        g,
        h,
        i,
    ]
}

// A point and six digits.
#[tactic(auto, unfolding(calendar_values::specs::Digits::last_digits))]
#[inline(always)]
fn six_digits(number: u32) -> [u8; 7]
    requires { number ≤ 999_999 }
    ensures { result ≡ codes "." ++ last_digits 6 number }
{
    let [a, b] = pair((number / 10_000) as u8);
    let [c, d] = pair((number / 100 % 100) as u8);
    let [e, f] = pair((number % 100) as u8);
    [b'.', a, b, c, d, e, f]
}

// A point and three digits.
#[tactic(auto, unfolding(calendar_values::specs::Digits::last_digits))]
#[inline(always)]
fn three_digits(number: u32) -> [u8; 4]
    requires { number ≤ 999 }
    ensures { result ≡ codes "." ++ last_digits 3 number }
{
    let [b, c] = pair((number % 100) as u8);
    [b'.', b'0' + (number / 100) as u8, b, c]
}

// Puts the offset of these hours and minutes at a place, and returns the place after it.
#[inline(always)]
fn put_offset(bytes: &mut [u8], place: usize, is_west: bool, hour: u8, minute: u8) -> usize
    requires room { place + 6 ≤ length bytes.old }
    requires hour { hour ≤ 23 }
    requires minute { minute ≤ 59 }
    ensures value { bytes.new ≡ take place bytes.old
        ++ time_offset_text (offset_of is_west hour minute) ++ drop result bytes.old }
    ensures place { result ≡ place + length (time_offset_text (offset_of is_west hour minute)) }
    ensures at_most { result ≤ place + 6 }
{
    if (hour == 0) & (minute == 0) {
        return write_at(bytes, place, b"Z");
    }
    write_at(bytes, place, &offset_bytes(is_west, hour, minute))
}

// A sign, two digits of the hours, `:` and two digits of the minutes.
#[tactic(auto, unfolding(calendar_values::specs::Digits::last_digits))]
#[inline(always)]
fn offset_bytes(is_west: bool, hour: u8, minute: u8) -> [u8; 6]
    requires hour { hour < 100 }
    requires minute { minute < 100 }
    ensures { result ≡ (if is_west then codes "-" else codes "+") ++ last_digits 2 hour
        ++ codes ":" ++ last_digits 2 minute }
{
    let [hour_tens, hour] = pair(hour);
    let [minute_tens, minute] = pair(minute);
    if is_west {
        [b'-', hour_tens, hour, b':', minute_tens, minute]
    } else {
        [b'+', hour_tens, hour, b':', minute_tens, minute]
    }
}

// Puts bytes at a place, and returns the place after them.
#[inline(always)]
fn write_at(bytes: &mut [u8], place: usize, text: &[u8]) -> usize
    requires { place + length text.now ≤ length bytes.old }
    ensures value { bytes.new ≡ take place bytes.old ++ text.now ++ drop result bytes.old }
    ensures place { result ≡ place + length text.now }
{
    let end = place + text.len();
    bytes[place..end].copy_from_slice(text);
    end
}

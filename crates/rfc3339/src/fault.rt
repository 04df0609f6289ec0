//! Where a text has not the form.
ghost use Rattle.std.specs.Prelude.{◌≡◌, ◌≤◌, ◌<◌, ◌+◌, ◌++◌, List, ℕ, codes, length, take, if◌then◌else◌};
ghost use Rattle.rfc3339.specs.Faults.{may_stand, next_place, place_in_offset, standing};
ghost use Rattle.rfc3339.specs.Form.{IsDateTime};
ghost use Rattle.rfc3339.specs.declared.parts.Parts.{Parts};

// The place after the separator of the date and the time of day.
const AFTER_SEPARATOR: u8 = 11;

// The places of the form after the 19 bytes of the date and of the time of day: before a point or an offset,
const AFTER_SECOND: u8 = 19;

// after the point,
const AFTER_POINT: u8 = 20;

// after a digit of the fraction,
const IN_FRACTION: u8 = 21;

// after the sign of an offset, with the hours, a colon and the minutes from there on,
const AFTER_SIGN: u8 = 22;

// before that colon,
const BEFORE_COLON: u8 = 24;

// and after the end. A byte that may not be where it is leads nowhere.
const END: u8 = 27;

const NOWHERE: u8 = 28;

/// The index of the fault in a text that fails with `Syntax`: 10 for `1985-04-12_23:20:50Z`. No
/// text of the form continues with the byte at that index; or the text ends there, too early. For a
/// text of the form it is the length of the text.
///
/// ```
/// assert_eq!(rt; rfc3339::syntax_fault(b"1937-01-01T12:00"), 16);
/// ```
pub fn syntax_fault(text: &[u8]) -> usize
    ensures place { result ≡ standing 0 text.now }
    ensures at_most { result ≤ length text.now }
    // Some text of the form begins with the bytes before that place,
    ensures begins { (rest : List ℕ) × (p : Parts) × IsDateTime (take result text.now ++ rest) p }
    // and none with more of them.
    ensures longest { (n : ℕ) (rest : List ℕ) (p : Parts) → n ≤ length text.now
        → IsDateTime (take n text.now ++ rest) p → n ≤ result }
{
    standing(0, text)
}

/// The index of the fault in a text that has not the form of a time of day with an offset: 8 for
/// `12:34:56`. No text of the form continues with the byte at that index; or the text ends there,
/// too early. For a text of the form it is the length of the text.
///
/// ```
/// assert_eq!(rt; rfc3339::full_time_fault(b"23:20:50+1:00"), 10);
/// ```
pub fn full_time_fault(text: &[u8]) -> usize
    ensures at_most { result ≤ length text.now }
    // After a date, some date-time continues with the bytes before that place,
    ensures begins { (rest : List ℕ) × (p : Parts) ×
        IsDateTime (codes "1970-01-01T" ++ take result text.now ++ rest) p }
    // and none with more of them.
    ensures longest { (n : ℕ) (rest : List ℕ) (p : Parts) → n ≤ length text.now
        → IsDateTime (codes "1970-01-01T" ++ take n text.now ++ rest) p → n ≤ result }
{
    standing(AFTER_SEPARATOR, text)
}

// How many bytes may stand where they do, from a place on.
fn standing(first: u8, text: &[u8]) -> usize
    ensures place { result ≡ standing first text.now }
    ensures at_most { result ≤ length text.now }
{
    let mut place = first;
    for (k, byte) in text.iter().enumerate() {
        place = next_place(place, *byte);
        if place == NOWHERE {
            return k;
        }
    }
    text.len()
}

// The place after a byte.
#[tactic(auto, unfolding(crate::specs::Faults::next_place))]
fn next_place(place: u8, byte: u8) -> u8
    ensures { result ≡ next_place place byte }
{
    if place < AFTER_SECOND {
        return next_if(may_stand(place, byte), place);
    }
    match place {
        AFTER_SECOND => if byte == b'.' {
            AFTER_POINT
        } else {
            place_in_offset(byte)
        },
        AFTER_POINT => next_if(byte.is_ascii_digit(), AFTER_POINT),
        IN_FRACTION => if byte.is_ascii_digit() {
            IN_FRACTION
        } else {
            place_in_offset(byte)
        },
        BEFORE_COLON => next_if(byte == b':', BEFORE_COLON),
        AFTER_SIGN..END => next_if(byte.is_ascii_digit(), place),
        _ => NOWHERE,
    }
}

// The next place, if the byte may stand at this one.
fn next_if(may_stand: bool, place: u8) -> u8
    requires { place < 27 }
    ensures { result ≡ if may_stand then place + 1 else 28 }
{
    if may_stand { place + 1 } else { NOWHERE }
}

// Whether a byte may stand at one of the 19 places of the date and of the time of day.
#[tactic(auto, unfolding(crate::specs::Faults::may_stand))]
fn may_stand(place: u8, byte: u8) -> bool
    ensures { result ≡ may_stand place byte }
{
    match place {
        4 | 7 => byte == b'-',
        10 => byte == b'T' || byte == b't' || byte == b' ',
        13 | 16 => byte == b':',
        _ => byte.is_ascii_digit(),
    }
}

// The place after the first byte of an offset.
#[tactic(auto, unfolding(crate::specs::Faults::place_in_offset))]
fn place_in_offset(byte: u8) -> u8
    ensures { result ≡ place_in_offset byte }
{
    match byte {
        b'Z' | b'z' => END,
        b'+' | b'-' => AFTER_SIGN,
        _ => NOWHERE,
    }
}

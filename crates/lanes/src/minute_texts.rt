//! The first sixteen bytes of a text of RFC 3339, `YYYY-MM-DDTHH:MM`, tested at once and read at
//! once.
ghost use Rattle.std.specs.Prelude.{◌≡◌, ◌↔◌, IsTrue, [], ◌∷◌};
ghost use Rattle.lanes.specs.MinuteTexts.{IsMinuteText, pair_number};

use std::simd::prelude::*;

// What is taken away from each byte: it leaves 0 to 9 of a digit, and 0 of a separator.
const FIRST: [u8; 16] = [
    b'0', b'0', b'0', b'0', b'-', b'0', b'0', b'-', b'0', b'0', b'T', b'0', b'0', b':', b'0', b'0',
];

// The most that it leaves.
const MOST: [u8; 16] = [9, 9, 9, 9, 0, 9, 9, 0, 9, 9, 0, 9, 9, 0, 9, 9];

/// Whether sixteen bytes have the form `YYYY-MM-DDTHH:MM` of RFC 3339, with `T` and a digit for
/// each other letter.
#[inline(always)]
pub fn is_minute_text(bytes: u8x16) -> bool
    ensures { IsTrue result ↔ IsMinuteText bytes }
{
    let left = bytes - u8x16::from_array(FIRST);
    left.simd_le(u8x16::from_array(MOST)).to_bitmask() == 0xffff
}

/// The numbers of bytes of that form: the century, the year of the century, the month, the day, the
/// hour and the minute, which is in the last three lanes.
#[inline(always)]
pub fn minute_text_numbers(bytes: u8x16) -> u8x8
    requires { IsMinuteText bytes }
    ensures { result ≡ pair_number bytes 0 ∷ pair_number bytes 2 ∷ pair_number bytes 5
        ∷ pair_number bytes 8 ∷ pair_number bytes 11 ∷ pair_number bytes 14
        ∷ pair_number bytes 14 ∷ pair_number bytes 14 ∷ [] }
{
    let digits = bytes - u8x16::splat(b'0');
    let tens = digits.swizzle([0, 2, 5, 8, 11, 14, 14, 14]);
    let ones = digits.swizzle([1, 3, 6, 9, 12, 15, 15, 15]);
    tens * u8x8::splat(10) + ones
}

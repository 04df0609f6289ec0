//! Places of bytes in a text.
ghost use Rattle.std.specs.Prelude.{◌≡◌, ◌≤◌, ◌<◌, ◌+◌, length, get_or};
ghost use Rattle.line_devices.specs.LineParts.{HasNone};

use std::simd::prelude::*;

// How many bytes are compared at a time.
const LANES: usize = 16;

/// The first place of a byte from a place on, or the end of the text.
pub fn place_of(byte: u8, text: &[u8], from: usize) -> usize
    requires { from ≤ length text.now }
    ensures bounds { (from ≤ result) × (result ≤ length text.now) }
    ensures before { HasNone byte text.now from result }
    ensures byte_there { result < length text.now → get_or text.now result 0 ≡ byte }
{
    let mut place = from;
    'runs: while LANES <= text.len() - place {
        let count = count_before(byte, text, place);
        if count < LANES {
            return place + count;
        }
        place += LANES;
    }
    'bytes: while place < text.len() && text[place] != byte {
        place += 1;
    }
    place
}

// How many of the sixteen bytes from a place on stand before the first that is the byte.
#[inline(always)]
fn count_before(byte: u8, text: &[u8], place: usize) -> usize
    requires { place + 16 ≤ length text.now }
    ensures bound { result ≤ 16 }
    ensures before { HasNone byte text.now place (place + result) }
    ensures byte_there { result < 16 → get_or text.now (place + result) 0 ≡ byte }
{
    let marks = u8x16::from_slice(&text[place..])
        .simd_eq(u8x16::splat(byte))
        .to_bitmask();
    if marks == 0 {
        return LANES;
    }
    marks.trailing_zeros() as usize
}

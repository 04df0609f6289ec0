//! The clocks of a rule's text: hours, perhaps minutes and seconds, and a sign.
ghost use Rattle.std.specs.Prelude.{◌≡◌, ◌+◌, ◌*◌, ◌≤◌, IfOk, pos, neg_ℤ, ◌≤ℤ◌};
ghost use Rattle.std.specs.Result.{result_map_both};
ghost use Rattle.zone_files.specs.Numbers.{high};
ghost use Rattle.zone_files.specs.Reading.{clock_at, minutes_at, seconds_at, sign_at, signed_at, sixtieths_at, with_sign};

use crate::faults::Stop;
use crate::numbers::{Field, number};

// The seconds after a colon, or none.
fn seconds(text: &[u8]) -> Result<(u16, &[u8]), Stop>
    ensures value { result_map_both (λ read. (read.0, read.1.now)) (λ stop. stop) result
        ≡ seconds_at text.now }
    ensures bound { IfOk result (λ read. read.0 ≤ 59) }
{
    match text.split_first() {
        Some((b':', rest)) => number(Field::Sixtieth, rest),
        _ => Ok((0, text)),
    }
}

// Minutes, and perhaps seconds, in seconds.
#[tactic(auto, unfolding(crate::specs::Reading::sixtieths_at))]
fn sixtieths(text: &[u8]) -> Result<(u16, &[u8]), Stop>
    ensures value { result_map_both (λ read. (read.0, read.1.now)) (λ stop. stop) result
        ≡ sixtieths_at text.now }
    ensures bound { IfOk result (λ read. read.0 ≤ 3_599) }
{
    let (minutes, rest) = number(Field::Sixtieth, text)?;
    let (more, rest) = seconds(rest)?;
    Ok((minutes * 60 + more, rest))
}

// The minutes and seconds after a colon, or none.
fn minutes(text: &[u8]) -> Result<(u16, &[u8]), Stop>
    ensures value { result_map_both (λ read. (read.0, read.1.now)) (λ stop. stop) result
        ≡ minutes_at text.now }
    ensures bound { IfOk result (λ read. read.0 ≤ 3_599) }
{
    match text.split_first() {
        Some((b':', rest)) => sixtieths(rest),
        _ => Ok((0, text)),
    }
}

// Hours, and perhaps minutes and seconds, in seconds.
#[tactic(auto, unfolding(crate::specs::Reading::clock_at))]
fn clock(hours: Field, text: &[u8]) -> Result<(u32, &[u8]), Stop>
    ensures value { result_map_both (λ read. (read.0, read.1.now)) (λ stop. stop) result
        ≡ clock_at hours text.now }
    ensures bound { IfOk result (λ read. read.0 ≤ high hours * 3_600 + 3_599) }
{
    let (count, rest) = number(hours, text)?;
    let (more, rest) = minutes(rest)?;
    Ok((count as u32 * 3_600 + more as u32, rest))
}

// Whether a minus stands in front, and what follows the sign.
fn sign(text: &[u8]) -> (bool, &[u8])
    ensures { (result.0, result.1.now) ≡ sign_at text.now }
{
    match text.split_first() {
        Some((b'-', rest)) => (true, rest),
        Some((b'+', rest)) => (false, rest),
        _ => (false, text),
    }
}

// A number with a sign.
fn with_sign(negative: bool, count: u32) -> i32
    requires { count ≤ 700_000 }
    ensures value { result ≡ with_sign negative count }
    ensures low { neg_ℤ (pos count) ≤ℤ result }
    ensures high { result ≤ℤ pos count }
{
    if negative {
        -(count as i32)
    } else {
        count as i32
    }
}

// A clock with a sign.
#[tactic(auto, unfolding(crate::specs::Reading::signed_at))]
pub(crate) fn signed(hours: Field, text: &[u8]) -> Result<(i32, &[u8]), Stop>
    requires { high hours ≤ 167 }
    ensures value { result_map_both (λ read. (read.0, read.1.now)) (λ stop. stop) result
        ≡ signed_at hours text.now }
    ensures low { IfOk result (λ read. neg_ℤ (pos (high hours * 3_600 + 3_599)) ≤ℤ read.0) }
    ensures high { IfOk result (λ read. read.0 ≤ℤ pos (high hours * 3_600 + 3_599)) }
{
    let (negative, rest) = sign(text);
    let (count, rest) = clock(hours, rest)?;
    Ok((with_sign(negative, count), rest))
}

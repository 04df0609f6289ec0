//! Moments so far from the ends of the range that clocks at each offset can show their instants.
ghost use Rattle.std.specs.Prelude.{◌≡◌, ◌<◌, ◌↔◌, ◌+ℤ◌, ◌-ℤ◌, ◌*ℤ◌, ◌<ℤ◌, ◌≤ℤ◌, IsTrue, pos, neg_ℤ};
ghost use Rattle.std.specs.Int.{int_div_euclid, int_rem_euclid};
ghost use Rattle.std.specs.Ordering.{int_cmp};
ghost use Rattle.calendar_values.specs.Clock.{nanos_per_second};
ghost use Rattle.calendar_values.specs.Durations.{duration_of_parts, IsDurationParts};
ghost use Rattle.muxandu_c.specs.InsideMoments.{IsInside, IsShort, instant_of_moment, rounded_down};
ghost use Rattle.muxandu_c.specs.InsideMoments.{with_nanoseconds_below};
ghost use Rattle.muxandu_c.specs.Moments.{moment_parts};
ghost use Rattle.muxandu_c.specs.Values.{duration_parts, sign_of};

use crate::limits::{
    MUXANDU_NANOSECOND_MAX, MUXANDU_OFFSET_MAX, MUXANDU_OFFSET_MIN, MUXANDU_SECONDS_MAX,
    MUXANDU_SECONDS_MIN,
};
use crate::moments::MuxanduMoment;
use crate::values::MuxanduDuration;

// The first and the last second of such a moment.
const FIRST: i64 = MUXANDU_SECONDS_MIN + MUXANDU_OFFSET_MAX as i64;

const LAST: i64 = MUXANDU_SECONDS_MAX - MUXANDU_OFFSET_MAX as i64;

// More seconds than the range has.
const SHORT: i64 = 70_000_000_000_000;

const NANOS: i32 = 1_000_000_000;

// Whether a moment is one.
#[inline(always)]
pub(crate) fn is_inside(at: MuxanduMoment) -> bool
    ensures { IsTrue result ↔ IsInside at }
{
    FIRST <= at.seconds
        && at.seconds <= LAST
        && at.nanoseconds <= MUXANDU_NANOSECOND_MAX as u32
        && MUXANDU_OFFSET_MIN <= at.offset_seconds
        && at.offset_seconds <= MUXANDU_OFFSET_MAX
}

// Whether a duration is no longer than the range, with less than a second of nanoseconds.
#[inline(always)]
pub(crate) fn is_short(duration: MuxanduDuration) -> bool
    ensures { IsTrue result ↔ IsShort duration.seconds duration.nanoseconds }
{
    -SHORT <= duration.seconds
        && duration.seconds <= SHORT
        && -MUXANDU_NANOSECOND_MAX <= duration.nanoseconds
        && duration.nanoseconds <= MUXANDU_NANOSECOND_MAX
}

// The order of two instants: -1, 0 or 1.
#[inline(always)]
pub(crate) fn order_inside(first: MuxanduMoment, second: MuxanduMoment) -> i32
    requires first { IsInside first }
    requires second { IsInside second }
    ensures { result ≡ sign_of (int_cmp (instant_of_moment first) (instant_of_moment second)) }
{
    sign_of_number(time_apart(first, second))
}

// A number with the sign of the time between two instants: the seconds, or the nanoseconds where these are equal.
#[tactic(auto, using(crate::proofs::InsideMomentLemmas::signs_apart))]
#[inline(always)]
fn time_apart(first: MuxanduMoment, second: MuxanduMoment) -> i64
    requires first { IsInside first }
    requires second { IsInside second }
    ensures { int_cmp result (pos 0)
        ≡ int_cmp (instant_of_moment first) (instant_of_moment second) }
{
    let nanoseconds = first.nanoseconds as i64 - second.nanoseconds as i64;
    if first.seconds == second.seconds {
        return nanoseconds;
    }
    first.seconds - second.seconds
}

// -1, 0 or 1.
#[tactic(auto, using(crate::proofs::InsideMomentLemmas::signs))]
#[inline(always)]
fn sign_of_number(number: i64) -> i32
    ensures { result ≡ sign_of (int_cmp number (pos 0)) }
{
    if number < 0 {
        return -1;
    }
    if number > 0 {
        return 1;
    }
    0
}

// The moment a short duration later, at the same offset. It may be out of the range.
#[inline(always)]
pub(crate) fn later_by(at: MuxanduMoment, seconds: i64, nanoseconds: i32) -> MuxanduMoment
    requires inside { IsInside at }
    requires short { IsShort seconds nanoseconds }
    ensures { result ≡ moment_parts at.offset_seconds
        (instant_of_moment at +ℤ duration_of_parts seconds nanoseconds) }
{
    let sum = at.nanoseconds as i32 + nanoseconds;
    let carried = carried_seconds(sum);
    MuxanduMoment {
        seconds: at.seconds + seconds + carried as i64,
        nanoseconds: left_nanoseconds(sum, carried),
        offset_seconds: at.offset_seconds,
    }
}

// The whole seconds in more than -1 and less than 2 seconds of nanoseconds, rounded down. No branch depends on them.
#[inline(always)]
fn carried_seconds(nanoseconds: i32) -> i32
    requires least { neg_ℤ (pos 1_000_000_000) <ℤ nanoseconds }
    requires most { nanoseconds <ℤ pos 2_000_000_000 }
    ensures { result ≡ int_div_euclid nanoseconds (pos nanos_per_second) }
{
    (nanoseconds >= NANOS) as i32 - (nanoseconds < 0) as i32
}

// The nanoseconds that these seconds leave.
#[inline(always)]
fn left_nanoseconds(nanoseconds: i32, carried: i32) -> u32
    requires least { neg_ℤ (pos 1_000_000_000) <ℤ nanoseconds }
    requires most { nanoseconds <ℤ pos 2_000_000_000 }
    requires carried { carried ≡ int_div_euclid nanoseconds (pos nanos_per_second) }
    ensures { pos result ≡ int_rem_euclid nanoseconds (pos nanos_per_second) }
{
    (nanoseconds - carried * NANOS) as u32
}

// The duration from the second instant to the first.
#[inline(always)]
pub(crate) fn difference_inside(later: MuxanduMoment, earlier: MuxanduMoment) -> MuxanduDuration
    requires later { IsInside later }
    requires earlier { IsInside earlier }
    ensures { result ≡ duration_parts (instant_of_moment later -ℤ instant_of_moment earlier) }
{
    let seconds = later.seconds - earlier.seconds;
    let nanoseconds = later.nanoseconds as i32 - earlier.nanoseconds as i32;
    let borrowed = borrowed_seconds(seconds, nanoseconds);
    MuxanduDuration {
        seconds: seconds - borrowed as i64,
        nanoseconds: nanoseconds + borrowed * NANOS,
    }
}

// The seconds that become nanoseconds, so that both have one sign: -1, 0 or 1. No branch depends on them.
#[inline(always)]
fn borrowed_seconds(seconds: i64, nanoseconds: i32) -> i32
    requires least { neg_ℤ (pos 1_000_000_000) <ℤ nanoseconds }
    requires most { nanoseconds <ℤ pos 1_000_000_000 }
    ensures one_sign { IsDurationParts (seconds -ℤ result)
        (nanoseconds +ℤ (result *ℤ pos 1_000_000_000)) }
    ensures at_least { neg_ℤ (pos 1) ≤ℤ result }
    ensures at_most { result ≤ℤ pos 1 }
{
    taken_from_positive(seconds, nanoseconds) - added_to_negative(seconds, nanoseconds)
}

// 1 where seconds above 0 and nanoseconds below 0 need a second as nanoseconds, and else 0.
#[inline(always)]
fn taken_from_positive(seconds: i64, nanoseconds: i32) -> i32
    ensures one { pos 0 <ℤ seconds → nanoseconds <ℤ pos 0 → result ≡ pos 1 }
    ensures no_second { seconds ≤ℤ pos 0 → result ≡ pos 0 }
    ensures no_part { pos 0 ≤ℤ nanoseconds → result ≡ pos 0 }
    ensures at_least { pos 0 ≤ℤ result }
    ensures at_most { result ≤ℤ pos 1 }
{
    ((seconds > 0) & (nanoseconds < 0)) as i32
}

// 1 where seconds below 0 and nanoseconds above 0 need a second as nanoseconds, and else 0.
#[inline(always)]
fn added_to_negative(seconds: i64, nanoseconds: i32) -> i32
    ensures one { seconds <ℤ pos 0 → pos 0 <ℤ nanoseconds → result ≡ pos 1 }
    ensures no_second { pos 0 ≤ℤ seconds → result ≡ pos 0 }
    ensures no_part { nanoseconds ≤ℤ pos 0 → result ≡ pos 0 }
    ensures at_least { pos 0 ≤ℤ result }
    ensures at_most { result ≤ℤ pos 1 }
{
    ((seconds < 0) & (nanoseconds > 0)) as i32
}

// The moment rounded down to a number of seconds, at most a day, by its own clocks.
#[inline(always)]
pub(crate) fn rounded_down(at: MuxanduMoment, size: i64) -> MuxanduMoment
    requires inside { IsInside at }
    requires least { pos 1 ≤ℤ size }
    requires most { size ≤ℤ pos 86_400 }
    ensures { result ≡ rounded_down size at }
{
    let wall = at.seconds + at.offset_seconds as i64;
    MuxanduMoment {
        seconds: at.seconds - wall.rem_euclid(size),
        nanoseconds: 0,
        offset_seconds: at.offset_seconds,
    }
}

// The moment with its nanoseconds rounded down to a multiple of a number.
#[inline(always)]
pub(crate) fn with_nanoseconds_below(at: MuxanduMoment, size: u32) -> MuxanduMoment
    requires { 0 < size }
    ensures { result ≡ with_nanoseconds_below size at }
{
    MuxanduMoment {
        seconds: at.seconds,
        nanoseconds: at.nanoseconds - at.nanoseconds % size,
        offset_seconds: at.offset_seconds,
    }
}

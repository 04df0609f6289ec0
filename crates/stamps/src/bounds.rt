//! The bounds of a cut, and their instants.
ghost use Rattle.std.specs.Prelude.{◌≡◌};
ghost use Rattle.stamps.specs.Bounds.{action_of, at_offset, back_by, between_of, bound_instant, is_before_last, is_before_now};
ghost use Rattle.stamps.specs.Bounds.{local_instant, needs_last, needs_now, no_cut_text, unless_skipped};

use crate::task::Action;
use calendar_values::{SignedDuration, UtcOffset};
use log_zones::{NoInstant, instant_in};
use utc_times::UtcDateTime;
use zones::OwnedZone;

/// A bound of a cut.
#[derive(Clone, Copy, Debug)]
pub enum Bound {
    /// An instant.
    Exact(UtcDateTime),
    /// A wall clock: the instant at which clocks in UTC show it.
    Local(UtcDateTime),
    /// A duration before the present instant.
    BeforeNow(SignedDuration),
    /// A duration before the instant of the last stamp.
    BeforeLast(SignedDuration),
}

/// A cut of a log.
#[derive(Clone, Copy, Debug)]
pub enum Cut {
    /// Into the lines from a bound on.
    Since(Bound),
    /// Into the lines before a bound.
    Until(Bound),
    /// Into the lines from the first bound on, and before the second one.
    Between(Bound, Bound),
}

/// Why a cut has no instants.
#[derive(Clone, Copy, Debug, PartialEq, Eq)]
pub enum NoCut {
    /// A bound is a wall clock, and neither an offset nor a zone is given.
    LacksOffset,
    /// The clocks of the zone jump past the bound.
    Skipped,
    /// The instant of the bound is out of range.
    OutOfRange,
    /// The present instant is not known.
    LacksNow,
    /// The log has no stamp from which to count back.
    LacksLast,
    /// The second bound is before the first one.
    Swapped,
}

/// The instants from which bounds count back, and the offset of wall clocks, as far as they are
/// known.
#[derive(Clone, Copy, Debug)]
pub struct Around {
    /// The offset.
    pub offset: Option<UtcOffset>,
    /// The present instant.
    pub present: Option<UtcDateTime>,
    /// The instant of the last stamp.
    pub last: Option<UtcDateTime>,
}

/// The work of a cut, with the instants of its bounds.
pub fn action_of(cut: Cut, zone: &Option<OwnedZone>, around: &Around) -> Result<Action, NoCut>
    ensures { result ≡ action_of cut zone.now around.now }
{
    match cut {
        Cut::Since(bound) => Ok(Action::Since(bound_instant(bound, zone, around)?)),
        Cut::Until(bound) => Ok(Action::Until(bound_instant(bound, zone, around)?)),
        Cut::Between(first, second) => {
            let from = bound_instant(first, zone, around)?;
            let to = bound_instant(second, zone, around)?;
            between_of(from, to)
        }
    }
}

// The work between two instants, of which the second one is not before the first.
fn between_of(from: UtcDateTime, to: UtcDateTime) -> Result<Action, NoCut>
    ensures { result ≡ between_of from to }
{
    if to < from {
        Err(NoCut::Swapped)
    } else {
        Ok(Action::Between(from, to))
    }
}

/// The instant of a bound.
pub fn bound_instant(
    bound: Bound,
    zone: &Option<OwnedZone>,
    around: &Around,
) -> Result<UtcDateTime, NoCut>
    ensures { result ≡ bound_instant bound zone.now around.now }
{
    match bound {
        Bound::Exact(instant) => Ok(instant),
        Bound::Local(wall) => local_instant(zone, around.offset, wall),
        Bound::BeforeNow(duration) => match around.present {
            Some(now) => back_by(duration, now),
            None => Err(NoCut::LacksNow),
        },
        Bound::BeforeLast(duration) => match around.last {
            Some(last) => back_by(duration, last),
            None => Err(NoCut::LacksLast),
        },
    }
}

// The instant of a wall clock in a zone, or else at an offset.
fn local_instant(
    zone: &Option<OwnedZone>,
    offset: Option<UtcOffset>,
    wall: UtcDateTime,
) -> Result<UtcDateTime, NoCut>
    ensures { result ≡ local_instant zone.now offset wall }
{
    match (zone, offset) {
        (Some(zone), _) => unless_skipped(instant_in(zone, wall)),
        (None, Some(offset)) => at_offset(offset, wall),
        (None, None) => Err(NoCut::LacksOffset),
    }
}

// The instant of a wall clock in a zone, if its clocks show it.
fn unless_skipped(instant: Result<UtcDateTime, NoInstant>) -> Result<UtcDateTime, NoCut>
    ensures { result ≡ unless_skipped instant }
{
    match instant {
        Ok(instant) => Ok(instant),
        Err(NoInstant::Skipped) => Err(NoCut::Skipped),
        Err(NoInstant::OutOfRange) => Err(NoCut::OutOfRange),
    }
}

// The instant of a wall clock at an offset.
fn at_offset(offset: UtcOffset, wall: UtcDateTime) -> Result<UtcDateTime, NoCut>
    ensures { result ≡ at_offset offset wall }
{
    back_by(SignedDuration::seconds(offset.whole_seconds() as i64), wall)
}

// The instant a duration before another one.
fn back_by(duration: SignedDuration, instant: UtcDateTime) -> Result<UtcDateTime, NoCut>
    ensures { result ≡ back_by duration instant }
{
    match instant.checked_sub(duration) {
        Some(instant) => Ok(instant),
        None => Err(NoCut::OutOfRange),
    }
}

/// Whether a cut counts back from the present instant.
pub fn needs_now(cut: Cut) -> bool
    ensures { result ≡ needs_now cut }
{
    match cut {
        Cut::Since(bound) | Cut::Until(bound) => is_before_now(bound),
        Cut::Between(first, second) => is_before_now(first) || is_before_now(second),
    }
}

// Whether a bound counts back from the present instant.
fn is_before_now(bound: Bound) -> bool
    ensures { result ≡ is_before_now bound }
{
    match bound {
        Bound::BeforeNow(_) => true,
        Bound::Exact(_) | Bound::Local(_) | Bound::BeforeLast(_) => false,
    }
}

/// Whether a cut counts back from the last stamp.
pub fn needs_last(cut: Cut) -> bool
    ensures { result ≡ needs_last cut }
{
    match cut {
        Cut::Since(bound) | Cut::Until(bound) => is_before_last(bound),
        Cut::Between(first, second) => is_before_last(first) || is_before_last(second),
    }
}

// Whether a bound counts back from the last stamp.
fn is_before_last(bound: Bound) -> bool
    ensures { result ≡ is_before_last bound }
{
    match bound {
        Bound::BeforeLast(_) => true,
        Bound::Exact(_) | Bound::Local(_) | Bound::BeforeNow(_) => false,
    }
}

/// The message of a cut without instants: the fault and the remedy.
pub fn no_cut_line(fault: NoCut) -> &'static str
    ensures { result.now ≡ no_cut_text fault }
{
    match fault {
        NoCut::LacksOffset =>
            "the bound '' has no offset: add one, as --offset +05:30, or --zone Europe/Berlin",
        NoCut::Skipped => "the clocks of the zone jump past the bound '': write one with an offset",
        NoCut::OutOfRange =>
            "the bound '' is out of range: write one in the years from -999999 to 999999",
        NoCut::LacksNow =>
            "the clock of the system cannot be read: write the bound '' as a date-time",
        NoCut::LacksLast =>
            "no file has a stamp to count back from: write the bound '' as a date-time",
        NoCut::Swapped => "the second bound is before the first one: write the earlier one first",
    }
}

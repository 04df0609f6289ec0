//! The calls that instants of every type have in common.
ghost use Rattle.std.specs.Prelude.{◌≡◌, ◌↔◌, ℤ, option_map, IfSome, IfOk, IfErr, IsOk};
ghost use Rattle.std.specs.Ordering.{int_eq, int_cmp};
ghost use Rattle.std.specs.Result.{result_map_both};
ghost use Rattle.std.proofs.Common.{refl};
ghost use Rattle.calendar_values.specs.WallClock.{wall_day, wall_time, IsInstant};
ghost use Rattle.offset_times.specs.Local.{instant_of, shown_at, local_at, ShownAt};
ghost use Rattle.stamp_times.specs.Counter.{date_part_of, clock_part_of, instant_after_shift, instant_after_replacement, Shifts, Saturates};
ghost use Rattle.stamp_times.specs.Counter.{IsReplaceable, RefusesReplaced, ShowsReplaced};

use crate::Timestamp;
use crate::runs::calls::{ClockPart, ClockRead, DatePart, DateRead, Replace, Shift};
use calendar_values::{ComponentRange, Date, Time, UtcOffset};
use offset_times::{OffsetDateTime, ToOffset};
use std::hash::Hash;
use utc_times::UtcDateTime;

/// An instant of the range, whatever type holds it. Its calls give what a counter of nanoseconds
/// gives, and values are equal, are ordered and feed a hasher by their instants.
pub trait Moment: Copy + Eq + Ord + Hash {
    /// The instant: the nanoseconds from 1970-01-01 0:00 UTC, with no leap seconds.
    ghost instant: { Self → ℤ };

    /// A part of the date in UTC.
    ///
    /// ```
    /// assert_eq!(rt;
    ///     Timestamp::UNIX_EPOCH.date_part(stamp_times::DateRead::Year),
    ///     stamp_times::DatePart::Year(1970)
    /// );
    /// ```
    fn date_part(self, read: DateRead) -> DatePart
        ensures { result ≡ date_part_of (wall_day (instant self)) read };

    /// A part of the time of day in UTC.
    ///
    /// ```
    /// assert_eq!(rt;
    ///     Timestamp::UNIX_EPOCH.clock_part(stamp_times::ClockRead::Hour),
    ///     stamp_times::ClockPart::Hour(0)
    /// );
    /// ```
    fn clock_part(self, read: ClockRead) -> ClockPart
        ensures { result ≡ clock_part_of (wall_time (instant self)) read };

    /// A sum or a difference, or None if a checked one is out of the range.
    ///
    /// ```
    /// let day = stamp_times::Shift::CheckedAdd(SignedDuration::DAY);
    /// assert_eq!(rt; Timestamp::UNIX_EPOCH.shift(day), Some(Timestamp::from_seconds(86_400)?));
    /// assert_eq!(rt; Timestamp::MAX.shift(day), None);
    /// ```
    fn shift(self, shift: Shift) -> Option<Self>
        ensures value { option_map instant result ≡ instant_after_shift (instant self) shift }
        ensures sum { Shifts (instant self) shift (option_map instant result) }
        ensures order { IfSome result (λ next. Saturates (instant self) shift (instant next)) };

    /// The value with a part replaced in UTC. Fails as the replacement of that part does, exactly
    /// if the part does not fit.
    ///
    /// ```
    /// let six = stamp_times::Replace::Hour(6);
    /// assert_eq!(rt; Timestamp::UNIX_EPOCH.replace(six), Ok(Timestamp::from_seconds(21_600)?));
    /// assert_eq!(rt;
    ///     Timestamp::UNIX_EPOCH.replace(stamp_times::Replace::Hour(24)),
    ///     Err(ComponentRange::new("hour", false))
    /// );
    /// ```
    fn replace(self, replace: Replace) -> Result<Self, ComponentRange>
        ensures value { result_map_both instant (λ refusal. refusal) result ≡
            instant_after_replacement (instant self) replace }
        ensures accepted { IsOk result ↔ IsReplaceable (instant self) replace }
        ensures refused { IfErr result (RefusesReplaced (instant self) replace) }
        ensures shown { IfOk result (λ next.
            ShowsReplaced (instant self) replace (instant next)) };

    /// The date and the time of day in UTC.
    ///
    /// ```
    /// let (date, time) = Moment::parts(Timestamp::UNIX_EPOCH);
    /// assert_eq!(rt; date, Date::UNIX_EPOCH);
    /// assert_eq!(rt; time, Time::MIDNIGHT);
    /// ```
    fn parts(self) -> (Date, Time)
        ensures date { result.0 ≡ wall_day (instant self) }
        ensures time { result.1 ≡ wall_time (instant self) }
        ensures self_in_range { IsInstant (instant self) };

    /// The wall clock of the instant at the offset, with the offset, as
    /// [`ToOffset::checked_to_offset`]. None if that is out of the range.
    ///
    /// ```
    /// let west = UtcOffset::from_hms(-8, 0, 0)?;
    /// assert_eq!(rt;
    ///     Moment::at_offset(Timestamp::UNIX_EPOCH, west).map(|shown| shown.hour()),
    ///     Some(16)
    /// );
    /// assert_eq!(rt; Moment::at_offset(Timestamp::MIN, west), None);
    /// ```
    fn at_offset(self, offset: UtcOffset) -> Option<OffsetDateTime>
        ensures value { ShownAt result (instant self) offset }
        ensures instant { IfSome result (λ at. instant_of at ≡ instant self) };

    /// Values are equal exactly where their instants are.
    ghost eq_by_instant: { (x y : Self) → Self.eq x y ≡ int_eq (instant x) (instant y) };

    /// The order is that of the instants.
    ghost cmp_by_instant: { (x y : Self) → Self.cmp x y ≡ int_cmp (instant x) (instant y) };
}

macro_rules! date_part {
    ($at:expr, $read:expr) => {
        match $read {
            DateRead::Date => DatePart::Date($at.date()),
            DateRead::Year => DatePart::Year($at.year()),
            DateRead::Month => DatePart::Month($at.month()),
            DateRead::Day => DatePart::Day($at.day()),
            DateRead::Ordinal => DatePart::Ordinal($at.ordinal()),
            DateRead::IsoWeek => DatePart::IsoWeek($at.iso_week()),
            DateRead::SundayWeek => DatePart::SundayWeek($at.sunday_based_week()),
            DateRead::MondayWeek => DatePart::MondayWeek($at.monday_based_week()),
            DateRead::CalendarDate => {
                let (year, month, day) = $at.to_calendar_date();
                DatePart::CalendarDate((year, month, day))
            }
            DateRead::OrdinalDate => {
                let (year, ordinal) = $at.to_ordinal_date();
                DatePart::OrdinalDate((year, ordinal))
            }
            DateRead::IsoWeekDate => {
                let (year, week, weekday) = $at.to_iso_week_date();
                DatePart::IsoWeekDate((year, week, weekday))
            }
            DateRead::Weekday => DatePart::Weekday($at.weekday()),
            DateRead::JulianDay => DatePart::JulianDay($at.to_julian_day()),
        }
    };
}

macro_rules! clock_part {
    ($at:expr, $read:expr) => {
        match $read {
            ClockRead::Time => ClockPart::Time($at.time()),
            ClockRead::Hms => ClockPart::Hms($at.as_hms()),
            ClockRead::HmsMilli => ClockPart::HmsMilli($at.as_hms_milli()),
            ClockRead::HmsMicro => ClockPart::HmsMicro($at.as_hms_micro()),
            ClockRead::HmsNano => ClockPart::HmsNano($at.as_hms_nano()),
            ClockRead::Hour => ClockPart::Hour($at.hour()),
            ClockRead::Minute => ClockPart::Minute($at.minute()),
            ClockRead::Second => ClockPart::Second($at.second()),
            ClockRead::Millisecond => ClockPart::Millisecond($at.millisecond()),
            ClockRead::Microsecond => ClockPart::Microsecond($at.microsecond()),
            ClockRead::Nanosecond => ClockPart::Nanosecond($at.nanosecond()),
        }
    };
}

macro_rules! shift {
    ($at:expr, $shift:expr) => {
        match $shift {
            Shift::CheckedAdd(duration) => $at.checked_add(duration),
            Shift::CheckedSub(duration) => $at.checked_sub(duration),
            Shift::SaturatingAdd(duration) => Some($at.saturating_add(duration)),
            Shift::SaturatingSub(duration) => Some($at.saturating_sub(duration)),
        }
    };
}

macro_rules! replace {
    ($at:expr, $replace:expr) => {
        match $replace {
            Replace::Time(time) => Ok($at.replace_time(time)),
            Replace::Date(date) => Ok($at.replace_date(date)),
            Replace::Year(year) => $at.replace_year(year),
            Replace::Month(month) => $at.replace_month(month),
            Replace::Day(day) => $at.replace_day(day),
            Replace::Ordinal(ordinal) => $at.replace_ordinal(ordinal),
            Replace::Hour(hour) => $at.replace_hour(hour),
            Replace::Minute(minute) => $at.replace_minute(minute),
            Replace::Second(second) => $at.replace_second(second),
            Replace::Millisecond(millisecond) => $at.replace_millisecond(millisecond),
            Replace::Microsecond(microsecond) => $at.replace_microsecond(microsecond),
            Replace::Nanosecond(nanosecond) => $at.replace_nanosecond(nanosecond),
        }
    };
}

// A date-time in UTC with a part replaced.
#[tactic(auto, using(crate::proofs::MomentLemmas::moves))]
fn utc_with(at: UtcDateTime, replace: Replace) -> Result<UtcDateTime, ComponentRange>
    ensures value { result_map_both (λ i. i) (λ refusal. refusal) result ≡
        instant_after_replacement at replace }
    ensures shown { IfOk result (ShowsReplaced at replace) }
{
    replace!(at, replace)
}

impl Moment for UtcDateTime {
    ghost instant = { λ i. i };

    fn date_part(self, read: DateRead) -> DatePart {
        date_part!(self, read)
    }

    fn clock_part(self, read: ClockRead) -> ClockPart {
        clock_part!(self, read)
    }

    #[tactic(auto, using(crate::proofs::MomentLemmas::moves))]
    fn shift(self, shift: Shift) -> Option<UtcDateTime> {
        shift!(self, shift)
    }

    fn replace(self, replace: Replace) -> Result<UtcDateTime, ComponentRange> {
        utc_with(self, replace)
    }

    fn parts(self) -> (Date, Time) {
        (self.date(), self.time())
    }

    fn at_offset(self, offset: UtcOffset) -> Option<OffsetDateTime> {
        self.checked_to_offset(offset)
    }

    ghost eq_by_instant = { λ x y. refl };

    ghost cmp_by_instant = { λ x y. refl };
}

// A timestamp with a part replaced.
#[tactic(auto, using(crate::proofs::MomentLemmas::moves))]
fn stamp_with(at: Timestamp, replace: Replace) -> Result<Timestamp, ComponentRange>
    ensures value { result_map_both (λ i. i) (λ refusal. refusal) result ≡
        instant_after_replacement at replace }
    ensures shown { IfOk result (ShowsReplaced at replace) }
{
    replace!(at, replace)
}

impl Moment for Timestamp {
    ghost instant = { λ i. i };

    fn date_part(self, read: DateRead) -> DatePart {
        date_part!(self, read)
    }

    fn clock_part(self, read: ClockRead) -> ClockPart {
        clock_part!(self, read)
    }

    #[tactic(auto, using(crate::proofs::MomentLemmas::moves))]
    fn shift(self, shift: Shift) -> Option<Timestamp> {
        shift!(self, shift)
    }

    fn replace(self, replace: Replace) -> Result<Timestamp, ComponentRange> {
        stamp_with(self, replace)
    }

    fn parts(self) -> (Date, Time) {
        (self.date(), self.time())
    }

    fn at_offset(self, offset: UtcOffset) -> Option<OffsetDateTime> {
        self.checked_to_offset(offset)
    }

    ghost eq_by_instant = { λ x y. refl };

    ghost cmp_by_instant = { λ x y. refl };
}

//! The constants by their numbers: the contract of each function has those of one type.
ghost use Rattle.std.specs.Prelude.{◌≡◌, ◌-◌, pos};
ghost use Rattle.calendar_values.specs.Clock.{nanos_per_microsecond, nanos_per_millisecond, nanos_per_second, nanos_per_minute, nanos_per_hour};
ghost use Rattle.calendar_values.specs.Clock.{nanos_per_day, nanos_per_week};
ghost use Rattle.calendar_values.specs.Durations.{least_duration, greatest_duration};
ghost use Rattle.calendar_values.specs.Range.{first_day, last_day};

use crate::{Date, SignedDuration, Time, UtcOffset};

/// The constants of [`Date`].
#[derive(Clone, Copy)]
pub struct DateConstants {
    pub first: Date,
    pub last: Date,
    pub epoch: Date,
}

/// [`Date::MIN`], [`Date::MAX`] and [`Date::UNIX_EPOCH`].
#[tactic(auto, using(crate::specs::Constants::constants))]
pub fn dates() -> DateConstants
    ensures first { result.first ≡ first_day }
    ensures last { result.last ≡ last_day }
    ensures epoch { result.epoch ≡ pos 0 }
{
    DateConstants {
        first: Date::MIN,
        last: Date::MAX,
        epoch: Date::UNIX_EPOCH,
    }
}

/// The constants of [`Time`].
#[derive(Clone, Copy)]
pub struct TimeConstants {
    pub midnight: Time,
    pub last: Time,
}

/// [`Time::MIDNIGHT`] and [`Time::MAX`].
pub fn times() -> TimeConstants
    ensures midnight { result.midnight ≡ 0 }
    ensures last { result.last ≡ nanos_per_day - 1 }
{
    TimeConstants {
        midnight: Time::MIDNIGHT,
        last: Time::MAX,
    }
}

/// [`UtcOffset::UTC`].
pub fn offsets() -> UtcOffset
    ensures { result ≡ pos 0 }
{
    UtcOffset::UTC
}

/// The constants of [`SignedDuration`].
#[derive(Clone, Copy)]
pub struct DurationConstants {
    pub zero: SignedDuration,
    pub least: SignedDuration,
    pub greatest: SignedDuration,
    pub nanosecond: SignedDuration,
    pub microsecond: SignedDuration,
    pub millisecond: SignedDuration,
    pub second: SignedDuration,
    pub minute: SignedDuration,
    pub hour: SignedDuration,
    pub day: SignedDuration,
    pub week: SignedDuration,
}

/// [`SignedDuration::ZERO`], [`SignedDuration::MIN`], [`SignedDuration::MAX`], and one of each
/// unit.
pub fn durations() -> DurationConstants
    ensures zero { result.zero ≡ pos 0 }
    ensures least { result.least ≡ least_duration }
    ensures greatest { result.greatest ≡ greatest_duration }
    ensures nanosecond { result.nanosecond ≡ pos 1 }
    ensures microsecond { result.microsecond ≡ pos nanos_per_microsecond }
    ensures millisecond { result.millisecond ≡ pos nanos_per_millisecond }
    ensures second { result.second ≡ pos nanos_per_second }
    ensures minute { result.minute ≡ pos nanos_per_minute }
    ensures hour { result.hour ≡ pos nanos_per_hour }
    ensures day { result.day ≡ pos nanos_per_day }
    ensures week { result.week ≡ pos nanos_per_week }
{
    DurationConstants {
        zero: SignedDuration::ZERO,
        least: SignedDuration::MIN,
        greatest: SignedDuration::MAX,
        nanosecond: SignedDuration::NANOSECOND,
        microsecond: SignedDuration::MICROSECOND,
        millisecond: SignedDuration::MILLISECOND,
        second: SignedDuration::SECOND,
        minute: SignedDuration::MINUTE,
        hour: SignedDuration::HOUR,
        day: SignedDuration::DAY,
        week: SignedDuration::WEEK,
    }
}

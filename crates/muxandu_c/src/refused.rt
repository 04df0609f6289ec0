//! The errors of calls, and their statuses.
ghost use Rattle.std.specs.Prelude.{◌≡◌};
ghost use Rattle.muxandu_c.specs.Answers.{Answers, refused_part, status_number, status_of};

use calendar_values::{ComponentRange, Part};

/// A status: 0, which is MUXANDU_OK, or the number of an error. Later versions may add errors.
pub type MuxanduStatus = u32;

/// The error of a call. Its status is this number, or 0 if it succeeds. The comment of each call
/// lists its errors in the order of its tests; it returns the first.
#[derive(Clone, Copy, Drop)]
pub enum Refused {
    /// A year before -999999 or after 999999.
    Year = 1,
    /// A month that is not 1 to 12.
    Month = 2,
    /// A day that is not 1 to 31.
    Day = 3,
    /// A day of 1 to 31 that its month does not have in its year.
    DayOfMonth = 4,
    /// A day of the year that is not 1 to 366.
    Ordinal = 5,
    /// Day 366 of a year that has 365.
    OrdinalOfYear = 6,
    /// An ISO week that is not 1 to 53.
    Week = 7,
    /// Week 53 of an ISO year that has 52.
    WeekOfYear = 8,
    /// A number that is not a day of the week.
    Weekday = 9,
    /// An hour that is not 0 to 23.
    Hour = 10,
    /// A minute that is not 0 to 59.
    Minute = 11,
    /// A second that is not 0 to 59.
    Second = 12,
    /// A nanosecond that is not 0 to 999999999.
    Nanosecond = 13,
    /// An offset that is not -93599 to 93599 seconds, or whose part in seconds is not -59 to 59.
    OffsetSeconds = 14,
    /// A Unix second, or a count of another unit from 1970-01-01, outside the range of timestamps.
    Timestamp = 15,
    /// A day number that is not -365961662 to 364522971, or a Julian day outside the range of
    /// dates.
    DayNumber = 16,
    /// A duration whose whole seconds do not fit in 64 bits.
    Duration = 17,
    /// A number that is not a unit, not a part of a date-time, or not a kind, a version or an item
    /// of a format description.
    Unit = 18,
    /// A result that is outside the range, or that its type cannot hold.
    Result = 19,
    /// A buffer that is too short for what the call writes.
    Buffer = 20,
    /// A span that does not lie in the block of texts.
    Span = 21,
    /// A text that does not have the form that the call reads, such as a date-time of RFC 3339.
    Syntax = 22,
    /// Hours of an offset that are out of range: above 23 in a text of RFC 3339, not -25 to 25
    /// elsewhere.
    OffsetHour = 23,
    /// Minutes of an offset that are not -59 to 59.
    OffsetMinute = 24,
    /// A value that has no such text, as in RFC 3339 a year outside 0 to 9999, or an offset with
    /// seconds or beyond 23:59.
    NoText = 25,
    /// Numbers that are no time zone: a part is out of range, or a transition or the rule does not
    /// follow.
    Zone = 26,
    /// A wall clock that no instant has, since a time zone puts its clocks forward past it.
    Gap = 27,
    /// A wall clock that two instants have, since a time zone puts its clocks back over it.
    Fold = 28,
}

impl From<ComponentRange> for Refused {
    ghost from_gives = { λ refusal refused. refused ≡ refused_part refusal };

    // It is not in line, since few calls refuse.
    #[inline(never)]
    fn from(refusal: ComponentRange) -> Refused {
        match refusal.part() {
            // A day of the last week of the last year, past the range.
            Part::Year => {
                if refusal.is_conditional() {
                    Refused::Result
                } else {
                    Refused::Year
                }
            }
            Part::Month => Refused::Month,
            Part::Day => {
                if refusal.is_conditional() {
                    Refused::DayOfMonth
                } else {
                    Refused::Day
                }
            }
            Part::Ordinal => {
                if refusal.is_conditional() {
                    Refused::OrdinalOfYear
                } else {
                    Refused::Ordinal
                }
            }
            Part::Week => {
                if refusal.is_conditional() {
                    Refused::WeekOfYear
                } else {
                    Refused::Week
                }
            }
            Part::Hour => Refused::Hour,
            Part::Minute => Refused::Minute,
            Part::Second => Refused::Second,
            Part::Nanosecond | Part::Nanoseconds => Refused::Nanosecond,
            Part::OffsetSeconds => Refused::OffsetSeconds,
            Part::JulianDay => Refused::DayNumber,
            Part::Millisecond | Part::Microsecond | Part::Hours | Part::Minutes => {
                Refused::Timestamp
            }
            Part::Seconds | Part::Timestamp | Part::Milliseconds | Part::Microseconds => {
                Refused::Timestamp
            }
        }
    }
}

// The status of an error.
pub(crate) fn status(refused: Refused) -> u32
    ensures { result ≡ status_number refused }
{
    refused as u32
}

// The status of an answer.
pub(crate) fn status_of<T: Copy>(answer: Result<T, Refused>) -> u32
    ensures { result ≡ status_of answer }
{
    match answer {
        Ok(_) => 0,
        Err(refused) => status(refused),
    }
}

// Puts a value into the place of the caller, and leaves the place as it is if the call fails.
#[inline(always)]
pub(crate) fn answer<T: Copy>(answer: Result<T, Refused>, out: &mut T) -> u32
    ensures { Answers result out.old out.new answer }
{
    match answer {
        Ok(value) => {
            *out = value;
            0
        }
        Err(refused) => status(refused),
    }
}

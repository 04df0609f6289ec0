//! Unix time: instants counted from 1970-01-01 0:00 UTC, with no leap seconds.
ghost use Rattle.std.specs.Prelude.{◌≡◌, IfOk, codes};
ghost use Rattle.calendar_values.specs.Outcomes.{Gives, within};
ghost use Rattle.calendar_values.specs.WallClock.{unix_seconds_of};
ghost use Rattle.offset_times.specs.Local.{instant_of, local_in_utc};
ghost use Rattle.utc_times.specs.UnixTime.{instant_of_second, instant_outcome};

use crate::OffsetDateTime;
use calendar_values::ComponentRange;
use calendar_values::units::NANOS_PER_SECOND;
use utc_times::{AsUtc, UtcDateTime};

impl OffsetDateTime {
    /// The instant of a Unix second, in UTC. Fails with `timestamp` before that of
    /// [`UtcDateTime::MIN`] or after that of [`UtcDateTime::MAX`].
    ///
    /// ```
    /// let at = OffsetDateTime::from_unix_timestamp(1_000_000_000)?;
    /// assert_eq!(rt; at.to_calendar_date(), (2001, Month::September, 9));
    /// assert_eq!(rt;
    ///     OffsetDateTime::from_unix_timestamp(i64::MAX),
    ///     Err(ComponentRange::new("timestamp", false))
    /// );
    /// ```
    pub fn from_unix_timestamp(timestamp: i64) -> Result<OffsetDateTime, ComponentRange>
        ensures value { let i = instant_of_second timestamp in
            Gives result (within local_in_utc (instant_outcome (codes "timestamp") i)) }
        ensures instant { IfOk result (λ at. instant_of at ≡ instant_of_second timestamp) }
    {
        match UtcDateTime::from_unix_timestamp(timestamp) {
            Ok(at) => Ok(OffsetDateTime::from_utc(at)),
            Err(refusal) => Err(refusal),
        }
    }

    /// The instant of a number of nanoseconds from 1970-01-01 0:00 UTC, in UTC. Fails with
    /// `timestamp` before [`UtcDateTime::MIN`] or after [`UtcDateTime::MAX`].
    ///
    /// ```
    /// let at = OffsetDateTime::from_unix_timestamp_nanos(-1)?;
    /// assert_eq!(rt; at.year(), 1969);
    /// assert_eq!(rt; at.nanosecond(), 999_999_999);
    /// ```
    pub fn from_unix_timestamp_nanos(timestamp: i128) -> Result<OffsetDateTime, ComponentRange>
        ensures value { Gives result
            (within local_in_utc (instant_outcome (codes "timestamp") timestamp)) }
        ensures instant { IfOk result (λ at. instant_of at ≡ timestamp) }
    {
        match UtcDateTime::from_unix_timestamp_nanos(timestamp) {
            Ok(at) => Ok(OffsetDateTime::from_utc(at)),
            Err(refusal) => Err(refusal),
        }
    }

    /// The Unix second of the instant: the whole seconds from 1970-01-01 0:00 UTC, rounded down. An
    /// instant out of range has one too.
    ///
    /// ```
    /// let date = Date::from_calendar_date(2000, Month::January, 1)?;
    /// let west = UtcOffset::from_hms(-5, 0, 0)?;
    /// let at = OffsetDateTime::new_in_offset(date, Time::MIDNIGHT, west);
    /// assert_eq!(rt; at.unix_timestamp(), 946_702_800);
    /// ```
    pub fn unix_timestamp(self) -> i64
        ensures { result ≡ unix_seconds_of (instant_of self) }
    {
        self.date_time().as_utc().unix_timestamp() - self.offset().whole_seconds() as i64
    }

    /// The nanoseconds from 1970-01-01 0:00 UTC to the instant, outside the range too.
    ///
    /// ```
    /// let date = Date::from_calendar_date(2000, Month::January, 1)?;
    /// let west = UtcOffset::from_hms(-5, 0, 0)?;
    /// let at = OffsetDateTime::new_in_offset(date, Time::MIDNIGHT, west);
    /// assert_eq!(rt; at.unix_timestamp_nanos(), 946_702_800_000_000_000);
    /// ```
    pub fn unix_timestamp_nanos(self) -> i128
        ensures { result ≡ instant_of self }
    {
        let offset = self.offset().whole_seconds() as i128;
        self.date_time().as_utc().unix_timestamp_nanos() - offset * NANOS_PER_SECOND as i128
    }
}

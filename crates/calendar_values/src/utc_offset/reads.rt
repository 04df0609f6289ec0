//! The parts of an offset.
ghost use Rattle.std.specs.Prelude.{◌≡◌, ℤ, pos, unsigned_abs, ◌+◌, ◌<◌, ◌≤◌, ◌↔◌, IsTrue, ◌+ℤ◌, ◌*ℤ◌, ◌<ℤ◌};
ghost use Rattle.calendar_values.specs.Offsets.{IsOffset, AreSignedOffsetParts, seconds_of_parts, offset_hours_of, offset_minutes_of, offset_seconds_of};

use crate::UtcOffset;

impl UtcOffset {
    /// The hours, -25 to 25, and the minutes and the seconds, -59 to 59, all of one sign.
    ///
    /// ```
    /// let west = UtcOffset::from_hms(-9, -30, -15)?;
    /// assert_eq!(rt; west.as_hms(), (-9, -30, -15));
    /// ```
    pub fn as_hms(self) -> (i8, i8, i8)
        ensures hours { result.0 ≡ offset_hours_of self }
        ensures minutes { result.1 ≡ offset_minutes_of self }
        ensures seconds { result.2 ≡ offset_seconds_of self }
        ensures in_range { AreSignedOffsetParts result.0 result.1 result.2 }
        ensures parts { seconds_of_parts result.0 result.1 result.2 ≡ self }
    {
        (self.hours, self.minutes, self.seconds)
    }

    /// The whole hours, rounded towards zero: -25 to 25.
    ///
    /// ```
    /// let west = UtcOffset::from_hms(-9, -30, -15)?;
    /// assert_eq!(rt; west.whole_hours(), -9);
    /// ```
    pub fn whole_hours(self) -> i8
        ensures value { result ≡ offset_hours_of self }
        ensures in_range { unsigned_abs result ≤ 25 }
    {
        self.hours
    }

    /// The minutes past the hour, of the sign of the offset: -59 to 59.
    ///
    /// ```
    /// let west = UtcOffset::from_hms(-9, -30, -15)?;
    /// assert_eq!(rt; west.minutes_past_hour(), -30);
    /// ```
    pub fn minutes_past_hour(self) -> i8
        ensures value { result ≡ offset_minutes_of self }
        ensures in_range { unsigned_abs result ≤ 59 }
    {
        self.minutes
    }

    /// The seconds past the minute, of the sign of the offset: -59 to 59.
    ///
    /// ```
    /// let west = UtcOffset::from_hms(-9, -30, -15)?;
    /// assert_eq!(rt; west.seconds_past_minute(), -15);
    /// ```
    pub fn seconds_past_minute(self) -> i8
        ensures value { result ≡ offset_seconds_of self }
        ensures in_range { unsigned_abs result ≤ 59 }
    {
        self.seconds
    }

    /// The offset in seconds, -93,599 to 93,599.
    ///
    /// ```
    /// let west = UtcOffset::from_hms(-9, -30, -15)?;
    /// assert_eq!(rt; west.whole_seconds(), -34_215);
    /// ```
    pub fn whole_seconds(self) -> i32
        ensures value { result ≡ self }
        ensures in_range { IsOffset result }
        ensures self_in_range { IsOffset self }
    {
        let minutes = in_sixtieths(self.hours as i32, self.minutes as i32);
        in_sixtieths(minutes, self.seconds as i32)
    }

    /// Whether the offset is 0.
    ///
    /// ```
    /// assert_eq!(rt; UtcOffset::UTC.is_utc(), true);
    /// assert_eq!(rt; UtcOffset::from_hms(0, 0, 1)?.is_utc(), false);
    /// ```
    pub fn is_utc(self) -> bool
        ensures { IsTrue result ↔ (self ≡ pos 0) }
    {
        self.whole_seconds() == 0
    }

    /// Whether the offset is below 0.
    ///
    /// ```
    /// assert_eq!(rt; UtcOffset::from_hms(0, -30, 0)?.is_negative(), true);
    /// assert_eq!(rt; UtcOffset::UTC.is_negative(), false);
    /// ```
    pub fn is_negative(self) -> bool
        ensures { IsTrue result ↔ (self <ℤ pos 0) }
    {
        self.whole_seconds() < 0
    }
}

// Units and sixtieths of a unit, in sixtieths.
#[inline(always)]
#[tactic(auto, using(crate::specs::SignedArith::signed_arith))]
fn in_sixtieths(units: i32, sixtieths: i32) -> i32
    requires units { unsigned_abs units ≤ 1_559 }
    requires sixtieths { unsigned_abs sixtieths ≤ 59 }
    ensures { result ≡ units *ℤ pos 60 +ℤ sixtieths }
{
    units * 60 + sixtieths
}

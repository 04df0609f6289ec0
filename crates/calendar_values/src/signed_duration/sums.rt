//! Sums and differences that may lie outside the range.
ghost use Rattle.std.specs.Prelude.{neg_ℤ, ◌+ℤ◌, ◌-ℤ◌};
ghost use Rattle.calendar_values.specs.Durations.{SomeDuration, IsNearestDuration};

use crate::SignedDuration;

impl SignedDuration {
    /// The sum, or None outside the range.
    ///
    /// ```
    /// assert_eq!(rt;
    ///     SignedDuration::HOUR.checked_add(SignedDuration::minutes(-1)),
    ///     Some(SignedDuration::minutes(59))
    /// );
    /// assert_eq!(rt; SignedDuration::MAX.checked_add(SignedDuration::NANOSECOND), None);
    /// ```
    pub fn checked_add(self, other: SignedDuration) -> Option<SignedDuration>
        ensures { SomeDuration result (self +ℤ other) }
    {
        match self.seconds.checked_add(other.seconds) {
            Some(seconds) => {
                SignedDuration::from_parts(seconds, self.nanoseconds + other.nanoseconds)
            }
            None => None,
        }
    }

    /// The difference, or None outside the range.
    ///
    /// ```
    /// assert_eq!(rt;
    ///     SignedDuration::SECOND.checked_sub(SignedDuration::MINUTE),
    ///     Some(SignedDuration::seconds(-59))
    /// );
    /// assert_eq!(rt; SignedDuration::MIN.checked_sub(SignedDuration::NANOSECOND), None);
    /// ```
    pub fn checked_sub(self, other: SignedDuration) -> Option<SignedDuration>
        ensures { SomeDuration result (self -ℤ other) }
    {
        match self.seconds.checked_sub(other.seconds) {
            Some(seconds) => {
                SignedDuration::from_parts(seconds, self.nanoseconds - other.nanoseconds)
            }
            // 2^63 seconds still fit with negative nanoseconds.
            None => SignedDuration::from_whole_nanoseconds(
                self.whole_nanoseconds() - other.whole_nanoseconds(),
            ),
        }
    }

    /// The duration with the other sign, or None for -2^63 seconds and less.
    ///
    /// ```
    /// assert_eq!(rt; SignedDuration::DAY.checked_neg(), Some(SignedDuration::days(-1)));
    /// assert_eq!(rt; SignedDuration::MIN.checked_neg(), None);
    /// ```
    pub fn checked_neg(self) -> Option<SignedDuration>
        ensures { SomeDuration result (neg_ℤ self) }
    {
        match self.seconds.checked_neg() {
            Some(seconds) => SignedDuration::from_parts(seconds, -self.nanoseconds),
            None => None,
        }
    }

    /// The sum, or the end of the range that is nearest to it.
    ///
    /// ```
    /// assert_eq!(rt;
    ///     SignedDuration::SECOND.saturating_add(SignedDuration::SECOND),
    ///     SignedDuration::seconds(2)
    /// );
    /// assert_eq!(rt;
    ///     SignedDuration::MAX.saturating_add(SignedDuration::SECOND),
    ///     SignedDuration::MAX
    /// );
    /// ```
    pub fn saturating_add(self, other: SignedDuration) -> SignedDuration
        ensures { IsNearestDuration (self +ℤ other) result }
    {
        match self.checked_add(other) {
            Some(sum) => sum,
            None => SignedDuration::nearest(self.whole_nanoseconds() + other.whole_nanoseconds()),
        }
    }

    /// The difference, or the end of the range that is nearest to it.
    ///
    /// ```
    /// assert_eq!(rt;
    ///     SignedDuration::SECOND.saturating_sub(SignedDuration::SECOND),
    ///     SignedDuration::ZERO
    /// );
    /// assert_eq!(rt;
    ///     SignedDuration::MIN.saturating_sub(SignedDuration::SECOND),
    ///     SignedDuration::MIN
    /// );
    /// ```
    pub fn saturating_sub(self, other: SignedDuration) -> SignedDuration
        ensures { IsNearestDuration (self -ℤ other) result }
    {
        match self.checked_sub(other) {
            Some(difference) => difference,
            None => SignedDuration::nearest(self.whole_nanoseconds() - other.whole_nanoseconds()),
        }
    }
}

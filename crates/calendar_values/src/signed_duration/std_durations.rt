//! Conversions, comparisons, sums and differences with std's `Duration`, which has no sign.
ghost use Rattle.std.specs.Prelude.{◌≡◌, pos, ◌+ℤ◌, ◌-ℤ◌, ◌≤ℤ◌, ◌<ℤ◌, OkIff, MatchResult};
ghost use Rattle.std.specs.Duration.{as_nanos};
ghost use Rattle.std.specs.Ordering.{int_cmp};
ghost use Rattle.calendar_values.specs.Durations.{IsDuration, SomeDuration};

use crate::{ConversionRange, SignedDuration};
use std::cmp::Ordering;
use std::ops::{Add, AddAssign, Sub, SubAssign};
use std::time::Duration;

impl TryFrom<Duration> for SignedDuration {
    type Error = ConversionRange;

    ghost try_from_gives = { λ duration result.
        OkIff result (IsDuration (pos (as_nanos duration))) (pos (as_nanos duration)) };

    fn try_from(duration: Duration) -> Result<SignedDuration, ConversionRange> {
        match SignedDuration::from_whole_nanoseconds(duration.as_nanos() as i128) {
            Some(duration) => Ok(duration),
            None => Err(ConversionRange),
        }
    }
}

impl TryFrom<SignedDuration> for Duration {
    type Error = ConversionRange;

    ghost try_from_gives = { λ duration result. MatchResult result
        (λ value. pos (as_nanos value) ≡ duration) (λ _. duration <ℤ pos 0) };

    fn try_from(duration: SignedDuration) -> Result<Duration, ConversionRange> {
        if duration.is_negative() {
            return Err(ConversionRange);
        }
        Ok(duration.unsigned_abs())
    }
}

impl SignedDuration {
    /// How the duration compares with one of std.
    ///
    /// ```
    /// let second = std::time::Duration::from_secs(1);
    /// assert_eq!(rt; SignedDuration::MINUTE.cmp_std(second), std::cmp::Ordering::Greater);
    /// assert_eq!(rt; SignedDuration::MIN.cmp_std(second), std::cmp::Ordering::Less);
    /// ```
    pub fn cmp_std(self, other: Duration) -> Ordering
        ensures { result ≡ int_cmp self (pos (as_nanos other)) }
    {
        self.whole_nanoseconds().cmp(&(other.as_nanos() as i128))
    }

    // The sum with a duration of std, if it is a duration.
    fn plus_std(self, other: Duration) -> Option<SignedDuration>
        ensures { SomeDuration result (self +ℤ pos (as_nanos other)) }
    {
        SignedDuration::from_whole_nanoseconds(self.whole_nanoseconds() + other.as_nanos() as i128)
    }

    // The difference from a duration of std, if it is a duration.
    fn minus_std(self, other: Duration) -> Option<SignedDuration>
        ensures { SomeDuration result (self -ℤ pos (as_nanos other)) }
    {
        SignedDuration::from_whole_nanoseconds(self.whole_nanoseconds() - other.as_nanos() as i128)
    }

    // What makes it a duration of std, if that is a duration.
    fn until_std(self, other: Duration) -> Option<SignedDuration>
        ensures { SomeDuration result (pos (as_nanos other) -ℤ self) }
    {
        SignedDuration::from_whole_nanoseconds(other.as_nanos() as i128 - self.whole_nanoseconds())
    }
}

impl Add<Duration> for SignedDuration {
    type Output = SignedDuration;

    ghost can_add = { λ a b. IsDuration (a +ℤ pos (as_nanos b)) };

    ghost add_gives = { λ a b sum. sum ≡ a +ℤ pos (as_nanos b) };

    fn add(self, other: Duration) -> SignedDuration {
        self.plus_std(other).unwrap()
    }
}

impl AddAssign<Duration> for SignedDuration {
    ghost can_add_assign = { λ a b. IsDuration (a +ℤ pos (as_nanos b)) };

    ghost add_assign_gives = { λ a b sum. sum ≡ a +ℤ pos (as_nanos b) };

    fn add_assign(&mut self, other: Duration) {
        *self = *self + other;
    }
}

impl Add<SignedDuration> for Duration {
    type Output = SignedDuration;

    ghost can_add = { λ a b. IsDuration (b +ℤ pos (as_nanos a)) };

    ghost add_gives = { λ a b sum. sum ≡ b +ℤ pos (as_nanos a) };

    fn add(self, other: SignedDuration) -> SignedDuration {
        other + self
    }
}

impl AddAssign<SignedDuration> for Duration {
    ghost can_add_assign = { λ a b. IsDuration (b +ℤ pos (as_nanos a))
        × (pos 0 ≤ℤ (b +ℤ pos (as_nanos a))) };

    ghost add_assign_gives = { λ a b sum. pos (as_nanos sum) ≡ b +ℤ pos (as_nanos a) };

    fn add_assign(&mut self, other: SignedDuration) {
        *self = Duration::try_from(*self + other).unwrap();
    }
}

impl Sub<Duration> for SignedDuration {
    type Output = SignedDuration;

    ghost can_sub = { λ a b. IsDuration (a -ℤ pos (as_nanos b)) };

    ghost sub_gives = { λ a b difference. difference ≡ a -ℤ pos (as_nanos b) };

    fn sub(self, other: Duration) -> SignedDuration {
        self.minus_std(other).unwrap()
    }
}

impl SubAssign<Duration> for SignedDuration {
    ghost can_sub_assign = { λ a b. IsDuration (a -ℤ pos (as_nanos b)) };

    ghost sub_assign_gives = { λ a b difference. difference ≡ a -ℤ pos (as_nanos b) };

    fn sub_assign(&mut self, other: Duration) {
        *self = *self - other;
    }
}

impl Sub<SignedDuration> for Duration {
    type Output = SignedDuration;

    ghost can_sub = { λ a b. IsDuration (pos (as_nanos a) -ℤ b) };

    ghost sub_gives = { λ a b difference. difference ≡ pos (as_nanos a) -ℤ b };

    fn sub(self, other: SignedDuration) -> SignedDuration {
        other.until_std(self).unwrap()
    }
}

impl SubAssign<SignedDuration> for Duration {
    ghost can_sub_assign = { λ a b. IsDuration (pos (as_nanos a) -ℤ b)
        × (pos 0 ≤ℤ (pos (as_nanos a) -ℤ b)) };

    ghost sub_assign_gives = { λ a b after. pos (as_nanos after) ≡ pos (as_nanos a) -ℤ b };

    fn sub_assign(&mut self, other: SignedDuration) {
        *self = Duration::try_from(*self - other).unwrap();
    }
}

//! Products of durations and whole numbers.
ghost use Rattle.std.specs.Prelude.{◌≡◌, ◌≤◌, pos, ◌*ℤ◌, unsigned_abs};
ghost use Rattle.calendar_values.specs.Durations.{IsDuration, SomeDuration, IsNearestDuration};

use crate::SignedDuration;
use std::ops::{Mul, MulAssign};

impl SignedDuration {
    /// The product with a whole number, or None outside the range.
    ///
    /// ```
    /// assert_eq!(rt;
    ///     SignedDuration::milliseconds(1_500).checked_mul(-3),
    ///     Some(SignedDuration::milliseconds(-4_500))
    /// );
    /// assert_eq!(rt; SignedDuration::MAX.checked_mul(2), None);
    /// ```
    pub fn checked_mul(self, factor: i32) -> Option<SignedDuration>
        ensures { SomeDuration result (self *ℤ factor) }
    {
        self.times(factor as i64)
    }

    /// The product with a whole number, or the end of the range that is nearest to it.
    ///
    /// ```
    /// assert_eq!(rt; SignedDuration::HOUR.saturating_mul(24), SignedDuration::DAY);
    /// assert_eq!(rt; SignedDuration::MAX.saturating_mul(-2), SignedDuration::MIN);
    /// ```
    pub fn saturating_mul(self, factor: i32) -> SignedDuration
        ensures { IsNearestDuration (self *ℤ factor) result }
    {
        SignedDuration::nearest(self.nanoseconds_times(factor as i64))
    }

    // The duration multiplied by a factor, if that is in range.
    fn times(self, factor: i64) -> Option<SignedDuration>
        requires { unsigned_abs factor ≤ 4_294_967_296 }
        ensures { SomeDuration result (self *ℤ factor) }
    {
        SignedDuration::from_whole_nanoseconds(self.nanoseconds_times(factor))
    }

    // So many times its nanoseconds, which 128 bits hold.
    fn nanoseconds_times(self, factor: i64) -> i128
        requires { unsigned_abs factor ≤ 4_294_967_296 }
        ensures { result ≡ self *ℤ factor }
    {
        self.whole_nanoseconds() * factor as i128
    }
}

impl Mul<i8> for SignedDuration {
    type Output = SignedDuration;

    ghost can_mul = { λ duration factor. IsDuration (duration *ℤ factor) };

    ghost mul_gives = { λ duration factor product. product ≡ duration *ℤ factor };

    fn mul(self, factor: i8) -> SignedDuration {
        self.times(factor as i64).unwrap()
    }
}

impl Mul<SignedDuration> for i8 {
    type Output = SignedDuration;

    ghost can_mul = { λ factor duration. IsDuration (duration *ℤ factor) };

    ghost mul_gives = { λ factor duration product. product ≡ duration *ℤ factor };

    fn mul(self, duration: SignedDuration) -> SignedDuration {
        duration * self
    }
}

impl MulAssign<i8> for SignedDuration {
    ghost can_mul_assign = { λ duration factor. IsDuration (duration *ℤ factor) };

    ghost mul_assign_gives = { λ duration factor product. product ≡ duration *ℤ factor };

    fn mul_assign(&mut self, factor: i8) {
        *self = *self * factor;
    }
}

impl Mul<i16> for SignedDuration {
    type Output = SignedDuration;

    ghost can_mul = { λ duration factor. IsDuration (duration *ℤ factor) };

    ghost mul_gives = { λ duration factor product. product ≡ duration *ℤ factor };

    fn mul(self, factor: i16) -> SignedDuration {
        self.times(factor as i64).unwrap()
    }
}

impl Mul<SignedDuration> for i16 {
    type Output = SignedDuration;

    ghost can_mul = { λ factor duration. IsDuration (duration *ℤ factor) };

    ghost mul_gives = { λ factor duration product. product ≡ duration *ℤ factor };

    fn mul(self, duration: SignedDuration) -> SignedDuration {
        duration * self
    }
}

impl MulAssign<i16> for SignedDuration {
    ghost can_mul_assign = { λ duration factor. IsDuration (duration *ℤ factor) };

    ghost mul_assign_gives = { λ duration factor product. product ≡ duration *ℤ factor };

    fn mul_assign(&mut self, factor: i16) {
        *self = *self * factor;
    }
}

impl Mul<i32> for SignedDuration {
    type Output = SignedDuration;

    ghost can_mul = { λ duration factor. IsDuration (duration *ℤ factor) };

    ghost mul_gives = { λ duration factor product. product ≡ duration *ℤ factor };

    fn mul(self, factor: i32) -> SignedDuration {
        self.times(factor as i64).unwrap()
    }
}

impl Mul<SignedDuration> for i32 {
    type Output = SignedDuration;

    ghost can_mul = { λ factor duration. IsDuration (duration *ℤ factor) };

    ghost mul_gives = { λ factor duration product. product ≡ duration *ℤ factor };

    fn mul(self, duration: SignedDuration) -> SignedDuration {
        duration * self
    }
}

impl MulAssign<i32> for SignedDuration {
    ghost can_mul_assign = { λ duration factor. IsDuration (duration *ℤ factor) };

    ghost mul_assign_gives = { λ duration factor product. product ≡ duration *ℤ factor };

    fn mul_assign(&mut self, factor: i32) {
        *self = *self * factor;
    }
}

impl Mul<u8> for SignedDuration {
    type Output = SignedDuration;

    ghost can_mul = { λ duration factor. IsDuration (duration *ℤ pos factor) };

    ghost mul_gives = { λ duration factor product. product ≡ duration *ℤ pos factor };

    fn mul(self, factor: u8) -> SignedDuration {
        self.times(factor as i64).unwrap()
    }
}

impl Mul<SignedDuration> for u8 {
    type Output = SignedDuration;

    ghost can_mul = { λ factor duration. IsDuration (duration *ℤ pos factor) };

    ghost mul_gives = { λ factor duration product. product ≡ duration *ℤ pos factor };

    fn mul(self, duration: SignedDuration) -> SignedDuration {
        duration * self
    }
}

impl MulAssign<u8> for SignedDuration {
    ghost can_mul_assign = { λ duration factor. IsDuration (duration *ℤ pos factor) };

    ghost mul_assign_gives = { λ duration factor product. product ≡ duration *ℤ pos factor };

    fn mul_assign(&mut self, factor: u8) {
        *self = *self * factor;
    }
}

impl Mul<u16> for SignedDuration {
    type Output = SignedDuration;

    ghost can_mul = { λ duration factor. IsDuration (duration *ℤ pos factor) };

    ghost mul_gives = { λ duration factor product. product ≡ duration *ℤ pos factor };

    fn mul(self, factor: u16) -> SignedDuration {
        self.times(factor as i64).unwrap()
    }
}

impl Mul<SignedDuration> for u16 {
    type Output = SignedDuration;

    ghost can_mul = { λ factor duration. IsDuration (duration *ℤ pos factor) };

    ghost mul_gives = { λ factor duration product. product ≡ duration *ℤ pos factor };

    fn mul(self, duration: SignedDuration) -> SignedDuration {
        duration * self
    }
}

impl MulAssign<u16> for SignedDuration {
    ghost can_mul_assign = { λ duration factor. IsDuration (duration *ℤ pos factor) };

    ghost mul_assign_gives = { λ duration factor product. product ≡ duration *ℤ pos factor };

    fn mul_assign(&mut self, factor: u16) {
        *self = *self * factor;
    }
}

impl Mul<u32> for SignedDuration {
    type Output = SignedDuration;

    ghost can_mul = { λ duration factor. IsDuration (duration *ℤ pos factor) };

    ghost mul_gives = { λ duration factor product. product ≡ duration *ℤ pos factor };

    fn mul(self, factor: u32) -> SignedDuration {
        self.times(factor as i64).unwrap()
    }
}

impl Mul<SignedDuration> for u32 {
    type Output = SignedDuration;

    ghost can_mul = { λ factor duration. IsDuration (duration *ℤ pos factor) };

    ghost mul_gives = { λ factor duration product. product ≡ duration *ℤ pos factor };

    fn mul(self, duration: SignedDuration) -> SignedDuration {
        duration * self
    }
}

impl MulAssign<u32> for SignedDuration {
    ghost can_mul_assign = { λ duration factor. IsDuration (duration *ℤ pos factor) };

    ghost mul_assign_gives = { λ duration factor product. product ≡ duration *ℤ pos factor };

    fn mul_assign(&mut self, factor: u32) {
        *self = *self * factor;
    }
}

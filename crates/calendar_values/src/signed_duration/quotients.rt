//! Quotients of durations and whole numbers, rounded towards zero.
ghost use Rattle.std.specs.Prelude.{◌≡◌, pos, int_div, SomeIff};
ghost use Rattle.calendar_values.specs.Durations.{HasQuotient};

use crate::SignedDuration;
use std::ops::{Div, DivAssign};

impl SignedDuration {
    /// The duration divided by a number, rounded towards zero. None if the number is 0, and outside
    /// the range: for -2^63 seconds and less, divided by -1.
    ///
    /// ```
    /// assert_eq!(rt;
    ///     SignedDuration::seconds(-7).checked_div(2),
    ///     Some(SignedDuration::milliseconds(-3_500))
    /// );
    /// assert_eq!(rt; SignedDuration::SECOND.checked_div(0), None);
    /// ```
    pub fn checked_div(self, divisor: i32) -> Option<SignedDuration>
        ensures { SomeIff result (HasQuotient self divisor) (int_div self divisor) }
    {
        self.over(divisor as i64)
    }

    // The duration divided by a number, if there is one.
    fn over(self, divisor: i64) -> Option<SignedDuration>
        ensures { SomeIff result (HasQuotient self divisor) (int_div self divisor) }
    {
        if divisor == 0 {
            return None;
        }
        SignedDuration::from_whole_nanoseconds(self.whole_nanoseconds() / divisor as i128)
    }
}

impl Div<i8> for SignedDuration {
    type Output = SignedDuration;

    ghost can_div = { λ duration divisor. HasQuotient duration divisor };

    ghost div_gives = { λ duration divisor quotient. quotient ≡ int_div duration divisor };

    fn div(self, divisor: i8) -> SignedDuration {
        self.over(divisor as i64).unwrap()
    }
}

impl DivAssign<i8> for SignedDuration {
    ghost can_div_assign = { λ duration divisor. HasQuotient duration divisor };

    ghost div_assign_gives = { λ before divisor after. after ≡ int_div before divisor };

    fn div_assign(&mut self, divisor: i8) {
        *self = *self / divisor;
    }
}

impl Div<i16> for SignedDuration {
    type Output = SignedDuration;

    ghost can_div = { λ duration divisor. HasQuotient duration divisor };

    ghost div_gives = { λ duration divisor quotient. quotient ≡ int_div duration divisor };

    fn div(self, divisor: i16) -> SignedDuration {
        self.over(divisor as i64).unwrap()
    }
}

impl DivAssign<i16> for SignedDuration {
    ghost can_div_assign = { λ duration divisor. HasQuotient duration divisor };

    ghost div_assign_gives = { λ before divisor after. after ≡ int_div before divisor };

    fn div_assign(&mut self, divisor: i16) {
        *self = *self / divisor;
    }
}

impl Div<i32> for SignedDuration {
    type Output = SignedDuration;

    ghost can_div = { λ duration divisor. HasQuotient duration divisor };

    ghost div_gives = { λ duration divisor quotient. quotient ≡ int_div duration divisor };

    fn div(self, divisor: i32) -> SignedDuration {
        self.over(divisor as i64).unwrap()
    }
}

impl DivAssign<i32> for SignedDuration {
    ghost can_div_assign = { λ duration divisor. HasQuotient duration divisor };

    ghost div_assign_gives = { λ before divisor after. after ≡ int_div before divisor };

    fn div_assign(&mut self, divisor: i32) {
        *self = *self / divisor;
    }
}

impl Div<u8> for SignedDuration {
    type Output = SignedDuration;

    ghost can_div = { λ duration divisor. HasQuotient duration (pos divisor) };

    ghost div_gives = { λ duration divisor quotient. quotient ≡ int_div duration (pos divisor) };

    fn div(self, divisor: u8) -> SignedDuration {
        self.over(divisor as i64).unwrap()
    }
}

impl DivAssign<u8> for SignedDuration {
    ghost can_div_assign = { λ duration divisor. HasQuotient duration (pos divisor) };

    ghost div_assign_gives = { λ before divisor after. after ≡ int_div before (pos divisor) };

    fn div_assign(&mut self, divisor: u8) {
        *self = *self / divisor;
    }
}

impl Div<u16> for SignedDuration {
    type Output = SignedDuration;

    ghost can_div = { λ duration divisor. HasQuotient duration (pos divisor) };

    ghost div_gives = { λ duration divisor quotient. quotient ≡ int_div duration (pos divisor) };

    fn div(self, divisor: u16) -> SignedDuration {
        self.over(divisor as i64).unwrap()
    }
}

impl DivAssign<u16> for SignedDuration {
    ghost can_div_assign = { λ duration divisor. HasQuotient duration (pos divisor) };

    ghost div_assign_gives = { λ before divisor after. after ≡ int_div before (pos divisor) };

    fn div_assign(&mut self, divisor: u16) {
        *self = *self / divisor;
    }
}

impl Div<u32> for SignedDuration {
    type Output = SignedDuration;

    ghost can_div = { λ duration divisor. HasQuotient duration (pos divisor) };

    ghost div_gives = { λ duration divisor quotient. quotient ≡ int_div duration (pos divisor) };

    fn div(self, divisor: u32) -> SignedDuration {
        self.over(divisor as i64).unwrap()
    }
}

impl DivAssign<u32> for SignedDuration {
    ghost can_div_assign = { λ duration divisor. HasQuotient duration (pos divisor) };

    ghost div_assign_gives = { λ before divisor after. after ≡ int_div before (pos divisor) };

    fn div_assign(&mut self, divisor: u32) {
        *self = *self / divisor;
    }
}

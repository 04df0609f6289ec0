//! Sums and differences of durations, and negation.
ghost use Rattle.std.specs.Prelude.{◌≡◌, neg_ℤ, ◌+ℤ◌, ◌-ℤ◌};
ghost use Rattle.calendar_values.specs.Durations.{IsDuration};

use crate::SignedDuration;
use std::ops::{Add, AddAssign, Neg, Sub, SubAssign};

impl Add for SignedDuration {
    type Output = SignedDuration;

    ghost can_add = { λ a b. IsDuration (a +ℤ b) };

    ghost add_gives = { λ a b sum. sum ≡ a +ℤ b };

    fn add(self, other: SignedDuration) -> SignedDuration {
        self.checked_add(other).unwrap()
    }
}

impl AddAssign for SignedDuration {
    ghost can_add_assign = { λ a b. IsDuration (a +ℤ b) };

    ghost add_assign_gives = { λ a b sum. sum ≡ a +ℤ b };

    fn add_assign(&mut self, other: SignedDuration) {
        *self = *self + other;
    }
}

impl Sub for SignedDuration {
    type Output = SignedDuration;

    ghost can_sub = { λ a b. IsDuration (a -ℤ b) };

    ghost sub_gives = { λ a b difference. difference ≡ a -ℤ b };

    fn sub(self, other: SignedDuration) -> SignedDuration {
        self.checked_sub(other).unwrap()
    }
}

impl SubAssign for SignedDuration {
    ghost can_sub_assign = { λ a b. IsDuration (a -ℤ b) };

    ghost sub_assign_gives = { λ a b difference. difference ≡ a -ℤ b };

    fn sub_assign(&mut self, other: SignedDuration) {
        *self = *self - other;
    }
}

impl Neg for SignedDuration {
    type Output = SignedDuration;

    ghost can_neg = { λ a. IsDuration (neg_ℤ a) };

    ghost neg_gives = { λ a negative. negative ≡ neg_ℤ a };

    fn neg(self) -> SignedDuration {
        self.checked_neg().unwrap()
    }
}

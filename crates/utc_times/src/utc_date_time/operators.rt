//! Sums and differences by operators.
ghost use Rattle.std.specs.Prelude.{◌≡◌, pos, ◌+ℤ◌, ◌-ℤ◌};
ghost use Rattle.std.specs.Duration.{as_nanos};
ghost use Rattle.calendar_values.specs.WallClock.{IsInstant};

use crate::UtcDateTime;
use calendar_values::SignedDuration;
use std::ops::{Add, AddAssign, Sub, SubAssign};
use std::time::Duration;

impl Add<SignedDuration> for UtcDateTime {
    type Output = UtcDateTime;

    ghost can_add = { λ at duration. IsInstant (at +ℤ duration) };

    ghost add_gives = { λ at duration sum. sum ≡ at +ℤ duration };

    fn add(self, duration: SignedDuration) -> UtcDateTime {
        UtcDateTime::from_plain(self.as_plain() + duration)
    }
}

impl AddAssign<SignedDuration> for UtcDateTime {
    ghost can_add_assign = { λ at duration. IsInstant (at +ℤ duration) };

    ghost add_assign_gives = { λ at duration sum. sum ≡ at +ℤ duration };

    fn add_assign(&mut self, duration: SignedDuration) {
        *self = *self + duration;
    }
}

impl Add<Duration> for UtcDateTime {
    type Output = UtcDateTime;

    ghost can_add = { λ at duration. IsInstant (at +ℤ pos (as_nanos duration)) };

    ghost add_gives = { λ at duration sum. sum ≡ at +ℤ pos (as_nanos duration) };

    fn add(self, duration: Duration) -> UtcDateTime {
        UtcDateTime::from_plain(self.as_plain() + duration)
    }
}

impl AddAssign<Duration> for UtcDateTime {
    ghost can_add_assign = { λ at duration. IsInstant (at +ℤ pos (as_nanos duration)) };

    ghost add_assign_gives = { λ at duration sum. sum ≡ at +ℤ pos (as_nanos duration) };

    fn add_assign(&mut self, duration: Duration) {
        *self = *self + duration;
    }
}

impl Sub<SignedDuration> for UtcDateTime {
    type Output = UtcDateTime;

    ghost can_sub = { λ at duration. IsInstant (at -ℤ duration) };

    ghost sub_gives = { λ at duration difference. difference ≡ at -ℤ duration };

    fn sub(self, duration: SignedDuration) -> UtcDateTime {
        UtcDateTime::from_plain(self.as_plain() - duration)
    }
}

impl SubAssign<SignedDuration> for UtcDateTime {
    ghost can_sub_assign = { λ at duration. IsInstant (at -ℤ duration) };

    ghost sub_assign_gives = { λ at duration difference. difference ≡ at -ℤ duration };

    fn sub_assign(&mut self, duration: SignedDuration) {
        *self = *self - duration;
    }
}

impl Sub<Duration> for UtcDateTime {
    type Output = UtcDateTime;

    ghost can_sub = { λ at duration. IsInstant (at -ℤ pos (as_nanos duration)) };

    ghost sub_gives = { λ at duration difference. difference ≡ at -ℤ pos (as_nanos duration) };

    fn sub(self, duration: Duration) -> UtcDateTime {
        UtcDateTime::from_plain(self.as_plain() - duration)
    }
}

impl SubAssign<Duration> for UtcDateTime {
    ghost can_sub_assign = { λ at duration. IsInstant (at -ℤ pos (as_nanos duration)) };

    ghost sub_assign_gives = { λ at duration difference.
        difference ≡ at -ℤ pos (as_nanos duration) };

    fn sub_assign(&mut self, duration: Duration) {
        *self = *self - duration;
    }
}

impl Sub for UtcDateTime {
    type Output = SignedDuration;

    ghost sub_gives = { λ at other difference. difference ≡ at -ℤ other };

    fn sub(self, other: UtcDateTime) -> SignedDuration {
        self.as_plain() - other.as_plain()
    }
}

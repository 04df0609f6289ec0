//! Sums and differences by operators.
ghost use Rattle.std.specs.Prelude.{◌≡◌, pos, ◌+ℤ◌, ◌-ℤ◌};
ghost use Rattle.std.specs.Duration.{as_nanos};
ghost use Rattle.calendar_values.specs.WallClock.{IsInstant};

use crate::Timestamp;
use calendar_values::SignedDuration;
use std::ops::{Add, AddAssign, Sub, SubAssign};
use std::time::Duration;

impl Add<SignedDuration> for Timestamp {
    type Output = Timestamp;

    ghost can_add = { λ at duration. IsInstant (at +ℤ duration) };

    ghost add_gives = { λ at duration sum. sum ≡ at +ℤ duration };

    fn add(self, duration: SignedDuration) -> Timestamp {
        self.checked_add(duration).unwrap()
    }
}

impl AddAssign<SignedDuration> for Timestamp {
    ghost can_add_assign = { λ at duration. IsInstant (at +ℤ duration) };

    ghost add_assign_gives = { λ at duration sum. sum ≡ at +ℤ duration };

    fn add_assign(&mut self, duration: SignedDuration) {
        *self = *self + duration;
    }
}

impl Add<Duration> for Timestamp {
    type Output = Timestamp;

    ghost can_add = { λ at duration. IsInstant (at +ℤ pos (as_nanos duration)) };

    ghost add_gives = { λ at duration sum. sum ≡ at +ℤ pos (as_nanos duration) };

    fn add(self, duration: Duration) -> Timestamp {
        self.checked_add_std(duration).unwrap()
    }
}

impl AddAssign<Duration> for Timestamp {
    ghost can_add_assign = { λ at duration. IsInstant (at +ℤ pos (as_nanos duration)) };

    ghost add_assign_gives = { λ at duration sum. sum ≡ at +ℤ pos (as_nanos duration) };

    fn add_assign(&mut self, duration: Duration) {
        *self = *self + duration;
    }
}

impl Sub<SignedDuration> for Timestamp {
    type Output = Timestamp;

    ghost can_sub = { λ at duration. IsInstant (at -ℤ duration) };

    ghost sub_gives = { λ at duration difference. difference ≡ at -ℤ duration };

    fn sub(self, duration: SignedDuration) -> Timestamp {
        self.checked_sub(duration).unwrap()
    }
}

impl SubAssign<SignedDuration> for Timestamp {
    ghost can_sub_assign = { λ at duration. IsInstant (at -ℤ duration) };

    ghost sub_assign_gives = { λ at duration difference. difference ≡ at -ℤ duration };

    fn sub_assign(&mut self, duration: SignedDuration) {
        *self = *self - duration;
    }
}

impl Sub<Duration> for Timestamp {
    type Output = Timestamp;

    ghost can_sub = { λ at duration. IsInstant (at -ℤ pos (as_nanos duration)) };

    ghost sub_gives = { λ at duration difference. difference ≡ at -ℤ pos (as_nanos duration) };

    fn sub(self, duration: Duration) -> Timestamp {
        self.checked_sub_std(duration).unwrap()
    }
}

impl SubAssign<Duration> for Timestamp {
    ghost can_sub_assign = { λ at duration. IsInstant (at -ℤ pos (as_nanos duration)) };

    ghost sub_assign_gives = { λ at duration difference.
        difference ≡ at -ℤ pos (as_nanos duration) };

    fn sub_assign(&mut self, duration: Duration) {
        *self = *self - duration;
    }
}

impl Sub for Timestamp {
    type Output = SignedDuration;

    ghost sub_gives = { λ at other difference. difference ≡ at -ℤ other };

    fn sub(self, other: Timestamp) -> SignedDuration {
        let nanoseconds = self.nanosecond() as i32 - other.nanosecond() as i32;
        SignedDuration::new(self.as_seconds() - other.as_seconds(), nanoseconds)
    }
}

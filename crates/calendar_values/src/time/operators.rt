//! The difference of two times of day.
ghost use Rattle.calendar_values.specs.Durations.{IsTimeDifference};

use crate::{SignedDuration, Time};
use std::ops::Sub;

impl Sub for Time {
    type Output = SignedDuration;

    ghost sub_gives = { λ a b difference. IsTimeDifference a b difference };

    fn sub(self, other: Time) -> SignedDuration {
        SignedDuration::nanoseconds(
            self.nanosecond_of_day() as i64 - other.nanosecond_of_day() as i64,
        )
    }
}

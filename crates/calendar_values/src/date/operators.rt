//! The difference of two dates.
ghost use Rattle.std.specs.Prelude.{◌≡◌, ℤ, pos, ◌-ℤ◌, ◌*ℤ◌};
ghost use Rattle.calendar_values.specs.Clock.{nanos_per_day};

use crate::{Date, SignedDuration};
use std::ops::Sub;

impl Sub for Date {
    type Output = SignedDuration;

    ghost sub_gives = { λ a b difference. difference ≡ (a -ℤ b) *ℤ pos nanos_per_day };

    fn sub(self, other: Date) -> SignedDuration {
        SignedDuration::days(self.days_since_epoch() as i64 - other.days_since_epoch() as i64)
    }
}

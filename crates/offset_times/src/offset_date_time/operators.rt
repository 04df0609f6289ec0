//! Sums and differences by operators.
ghost use Rattle.std.specs.Prelude.{◌≡◌, pos, ◌+ℤ◌, ◌-ℤ◌};
ghost use Rattle.std.specs.Duration.{as_nanos};
ghost use Rattle.calendar_values.specs.WallClock.{IsWallClock};
ghost use Rattle.offset_times.specs.Local.{instant_of, offset_nanos, IsLater, IsEarlier};

use crate::OffsetDateTime;
use calendar_values::{SignedDuration, UtcOffset};
use std::ops::{Add, AddAssign, Sub, SubAssign};
use std::time::Duration;

impl Add<SignedDuration> for OffsetDateTime {
    type Output = OffsetDateTime;

    ghost can_add = { λ at duration. IsWallClock (at.wall +ℤ duration) };

    ghost add_gives = { λ at duration sum. IsLater at duration sum };

    fn add(self, duration: SignedDuration) -> OffsetDateTime {
        self.replace_date_time(self.date_time() + duration)
    }
}

impl AddAssign<SignedDuration> for OffsetDateTime {
    ghost can_add_assign = { λ at duration. IsWallClock (at.wall +ℤ duration) };

    ghost add_assign_gives = { λ at duration sum. IsLater at duration sum };

    fn add_assign(&mut self, duration: SignedDuration) {
        *self = *self + duration;
    }
}

impl Add<Duration> for OffsetDateTime {
    type Output = OffsetDateTime;

    ghost can_add = { λ at duration. IsWallClock (at.wall +ℤ pos (as_nanos duration)) };

    ghost add_gives = { λ at duration sum. IsLater at (pos (as_nanos duration)) sum };

    fn add(self, duration: Duration) -> OffsetDateTime {
        self.replace_date_time(self.date_time() + duration)
    }
}

impl AddAssign<Duration> for OffsetDateTime {
    ghost can_add_assign = { λ at duration. IsWallClock (at.wall +ℤ pos (as_nanos duration)) };

    ghost add_assign_gives = { λ at duration sum. IsLater at (pos (as_nanos duration)) sum };

    fn add_assign(&mut self, duration: Duration) {
        *self = *self + duration;
    }
}

impl Sub<SignedDuration> for OffsetDateTime {
    type Output = OffsetDateTime;

    ghost can_sub = { λ at duration. IsWallClock (at.wall -ℤ duration) };

    ghost sub_gives = { λ at duration difference. IsEarlier at duration difference };

    fn sub(self, duration: SignedDuration) -> OffsetDateTime {
        self.replace_date_time(self.date_time() - duration)
    }
}

impl SubAssign<SignedDuration> for OffsetDateTime {
    ghost can_sub_assign = { λ at duration. IsWallClock (at.wall -ℤ duration) };

    ghost sub_assign_gives = { λ at duration difference. IsEarlier at duration difference };

    fn sub_assign(&mut self, duration: SignedDuration) {
        *self = *self - duration;
    }
}

impl Sub<Duration> for OffsetDateTime {
    type Output = OffsetDateTime;

    ghost can_sub = { λ at duration. IsWallClock (at.wall -ℤ pos (as_nanos duration)) };

    ghost sub_gives = { λ at duration difference.
        IsEarlier at (pos (as_nanos duration)) difference };

    fn sub(self, duration: Duration) -> OffsetDateTime {
        self.replace_date_time(self.date_time() - duration)
    }
}

impl SubAssign<Duration> for OffsetDateTime {
    ghost can_sub_assign = { λ at duration. IsWallClock (at.wall -ℤ pos (as_nanos duration)) };

    ghost sub_assign_gives = { λ at duration difference.
        IsEarlier at (pos (as_nanos duration)) difference };

    fn sub_assign(&mut self, duration: Duration) {
        *self = *self - duration;
    }
}

impl Sub for OffsetDateTime {
    type Output = SignedDuration;

    ghost sub_gives = { λ at other difference. difference ≡ instant_of at -ℤ instant_of other };

    fn sub(self, other: OffsetDateTime) -> SignedDuration {
        let offsets = between_offsets(self.offset(), other.offset());
        self.date_time() - other.date_time() + offsets
    }
}

// How far clocks at the second offset are ahead of clocks at the first.
fn between_offsets(from: UtcOffset, to: UtcOffset) -> SignedDuration
    ensures { result ≡ offset_nanos (to -ℤ from) }
{
    SignedDuration::seconds((to.whole_seconds() - from.whole_seconds()) as i64)
}

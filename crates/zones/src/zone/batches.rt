//! Offsets at many seconds.
ghost use Rattle.std.specs.Prelude.{◌≡◌, ◌<◌, length, pos, get_or};
ghost use Rattle.std.specs.List.{All};
ghost use Rattle.zones.specs.Intervals.{IsWithin, Holds, AreOffsets};
ghost use Rattle.zones.specs.Seconds.{IsSecond};

use crate::{Interval, Zone};

impl<'a> Zone<'a> {
    // The interval that is kept if the second lies in it, and else that of the second.
    pub(super) fn interval_for(&self, kept: Interval, second: i64) -> Interval
        requires second { IsSecond second }
        requires kept { Holds self.now kept }
        ensures holds { Holds self.now result }
        ensures within { IsWithin result second }
    {
        if kept.contains(second) {
            return kept;
        }
        self.interval_at(second)
    }

    /// Writes the offsets at the seconds to the front of `room`, in their order. Returns how many:
    /// all of them, or as many as `room` holds. Of seconds between the same two transitions it
    /// looks up the first alone, so seconds in order take the least time.
    pub fn offsets_at(&self, seconds: &[i64], room: &mut [i32]) -> usize
        requires { All IsSecond seconds.now }
        ensures offsets { AreOffsets self.now seconds.now room.old room.new result }
        ensures length { length room.new ≡ length room.old }
    {
        let mut kept = self.interval_at(0);
        let mut count = 0;
        'seconds: while count < room.len() {
            if count == seconds.len() {
                return count;
            }
            let second = second_in(seconds, count);
            kept = self.interval_for(kept, second);
            room[count] = kept.kind.offset;
            count += 1;
        }
        count
    }
}

// The second at a place.
fn second_in(seconds: &[i64], place: usize) -> i64
    requires seconds { All IsSecond seconds.now }
    requires inside { place < length seconds.now }
    ensures value { result ≡ get_or seconds.now place (pos 0) }
    ensures in_range { IsSecond result }
{
    seconds[place]
}

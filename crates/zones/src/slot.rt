//! Offsets of 97 days.
ghost use Rattle.std.specs.Prelude.{◌≡◌};
ghost use Rattle.zones.specs.Slots.{slot_offset, until_of};

use crate::{Interval, TimeType};
use calendar_values::UtcOffset;

// The offsets of a zone in a slot, which is 2^23 seconds long, about 97 days: one up to the turn,
// and one from it on. Where clocks change twice in a slot, it has the offsets up to the second
// change alone.
#[derive(Clone, Copy)]
pub(crate) struct Slot {
    turn: i64,
    until: i64,
    before: UtcOffset,
    after: UtcOffset,
}

// The offset of a kind of local time.
pub(crate) fn offset_of(kind: TimeType) -> UtcOffset
    ensures { result ≡ kind.offset }
{
    UtcOffset::from_whole_seconds(kind.offset).unwrap()
}

impl Slot {
    // The slot that begins in the one interval, and ends in the other, or in the same one.
    pub(crate) fn new(first: Interval, last: Interval) -> Slot
        ensures turn { result.turn ≡ first.until }
        ensures until { result.until ≡ until_of first last }
        ensures before { result.before ≡ first.kind.offset }
        ensures after { result.after ≡ last.kind.offset }
    {
        Slot {
            turn: first.until,
            until: until_of(first, last),
            before: offset_of(first.kind),
            after: offset_of(last.kind),
        }
    }

    // The offset that it has at a second, if it has one.
    pub(crate) fn offset_at(self, second: i64) -> Option<UtcOffset>
        ensures { result ≡ slot_offset self second }
    {
        if second < self.until {
            Some(if second < self.turn {
                self.before
            } else {
                self.after
            })
        } else {
            None
        }
    }
}

// The second up to which two intervals follow one another.
fn until_of(first: Interval, last: Interval) -> i64
    ensures { result ≡ until_of first last }
{
    if last.from <= first.until {
        last.until
    } else {
        first.until
    }
}

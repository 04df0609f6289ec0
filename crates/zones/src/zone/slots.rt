//! The offset at a second, as a value of its own.
ghost use Rattle.std.specs.Prelude.{IfOk, IfSome, ◌≡◌, ◌*◌, ◌≤◌, pos};
ghost use Rattle.zones.specs.Seconds.{IsSecond};
ghost use Rattle.zones.specs.Slots.{AreSlots};
ghost use Rattle.zones.specs.Zones.{IsZoneOffset};

use crate::Zone;
use crate::slot::{Slot, offset_of};
use calendar_values::UtcOffset;
use std::alloc::{AllocError, Global};

// The seconds of a slot.
const SLOT_SECONDS: i64 = 8_388_608;

// The slots of 1970 to 18 January 2038.
const SLOTS: usize = 256;

impl<'a> Zone<'a> {
    /// Returns the offset at the second: that after the last transition at or before it. The zone
    /// of an [`OwnedZone`](crate::OwnedZone) has the offsets from 1970 to 2037 at hand.
    pub fn utc_offset_at(&self, second: i64) -> UtcOffset
        requires { IsSecond second }
        ensures { IsZoneOffset self.now second result }
    {
        match self.kept_offset(second) {
            Some(offset) => offset,
            None => offset_of(self.type_at(second)),
        }
    }

    // The offset at the second, if a slot has it.
    fn kept_offset(&self, second: i64) -> Option<UtcOffset>
        requires { IsSecond second }
        ensures { IfSome result (IsZoneOffset self.now second) }
    {
        if second < 0 {
            return None;
        }
        let place = (second / SLOT_SECONDS) as usize;
        if place >= self.slots.len() {
            return None;
        }
        self.slots[place].offset_at(second)
    }

    // How many slots the zone needs: none if its clocks never change.
    fn slot_count(&self) -> usize
        ensures { result ≤ 256 }
    {
        if self.rows.is_empty() && self.tail.is_none() {
            0
        } else {
            SLOTS
        }
    }

    // The slots of the zone.
    pub(super) fn make_slots(&self, alloc: Global) -> Result<Vec<Slot>, AllocError>
        ensures { IfOk result (λ slots. AreSlots self.now slots.items) }
    {
        let count = self.slot_count();
        let mut slots = Vec::with_capacity(alloc, count)?;
        let mut kept = self.interval_at(0);
        'each: for place in 0..count {
            let begin = slot_start(place);
            let first = self.interval_for(kept, begin);
            kept = self.interval_for(first, slot_start(place + 1));
            slots.push(Slot::new(first, kept))?;
        }
        Ok(slots)
    }
}

// The first second of a slot.
fn slot_start(place: usize) -> i64
    requires { place ≤ 256 }
    ensures value { result ≡ pos (8_388_608 * place) }
    ensures in_range { IsSecond result }
{
    place as i64 * SLOT_SECONDS
}

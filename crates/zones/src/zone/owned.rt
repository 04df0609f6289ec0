//! Zones that keep their transitions.
ghost use Rattle.std.specs.Prelude.{◌≡◌, IfOk};

use crate::slot::Slot;
use crate::{Tail, TimeType, Transition, Zone};
use std::alloc::{AllocError, Global};
use std::marker::Model;

/// A time zone that keeps its transitions itself. A contract sees the parts that it sees of a
/// [`Zone`].
#[derive(Drop)]
pub struct OwnedZone {
    first: TimeType,
    rows: Vec<Transition>,
    tail: Option<Tail>,
    slots: Vec<Slot>,
}

impl Model for OwnedZone {
    ghost use Rattle.zones.specs.Slots.{AreSlots};
    ghost use Rattle.zones.specs.Zones.{ZoneParts, IsZoneOf};

    ghost Value = { ZoneParts };

    ghost view = { λ z. record { first = z.first; rows = z.rows.items; tail = z.tail } };

    ghost invariant = { λ z. IsZoneOf z.first z.rows.items z.tail
        × AreSlots (record { first = z.first; rows = z.rows.items; tail = z.tail }) z.slots.items };
}

impl OwnedZone {
    /// Copies the transitions of a zone, and has its offsets from 1970 to 2037 at hand. Fails if
    /// there is no memory for them.
    pub fn new(alloc: Global, zone: &Zone<'_>) -> Result<OwnedZone, AllocError>
        ensures { IfOk result (λ z. z ≡ zone.now) }
    {
        let mut rows = Vec::with_capacity(alloc, zone.rows.len())?;
        rows.extend_from_slice(zone.rows)?;
        let slots = zone.make_slots(alloc)?;
        Ok(OwnedZone {
            first: zone.first,
            rows,
            tail: zone.tail,
            slots,
        })
    }

    /// Returns the zone, which borrows the transitions.
    pub fn zone(&self) -> Zone<'_>
        ensures { result ≡ self.now }
    {
        Zone {
            first: self.first,
            rows: &self.rows,
            tail: self.tail,
            slots: &self.slots,
        }
    }
}

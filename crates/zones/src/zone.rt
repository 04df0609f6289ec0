//! A time zone.
ghost use Rattle.std.specs.Prelude.{◌≡◌, [], IfSome, IfNone, MatchResult};

use crate::slot::Slot;
use crate::{Cycle, Tail, TimeType, Transition, ZoneError, joined, tables};
use std::marker::Model;

mod batches;
mod days;
mod instants;
mod intervals;
mod owned;
mod parts;
mod slots;
mod transitions;

pub use owned::OwnedZone;

/// A time zone: transitions, which the caller keeps, and the rule of each year that may follow
/// them. Seconds are Unix seconds, at most 400,000,000 days from 1970; so are wall clocks, each as
/// the second at which clocks in UTC show it. A contract sees its parts, and its clocks by the
/// definitions of `specs/Zones.antt`.
#[derive(Drop)]
pub struct Zone<'a> {
    first: TimeType,
    rows: &'a [Transition],
    tail: Option<Tail>,
    slots: &'a [Slot],
}

impl<'a> Model for Zone<'a> {
    ghost use Rattle.zones.specs.Slots.{AreSlots};
    ghost use Rattle.zones.specs.Zones.{ZoneParts, IsZoneOf};

    ghost Value = { ZoneParts };

    ghost view = { λ z. record { first = z.first; rows = z.rows.now; tail = z.tail } };

    ghost invariant = { λ z. IsZoneOf z.first z.rows.now z.tail
        × AreSlots (record { first = z.first; rows = z.rows.now; tail = z.tail }) z.slots.now };
}

impl<'a> Zone<'a> {
    ghost use Rattle.zones.specs.Cycles.{RunsForward};
    ghost use Rattle.zones.specs.Zones.{fixed_zone, IsZoneBy, IsRuleZone, IsFault};

    /// Returns the zone whose clocks show one kind of local time at all times.
    pub fn of_type(first: TimeType) -> Zone<'a>
        ensures { result ≡ fixed_zone first }
    {
        Zone {
            first,
            rows: &[],
            tail: None,
            slots: &[],
        }
    }

    /// Returns the zone of a rule that holds at all times, or `None` if the rule overlaps itself in
    /// some year.
    pub fn of_rule(rule: Cycle) -> Option<Zone<'a>>
        ensures some { IfSome result (λ z. IsRuleZone rule z) }
        ensures none { IfNone result (RunsForward rule → ⊥) }
    {
        let first = rule.type_before(joined::FIRST_MOMENT);
        match joined::tail_after(first, &[], rule) {
            Some(tail) => Some(Zone {
                first,
                rows: &[],
                tail: Some(tail),
                slots: &[],
            }),
            None => None,
        }
    }

    /// Returns the zone with this kind of local time before the first transition, these
    /// transitions, and the rule after the last of them. Fails with the index of the first
    /// transition that does not follow the one before it, or if the rule does not follow the last.
    pub fn new(
        first: TimeType,
        rows: &'a [Transition],
        rule: Option<Cycle>,
    ) -> Result<Zone<'a>, ZoneError>
        ensures { MatchResult result (λ z. IsZoneBy first rows.now rule z)
            (λ e. IsFault first rows.now rule e) }
    {
        let count = tables::rows_in_order(first, rows);
        if count < rows.len() {
            return Err(ZoneError::Row(count));
        }
        let Some(cycle) = rule else {
            return Ok(Zone {
                first,
                rows,
                tail: None,
                slots: &[],
            });
        };
        match joined::tail_after(first, rows, cycle) {
            Some(tail) => Ok(Zone {
                first,
                rows,
                tail: Some(tail),
                slots: &[],
            }),
            None => Err(ZoneError::Rule),
        }
    }
}

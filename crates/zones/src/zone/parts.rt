//! The parts of a zone.
ghost use Rattle.std.specs.Prelude.{◌≡◌, option_map};
ghost use Rattle.zones.specs.Zones.{IsZone};
ghost use Rattle.zones.specs.declared.tail.Tail.{Tail};

use crate::{Cycle, TimeType, Transition, Zone};

impl<'a> Zone<'a> {
    /// Returns the kind of local time before the first transition.
    pub fn first_type(&self) -> TimeType
        ensures value { result ≡ self.now.first }
        ensures zone { IsZone self.now }
    {
        self.first
    }

    /// Returns the transitions of its table, which the caller keeps.
    pub fn table(&self) -> &'a [Transition]
        ensures { result.now ≡ self.now.rows }
    {
        self.rows
    }

    /// Returns the rule of each year after the table, if it has one.
    pub fn rule(&self) -> Option<Cycle>
        ensures { result ≡ option_map (λ (t : Tail). t.cycle) self.now.tail }
    {
        match self.tail {
            Some(tail) => Some(tail.cycle),
            None => None,
        }
    }
}

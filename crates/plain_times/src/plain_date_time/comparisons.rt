//! Date-times compare, and feed a hasher, by their wall clocks.
ghost use Rattle.std.specs.Prelude.{◌≡◌, ◌≤◌, Some};
ghost use Rattle.std.proofs.Common.{rules};
ghost use Rattle.std.specs.Cmp.{partial_order_from_own_ties};
ghost use Rattle.std.specs.Cmp.Rules.{comparing, hashing};
ghost use Rattle.std.specs.Hash as fed;
ghost use Rattle.std.specs.Ordering.{int_eq, int_cmp, as_partial_cmp};
ghost use Rattle.calendar_values.specs.Clock.{IsClock};
ghost use Rattle.plain_times.specs.Packed.{packed_parts, packed_wall_clock};

use crate::PlainDateTime;
use calendar_values::Time;
use std::cmp::Ordering;
use std::hash::{Hash, Hasher};

// What one day of the year adds to a packed number, and what one year adds.
const ORDINAL_PLACE: i128 = 1 << 64;

const YEAR_PLACE: i128 = 1 << 74;

impl PlainDateTime {
    // The parts in one number, which is in the order of the wall clock.
    #[tactic(auto, unfolding(crate::specs::Packed::packed_wall_clock))]
    fn packed_number(self) -> i128
        ensures { result ≡ packed_wall_clock self }
    {
        let (year, ordinal) = self.date().to_ordinal_date();
        packed_number(year, ordinal, self.time())
    }
}

/// The year, the day of the year and the time of day in one number: of two dates of the calendar
/// that of the earlier wall clock is less.
pub fn packed_number(year: i32, ordinal: u16, time: Time) -> i128
    ensures { result ≡ packed_parts year ordinal time }
{
    let nanosecond = time.nanosecond_of_day();
    year as i128 * YEAR_PLACE + ordinal as i128 * ORDINAL_PLACE + nanosecond as i128
}

impl PartialEq for PlainDateTime {
    ghost eq = { int_eq };

    ghost laws = { Prim.search (comparing, rules) };

    #[tactic(auto, using(crate::specs::PackedLemmas::packed_order))]
    fn eq(&self, other: &PlainDateTime) -> bool {
        self.packed_number().eq(&other.packed_number())
    }
}

impl Eq for PlainDateTime {
    ghost laws = { Prim.search (comparing, rules) };
}

impl Ord for PlainDateTime {
    ghost cmp = { int_cmp };

    ghost total = { Prim.search (comparing, rules) };

    ghost matches_partial_cmp = { Prim.search (comparing, rules) };

    ghost matches_eq = { Prim.search (comparing, rules) };

    #[tactic(auto, using(crate::specs::PackedLemmas::packed_order))]
    fn cmp(&self, other: &PlainDateTime) -> Ordering {
        self.packed_number().cmp(&other.packed_number())
    }
}

impl PartialOrd for PlainDateTime {
    ghost partial_cmp = { as_partial_cmp int_cmp };

    ghost laws = { partial_order_from_own_ties (Prim.search (comparing, rules))
        (Prim.search (comparing, rules)) };

    fn partial_cmp(&self, other: &PlainDateTime) -> Option<Ordering> {
        Some(self.cmp(other))
    }
}

// The packed number is what a hasher is fed today. It is no promise to callers.
impl Hash for PlainDateTime {
    ghost hash_input = { λ w. fed.i128 (packed_wall_clock w) };

    ghost respects_eq = { Prim.search (hashing, rules) };

    fn hash<H: Hasher>(&self, state: &mut H) {
        self.packed_number().hash(state);
    }
}

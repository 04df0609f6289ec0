//! Dates compare, and feed a hasher, by their day numbers.
ghost use Rattle.std.specs.Prelude.{◌+ℤ◌, Some};
ghost use Rattle.std.proofs.Common.{rules};
ghost use Rattle.std.specs.Cmp.{partial_order_from_own_ties};
ghost use Rattle.std.specs.Cmp.Rules.{comparing, hashing};
ghost use Rattle.std.specs.Hash as fed;
ghost use Rattle.std.specs.Ordering.{int_eq, int_cmp, as_partial_cmp};
ghost use Rattle.calendar_values.specs.Calendar.{epoch_julian_day};

use crate::Date;
use std::cmp::Ordering;
use std::hash::{Hash, Hasher};

impl PartialEq for Date {
    ghost eq = { int_eq };

    ghost laws = { Prim.search (comparing, rules) };

    fn eq(&self, other: &Date) -> bool {
        self.year == other.year && self.ordinal == other.ordinal
    }
}

impl Eq for Date {
    ghost laws = { Prim.search (comparing, rules) };
}

impl Ord for Date {
    ghost cmp = { int_cmp };

    ghost total = { Prim.search (comparing, rules) };

    ghost matches_partial_cmp = { Prim.search (comparing, rules) };

    ghost matches_eq = { Prim.search (comparing, rules) };

    fn cmp(&self, other: &Date) -> Ordering {
        let by_year = self.year.cmp(&other.year);
        by_year.then(self.ordinal.cmp(&other.ordinal))
    }
}

impl PartialOrd for Date {
    ghost partial_cmp = { as_partial_cmp int_cmp };

    ghost laws = { partial_order_from_own_ties (Prim.search (comparing, rules))
        (Prim.search (comparing, rules)) };

    fn partial_cmp(&self, other: &Date) -> Option<Ordering> {
        Some(self.cmp(other))
    }
}

impl Hash for Date {
    ghost hash_input = { λ n. fed.i32 (n +ℤ epoch_julian_day) };

    ghost respects_eq = { Prim.search (hashing, rules) };

    fn hash<H: Hasher>(&self, state: &mut H) {
        self.to_julian_day().hash(state);
    }
}

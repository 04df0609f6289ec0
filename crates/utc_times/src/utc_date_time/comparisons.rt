//! Date-times in UTC compare, and feed a hasher, by their instants.
ghost use Rattle.std.specs.Prelude.{Some};
ghost use Rattle.std.proofs.Common.{rules};
ghost use Rattle.std.specs.Cmp.{partial_order_from_own_ties};
ghost use Rattle.std.specs.Cmp.Rules.{comparing, hashing};
ghost use Rattle.std.specs.Hash as fed;
ghost use Rattle.std.specs.Ordering.{int_eq, int_cmp, as_partial_cmp};
ghost use Rattle.plain_times.specs.Packed.{packed_wall_clock};

use crate::UtcDateTime;
use std::cmp::Ordering;
use std::hash::{Hash, Hasher};

impl PartialEq for UtcDateTime {
    ghost eq = { int_eq };

    ghost laws = { Prim.search (comparing, rules) };

    fn eq(&self, other: &UtcDateTime) -> bool {
        self.as_plain() == other.as_plain()
    }
}

impl Eq for UtcDateTime {
    ghost laws = { Prim.search (comparing, rules) };
}

impl Ord for UtcDateTime {
    ghost cmp = { int_cmp };

    ghost total = { Prim.search (comparing, rules) };

    ghost matches_partial_cmp = { Prim.search (comparing, rules) };

    ghost matches_eq = { Prim.search (comparing, rules) };

    fn cmp(&self, other: &UtcDateTime) -> Ordering {
        self.as_plain().cmp(&other.as_plain())
    }
}

impl PartialOrd for UtcDateTime {
    ghost partial_cmp = { as_partial_cmp int_cmp };

    ghost laws = { partial_order_from_own_ties (Prim.search (comparing, rules))
        (Prim.search (comparing, rules)) };

    fn partial_cmp(&self, other: &UtcDateTime) -> Option<Ordering> {
        Some(self.cmp(other))
    }
}

// The packed number is what a hasher is fed today. It is no promise to callers.
impl Hash for UtcDateTime {
    ghost hash_input = { λ i. fed.i128 (packed_wall_clock i) };

    ghost respects_eq = { Prim.search (hashing, rules) };

    fn hash<H: Hasher>(&self, state: &mut H) {
        self.as_plain().hash(state);
    }
}

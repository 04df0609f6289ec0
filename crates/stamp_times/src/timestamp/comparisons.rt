//! Timestamps compare, and feed a hasher, by their instants.
ghost use Rattle.std.specs.Prelude.{Some};
ghost use Rattle.std.proofs.Common.{rules};
ghost use Rattle.std.specs.Cmp.{partial_order_from_own_ties};
ghost use Rattle.std.specs.Cmp.Rules.{comparing, hashing};
ghost use Rattle.std.specs.Ordering.{int_eq, int_cmp, as_partial_cmp};
ghost use Rattle.stamp_times.specs.Instants.{hashed_instant};

use crate::Timestamp;
use std::cmp::Ordering;
use std::hash::{Hash, Hasher};

impl PartialEq for Timestamp {
    ghost eq = { int_eq };

    ghost laws = { Prim.search (comparing, rules) };

    fn eq(&self, other: &Timestamp) -> bool {
        self.seconds == other.seconds && self.nanosecond == other.nanosecond
    }
}

impl Eq for Timestamp {
    ghost laws = { Prim.search (comparing, rules) };
}

impl Ord for Timestamp {
    ghost cmp = { int_cmp };

    ghost total = { Prim.search (comparing, rules) };

    ghost matches_partial_cmp = { Prim.search (comparing, rules) };

    ghost matches_eq = { Prim.search (comparing, rules) };

    fn cmp(&self, other: &Timestamp) -> Ordering {
        self.seconds
            .cmp(&other.seconds)
            .then(self.nanosecond.cmp(&other.nanosecond))
    }
}

impl PartialOrd for Timestamp {
    ghost partial_cmp = { as_partial_cmp int_cmp };

    ghost laws = { partial_order_from_own_ties (Prim.search (comparing, rules))
        (Prim.search (comparing, rules)) };

    fn partial_cmp(&self, other: &Timestamp) -> Option<Ordering> {
        Some(self.cmp(other))
    }
}

// The second and the nanosecond are what a hasher is fed today. They are no promise to callers.
impl Hash for Timestamp {
    ghost hash_input = { hashed_instant };

    ghost respects_eq = { Prim.search (hashing, rules) };

    #[tactic(auto, unfolding(crate::specs::Instants::hashed_instant))]
    fn hash<H: Hasher>(&self, state: &mut H) {
        self.as_seconds().hash(state);
        self.nanosecond().hash(state);
    }
}

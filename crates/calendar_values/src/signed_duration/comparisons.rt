//! Durations compare, and feed a hasher, by their nanoseconds.
ghost use Rattle.std.proofs.Common.{rules};
ghost use Rattle.std.specs.Cmp.{partial_order_from_own_ties};
ghost use Rattle.std.specs.Cmp.Rules.{comparing, hashing};
ghost use Rattle.std.specs.Hash as fed;
ghost use Rattle.std.specs.Ordering.{int_eq, int_cmp, as_partial_cmp};

use crate::SignedDuration;
use std::cmp::Ordering;
use std::hash::{Hash, Hasher};

impl PartialEq for SignedDuration {
    ghost eq = { int_eq };

    ghost laws = { Prim.search (comparing, rules) };

    fn eq(&self, other: &SignedDuration) -> bool {
        self.seconds == other.seconds && self.nanoseconds == other.nanoseconds
    }
}

impl Eq for SignedDuration {
    ghost laws = { Prim.search (comparing, rules) };
}

impl Ord for SignedDuration {
    ghost cmp = { int_cmp };

    ghost total = { Prim.search (comparing, rules) };

    ghost matches_partial_cmp = { Prim.search (comparing, rules) };

    ghost matches_eq = { Prim.search (comparing, rules) };

    fn cmp(&self, other: &SignedDuration) -> Ordering {
        self.seconds
            .cmp(&other.seconds)
            .then(self.nanoseconds.cmp(&other.nanoseconds))
    }
}

impl PartialOrd for SignedDuration {
    ghost partial_cmp = { as_partial_cmp int_cmp };

    ghost laws = { partial_order_from_own_ties (Prim.search (comparing, rules))
        (Prim.search (comparing, rules)) };

    fn partial_cmp(&self, other: &SignedDuration) -> Option<Ordering> {
        Some(self.cmp(other))
    }
}

impl Hash for SignedDuration {
    ghost hash_input = { fed.i128 };

    ghost respects_eq = { Prim.search (hashing, rules) };

    fn hash<H: Hasher>(&self, state: &mut H) {
        self.whole_nanoseconds().hash(state);
    }
}

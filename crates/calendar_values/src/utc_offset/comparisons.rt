//! Offsets compare by their seconds.
ghost use Rattle.std.proofs.Common.{rules};
ghost use Rattle.std.specs.Cmp.Rules.{comparing};
ghost use Rattle.std.specs.Ordering.{int_eq};

use crate::UtcOffset;

impl PartialEq for UtcOffset {
    ghost eq = { int_eq };

    ghost laws = { Prim.search (comparing, rules) };

    fn eq(&self, other: &UtcOffset) -> bool {
        self.whole_seconds() == other.whole_seconds()
    }
}

impl Eq for UtcOffset {
    ghost laws = { Prim.search (comparing, rules) };
}

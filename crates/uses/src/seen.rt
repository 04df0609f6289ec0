//! Sets that have each instant once, whatever its offset.
ghost use Rattle.std.specs.Prelude.{◌≡◌, ℤ, IfOk, IsTrue, OnErr, OnOk, false, not};
ghost use Rattle.std.specs.HashSet.{contains};
ghost use Rattle.std.specs.Ordering.{int_eq, on};
ghost use Rattle.offset_times.specs.Local.{Local, instant_of};

use offset_times::OffsetDateTime;
use stamp_times::Timestamp;
use std::alloc::AllocFailed;
use std::collections::HashSet;

/// Notes a ticket. True where none of that instant was noted.
pub fn note(seen: &mut HashSet<Timestamp>, at: Timestamp) -> Result<bool, AllocFailed<Timestamp>>
    ensures added { IfOk result (λ added. added ≡ not (contains int_eq seen.old at)) }
    ensures noted { OnOk result (IsTrue (contains int_eq seen.new at)) }
    ensures others { OnOk result ((other : ℤ) → int_eq at other ≡ false →
        contains int_eq seen.new other ≡ contains int_eq seen.old other) }
    ensures unchanged { OnErr result ((other : ℤ) →
        contains int_eq seen.new other ≡ contains int_eq seen.old other) }
{
    seen.insert(at)
}

/// Notes a ticket that was sold at an offset. True where none of that instant was noted, at
/// whatever offset.
pub fn note_there(
    seen: &mut HashSet<OffsetDateTime>,
    at: OffsetDateTime,
) -> Result<bool, AllocFailed<OffsetDateTime>>
    ensures added { IfOk result (λ added.
        added ≡ not (contains (on instant_of int_eq) seen.old at)) }
    ensures noted { OnOk result (IsTrue (contains (on instant_of int_eq) seen.new at)) }
    ensures others { OnOk result ((other : Local) → on instant_of int_eq at other ≡ false →
        contains (on instant_of int_eq) seen.new other
        ≡ contains (on instant_of int_eq) seen.old other) }
    ensures unchanged { OnErr result ((other : Local) →
        contains (on instant_of int_eq) seen.new other
        ≡ contains (on instant_of int_eq) seen.old other) }
{
    seen.insert(at)
}

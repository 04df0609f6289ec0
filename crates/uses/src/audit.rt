//! Records of who did what, and when.
ghost use Rattle.std.specs.Prelude.{◌≡◌, ◌↔◌, ◌<ℤ◌, IfSome, IsTrue, SomeIff};
ghost use Rattle.calendar_values.specs.WallClock.{IsWallClock};
ghost use Rattle.offset_times.specs.Local as clocks;
ghost use Rattle.offset_times.specs.Local.{instant_of};

use calendar_values::UtcOffset;
use offset_times::OffsetDateTime;

/// A record: who did it, and when, at the offset where it was done.
#[derive(Clone, Copy)]
pub struct Audit {
    pub user: u64,
    pub at: OffsetDateTime,
}

/// Whether the first was done before the second.
pub fn comes_before(first: &Audit, second: &Audit) -> bool
    ensures { IsTrue result ↔ (instant_of first.now.at <ℤ instant_of second.now.at) }
{
    first.at < second.at
}

/// The record for a reader at another offset: who did it and the instant stay. None where clocks
/// there show no date of the range.
pub fn shown_at(audit: Audit, offset: UtcOffset) -> Option<Audit>
    ensures value { let there = clocks.local_at (instant_of audit.at) offset in
        SomeIff result (IsWallClock there.wall) (record audit { at = there }) }
    ensures user { IfSome result (λ shown. shown.user ≡ audit.user) }
    ensures instant { IfSome result (λ shown. instant_of shown.at ≡ instant_of audit.at) }
{
    let at = audit.at.checked_to_offset(offset)?;
    Some(Audit { at, ..audit })
}

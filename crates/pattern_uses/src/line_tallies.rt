//! Lines that are counted one after another, by whether they have stamps.
ghost use Rattle.std.specs.Prelude.{◌≡◌, ◌∷◌, ◌++◌, [], List, Some, None, if◌then◌else◌, length};
ghost use Rattle.std.specs.List.{count_by};
ghost use Rattle.line_devices.specs.StampTallies.{as_count, is_bare, is_due, kind_of, tally_of_kinds};
ghost use Rattle.line_devices.specs.declared.stamp_tallies.LineKind.{LineKind};

use line_devices::stamp_tallies::{StampTally, kind_of};

/// The tally of no lines.
pub fn no_lines() -> StampTally
    ensures { result ≡ tally_of_kinds [] }
{
    StampTally::new()
}

/// The tally of lines of these kinds, and of one more. The number is that of the lines before it.
pub fn with_next(tally: StampTally, lines: u64, line: &[u8], has_stamp: bool) -> StampTally
    ensures { (kinds : List LineKind) →
        tally ≡ tally_of_kinds kinds → lines ≡ as_count (length kinds) →
        result ≡ tally_of_kinds (kinds ++ kind_of line.now has_stamp ∷ []) }
{
    tally.after(lines.saturating_add(1), kind_of(line, has_stamp))
}

/// The number of lines of text without a stamp.
pub fn count_refused(tally: &StampTally) -> u64
    ensures { (kinds : List LineKind) → tally.now ≡ tally_of_kinds kinds →
        result ≡ as_count (count_by is_bare kinds) }
{
    tally.missing
}

/// The same, if a report is due.
pub fn due_report(tally: &StampTally) -> Option<u64>
    ensures { result ≡ if is_due tally.now then Some tally.now.missing else None }
{
    if tally.is_due() {
        Some(tally.missing)
    } else {
        None
    }
}

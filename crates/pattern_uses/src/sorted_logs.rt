//! Logs in memory that are sorted, with the stamps at the front of their lines.
#![tactic(auto, using(line_merges::specs::Callers::callers))]

ghost use Rattle.std.specs.Prelude.{◌≡◌, ◌++◌, pos, IfOk, IfSome, OnOk};
ghost use Rattle.line_merges.specs.Instants.{reading_from};
ghost use Rattle.line_merges.specs.Lines.{log_lines, stamp_tally};
ghost use Rattle.line_merges.specs.SortLaws.{IsWithin};
ghost use Rattle.line_merges.specs.Sorts.{Sorts};
ghost use Rattle.pattern_uses.specs.FrontStamps.{front_stamps};

use line_devices::devices::Sink;
use line_devices::stamp_tallies::{LineKind, StampTally};
use line_merges::instants::Instants;
use line_merges::laws::late_lines_are_told;
use line_merges::sorts::{SortFault, Sorted, sort};
use log_forms::{Assumed, Form, Place, stamp_at};
use std::alloc::{AllocError, Global};

/// The stamps at the front of lines, in one form.
#[derive(Drop)]
pub struct FrontStamps {
    /// The form.
    pub form: Form,
    /// The parts that are assumed.
    pub assumed: Assumed,
}

impl Instants for FrontStamps {
    ghost use Rattle.std.proofs.Common.{rules};
    ghost use Rattle.log_forms.specs.Callers.{callers};

    type Memory = ();

    ghost reading = { λ stamps log. front_stamps stamps.form stamps.assumed };

    fn instant_of(
        &self,
        log: usize,
        memory: &(),
        last: Option<i128>,
        is_first: bool,
        line: &[u8],
    ) -> Option<i128> {
        match stamp_at(&self.form, Place::Front, b"", &self.assumed, line) {
            Ok(stamp) => Some(stamp.instant.unix_timestamp_nanos()),
            Err(_) => None,
        }
    }

    fn remember(&self, log: usize, memory: &mut (), number: u64, kind: LineKind, line: &[u8]) {}

    ghost by_head = { Prim.search (callers, rules) };

    ghost remembers_head = { Prim.search (callers, rules) };
}

/// The bytes of one log, and then those of another.
pub fn join_logs(first: &[u8], second: &[u8], alloc: Global) -> Result<Vec<u8>, AllocError>
    ensures { IfOk result (λ both. both.items ≡ first.now ++ second.now) }
{
    let mut both = Vec::new(alloc);
    both.extend_from_slice(first)?;
    both.extend_from_slice(second)?;
    Ok(both)
}

/// Writes the lines of two logs in the order of their instants. The first log ends with a line
/// feed.
pub fn sort_both<W: Sink>(
    stamps: &FrontStamps,
    first: &[u8],
    second: &[u8],
    writer: &mut W,
    alloc: Global,
) -> Result<Sorted<()>, SortFault>
    ensures sorted { IfOk result (λ sorted. Sorts (front_stamps stamps.now.form stamps.now.assumed)
        (pos 0) 0 (first.now ++ second.now) (W.written writer.old) (W.written writer.new) sorted) }
    ensures mark { OnOk result (W.is_marked writer.new ≡ W.is_marked writer.old) }
{
    let both = join_logs(first, second, alloc)?;
    sort(stamps, 0, 0, both.as_slice(), (), writer, alloc)
}

/// Writes the lines of a log in the order of their instants, and returns the number of those that
/// were earlier than a line before them by more than a window. None after a fault.
pub fn late_lines<W: Sink>(
    stamps: &FrontStamps,
    window: i128,
    log: &[u8],
    writer: &mut W,
    alloc: Global,
) -> Option<u64>
    ensures { IfSome result (λ count. count ≡ 0 →
        IsWithin window (log_lines (front_stamps stamps.now.form stamps.now.assumed) log.now)) }
{
    late_lines_are_told();
    match sort(stamps, window, 0, log, (), writer, alloc) {
        Ok(sorted) => Some(sorted.lateness.count),
        Err(_) => None,
    }
}

/// Writes the lines of a log in the order of their instants, and returns their tally: how
/// many have no stamp. None after a fault.
pub fn tally_of_sorted<I: Instants, W: Sink>(
    instants: &I,
    log: &[u8],
    memory: I::Memory,
    writer: &mut W,
    alloc: Global,
) -> Option<StampTally>
where
    I::Memory: Drop,
    ensures { IfSome result (λ tally. tally ≡
        stamp_tally (log_lines (reading_from (I.reading instants.now 0) memory) log.now)) }
{
    match sort(instants, 0, 0, log, memory, writer, alloc) {
        Ok(sorted) => Some(sorted.place.stamps),
        Err(_) => None,
    }
}

//! Whole logs, counted and merged.
#![tactic(auto, using(line_merges::specs::Callers::callers))]

ghost use Rattle.std.specs.Prelude.{◌≡◌, false, true, IfSome, IsTrue};
ghost use Rattle.line_counts.specs.Stamps.{stamp_tally};
ghost use Rattle.line_merges.specs.Runs.{AreNew, IsMerged, first_memories, log_states, output};

use line_counts::buckets::Buckets;
use line_counts::counts::count;
use line_devices::devices::{Sink, Source};
use line_devices::stamp_tallies::StampTally;
use line_merges::instants::Instants;
use line_merges::logs::Log;
use line_merges::merges::merge;

/// How many lines of a log have no stamp, once it is counted to its end: those of all its lines.
pub fn stamps_in<B: Buckets, R: Source, W: Sink>(
    buckets: &B,
    reader: &mut R,
    writer: &mut W,
) -> Option<StampTally>
    requires reader { R.is_marked reader.old ≡ false }
    requires writer { W.is_marked writer.old ≡ false }
    ensures { IfSome result (λ stamps. IfSome (R.left reader.old) (λ input.
        stamps ≡ stamp_tally (B.counting buckets.now) input)) }
{
    match count(buckets, false, reader, writer) {
        Ok(tally) => Some(tally.stamps),
        Err(_) => None,
    }
}

/// Whether all lines of the logs were written in the order of their instants, and none is earlier
/// than the one before it in its log.
pub fn is_merged<I: Instants, R: Source, W: Sink>(
    instants: &I,
    logs: &mut [Log<R, I::Memory>],
    writer: &mut W,
) -> bool
    requires logs { AreNew (first_memories (I.reading instants.now)) R.left R.is_marked logs.old }
    requires writer { W.is_marked writer.old ≡ false }
    ensures { IsTrue result → IsMerged (I.reading instants.now) true
        (log_states R.left R.is_marked logs.old) (log_states R.left R.is_marked logs.new)
        (output (W.written writer.old) (W.is_marked writer.old))
        (output (W.written writer.new) (W.is_marked writer.new)) }
{
    match merge(instants, true, logs, writer) {
        Ok(()) => true,
        Err(_) => false,
    }
}

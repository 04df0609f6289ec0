//! The count of the lines of an input.
ghost use Rattle.std.specs.Prelude.{◌≡◌, false};
ghost use Rattle.line_devices.specs.Device.{devices};
ghost use Rattle.line_counts.specs.Turns.{Finishes};

use crate::buckets::Buckets;
use crate::lines::{Work, feed, finish};
use crate::tallies::{CountFault, Tally};
use line_devices::devices::{Sink, Source};
use line_devices::sending::Pending;

// The most bytes of a read.
const BLOCK: usize = 65_536;

/// Reads lines to the end of the input, and writes a row for each bucket. Returns the tally of the
/// lines.
///
/// A run of lines of one bucket makes a row, with a row for each bucket without lines before a
/// later one. A line without a bucket does not count. A strict count ends at the first line without
/// a bucket, and at one whose bucket is before that of the row. The row comes before that. A failed
/// read leaves out the row that may grow. `Read` also comes after 2^64 - 1 reads that
/// reached no end.
pub fn count<B: Buckets, R: Source, W: Sink>(
    buckets: &B,
    is_strict: bool,
    reader: &mut R,
    writer: &mut W,
) -> Result<Tally<B::Memory>, CountFault>
    requires reader { R.is_marked reader.old ≡ false }
    requires writer { W.is_marked writer.old ≡ false }
    ensures { Finishes result (B.counting buckets.now) is_strict
        (devices (R.left reader.old) (W.written writer.old)
        (R.is_marked reader.old) (W.is_marked writer.old))
        (devices (R.left reader.new) (W.written writer.new)
        (R.is_marked reader.new) (W.is_marked writer.new)) }
{
    let mut block = [0u8; BLOCK];
    let mut work = Work::new(buckets);
    let mut pending = Pending::new(0);
    'reads: for _turn in 0..u64::MAX {
        let Ok(count) = reader.read_some(&mut block) else {
            return Err(CountFault::Read);
        };
        if count == 0 {
            finish(buckets, is_strict, writer, &mut pending, &mut work)?;
            return Ok(work.tally);
        }
        feed(
            buckets,
            is_strict,
            writer,
            &mut pending,
            &mut work,
            &block[..count],
        )?;
    }
    Err(CountFault::Read)
}

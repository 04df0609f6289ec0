//! The work of the program: lines in, lines out.
ghost use Rattle.std.specs.Prelude.{◌≡◌, ℕ, ◌-◌, ◌^◌, ◌<◌, ◌≤◌, ◌⊎◌, true, false, List, [], length, Some, Ok, Err, OnOk, IfOk, IfSome, IfErr, IsErrOf};
ghost use Rattle.std.specs.Io.KnownBytes.{Appends, Consumes};
ghost use Rattle.line_devices.specs.Device.{Devices, devices};
ghost use Rattle.line_devices.specs.Writing.{AppendsBeginning};
ghost use Rattle.stamps.specs.Decisions.{first_state};
ghost use Rattle.stamps.specs.declared.lines.Progress.TheVariants.{Kept};
ghost use Rattle.stamps.specs.Faults.{stamp_fault, status_of, FoundIn};
ghost use Rattle.stamps.specs.Runs.{input_run, open_run};
ghost use Rattle.stamps.specs.Tallies.{tally_of};
ghost use Rattle.stamps.specs.Turns.{GoesOn, Turns};

use crate::finding::Finding;
use crate::lines::{LineFault, Work, feed, finish};
use crate::task::Task;
use line_devices::devices::{Sink, Source};
use line_devices::sending::Pending;
use line_devices::stamp_tallies::StampTally;

/// The reason why the work ended before the end of the input.
#[derive(Clone, Copy, Debug, PartialEq, Eq)]
pub enum StampFault {
    /// A read failed.
    Read,
    /// A write failed.
    Write,
    /// A line ends the run.
    Found(Finding),
}

impl From<LineFault> for StampFault {
    ghost from_gives = { λ fault result. result ≡ stamp_fault fault };

    fn from(fault: LineFault) -> StampFault {
        match fault {
            LineFault::Write => StampFault::Write,
            LineFault::Found(found) => StampFault::Found(found),
        }
    }
}

/// The exit status of the program: 0 at the end of the input, 1 for a finding or a note, and 2
/// after a failed read or write.
pub fn status_of(ended: &Result<StampTally, StampFault>, has_told: bool) -> u8
    ensures { result ≡ status_of ended.now has_told }
{
    match ended {
        Ok(_) if has_told => 1,
        Ok(_) => 0,
        Err(StampFault::Found(_)) => 1,
        Err(StampFault::Read | StampFault::Write) => 2,
    }
}

// The most bytes of a read.
const BLOCK: usize = 65_536;

/// Reads lines to the end of the input, and writes of each what the task says. Returns how many of
/// them have no stamp. The work is new, and then has the state after these lines.
///
/// A line ends before a line feed, or with the input. A fault ends the work: `Read` and `Write`
/// after a failed call of the reader or the writer, and `Found` at the first line that the task
/// names. Then it writes the output of the lines before, and none of that line. `Read` also comes
/// after 2^64 - 1 reads that reached no end.
pub fn stamps<R: Source, W: Sink>(
    task: &Task,
    reader: &mut R,
    writer: &mut W,
    work: &mut Work,
) -> Result<StampTally, StampFault>
    requires state { work.old.state ≡ first_state task.now }
    requires progress { work.old.progress ≡ Kept }
    requires head { work.old.head ≡ [] }
    requires reader { R.is_marked reader.old ≡ false }
    requires writer { W.is_marked writer.old ≡ false }

    // At the end of the input: all of it was read, exactly its output was written, it has no finding, the
    // state is the one after it, and the tally is that of its lines.
    ensures end { OnOk result (IfSome (R.left reader.old) (λ _. R.left reader.new ≡ Some [])) }
    ensures written { OnOk result (IfSome (R.left reader.old) (λ input.
        Appends (W.written writer.old) (W.written writer.new) (input_run task.now input).text)) }
    ensures state { OnOk result (IfSome (R.left reader.old) (λ input.
        (input_run task.now input).end ≡ Ok work.new.state)) }
    ensures tally { IfOk result (λ tally. IfSome (R.left reader.old) (λ input.
        tally ≡ tally_of task.now input)) }
    ensures no_read_failed { OnOk result (R.is_marked reader.new ≡ false) }
    ensures no_write_failed { OnOk result (W.is_marked writer.new ≡ false) }

    // A read failed: exactly what can be told of the bytes that were read was written.
    ensures read { IsErrOf result StampFault.Read
        → (R.is_marked reader.new ≡ true)
        ⊎ IfSome (R.left reader.old) (λ input. 2 ^ 64 - 1 ≤ length input) }
    ensures as_read { IsErrOf result StampFault.Read
        → (taken : List ℕ) × Consumes (R.left reader.old) (R.left reader.new) taken
        × Appends (W.written writer.old) (W.written writer.new) (open_run task.now taken).text }
    ensures only_a_read { IsErrOf result StampFault.Read → W.is_marked writer.new ≡ false }

    // A write failed: a beginning of the output of the input was written, and not all of it.
    ensures write { IsErrOf result StampFault.Write → W.is_marked writer.new ≡ true }
    ensures beginning { IsErrOf result StampFault.Write → IfSome (R.left reader.old) (λ input.
        AppendsBeginning (W.written writer.old) (W.written writer.new)
        (input_run task.now input).text) }
    ensures only_a_write { IsErrOf result StampFault.Write → R.is_marked reader.new ≡ false }

    // A line ends the run: it is the one that the task names, and exactly the output before it was written.
    ensures found { (found : Finding) → result ≡ Err (StampFault.Found found)
        → IfSome (R.left reader.old) (λ input.
        FoundIn (W.written writer.old) (W.written writer.new) (input_run task.now input) found) }
    ensures no_call_failed { (found : Finding) → result ≡ Err (StampFault.Found found)
        → (R.is_marked reader.new ≡ false) × (W.is_marked writer.new ≡ false) }
{
    let mut block = [0u8; BLOCK];
    let mut pending = Pending::new(0);
    'reads: for _turn in 0..u64::MAX {
        let count = take_block(task, reader, writer, &mut pending, work, &mut block)?;
        if count == 0 {
            return Ok(work.state.tally);
        }
    }
    Err(StampFault::Read)
}

/// Reads a block, and writes what is to be written of the lines in it. Where there is none to read,
/// it writes the rest of the last line. Returns the number of bytes that it read.
fn take_block<R: Source, W: Sink>(
    task: &Task,
    reader: &mut R,
    writer: &mut W,
    pending: &mut Pending,
    work: &mut Work,
    block: &mut [u8],
) -> Result<usize, StampFault>
    requires block { 0 < length block.old }
    requires pending { pending.old ≡ [] }
    ensures { (first : Devices) (taken : List ℕ)
        → GoesOn task.now first (devices (R.left reader.old) (W.written writer.old)
        (R.is_marked reader.old) (W.is_marked writer.old)) pending.old work.old taken
        → Turns result task.now first (devices (R.left reader.new) (W.written writer.new)
        (R.is_marked reader.new) (W.is_marked writer.new)) pending.new work.new taken }
{
    let Ok(count) = reader.read_some(block) else {
        return Err(StampFault::Read);
    };
    if count == 0 {
        finish(task, writer, pending, work)?;
        return Ok(0);
    }
    feed(task, writer, pending, work, &block[..count])?;
    Ok(count)
}

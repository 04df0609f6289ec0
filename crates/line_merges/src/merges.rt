//! The merge of logs.
ghost use Rattle.std.specs.Prelude.{◌≡◌, ◌≢◌, ◌<◌, ◌≤◌, [], ◌∷◌, ◌++◌, ℕ, Bool, false, length, vec_capacity, vec_len, OnErr, OnOk, Option};
ghost use Rattle.line_devices.specs.Writing.{MarksFailure, SendsAll};
ghost use Rattle.line_merges.specs.Choices.{IsNext};
ghost use Rattle.line_merges.specs.LineFronts.{feed_if};
ghost use Rattle.line_merges.specs.Logs.{new_log};
ghost use Rattle.line_merges.specs.Runs.{AreNew, Ends, LogState, Output, first_memories, log_states, output};
ghost use Rattle.line_merges.specs.Steps.{AreKnown, FindsLine, SendsNext, back_line, fault_at, fronts_of, readings_now};

use crate::choice::next_log;
use crate::instants::{Instants, is_before};
use crate::logs::{Front, Log, LogFault, find_next, pass_line, remember};
use line_devices::devices::{DeviceFault, Sink, Source};
use line_devices::sending::{Pending, flush, send};
use std::alloc::AllocError;

/// The reason why a merge ended before the end of its logs.
#[derive(Clone, Copy, Debug, PartialEq, Eq)]
pub enum MergeFault {
    /// A read of the log with this number failed.
    Read(usize),
    /// A write failed.
    Write,
    /// In the log with this number, the line with the second number is earlier than the one before
    /// it.
    Back(usize, u64),
    /// The merge had no end after 2^64 - 1 lines, or a line after 2^64 - 1 reads.
    Endless,
}

impl From<DeviceFault> for MergeFault {
    ghost use Rattle.line_merges.specs.declared.merges.MergeFault.TheVariants.{Write};

    ghost from_gives = { λ fault result. result ≡ Write };

    fn from(_fault: DeviceFault) -> MergeFault {
        MergeFault::Write
    }
}

/// Writes the lines of the logs in the order of their instants.
///
/// Lines of one instant come in the order of the logs. A line without an instant follows the line
/// before it, and comes first if there is none. A last line without a line feed gets one only if
/// another line follows. Each log keeps one block of bytes.
///
/// If the merge is strict, it ends before the first line that is earlier than the one before it in
/// its log. Otherwise each log has the number of that line in its place. At the end each log has
/// there how many of its lines have no stamp, and it has the memory of its lines.
pub fn merge<I: Instants, R: Source, W: Sink>(
    instants: &I,
    is_strict: bool,
    logs: &mut [Log<R, I::Memory>],
    writer: &mut W,
) -> Result<(), MergeFault>
    requires logs { AreNew (first_memories (I.reading instants.now)) R.left R.is_marked logs.old }
    requires writer { W.is_marked writer.old ≡ false }
    ensures { Ends result (I.reading instants.now) is_strict
        (log_states R.left R.is_marked logs.old) (log_states R.left R.is_marked logs.new)
        (output (W.written writer.old) (W.is_marked writer.old))
        (output (W.written writer.new) (W.is_marked writer.new)) }
{
    let mut pending = Pending::new(0);
    'firsts: for k in 0..logs.len() {
        find(instants, is_strict, logs, k, writer, &mut pending)?;
    }
    let mut is_open = false;
    'lines: for _line in 0..u64::MAX {
        let Some(next) = next_log(logs) else {
            flush(writer, &mut pending)?;
            return Ok(());
        };
        let is_ended = pass(instants, logs, next, is_open, writer, &mut pending)?;
        is_open = !is_ended;
        find(instants, is_strict, logs, next, writer, &mut pending)?;
    }
    flush(writer, &mut pending)?;
    Err(MergeFault::Endless)
}

// Sends the next line of a log, after a line feed if the line before has none. Returns whether a
// line feed ends it.
fn pass<I: Instants, R: Source, W: Sink>(
    instants: &I,
    logs: &mut [Log<R, I::Memory>],
    k: usize,
    is_open: bool,
    writer: &mut W,
    pending: &mut Pending,
) -> Result<bool, MergeFault>
    requires { k < length logs.old }
    ensures sends { (is_strict : Bool) (first : ℕ → Option (LogState I.Memory)) (before : Output)
        → AreKnown (readings_now (I.reading instants.now) (log_states R.left R.is_marked logs.old))
        is_strict (fronts_of (log_states R.left R.is_marked logs.old))
        → IsNext (fronts_of (log_states R.left R.is_marked logs.old)) k
        → SendsNext result (I.reading instants.now) is_strict k first
        (log_states R.left R.is_marked logs.old) (log_states R.left R.is_marked logs.new)
        before (output (W.written writer.old) (W.is_marked writer.old))
        (output (W.written writer.new) (W.is_marked writer.new))
        pending.old pending.new is_open }
    ensures others { (j : ℕ) → j ≢ k → log_states R.left R.is_marked logs.new j
        ≡ log_states R.left R.is_marked logs.old j }
{
    send_feed(is_open, writer, pending)?;
    let log = &mut logs[k];
    remember(instants, k, &mut log.memory, &mut log.front);
    match pass_line(&mut log.reader, &mut log.front, writer, pending) {
        Ok(is_ended) => Ok(is_ended),
        Err(fault) => Err(fault_at(k, fault)),
    }
}

// Sends a line feed if the line before has none.
fn send_feed<W: Sink>(
    is_open: bool,
    writer: &mut W,
    pending: &mut Pending,
) -> Result<(), DeviceFault>
    ensures sent { SendsAll result (W.written writer.old) (W.written writer.new)
        pending.new (pending.old ++ feed_if is_open) }
    ensures mark { MarksFailure result (W.is_marked writer.old) (W.is_marked writer.new) }
{
    if !is_open {
        return Ok(());
    }
    send(writer, pending, b"\n")
}

// Finds the next line of a log.
#[inline(always)]
fn find<I: Instants, R: Source, W: Sink>(
    instants: &I,
    is_strict: bool,
    logs: &mut [Log<R, I::Memory>],
    k: usize,
    writer: &mut W,
    pending: &mut Pending,
) -> Result<(), MergeFault>
    requires { k < length logs.old }
    ensures finds { (first : ℕ → Option (LogState I.Memory)) (before : Output) (is_open : Bool)
        → FindsLine result (I.reading instants.now) is_strict k first
        (log_states R.left R.is_marked logs.old) (log_states R.left R.is_marked logs.new)
        before (output (W.written writer.old) (W.is_marked writer.old))
        (output (W.written writer.new) (W.is_marked writer.new))
        pending.old pending.new is_open }
    ensures others { (j : ℕ) → j ≢ k → log_states R.left R.is_marked logs.new j
        ≡ log_states R.left R.is_marked logs.old j }
{
    let log = &mut logs[k];
    match find_next(
        instants,
        k,
        &log.memory,
        &mut log.reader,
        &mut log.front,
        writer,
        pending,
    ) {
        Ok(()) => {}
        Err(fault) => return Err(fault_at(k, fault)),
    }
    match back_line(is_strict, &log.front) {
        None => Ok(()),
        Some(number) => {
            flush(writer, pending)?;
            Err(MergeFault::Back(k, number))
        }
    }
}

// The number of the next line of a log, if the merge is strict and the line is earlier than the one
// before it.
fn back_line(is_strict: bool, front: &Front) -> Option<u64>
    ensures { result ≡ back_line is_strict front.now }
{
    if is_strict && front.has_line && is_before(front.next, front.place.last) {
        Some(front.place.lines.saturating_add(1))
    } else {
        None
    }
}

// The fault of a merge by that of a log.
fn fault_at(k: usize, fault: LogFault) -> MergeFault
    ensures { result ≡ fault_at k fault }
{
    match fault {
        LogFault::Read => MergeFault::Read(k),
        LogFault::Write => MergeFault::Write,
        LogFault::Endless => MergeFault::Endless,
    }
}

/// Adds the log of a reader, with its first memory, after the logs, and gives it their number.
/// Fails only if the heap is full, and then the logs stay the same.
pub fn add<R: Source + Drop, M: Drop>(
    logs: &mut Vec<Log<R, M>>,
    reader: R,
    memory: M,
) -> Result<(), AllocError>
    requires reader { R.is_marked reader ≡ false }
    ensures ok { OnOk result (logs.new.items ≡ logs.old.items ++ new_log reader memory ∷ []) }
    ensures err { OnErr result (logs.new.items ≡ logs.old.items) }
    ensures full { OnErr result (vec_capacity logs.old ≤ vec_len logs.old) }
    ensures new { (memories : ℕ → M) → memory ≡ memories (length logs.old.items)
        → AreNew memories R.left R.is_marked logs.old.items
        → AreNew memories R.left R.is_marked logs.new.items }
{
    logs.push(Log::new(reader, memory))?;
    Ok(())
}

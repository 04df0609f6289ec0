//! A log, read line by line.
ghost use Rattle.std.specs.Prelude.{◌≡◌, ◌<◌, ◌≤◌, ◌++◌, true, false, drop, length, take, Some, None, IfOk, OnOk, if◌then◌else◌};
ghost use Rattle.line_devices.specs.Device.{devices};
ghost use Rattle.line_devices.specs.Writing.{MarksFailure, SendsAll};
ghost use Rattle.line_merges.specs.Instants.{is_before, reading_from};
ghost use Rattle.line_merges.specs.LineFronts.{behind_line, front_line, has_line_feed};
ghost use Rattle.line_merges.specs.Lines.{first_place};
ghost use Rattle.line_merges.specs.Logs.{FindsNext, IsEnough, IsReady, PassesLine, ReadsOn, memory_behind, new_log, place_behind};

use crate::buffers::Buffer;
use crate::instants::{Instants, LONGEST_HEAD, is_before, up_to};
use line_devices::devices::{DeviceFault, Sink, Source};
use line_devices::sending::{Pending, flush, send};
use line_devices::stamp_tallies::{LineKind, StampTally, kind_of};

/// The reason why a log was not read on.
#[derive(Clone, Copy, Debug, PartialEq, Eq)]
pub enum LogFault {
    /// A read failed.
    Read,
    /// A write failed.
    Write,
    /// A line had no end after 2^64 - 1 reads.
    Endless,
}

impl From<DeviceFault> for LogFault {
    ghost use Rattle.line_merges.specs.declared.logs.LogFault.TheVariants.{Write};

    ghost from_gives = { λ fault result. result ≡ Write };

    fn from(_fault: DeviceFault) -> LogFault {
        LogFault::Write
    }
}

/// The place between two lines of a log.
#[derive(Clone, Copy, Debug)]
pub struct Place {
    /// The number of lines before it, at most 2^64 - 1.
    pub lines: u64,
    /// The last instant of these lines.
    pub last: Option<i128>,
    /// The number of the first of these lines that is earlier than the one before it.
    pub back: Option<u64>,
    /// How many of these lines have no stamp.
    pub stamps: StampTally,
}

/// The front of a log: the bytes that were read and not used yet, and the next line.
#[derive(Drop)]
pub struct Front {
    /// The bytes.
    pub buffer: Buffer,
    /// Whether no more bytes follow.
    pub is_ended: bool,
    /// The place before the next line.
    pub place: Place,
    /// Whether there is a next line.
    pub has_line: bool,
    /// The instant up to the next line.
    pub next: Option<i128>,
    /// How the next line counts.
    pub kind: LineKind,
}

/// A log: its reader, its front, and the memory of the lines before the next one.
#[derive(Drop)]
pub struct Log<R, M> {
    /// The reader.
    pub reader: R,
    /// The front.
    pub front: Front,
    /// The memory of the lines before the next one.
    pub memory: M,
}

impl Place {
    /// Returns the place before the first line.
    pub(crate) fn first() -> Place
        ensures { result ≡ first_place }
    {
        Place {
            lines: 0,
            last: None,
            back: None,
            stamps: StampTally::new(),
        }
    }
}

impl<R: Source, M> Log<R, M> {
    /// Returns the log of a reader with its first memory, before its first line.
    pub(crate) fn new(reader: R, memory: M) -> Log<R, M>
        ensures { result ≡ new_log reader memory }
    {
        Log {
            reader,
            front: Front {
                buffer: Buffer::new(),
                is_ended: false,
                place: Place::first(),
                has_line: false,
                next: None,
                kind: LineKind::Empty,
            },
            memory,
        }
    }
}

// Reads more bytes, unless the log is at its end. Before that it writes the pending ones, since a
// reader may wait.
fn read_on<R: Source, W: Sink>(
    reader: &mut R,
    front: &mut Front,
    writer: &mut W,
    pending: &mut Pending,
) -> Result<(), LogFault>
    requires { length front.old.buffer < 65536 }
    ensures { ReadsOn result front.old front.new
        (devices (R.left reader.old) (W.written writer.old)
        (R.is_marked reader.old) (W.is_marked writer.old))
        (devices (R.left reader.new) (W.written writer.new)
        (R.is_marked reader.new) (W.is_marked writer.new)) pending.old pending.new }
{
    if front.is_ended {
        return Ok(());
    }
    flush(writer, pending)?;
    match front.buffer.read_more(reader) {
        Ok(count) => {
            front.is_ended = count == 0;
            Ok(())
        }
        Err(_) => Err(LogFault::Read),
    }
}

// Sends the first line of the bytes, or all of them if it does not end there. Returns whether it
// ends there.
fn send_part<W: Sink>(
    writer: &mut W,
    pending: &mut Pending,
    buffer: &mut Buffer,
) -> Result<bool, DeviceFault>
    ensures sent { SendsAll result (W.written writer.old) (W.written writer.new)
        pending.new (pending.old ++ front_line buffer.old) }
    ensures mark { MarksFailure result (W.is_marked writer.old) (W.is_marked writer.new) }
    ensures feed { IfOk result (λ is_ended. is_ended ≡ has_line_feed buffer.old) }
    ensures left { OnOk result (buffer.new ≡ behind_line buffer.old) }
{
    let (count, is_ended) = front_of(buffer);
    send(writer, pending, &buffer.bytes()[..count])?;
    buffer.skip(count);
    Ok(is_ended)
}

// The number of bytes of the first line, with its line feed, and whether it has one.
fn front_of(buffer: &mut Buffer) -> (usize, bool)
    ensures same { buffer.new ≡ buffer.old }
    ensures bound { result.0 ≤ length buffer.old }
    ensures line { take result.0 buffer.old ≡ front_line buffer.old }
    ensures rest { drop result.0 buffer.old ≡ behind_line buffer.old }
    ensures feed { result.1 ≡ has_line_feed buffer.old }
{
    let end = buffer.line_end();
    if end < buffer.len() {
        (end + 1, true)
    } else {
        (end, false)
    }
}

/// Reads until the next line of the log with this number is known, and its instant.
#[inline(always)]
pub(crate) fn find_next<I: Instants, R: Source, W: Sink>(
    instants: &I,
    log: usize,
    memory: &I::Memory,
    reader: &mut R,
    front: &mut Front,
    writer: &mut W,
    pending: &mut Pending,
) -> Result<(), LogFault>
    ensures { FindsNext result (reading_from (I.reading instants.now log) memory.now)
        front.old front.new
        (devices (R.left reader.old) (W.written writer.old)
        (R.is_marked reader.old) (W.is_marked writer.old))
        (devices (R.left reader.new) (W.written writer.new)
        (R.is_marked reader.new) (W.is_marked writer.new)) pending.old pending.new }
{
    'reads: while needs_more(front) {
        read_on(reader, front, writer, pending)?;
    }
    look(instants, log, memory, front);
    Ok(())
}

// Whether the next line of a log needs more bytes to be known.
#[inline(always)]
fn needs_more(front: &mut Front) -> bool
    ensures same { front.new ≡ front.old }
    ensures more { result ≡ true → (front.old.is_ended ≡ false)
        × (length front.old.buffer < 65536) × (has_line_feed front.old.buffer ≡ false) }
    ensures enough { result ≡ false → IsEnough front.old }
{
    if front.is_ended {
        return false;
    }
    let end = front.buffer.line_end();
    if end < front.buffer.len() {
        return false;
    }
    end < LONGEST_HEAD
}

// Finds the next line in the bytes that were read, its instant, and how it counts.
fn look<I: Instants>(instants: &I, log: usize, memory: &I::Memory, front: &mut Front)
    requires { IsEnough front.old }
    ensures ready { IsReady (reading_from (I.reading instants.now log) memory.now) front.new }
    ensures buffer { front.new.buffer ≡ front.old.buffer }
    ensures ended { front.new.is_ended ≡ front.old.is_ended }
    ensures place { front.new.place ≡ front.old.place }
{
    let end = front.buffer.line_end();
    let bytes = front.buffer.bytes();
    let own = instants.instant_of(
        log,
        memory,
        front.place.last,
        front.place.lines == 0,
        &bytes[..end],
    );
    let kind = kind_of(&bytes[..end], own.is_some());
    let is_empty = bytes.is_empty();
    front.kind = kind;
    front.has_line = !is_empty;
    front.next = up_to(front.place.last, own);
}

/// Brings the memory of a log up to its next line.
pub(crate) fn remember<I: Instants>(
    instants: &I,
    log: usize,
    memory: &mut I::Memory,
    front: &mut Front,
)
    ensures same { front.new ≡ front.old }
    ensures memory { memory.new
        ≡ memory_behind (reading_from (I.reading instants.now log) memory.old) front.old }
{
    let end = front.buffer.line_end();
    let (number, kind) = (front.place.lines.saturating_add(1), front.kind);
    instants.remember(log, memory, number, kind, &front.buffer.bytes()[..end]);
}

/// Sends the next line of a log, with its line feed if it has one, and returns whether it has. A
/// read that is needed comes after a write of all that is pending.
pub(crate) fn pass_line<R: Source, W: Sink>(
    reader: &mut R,
    front: &mut Front,
    writer: &mut W,
    pending: &mut Pending,
) -> Result<bool, LogFault>
    ensures { PassesLine result front.old front.new
        (devices (R.left reader.old) (W.written writer.old)
        (R.is_marked reader.old) (W.is_marked writer.old))
        (devices (R.left reader.new) (W.written writer.new)
        (R.is_marked reader.new) (W.is_marked writer.new)) pending.old pending.new }
{
    'parts: for _read in 0..u64::MAX {
        if send_part(writer, pending, &mut front.buffer)? {
            front.place = place_behind(front);
            return Ok(true);
        }
        read_on(reader, front, writer, pending)?;
        if front.is_ended {
            front.place = place_behind(front);
            return Ok(false);
        }
    }
    flush(writer, pending)?;
    Err(LogFault::Endless)
}

// The place after the next line.
fn place_behind(front: &Front) -> Place
    ensures { result ≡ place_behind front.now }
{
    let number = front.place.lines.saturating_add(1);
    Place {
        lines: number,
        last: front.next,
        back: front.place.back.or(back_of(front, number)),
        stamps: front.place.stamps.after(number, front.kind),
    }
}

// The number of the next line, if it is earlier than the one before it.
fn back_of(front: &Front, number: u64) -> Option<u64>
    ensures { result ≡ if is_before front.now.next front.now.place.last then Some number else None }
{
    if is_before(front.next, front.place.last) {
        Some(number)
    } else {
        None
    }
}

//! The lines of one log in the order of their instants.
ghost use Rattle.std.specs.Prelude.{◌≡◌, ◌<◌, ◌∷◌, ◌++◌, [], true, IfOk, IsErrOf, OnOk, length};
ghost use Rattle.std.specs.Io.KnownBytes.{Appends};
ghost use Rattle.line_devices.specs.Writing.{MarksFailure, Sends};
ghost use Rattle.line_merges.specs.Instants.{reading_from};
ghost use Rattle.line_merges.specs.LineFronts.{behind_line, line_in};
ghost use Rattle.line_merges.specs.Sorts.{HasRead, IsInOrderOf, ReadsLine, Sorts, far_after, far_after_lines, first_distance, first_lateness};
ghost use Rattle.line_merges.specs.Sorts.{held_text, is_far, is_late, late_after, least_of};

use crate::instants::{Instants, is_before, up_to};
use crate::logs::Place;
use line_devices::devices::{DeviceFault, Sink};
use line_devices::places::place_of;
use line_devices::sending::{Pending, flush, send};
use line_devices::stamp_tallies::kind_of;
use std::alloc::{AllocError, Global};

/// A line of a log: the instant up to it, its bytes without the line feed, and its number from 1
/// on, at most 2^64 - 1.
#[derive(Clone, Copy, Debug)]
pub struct Held<'a> {
    /// The instant.
    pub instant: Option<i128>,
    /// The bytes.
    pub bytes: &'a [u8],
    /// The number.
    pub number: u64,
}

/// Which lines of a log are earlier than a line before them by more than a window.
#[derive(Clone, Copy, Debug)]
pub struct Lateness {
    /// The window.
    pub window: i128,
    /// The latest instant of the lines.
    pub latest: Option<i128>,
    /// The number of these lines, at most 2^64 - 1.
    pub count: u64,
    /// The number of the first of them in the log.
    pub first: Option<u64>,
}

/// Which lines of a sorted log are further from their place in the log than a number of lines.
#[derive(Clone, Copy, Debug)]
pub struct Distance {
    /// The number.
    pub most: u64,
    /// The number of these lines, at most 2^64 - 1.
    pub count: u64,
    /// The least of their numbers in the log.
    pub first: Option<u64>,
}

/// The lines of a log that were read.
#[derive(Drop)]
pub struct Reading<'a, M> {
    /// The lines, in the order of the log.
    pub held: Vec<Held<'a>>,
    /// The place after them.
    pub place: Place,
    /// The memory of them.
    pub memory: M,
    /// Which of them are late.
    pub lateness: Lateness,
}

impl Lateness {
    // That of no lines.
    fn new(window: i128) -> Lateness
        ensures { result ≡ first_lateness window }
    {
        Lateness {
            window,
            latest: None,
            count: 0,
            first: None,
        }
    }

    // The lateness with a line of this number.
    fn after(self, number: u64, instant: Option<i128>) -> Lateness
        ensures { result ≡ late_after self number instant }
    {
        let latest = if is_before(self.latest, instant) {
            instant
        } else {
            self.latest
        };
        if !is_late(self.window, self.latest, instant) {
            return Lateness { latest, ..self };
        }
        Lateness {
            window: self.window,
            latest,
            count: self.count.saturating_add(1),
            first: self.first.or(Some(number)),
        }
    }
}

impl Distance {
    // That of no lines.
    fn new(most: u64) -> Distance
        ensures { result ≡ first_distance most }
    {
        Distance {
            most,
            count: 0,
            first: None,
        }
    }

    // The distance with a line of this number in the log, at a place in the order.
    fn after(self, number: u64, place: u64) -> Distance
        ensures { result ≡ far_after self number place }
    {
        if !is_far(self.most, number, place) {
            return self;
        }
        Distance {
            most: self.most,
            count: self.count.saturating_add(1),
            first: Some(least_of(self.first, number)),
        }
    }
}

// Whether a line of a number is further from a place than this number of lines.
fn is_far(most: u64, number: u64, place: u64) -> bool
    ensures { result ≡ is_far most number place }
{
    most < number.saturating_sub(place) || most < place.saturating_sub(number)
}

// The lesser of two numbers, of which the first may be missing.
fn least_of(first: Option<u64>, number: u64) -> u64
    ensures { result ≡ least_of first number }
{
    match first {
        Some(first) => first.min(number),
        None => number,
    }
}

// Whether an instant is before the latest one by more than a window.
fn is_late(window: i128, latest: Option<i128>, instant: Option<i128>) -> bool
    ensures { result ≡ is_late window latest instant }
{
    let (Some(latest), Some(at)) = (latest, instant) else {
        return false;
    };
    if latest <= at {
        return false;
    }
    match latest.checked_sub(at) {
        Some(between) => window < between,
        None => true,
    }
}

// The first line of a text, and the text after it.
fn first_of(text: &[u8]) -> (&[u8], &[u8])
    ensures line { result.0.now ≡ line_in text.now }
    ensures rest { result.1.now ≡ behind_line text.now }
    ensures shorter { 0 < length text.now → length result.1.now < length text.now }
{
    let end = place_of(b'\n', text, 0);
    if end < text.len() {
        (&text[..end], &text[end + 1..])
    } else {
        (text, &[])
    }
}

impl<'a, M> Reading<'a, M> {
    // Takes in the next line of a log. Fails only if no memory is left.
    fn take<I: Instants<Memory = M>>(
        &mut self,
        instants: &I,
        bytes: &'a [u8],
    ) -> Result<(), AllocError>
        ensures { OnOk result (ReadsLine (reading_from (I.reading instants.now 0) self.old.memory)
            bytes.now self.old self.new) }
    {
        let place = self.place;
        let own = instants.instant_of(0, &self.memory, place.last, place.lines == 0, bytes);
        let kind = kind_of(bytes, own.is_some());
        let instant = up_to(place.last, own);
        let number = place.lines.saturating_add(1);
        self.held.push(Held {
            instant,
            bytes,
            number,
        })?;
        instants.remember(0, &mut self.memory, number, kind, bytes);
        self.lateness = self.lateness.after(number, instant);
        self.place = Place {
            lines: number,
            last: instant,
            back: place.back.or(if is_before(instant, place.last) {
                Some(number)
            } else {
                None
            }),
            stamps: place.stamps.after(number, kind),
        };
        Ok(())
    }
}

// Reads the lines of a log.
fn read_lines<'a, I: Instants>(
    instants: &I,
    lateness: Lateness,
    text: &'a [u8],
    memory: I::Memory,
    alloc: Global,
) -> Result<Reading<'a, I::Memory>, AllocError>
where
    I::Memory: Drop,
    ensures { IfOk result (HasRead (reading_from (I.reading instants.now 0) memory)
        lateness text.now) }
{
    let mut reading = Reading {
        held: Vec::new(alloc),
        place: Place::first(),
        memory,
        lateness,
    };
    let mut rest = text;
    'lines: while !rest.is_empty() {
        let (line, behind) = first_of(rest);
        reading.take(instants, line)?;
        rest = behind;
    }
    Ok(reading)
}

// Puts lines into the order of their instants; those of one instant keep their order.
fn sort_held(held: &mut Vec<Held<'_>>) -> Result<(), AllocError>
    ensures { OnOk result (IsInOrderOf held.old.items held.new.items) }
{
    held.sort_by_key(|line| line.instant)?;
    Ok(())
}

// The distances of lines from their places in the log.
fn distance_of(most: u64, held: &[Held<'_>]) -> Distance
    ensures { result ≡ far_after_lines (first_distance most) 0 held.now }
{
    let mut distance = Distance::new(most);
    let mut place = 0;
    'lines: while place < held.len() {
        distance = distance.after(held[place].number, place as u64 + 1);
        place += 1;
    }
    distance
}

// Sends a line and a line feed.
fn write_line<W: Sink>(
    writer: &mut W,
    pending: &mut Pending,
    bytes: &[u8],
) -> Result<(), DeviceFault>
    ensures sent { OnOk result (Sends (W.written writer.old) (W.written writer.new) pending.new
        (pending.old ++ (bytes.now ++ 10 ∷ []))) }
    ensures mark { MarksFailure result (W.is_marked writer.old) (W.is_marked writer.new) }
{
    send(writer, pending, bytes)?;
    send(writer, pending, b"\n")
}

// Writes lines, each with a line feed.
fn write_held<W: Sink>(writer: &mut W, held: &[Held<'_>]) -> Result<(), DeviceFault>
    ensures written { OnOk result (Appends (W.written writer.old) (W.written writer.new)
        (held_text held.now)) }
    ensures mark { MarksFailure result (W.is_marked writer.old) (W.is_marked writer.new) }
{
    let mut pending = Pending::new(0);
    let mut place = 0;
    'lines: while place < held.len() {
        write_line(writer, &mut pending, held[place].bytes)?;
        place += 1;
    }
    flush(writer, &mut pending)?;
    Ok(())
}

/// A log that was sorted.
#[derive(Drop)]
pub struct Sorted<M> {
    /// The place after its last line.
    pub place: Place,
    /// The memory of its lines.
    pub memory: M,
    /// Which of them are late.
    pub lateness: Lateness,
    /// Which of them are far from their places.
    pub distance: Distance,
}

/// The reason why a log was not sorted.
#[derive(Clone, Copy, Debug, PartialEq, Eq)]
pub enum SortFault {
    /// A write failed.
    Write,
    /// No memory is left, and nothing was written.
    Memory,
}

impl From<AllocError> for SortFault {
    ghost use Rattle.line_merges.specs.declared.sorts.SortFault.TheVariants.{Memory};

    ghost from_gives = { λ fault result. result ≡ Memory };

    fn from(_fault: AllocError) -> SortFault {
        SortFault::Memory
    }
}

impl From<DeviceFault> for SortFault {
    ghost use Rattle.line_merges.specs.declared.sorts.SortFault.TheVariants.{Write};

    ghost from_gives = { λ fault result. result ≡ Write };

    fn from(_fault: DeviceFault) -> SortFault {
        SortFault::Write
    }
}

/// Writes the lines of a log in the order of their instants, each with a line feed. Lines of one
/// instant keep their order, and a line without an instant stays after the line before it.
/// `Lateness` has the lines that are late: earlier than a line before them by more than a window.
/// `Distance` has those that are further from their place in the log than a number of lines.
pub fn sort<I: Instants, W: Sink>(
    instants: &I,
    window: i128,
    most: u64,
    log: &[u8],
    memory: I::Memory,
    writer: &mut W,
    alloc: Global,
) -> Result<Sorted<I::Memory>, SortFault>
where
    I::Memory: Drop,
    ensures sorted { IfOk result (λ sorted. Sorts
        (reading_from (I.reading instants.now 0) memory) window most log.now
        (W.written writer.old) (W.written writer.new) sorted) }
    ensures no_write_failed { OnOk result (W.is_marked writer.new ≡ W.is_marked writer.old) }
    ensures write { IsErrOf result SortFault.Write → W.is_marked writer.new ≡ true }
    ensures memory { IsErrOf result SortFault.Memory → writer.new ≡ writer.old }
{
    let lateness = Lateness::new(window);
    let mut reading = read_lines(instants, lateness, log, memory, alloc)?;
    sort_held(&mut reading.held)?;
    let distance = distance_of(most, reading.held.as_slice());
    write_held(writer, reading.held.as_slice())?;
    Ok(Sorted {
        place: reading.place,
        memory: reading.memory,
        lateness: reading.lateness,
        distance,
    })
}

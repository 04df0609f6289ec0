//! The instants of lines, for a merge.
ghost use Rattle.std.specs.Prelude.{◌≡◌, None, option_map, slice_get};
ghost use Rattle.std.specs.Option.{option_and_then};
ghost use Rattle.plain_times.specs.Sums.{wall_clock_if_any};
ghost use Rattle.stamps.specs.LineInstants.{anew_of, instant_after, instant_by, line_instant, other_of, own_or, reader_or};
ghost use Rattle.stamps.specs.declared.readers.Reader.TheVariants.{Plain};

use crate::changes::{Anew, Choice, copy_of};
use crate::decide::nanos_of;
use crate::readers::{Reader, line_stamp, mark_length};
use crate::reading::needs_lines_before;
use line_devices::stamp_tallies::LineKind;
use line_merges::instants::Instants;
use utc_times::UtcDateTime;

/// Tells the instants of the lines of logs that have stamps.
#[derive(Drop)]
pub struct StampInstants {
    /// How stamps are read, as the words ask for it.
    pub reader: Reader,
    /// How those of each log are read.
    pub chosen: Vec<LogReader>,
}

/// How the stamps of a log are read.
#[derive(Drop)]
pub struct LogReader {
    /// The first reader, and how the form is chosen anew.
    pub chosen: Chosen,
    /// The reader of the lines that the first one does not read: a merge in one style has each
    /// stamp in front, or in a member of JSON.
    pub other: Option<Reader>,
}

/// How the stamps of an input are read.
#[derive(Drop)]
pub struct Chosen {
    /// The reader, if it has one of its own.
    pub reader: Option<Reader>,
    /// How its form is chosen anew where it changes, unless words name it.
    pub anew: Option<Anew>,
}

impl Instants for StampInstants {
    ghost use Rattle.stamps.specs.LogReadings.{log_reading};
    ghost use Rattle.stamps.specs.LogReadingLemmas.{log_reading-by_head, log_reading-remembers_head};

    type Memory = Choice;

    ghost reading = { log_reading };

    fn instant_of(
        &self,
        log: usize,
        memory: &Choice,
        last: Option<i128>,
        is_first: bool,
        line: &[u8],
    ) -> Option<i128> {
        let first = crate::instants::reader_at(self, log);
        let anew = crate::instants::anew_at(self, log);
        let reader = memory.reader(&anew, first);
        crate::instants::instant_by(
            reader,
            crate::instants::other_at(self, log),
            last,
            is_first,
            line,
        )
    }

    fn remember(&self, log: usize, memory: &mut Choice, number: u64, kind: LineKind, line: &[u8]) {
        let anew = crate::instants::anew_at(self, log);
        memory.take(&anew, number, kind, line);
    }

    ghost by_head = { log_reading-by_head };

    ghost remembers_head = { log_reading-remembers_head };
}

// How the stamps of the log with this number are read at first.
fn reader_at(instants: &StampInstants, log: usize) -> &Reader
    ensures { result.now ≡ reader_or instants.now.reader (slice_get instants.now.chosen.items log) }
{
    let Some(log) = instants.chosen.get(log) else {
        return &instants.reader;
    };
    own_or(&log.chosen.reader, &instants.reader)
}

/// The reader of a log, or that of the words if the log has none of its own.
pub fn own_or<'a>(own: &'a Option<Reader>, words: &'a Reader) -> &'a Reader
    ensures { result.now ≡ own_or words.now own.now }
{
    match own {
        Some(own) => own,
        None => words,
    }
}

// How the form of the log with this number is chosen anew, if it is.
fn anew_at(instants: &StampInstants, log: usize) -> Option<Anew>
    ensures { result ≡ anew_of (slice_get instants.now.chosen.items log) }
{
    match instants.chosen.get(log) {
        Some(log) => copy_of(&log.chosen.anew),
        None => None,
    }
}

// What reads the lines of the log with this number that its first reader does not read.
fn other_at(instants: &StampInstants, log: usize) -> Option<&Reader>
    ensures { option_map (λ reader. reader.now) result
        ≡ other_of (slice_get instants.now.chosen.items log) }
{
    let Some(log) = instants.chosen.get(log) else {
        return None;
    };
    match &log.other {
        Some(other) => Some(other),
        None => None,
    }
}

// The instant of a line in nanoseconds, if it has a stamp that a reader reads, or another one if there is one.
fn instant_by(
    reader: &Reader,
    other: Option<&Reader>,
    last: Option<i128>,
    is_first: bool,
    line: &[u8],
) -> Option<i128>
    ensures { result ≡ instant_by reader.now (option_map (λ reader. reader.now) other.entry) last
        is_first line.now }
{
    match (instant_after(reader, last, is_first, line), other) {
        (None, Some(other)) => instant_after(other, last, is_first, line),
        (found, _) => found,
    }
}

// The instant of a line in nanoseconds, if it has a stamp, by the last one before it.
#[tactic(auto, unfolding(crate::specs::LineInstants::line_instant))]
fn instant_after(reader: &Reader, last: Option<i128>, is_first: bool, line: &[u8]) -> Option<i128>
    ensures { result ≡ instant_after reader.now last is_first line.now }
{
    if let Reader::Plain = reader {
        return plain_instant(is_first, line);
    }
    let before = if needs_lines_before(reader) {
        instant_of_nanos(last)
    } else {
        None
    };
    match line_stamp(reader, before, is_first, line) {
        Ok(stamp) => Some(stamp.instant.unix_timestamp_nanos()),
        Err(_) => None,
    }
}

// The instant of a line of RFC 3339 in nanoseconds, if it has a stamp.
#[tactic(auto, unfolding(crate::specs::LineInstants::line_instant))]
#[inline(always)]
fn plain_instant(is_first: bool, line: &[u8]) -> Option<i128>
    ensures { result ≡ line_instant Plain None is_first line.now }
{
    nanos_of(&line[mark_length(is_first, line)..])
}

// The instant of a number of nanoseconds, if there is a number, and an instant of it in the range.
fn instant_of_nanos(nanos: Option<i128>) -> Option<UtcDateTime>
    ensures { result ≡ option_and_then wall_clock_if_any nanos }
{
    match nanos {
        Some(nanos) => instant_if_any(nanos),
        None => None,
    }
}

// The instant of this number of nanoseconds, if it is in the range.
fn instant_if_any(nanos: i128) -> Option<UtcDateTime>
    ensures { result ≡ wall_clock_if_any nanos }
{
    match UtcDateTime::from_unix_timestamp_nanos(nanos) {
        Ok(instant) => Some(instant),
        Err(_) => None,
    }
}

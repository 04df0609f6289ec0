//! Counts the lines of a log whose wall clocks a time zone shows twice or never.
ghost use Rattle.std.specs.Prelude.{◌≡◌, IfOk};
ghost use Rattle.stamps.specs.Decisions.{state_after};
ghost use Rattle.stamps.specs.Watches.{IsCounted, has_zone};

use crate::ahead::Ahead;
use crate::changes;
use crate::changes::Anew;
use crate::clock_tallies::{ClockTally, first_of_several, lines_text};
use crate::decide::{LONGEST_HEAD, State, first_state, read_stamp};
use crate::first_lines::Given;
use crate::readers::{FormReader, PlaceText, Reader};
use crate::sources::{Input, say};
use crate::style::text_in;
use crate::task::{Action, Style, Task};
use crate::zoned::line_showing;
use calendar_values::Text;
use line_devices::places::place_of;
use log_forms::{Form, named_form};
use std::alloc::{AllocError, Global};
use utc_times::UtcDateTime;

// The bytes of the date and the time of a text in UTC.
const CLOCK_LENGTH: usize = 19;

/// Reads the lines of a log as the work on it does, and counts those whose wall clocks the zone of
/// its reader does not show once.
#[derive(Drop)]
pub struct Watch {
    task: Task,
    state: State,
    head: Vec<u8>,
    is_open: bool,
    tally: ClockTally,
}

impl Watch {
    /// A watch of a log of which nothing is read. None if no zone is given.
    pub fn new(alloc: Global, reader: &Reader, anew: &Option<Anew>) -> Option<Watch> {
        if !has_zone(reader, anew) {
            return None;
        }
        let task = Task {
            action: Action::Check(false),
            reader: copy_of(reader),
            anew: changes::copy_of(anew),
        };
        let state = first_state(&task);
        Some(Watch {
            task,
            state,
            head: Vec::new(alloc),
            is_open: false,
            tally: ClockTally::new(),
        })
    }

    /// The lines that it counted.
    pub fn tally(&self) -> &ClockTally {
        &self.tally
    }

    /// Takes in a part of the log. Fails only if no memory is left.
    pub fn take(&mut self, block: &[u8]) -> Result<(), AllocError> {
        let mut from = 0;
        'lines: while from < block.len() {
            let end = place_of(b'\n', block, from);
            self.take_part(&block[from..end])?;
            if end == block.len() {
                return Ok(());
            }
            self.end_line();
            from = end + 1;
        }
        Ok(())
    }

    /// Takes in the end of the log.
    pub fn end(&mut self) {
        if !self.is_open && !self.head.is_empty() {
            self.end_line();
        }
    }

    // Takes in a part of a line, which has no line feed.
    fn take_part(&mut self, part: &[u8]) -> Result<(), AllocError> {
        if self.is_open {
            return Ok(());
        }
        let room = LONGEST_HEAD.saturating_sub(self.head.len());
        if part.len() < room {
            return self.head.extend_from_slice(part);
        }
        self.head.extend_from_slice(&part[..room])?;
        self.count();
        self.is_open = true;
        Ok(())
    }

    // Ends a line.
    fn end_line(&mut self) {
        if !self.is_open {
            self.count();
        }
        self.is_open = false;
        self.head.truncate(0);
    }

    // Counts a line by what is kept of it.
    fn count(&mut self) {
        self.tally = count_line(
            &self.task,
            &mut self.state,
            self.tally,
            self.head.as_slice(),
        );
    }
}

// Reads a line as the work on a log does, and counts it by how often the clocks of the zone show its wall clock.
fn count_line(task: &Task, state: &mut State, tally: ClockTally, line: &[u8]) -> ClockTally
    ensures state { state.new ≡ state_after task.now state.old line.now }
    ensures counted { IsCounted task.now state.old line.now tally result }
{
    let reader = state.choice.reader(&task.anew, &task.reader);
    let showing = line_showing(reader, state.last, state.lines == 0, line);
    let _ = read_stamp(task, state, line);
    tally.after(state.lines, showing)
}

// Whether the first reader of a log has a zone, or those that its lines choose anew.
fn has_zone(reader: &Reader, anew: &Option<Anew>) -> bool
    ensures { result ≡ has_zone reader.now anew.now }
{
    match (reader, anew) {
        (Reader::Formed(reader), _) if reader.zone.is_some() => true,
        (_, Some(anew)) => anew.zone.is_some(),
        (_, None) => false,
    }
}

// A copy of a reader.
fn copy_of(reader: &Reader) -> Reader
    ensures { result ≡ reader.now }
{
    let Reader::Formed(reader) = reader else {
        return Reader::Plain;
    };
    let mut text = PlaceText::new(0);
    text.push_all(reader.text.items());
    Reader::Formed(FormReader {
        form: copy_of_form(&reader.form),
        place: reader.place,
        text,
        assumed: reader.assumed,
        zone: reader.zone,
    })
}

// A copy of a form.
fn copy_of_form(form: &Form) -> Form
    ensures { result ≡ form.now }
{
    let mut copy = named_form(log_forms::FormName::Rfc3339);
    copy.lead.clear();
    copy.lead.push_all(form.lead.items());
    copy.items.clear();
    copy.items.push_all(form.items.items());
    copy.ahead = form.ahead;
    copy.digits = form.digits;
    copy
}

/// Lets a watch read the lines of an input, of which the first bytes may be read ahead. Fails only
/// if no memory is left.
pub fn watch_input(
    alloc: Global,
    input: &mut Ahead<Input<'_>>,
    reader: &Reader,
    anew: &Option<Anew>,
) -> Result<(), AllocError> {
    let Some(mut watch) = Watch::new(alloc, reader, anew) else {
        return Ok(());
    };
    watch.take(input.head())?;
    input.set_watch(Some(watch));
    Ok(())
}

/// Prints the notes on the lines of an input whose wall clocks the zone shows twice or skips, if
/// there are such lines, unless it is to be quiet.
pub fn tell_clocks(rt: &HostRuntime, said: &str, given: Given<'_>, tally: Option<&ClockTally>) {
    let (Some(tally), Some(zone)) = (tally, given.zone_name) else {
        return;
    };
    if given.is_quiet {
        return;
    }
    if let Some(line) = tally.first_twice {
        let (lines, first) = (
            lines_text(tally.twice, line),
            first_of_several(tally.twice, line),
        );
        let (lines, first) = (lines.as_str(), first.as_str());
        if let Ok(text) = format!(in rt.alloc();
            "{lines} that the clocks of {zone} show twice{first}: stamps takes the earlier instant"
        ) {
            say(rt, said, text.as_str());
        }
    }
    if let Some(skip) = tally.first_skipped {
        let (lines, first) = (
            lines_text(tally.skipped, skip.line),
            first_of_several(tally.skipped, skip.line),
        );
        let (lines, first) = (lines.as_str(), first.as_str());
        let (start, end) = (clock_text(skip.start), clock_text(skip.end));
        let (start, end) = (start.as_str(), end.as_str());
        if let Ok(text) = format!(in rt.alloc();
            "{lines} that the clocks of {zone} skip{first}: from {start} to {end}"
        ) {
            say(rt, said, text.as_str());
        }
    }
}

// The text of a wall clock, or its number of seconds if it has none.
fn clock_text(second: i64) -> Text {
    let mut text = Text::new();
    if let Ok(wall) = UtcDateTime::from_unix_timestamp(second) {
        if let Some(whole) = text_in(&Style::Utc, wall) {
            if whole.as_bytes().len() > CLOCK_LENGTH {
                text.push_bytes(&whole.as_bytes()[..CLOCK_LENGTH]);
                return text;
            }
        }
    }
    text.push_bytes(b"the second ");
    if second < 0 {
        text.push_bytes(b"-");
    }
    text.push_decimal(second.unsigned_abs());
    text
}

//! The count of lines by the local clock.
ghost use Rattle.std.specs.Prelude.{◌≡◌, ◌≤◌, pos, length};
ghost use Rattle.line_counts.specs.Counting.{empty_count, most};
ghost use Rattle.stamps.specs.Buckets.{bucket_of, most_empty, next_bucket, row_text, text_in_place, unit_nanos};
ghost use Rattle.stamps.specs.CountFaults.{count_status};
ghost use Rattle.stamps.specs.LineInstants.{line_instant};
ghost use Rattle.stamps.specs.Notes.{text_or_unix};
ghost use Rattle.stamps.specs.Styles.{text_in};
ghost use Rattle.stamps.specs.declared.task.Style.TheVariants.{At};
ghost use Rattle.offset_times.specs.Local.{local_multiple_below};

use crate::changes::{Anew, Choice};
use crate::files::is_compressed;
use crate::finding::{Cause, Finding};
use crate::first_lines::{Given, reader_chosen, say_changes};
use crate::inputs::print_heading;
use crate::instants::Chosen;
use crate::readers::{Reader, line_stamp, plain_stamp};
use crate::sources::{FAILED, Input, clear_progress, say, say_compressed, say_unwritten};
use crate::style::text_in;
use crate::tallies::tell_tally;
use crate::task::Style;
use crate::watches::{tell_clocks, watch_input};
use calendar_values::{SignedDuration, Text, UtcOffset};
use line_counts::buckets::{Buckets, steps_between};
use line_counts::counts::count;
use line_counts::tallies::{CountFault, Tally};
use line_devices::devices::Device;
use line_devices::stamp_tallies::LineKind;
use offset_times::{OffsetDateTime, ToOffset};
use rfc3339::to_unix_nanos;
use utc_times::UtcDateTime;

// The most units without lines one after another that have rows, where not all are asked for.
const MOST_EMPTY: u64 = 10_000;

/// The unit of buckets.
#[derive(Clone, Copy, Debug, PartialEq, Eq)]
pub enum Unit {
    /// A minute.
    Minute,
    /// An hour.
    Hour,
    /// A day.
    Day,
}

/// The buckets of lines: units of the local clock at an offset.
#[derive(Clone, Copy, Debug)]
pub struct Clock {
    /// The unit.
    pub unit: Unit,
    /// The offset.
    pub offset: UtcOffset,
}

/// The buckets of lines by a clock, and how their stamps are read.
#[derive(Drop)]
pub struct ClockBuckets {
    /// The clock.
    pub clock: Clock,
    /// Whether each unit without lines has a row.
    pub shows_all: bool,
    /// How stamps are read.
    pub reader: Reader,
    /// How their form is chosen anew where it changes, unless words name it.
    pub anew: Option<Anew>,
}

impl Buckets for ClockBuckets {
    ghost use Rattle.stamps.specs.Buckets.{counting};
    ghost use Rattle.stamps.specs.BucketLemmas.{counting-by_head, counting-remembers_head};

    type Memory = Choice;

    ghost counting = { counting };

    fn first_memory(&self) -> Choice {
        Choice::new()
    }

    fn instant_of(
        &self,
        memory: &Choice,
        last: Option<UtcDateTime>,
        is_first: bool,
        line: &[u8],
    ) -> Option<UtcDateTime> {
        crate::counts::line_instant(
            memory.reader(&self.anew, &self.reader),
            last,
            is_first,
            line,
        )
    }

    fn remember(&self, memory: &mut Choice, number: u64, kind: LineKind, line: &[u8]) {
        memory.take(&self.anew, number, kind, line);
    }

    fn bucket_of(&self, at: UtcDateTime) -> Option<UtcDateTime> {
        crate::counts::bucket_of(&self.clock, at)
    }

    fn next(&self, start: UtcDateTime) -> UtcDateTime {
        crate::counts::next_bucket(&self.clock, start)
    }

    fn row_of(&self, start: UtcDateTime, count: u64) -> Text {
        crate::counts::row_text(&self.clock, start, count)
    }

    fn count_between(&self, from: UtcDateTime, to: UtcDateTime) -> u64 {
        crate::counts::buckets_between(&self.clock, from, to)
    }

    fn most_empty(&self) -> u64 {
        crate::counts::most_empty(self.shows_all)
    }

    fn text_in_place(&self, count: u64) -> Text {
        crate::counts::text_in_place(count)
    }

    ghost by_head = { counting-by_head };

    ghost remembers_head = { counting-remembers_head };
}

// The instant of a line, if it has a stamp, by the last one before it.
#[tactic(auto, unfolding(crate::specs::LineInstants::line_instant))]
fn line_instant(
    reader: &Reader,
    last: Option<UtcDateTime>,
    is_first: bool,
    line: &[u8],
) -> Option<UtcDateTime>
    ensures { result ≡ line_instant reader.now last is_first line.now }
{
    if let Reader::Plain = reader {
        return match plain_stamp(reader, is_first, line) {
            Some(stamp) => Some(stamp.instant),
            None => None,
        };
    }
    match line_stamp(reader, last, is_first, line) {
        Ok(stamp) => Some(stamp.instant),
        Err(_) => None,
    }
}

// The instant at which the unit starts that the local clock shows.
fn bucket_of(clock: &Clock, at: UtcDateTime) -> Option<UtcDateTime>
    ensures { result ≡ bucket_of clock.now at }
{
    match at.checked_to_offset(clock.offset) {
        Some(shown) => truncate(clock.unit, shown).checked_to_utc(),
        None => None,
    }
}

// A date-time truncated to a unit.
fn truncate(unit: Unit, at: OffsetDateTime) -> OffsetDateTime
    ensures { result ≡ local_multiple_below (unit_nanos unit) at }
{
    match unit {
        Unit::Minute => at.truncate_to_minute(),
        Unit::Hour => at.truncate_to_hour(),
        Unit::Day => at.truncate_to_day(),
    }
}

// The bucket after a bucket.
fn next_bucket(clock: &Clock, start: UtcDateTime) -> UtcDateTime
    ensures { result ≡ next_bucket clock.now start }
{
    start.saturating_add(length_of(clock.unit))
}

// The number of the buckets from one on and before another.
fn buckets_between(clock: &Clock, from: UtcDateTime, to: UtcDateTime) -> u64
    ensures { result ≡ empty_count (next_bucket clock.now) most from to }
{
    steps_between(from, to, nanos_of(clock.unit))
}

// The nanoseconds of a unit.
fn nanos_of(unit: Unit) -> u64
    ensures value { result ≡ unit_nanos unit }
    ensures least { 60000000000 ≤ result }
{
    match unit {
        Unit::Minute => 60_000_000_000,
        Unit::Hour => 3_600_000_000_000,
        Unit::Day => 86_400_000_000_000,
    }
}

// The most buckets without lines one after another that have rows.
fn most_empty(shows_all: bool) -> u64
    ensures { result ≡ most_empty shows_all }
{
    if shows_all { u64::MAX } else { MOST_EMPTY }
}

// The text in place of the rows of this number of buckets without lines.
fn text_in_place(count: u64) -> Text
    ensures { result ≡ text_in_place count }
{
    let mut text = Text::new();
    text.push_bytes(b"... ");
    text.push_decimal(count);
    text.push_bytes(b" rows of 0\n");
    text
}

// The length of a unit.
fn length_of(unit: Unit) -> SignedDuration
    ensures { result ≡ pos (unit_nanos unit) }
{
    match unit {
        Unit::Minute => SignedDuration::minutes(1),
        Unit::Hour => SignedDuration::hours(1),
        Unit::Day => SignedDuration::days(1),
    }
}

// The text of a row.
fn row_text(clock: &Clock, start: UtcDateTime, count: u64) -> Text
    ensures { result ≡ row_text clock.now start count }
{
    let mut text = start_text(clock, start);
    text.push_bytes(b" ");
    text.push_decimal(count);
    text.push_bytes(b"\n");
    text
}

// The start of a bucket at the offset, or as Unix seconds where it has no text there.
fn start_text(clock: &Clock, start: UtcDateTime) -> Text
    ensures value { result ≡ text_or_unix (text_in (At clock.now.offset) start) start }
    ensures length { length result ≤ 35 }
{
    match text_in(&Style::At(clock.offset), start) {
        Some(text) => text,
        None => to_unix_nanos(start),
    }
}

/// Counts the lines of each file, or of standard input where there are none, and returns the exit
/// status. The words are those before the files. A heading names each of several files.
pub fn run(
    rt: &HostRuntime,
    buckets: &ClockBuckets,
    is_strict: bool,
    given: Given<'_>,
    words: &[String],
    names: &[String],
) -> u8 {
    for name in names {
        if is_compressed(name.as_bytes()) {
            say_compressed(rt, words, given.options, name);
            return FAILED;
        }
    }
    if names.is_empty() {
        return run_input(rt, buckets, is_strict, given, "-", "");
    }
    let mut status = 0;
    for name in names {
        if names.len() > 1 {
            let printed = print_heading(rt, name);
            if printed != 0 {
                return printed;
            }
        }
        let ended = run_input(rt, buckets, is_strict, given, name, name);
        if ended != 0 {
            status = ended;
        }
        if ended > 1 {
            return ended;
        }
    }
    status
}

// Counts the lines of an input, and names it as said in what it reports.
fn run_input(
    rt: &HostRuntime,
    buckets: &ClockBuckets,
    is_strict: bool,
    given: Given<'_>,
    name: &str,
    said: &str,
) -> u8 {
    let Some(mut input) = Input::open(rt, name, true) else {
        return FAILED;
    };
    let chosen = match reader_chosen(rt, given, &buckets.reader, said, &mut input) {
        Ok(chosen) => chosen,
        Err(status) => return status,
    };
    let other = own_buckets(buckets, chosen);
    let buckets = buckets_or(&other, buckets);
    let shows_progress = input.inner().shows_progress();
    let mut writer = Device::new(rt.stdout());
    if watch_input(rt.alloc(), &mut input, &buckets.reader, &buckets.anew).is_err() {
        say(rt, said, "no memory is left");
        return FAILED;
    }
    let mut source = Device::new(input);
    let ended = count(buckets, is_strict, &mut source, &mut writer);
    if shows_progress {
        clear_progress(rt);
    }
    match &ended {
        Ok(tally) => {
            if !given.is_quiet {
                say_changes(rt, said, given, &tally.memory);
            }
            if let Some(line) = tally.back {
                say_line(rt, said, line, Cause::Earlier);
            }
            let _ = tell_tally(rt, said, &tally.stamps, given.is_quiet);
            tell_clocks(rt, said, given, source.inner().inner().clocks());
        }
        Err(CountFault::Back(line)) => say_line(rt, said, *line, Cause::Earlier),
        Err(CountFault::Missing(line)) => say_line(rt, said, *line, Cause::NoInstant),
        Err(CountFault::Read) => say(rt, said, "read failed"),
        Err(CountFault::Write) => return say_unwritten(rt, said, &writer),
    }
    count_status(&ended)
}

// The buckets of an input that has a reader of its own, or whose form is chosen anew.
fn own_buckets(buckets: &ClockBuckets, chosen: Chosen) -> Option<ClockBuckets> {
    let reader = match (chosen.reader, &chosen.anew) {
        (Some(reader), _) => reader,
        (None, Some(_)) => Reader::Plain,
        (None, None) => return None,
    };
    Some(ClockBuckets {
        clock: buckets.clock,
        shows_all: buckets.shows_all,
        reader,
        anew: chosen.anew,
    })
}

// The buckets of an input, or those of the words if it has none of its own.
fn buckets_or<'a>(own: &'a Option<ClockBuckets>, words: &'a ClockBuckets) -> &'a ClockBuckets {
    match own {
        Some(own) => own,
        None => words,
    }
}

// Says what is at fault with a line.
fn say_line(rt: &HostRuntime, name: &str, line: u64, cause: Cause) {
    say(rt, name, Finding::Line(line, cause).text().as_str());
}

/// The exit status of a count: 0 at the end of the input, 1 for a line that goes back or ends the
/// count, and where too many lines have no stamp, and 2 after a failed read or write.
fn count_status(ended: &Result<Tally<Choice>, CountFault>) -> u8
    ensures { result ≡ count_status ended.now }
{
    match ended {
        Ok(tally) => u8::from(tally.back.is_some() || tally.stamps.is_poor()),
        Err(CountFault::Missing(_) | CountFault::Back(_)) => 1,
        Err(CountFault::Read | CountFault::Write) => 2,
    }
}

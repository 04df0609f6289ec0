//! The last stamp of files, from which bounds count back.
ghost use Rattle.std.specs.Prelude.{◌≡◌, false, IfOk, IfSome};
ghost use Rattle.stamps.specs.Lasts.{HasLast, last_if_ended, latest_of};
ghost use Rattle.stamps.specs.Runs.{input_run};

use crate::files::is_compressed;
use crate::first_lines::{Given, reader_chosen};
use crate::inputs::{own_task, task_or};
use crate::lines::Work;
use crate::readers::Reader;
use crate::sources::{FAILED, Input, say, say_compressed};
use crate::stamps::{StampFault, stamps};
use crate::task::{Action, Task};
use calendar_values::SignedDuration;
use line_devices::devices::{Device, DeviceFault, Sink, Source};
use line_devices::stamp_tallies::StampTally;
use std::fs::metadata;
use utc_times::UtcDateTime;

// More seconds than those of the range.
const MOST_SECONDS: i64 = 100_000_000_000_000;

// An output that keeps nothing.
#[derive(Drop)]
struct Unread;

impl Sink for Unread {
    ghost use Rattle.std.specs.Prelude.{None, false};

    ghost written = { λ _. None };

    ghost is_marked = { λ _. false };

    fn write_some(&mut self, text: &[u8]) -> Result<usize, DeviceFault> {
        Ok(text.len())
    }

    fn failed(&self) -> bool {
        false
    }
}

/// The latest of the last instants of files, if one has a stamp. Fails with the exit status where a
/// file cannot be read, or not twice.
pub fn last_of_files(
    rt: &HostRuntime,
    task: &Task,
    given: Given<'_>,
    names: &[String],
) -> Result<Option<UtcDateTime>, u8> {
    if names.is_empty() {
        return Err(fail_once(rt, ""));
    }
    let mut latest = None;
    for name in names {
        if is_compressed(name.as_bytes()) {
            say_compressed(rt, given.words, given.options, name);
            return Err(FAILED);
        }
        if is_read_once(rt, name) {
            return Err(fail_once(rt, name));
        }
        latest = latest_of(latest, last_of_file(rt, task, given, name)?);
    }
    Ok(latest)
}

// Whether an input is standard input, a pipe or a device.
fn is_read_once(rt: &HostRuntime, name: &str) -> bool {
    name == "-" || matches!(metadata(rt, name), Ok(found) if !found.is_file() && !found.is_dir())
}

// Says that an input cannot be read twice, and returns the exit status.
fn fail_once(rt: &HostRuntime, name: &str) -> u8 {
    say(
        rt,
        name,
        "a bound counts back from the last stamp, and the input is read once: name a file",
    );
    FAILED
}

// The last instant of a file, if it has a stamp.
fn last_of_file(
    rt: &HostRuntime,
    task: &Task,
    given: Given<'_>,
    name: &str,
) -> Result<Option<UtcDateTime>, u8> {
    let quietly = Given {
        is_quiet: true,
        ..given
    };
    let Some(mut input) = Input::open(rt, name, false) else {
        return Err(FAILED);
    };
    let chosen = reader_chosen(rt, quietly, &task.reader, name, &mut input)?;
    let other = own_task(task, chosen);
    match last_instant(task_or(&other, task), &mut Device::new(input)) {
        Ok(last) => Ok(last),
        Err(_) => {
            say(rt, name, "read failed");
            Err(FAILED)
        }
    }
}

/// The instant of the last stamp of an input, if it has one.
pub fn last_instant<R: Source>(
    task: &Task,
    reader: &mut R,
) -> Result<Option<UtcDateTime>, StampFault>
    requires reader { R.is_marked reader.old ≡ false }
    ensures last { IfOk result (λ last. IfSome (R.left reader.old) (λ input.
        HasLast (input_run task.now input) last)) }
{
    let mut unread = Unread;
    let mut work = Work::new(task);
    let ended = stamps(task, reader, &mut unread, &mut work);
    last_if_ended(&ended, &work)
}

// The last instant of a work that has ended.
fn last_if_ended(
    ended: &Result<StampTally, StampFault>,
    work: &Work,
) -> Result<Option<UtcDateTime>, StampFault>
    ensures { result ≡ last_if_ended ended.now work.now.state }
{
    match ended {
        Ok(_) => Ok(work.state.last),
        Err(fault) => Err(*fault),
    }
}

// The later of two instants, each of which may be missing.
fn latest_of(first: Option<UtcDateTime>, second: Option<UtcDateTime>) -> Option<UtcDateTime>
    ensures { result ≡ latest_of first second }
{
    let Some(at) = second else {
        return first;
    };
    match first {
        Some(before) if at < before => Some(before),
        _ => Some(at),
    }
}

/// The task that reads all of a log for its last stamp: no gap is as long as the range.
pub fn reading_task(reader: Reader) -> Task {
    Task {
        action: Action::Gaps(SignedDuration::seconds(MOST_SECONDS), false),
        reader,
        anew: None,
    }
}

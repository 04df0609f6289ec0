//! The task on standard input, or on files one after another.
ghost use Rattle.std.specs.Prelude.{◌≡◌, false};
ghost use Rattle.line_devices.specs.Device.{has_failed};
ghost use Rattle.stamps.specs.Tasks.{checks, ends_at_finding, tells};

use crate::files::is_compressed;
use crate::first_lines::{Given, reader_chosen, say_changes};
use crate::instants::Chosen;
use crate::lines::Work;
use crate::readers::Reader;
use crate::sources::{
    FAILED, Input, clear_progress, print_line, say, say_compressed, say_unwritten,
};
use crate::stamps::{StampFault, stamps, status_of};
use crate::tallies::{tell_long, tell_tally};
use crate::task::{Action, Task};
use crate::watches::{tell_clocks, watch_input};
use line_devices::devices::{Device, Sink, Source};
use std::io::Write;

/// Does the task on the files, or on standard input where there are none, and returns the exit
/// status. The words are those before the files.
pub fn run(
    rt: &HostRuntime,
    task: &Task,
    given: Given<'_>,
    words: &[String],
    names: &[String],
) -> u8 {
    for name in names {
        if is_compressed(name.as_bytes()) {
            say_compressed(rt, words, given.options, name);
            return FAILED;
        }
    }
    if names.is_empty() {
        return run_input(rt, task, given, "-", "", &mut Device::new(rt.stdout()));
    }
    run_files(rt, task, given, names)
}

// Does the task on one file after another. A task that writes stamps and is strict ends at its first
// finding. If a task writes its reports, a heading names each of several files.
fn run_files(rt: &HostRuntime, task: &Task, given: Given<'_>, names: &[String]) -> u8 {
    let mut writer = Device::new(rt.stdout());
    let mut status = 0;
    for name in names {
        if tells(task) {
            writer = Device::new(rt.stdout());
        }
        if tells(task) && names.len() > 1 {
            let printed = print_heading(rt, name);
            if printed != 0 {
                return printed;
            }
        }
        let ended = run_file(rt, task, given, name, &mut writer);
        if ended != 0 {
            status = ended;
        }
        if ended > 1 || ended == 1 && ends_at_finding(task) {
            return ended;
        }
    }
    status
}

/// Prints the heading of a file among others, and returns the exit status.
pub fn print_heading(rt: &HostRuntime, name: &str) -> u8 {
    match format!(in rt.alloc(); "==> {name} <==") {
        Ok(heading) => print_line(rt, heading.as_str()),
        Err(_) => {
            say(rt, "", "no memory is left");
            FAILED
        }
    }
}

// Whether the task writes notes on lines.
fn tells(task: &Task) -> bool
    ensures { result ≡ tells task.now.action }
{
    matches!(task.action, Action::CheckAll(_) | Action::Gaps(_, _))
}

// Whether the task checks lines, and so tells itself of those without a stamp.
fn checks(task: &Task) -> bool
    ensures { result ≡ checks task.now.action }
{
    matches!(task.action, Action::Check(_) | Action::CheckAll(_))
}

// Whether a finding in one file ends the work on all: its line would be missing in the output.
fn ends_at_finding(task: &Task) -> bool
    ensures { result ≡ ends_at_finding task.now.action }
{
    matches!(task.action, Action::Write(_, true))
}

// Does the task on a file. If the output ends within a line, it first ends that.
fn run_file<T: Write>(
    rt: &HostRuntime,
    task: &Task,
    given: Given<'_>,
    name: &str,
    writer: &mut Device<T>,
) -> u8 {
    if !writer.is_at_line_start() && writer.write_some(b"\n").is_err() || writer.failed() {
        return say_unwritten(rt, name, writer);
    }
    run_input(rt, task, given, name, name, writer)
}

// Does the task on an input, and names it as said in what it reports.
fn run_input<T: Write>(
    rt: &HostRuntime,
    task: &Task,
    given: Given<'_>,
    name: &str,
    said: &str,
    writer: &mut Device<T>,
) -> u8
    requires { has_failed writer.old ≡ false }
{
    let Some(mut input) = Input::open(rt, name, true) else {
        return FAILED;
    };
    let chosen = match reader_chosen(rt, given, &task.reader, said, &mut input) {
        Ok(chosen) => chosen,
        Err(status) => return status,
    };
    let other = own_task(task, chosen);
    let task = task_or(&other, task);
    if watch_input(rt.alloc(), &mut input, &task.reader, &task.anew).is_err() {
        say(rt, said, "no memory is left");
        return FAILED;
    }
    let shows_progress = input.inner().shows_progress();
    let mut work = Work::new(task);
    let mut source = Device::new(input);
    let ended = stamps(task, &mut source, writer, &mut work);
    if shows_progress {
        clear_progress(rt);
    }
    if !given.is_quiet {
        say_changes(rt, said, given, &work.state.choice);
    }
    let mut is_poor = false;
    match &ended {
        Ok(tally) if checks(task) => tell_long(rt, said, tally, given.is_quiet),
        Ok(tally) => is_poor = tell_tally(rt, said, tally, given.is_quiet) > 0,
        Err(StampFault::Read) => say(rt, said, "read failed"),
        Err(StampFault::Write) => return say_unwritten(rt, said, writer),
        Err(StampFault::Found(found)) => say(rt, said, found.text().as_str()),
    }
    if ended.is_ok() {
        tell_clocks(rt, said, given, source.inner().inner().clocks());
    }
    status_of(&ended, is_poor || tells(task) && writer.has_written())
}

/// The task on an input that has a reader of its own, or whose form is chosen anew.
pub fn own_task(task: &Task, chosen: Chosen) -> Option<Task> {
    match (chosen.reader, chosen.anew) {
        (Some(reader), anew) => Some(Task {
            action: task.action,
            reader,
            anew,
        }),
        (None, Some(anew)) => Some(Task {
            action: task.action,
            reader: Reader::Plain,
            anew: Some(anew),
        }),
        (None, None) => None,
    }
}

/// The task on an input, or that of the words if it has none of its own.
pub fn task_or<'a>(own: &'a Option<Task>, words: &'a Task) -> &'a Task {
    match own {
        Some(own) => own,
        None => words,
    }
}

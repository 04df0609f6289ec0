//! The merge of files by the instants of their lines.
ghost use Rattle.std.specs.Prelude.{◌≡◌, [], ◌∷◌, ◌++◌, false, length, OnErr, OnOk};
ghost use Rattle.line_merges.specs.Logs.{new_log};
ghost use Rattle.line_merges.specs.Runs.{AreNew};
ghost use Rattle.stamps.specs.Changes.{first_choice};
ghost use Rattle.stamps.specs.LogReadings.{first_choices};
ghost use Rattle.stamps.specs.MergeFaults.{merge_status};

use crate::changes::Choice;
use crate::files::is_compressed;
use crate::finding::{Cause, Finding};
use crate::first_lines::{Given, reader_chosen, reader_or, say_changes};
use crate::fronted::{Turned, Turning, value_reader};
use crate::instants::{LogReader, StampInstants, own_or};
use crate::readers::Reader;
use crate::reading::ReadingMisuse;
use crate::restyled::Restyled;
use crate::sources::{FAILED, Input, clear_progress, say, say_compressed, say_unwritten};
use crate::tallies::tell_tally;
use crate::task::Style;
use crate::watches::{tell_clocks, watch_input};
use line_devices::devices::{Device, Source};
use line_merges::logs::Log;
use line_merges::merges::{MergeFault, add, merge};
use std::alloc::AllocError;

/// Merges the files, or writes standard input where there are none, and returns the exit status.
/// The words are those before the files. With a style, each line has its stamp in it: in front, or
/// in its place in a record of JSON.
pub fn run(
    rt: &HostRuntime,
    reader: Reader,
    to: Option<Style>,
    is_strict: bool,
    given: Given<'_>,
    words: &[String],
    names: &[String],
) -> u8 {
    for name in names {
        if is_compressed(name.as_bytes()) {
            say_compressed(rt, words, given.options, name);
            return FAILED;
        }
    }
    let Ok(standard) = standard_name(rt) else {
        say(rt, "", "no memory is left");
        return FAILED;
    };
    let opened = if names.is_empty() {
        standard.as_slice()
    } else {
        names
    };
    let mut instants = StampInstants {
        reader,
        chosen: Vec::new(rt.alloc()),
    };
    let mut logs = Vec::new(rt.alloc());
    let mut shows_progress = false;
    'opens: for name in opened {
        let Some(mut input) = Input::open(rt, name, !shows_progress) else {
            return FAILED;
        };
        let said = if names.is_empty() { "" } else { name };
        let mut own = match reader_chosen(rt, given, &instants.reader, said, &mut input) {
            Ok(chosen) => LogReader {
                chosen,
                other: None,
            },
            Err(status) => return status,
        };
        shows_progress |= input.inner().shows_progress();
        let first = own_or(&own.chosen.reader, &instants.reader);
        if watch_input(rt.alloc(), &mut input, first, &own.chosen.anew).is_err() {
            say(rt, said, "no memory is left");
            return FAILED;
        }
        let Ok(turning) = turning_of(&to, &mut own, given) else {
            return FAILED;
        };
        let input = Turned::new(input, turning, rt.alloc());
        if add_log(&mut instants, &mut logs, own, Device::new(input)).is_err() {
            say(rt, "", "no memory is left");
            return FAILED;
        }
    }
    let mut writer = Device::new(rt.stdout());
    let mut ended;
    match to {
        Some(Style::Unix) => {
            let mut restyled = Restyled::new(writer, Style::Unix);
            ended = merge(&instants, is_strict, logs.as_mut_slice(), &mut restyled);
            let (device, has_failed) = restyled.end();
            writer = device;
            if has_failed {
                ended = Err(MergeFault::Write);
            }
        }
        _ => ended = merge(&instants, is_strict, logs.as_mut_slice(), &mut writer),
    }
    if shows_progress {
        clear_progress(rt);
    }
    if matches!(ended, Err(MergeFault::Write)) {
        return say_unwritten(rt, "", &writer);
    }
    report(rt, names, &ended);
    let mut is_found = false;
    for (k, log) in logs.iter().enumerate() {
        let (name, place) = (name_of(names, k), &log.front.place);
        if !given.is_quiet {
            say_changes(rt, name, given, log.reader.inner().choice());
            say_changes(rt, name, given, &log.memory);
        }
        if let Some(line) = place.back {
            is_found = true;
            say_back(rt, name, line);
        }
        if ended.is_ok() {
            is_found |= tell_tally(rt, name, &place.stamps, given.is_quiet) > 0;
            tell_clocks(rt, name, given, log.reader.inner().inner().inner().clocks());
        }
    }
    merge_status(&ended, is_found)
}

// How a log gets its stamps in a style, if one is given. Then the merge reads RFC 3339 in front, or the form of the style in
// records of JSON, and the log is read as before.
fn turning_of(
    to: &Option<Style>,
    own: &mut LogReader,
    given: Given<'_>,
) -> Result<Option<Turning>, ReadingMisuse> {
    let (style, value_style) = match to {
        // What is merged has stamps in UTC in front. The output turns them into Unix seconds.
        Some(Style::Unix) => (Style::Utc, Style::Unix),
        Some(style) => (*style, *style),
        None => return Ok(None),
    };
    let reader = reader_or(own.chosen.reader.take(), given)?;
    own.chosen.reader = Some(Reader::Plain);
    own.other = value_reader(&value_style, &reader);
    Ok(Some(Turning {
        style,
        value_style,
        other: value_reader(&value_style, &reader),
        reader,
        anew: own.chosen.anew.take(),
    }))
}

// Adds the log of a reader, and how its stamps are read. Both have the number of the logs before.
// Fails only if no memory is left, and then the logs and these stay the same.
fn add_log<R: Source + Drop>(
    instants: &mut StampInstants,
    logs: &mut Vec<Log<R, Choice>>,
    own: LogReader,
    reader: R,
) -> Result<(), AllocError>
    requires reader { R.is_marked reader ≡ false }
    requires logs { AreNew first_choices R.left R.is_marked logs.old.items }
    requires numbers { length instants.old.chosen.items ≡ length logs.old.items }
    ensures log { OnOk result
        (logs.new.items ≡ logs.old.items ++ new_log reader first_choice ∷ []) }
    ensures own { OnOk result (instants.new.chosen.items ≡ instants.old.chosen.items ++ own ∷ []) }
    ensures same_logs { OnErr result (logs.new.items ≡ logs.old.items) }
    ensures same_own { OnErr result (instants.new.chosen.items ≡ instants.old.chosen.items) }
    ensures words { instants.new.reader ≡ instants.old.reader }
    ensures new { AreNew first_choices R.left R.is_marked logs.new.items }
    ensures numbers { length instants.new.chosen.items ≡ length logs.new.items }
{
    let before = instants.chosen.len();
    instants.chosen.push(own)?;
    let added = add(logs, reader, Choice::new());
    if added.is_err() {
        instants.chosen.truncate(before);
    }
    added
}

// The name of standard input, as of a file.
fn standard_name(rt: &HostRuntime) -> Result<Vec<String>, AllocError> {
    let mut names = Vec::new(rt.alloc());
    names.push(format!(in rt.alloc(); "-")?)?;
    Ok(names)
}

// Says what ended a merge.
fn report(rt: &HostRuntime, names: &[String], ended: &Result<(), MergeFault>) {
    match ended {
        Ok(()) | Err(MergeFault::Write) => {}
        Err(MergeFault::Read(log)) => say(rt, name_of(names, *log), "read failed"),
        Err(MergeFault::Back(log, line)) => say_back(rt, name_of(names, *log), *line),
        Err(MergeFault::Endless) => say(rt, "", "the merge has more than 2^64 - 2 lines"),
    }
}

// The name of a file by its number.
fn name_of(names: &[String], log: usize) -> &str {
    match names.get(log) {
        Some(name) => name.as_str(),
        None => "",
    }
}

// Says that a line of a file is earlier than the one before it.
fn say_back(rt: &HostRuntime, name: &str, line: u64) {
    say(
        rt,
        name,
        Finding::Line(line, Cause::Earlier).text().as_str(),
    );
}

/// The exit status of a merge: 0 at the end of all files, 1 where one of them has a finding, or a
/// line ends the merge that is earlier than the one before it, and 2 after a failed read or write.
fn merge_status(ended: &Result<(), MergeFault>, is_found: bool) -> u8
    ensures { result ≡ merge_status ended.now is_found }
{
    match ended {
        Ok(()) if is_found => 1,
        Ok(()) => 0,
        Err(MergeFault::Back(_, _)) => 1,
        Err(MergeFault::Read(_) | MergeFault::Write | MergeFault::Endless) => 2,
    }
}

//! Reads lines that begin with stamps of RFC 3339, and writes them as the command line asks for.
#![tactic(auto)]

mod ahead;
mod arguments;
mod bounds;
mod changes;
mod choosing;
mod clock_tallies;
mod counts;
mod decide;
mod durations;
mod files;
mod finding;
mod first_lines;
mod first_years;
mod fronted;
mod inputs;
mod instants;
mod lasts;
mod laws;
mod leading;
mod lines;
mod merges;
mod nearest;
mod notes;
mod readers;
mod reading;
mod restyled;
mod sources;
mod stamps;
mod style;
mod tallies;
mod task;
mod usage;
mod watches;
mod years;
mod zone_words;
mod zoned;

use arguments::{Misuse, Request, is, misuse_line, request_of};
use bounds::{Around, Cut, NoCut, action_of, bound_instant, needs_last, needs_now, no_cut_line};
use calendar_values::SignedDuration;
use counts::ClockBuckets;
use files::{front_length, is_dashes, is_option};
use first_lines::Given;
use lasts::{last_of_files, reading_task};
use log_forms::{FORMS, form_name, sample_of};
use readers::Reader;
use reading::{
    ReadingMisuse, Step, is_valued, kind_of, offset_asked, reader_of, reading_line, step_after,
    style_asked, twice_of,
};
use sources::{FAILED, print_line, say};
use std::alloc::AllocError;
use std::process::ExitCode;
use std::time::{SystemTime, UNIX_EPOCH};
use std::{env, io};
use style::text_in;
use task::{Action, Style, Task};
use usage::USAGE;
use utc_times::UtcDateTime;
use years::{is_year, name_in, names_same, year_in};
use zone_words::{for_good, zone_named};
use zoned::with_zone;
use zones::OwnedZone;

// The version of the library, which the program has too: make/versions writes it.
const VERSION_LINE: &str = "stamps 0.1.0";

fn main(rt: HostRuntime) -> ExitCode {
    let Ok(given) = words_given(&rt) else {
        return report_misuse(
            &rt,
            "a word is no text of UTF-8: rename the file, or read it by <",
            "",
        );
    };
    match sort(&rt, given) {
        Ok(Sorted::Words(words, files, asked)) => {
            obey(&rt, words.as_slice(), files.as_slice(), &asked)
        }
        Ok(Sorted::Misuse(text, word)) => report_misuse(&rt, text, word.as_str()),
        Ok(Sorted::Forms) => ExitCode::from(list_forms(&rt)),
        Err(_) => {
            say(&rt, "", "no memory is left");
            ExitCode::from(FAILED)
        }
    }
}

// What the words say of how stamps are read.
#[derive(Drop)]
struct Asked {
    form: Option<String>,
    place: Option<String>,
    offset: Option<String>,
    zone: Option<String>,
    years: Vec<String>,
    to: Option<String>,
    until: Option<String>,
    is_quiet: bool,
    is_verbose: bool,
    options: Vec<String>,
}

impl Asked {
    // Keeps the value of an option, and returns whether it is the first one, or for a year the first
    // one of its file.
    fn keep(&mut self, option: Step, word: String) -> Result<bool, AllocError> {
        let value = match option {
            Step::Form => &mut self.form,
            Step::Place => &mut self.place,
            Step::Offset => &mut self.offset,
            Step::Zone => &mut self.zone,
            Step::To => &mut self.to,
            Step::Until => &mut self.until,
            _ => return self.keep_year(word),
        };
        let is_first = value.is_none();
        *value = Some(word);
        Ok(is_first)
    }

    // Keeps a value of `--year`, and returns whether it is the first one of its file.
    fn keep_year(&mut self, word: String) -> Result<bool, AllocError> {
        let mut is_first = true;
        for before in &self.years {
            is_first &= !names_same(before.as_bytes(), word.as_bytes());
        }
        self.years.push(word)?;
        Ok(is_first)
    }

    // Whether they say anything.
    fn is_any(&self) -> bool {
        self.form.is_some()
            || self.place.is_some()
            || self.offset.is_some()
            || self.zone.is_some()
            || !self.years.is_empty()
            || self.to.is_some()
            || self.until.is_some()
    }
}

// The words, sorted.
#[derive(Drop)]
enum Sorted {
    // Those of the request, the files, and what the others say of how stamps are read.
    Words(Vec<String>, Vec<String>, Asked),
    // A misuse, by its text, and the word that is wrong.
    Misuse(&'static str, String),
    // The list of the forms is asked for.
    Forms,
}

// Sorts the words, of which the first is the name of the program.
fn sort(rt: &HostRuntime, given: Vec<String>) -> Result<Sorted, AllocError> {
    let mut words = Vec::new(rt.alloc());
    let mut asked = Asked {
        form: None,
        place: None,
        offset: None,
        zone: None,
        years: Vec::new(rt.alloc()),
        to: None,
        until: None,
        is_quiet: false,
        is_verbose: false,
        options: Vec::new(rt.alloc()),
    };
    let mut step = Step::Word;
    let mut lists = false;
    for word in cut_at_signs(rt, given)? {
        let before = step;
        step = step_after(before, word.as_bytes());
        match step {
            Step::Form
            | Step::Place
            | Step::Offset
            | Step::Year
            | Step::To
            | Step::Zone
            | Step::Until => asked.options.push(word)?,
            Step::Quiet => {
                asked.is_quiet = true;
                asked.options.push(word)?;
            }
            Step::Verbose => {
                asked.is_verbose = true;
                asked.options.push(word)?;
            }
            Step::Value => {
                asked.options.push(word.clone()?)?;
                if !asked.keep(before, word)? {
                    return sort_as_misuse(rt, reading_line(twice_of(before)));
                }
            }
            Step::List => lists = true,
            Step::Word | Step::File => words.push(word)?,
        }
    }
    match step {
        Step::Form => sort_as_misuse(rt, "--form has no value: add a form, as rfc5424"),
        Step::Place => {
            sort_as_misuse(
                rt,
                "--place has no value: add front, access, coloured, field:N, after:TEXT or json:NAME",
            )
        }
        Step::Offset => sort_as_misuse(rt, "--offset has no value: add one, as +05:30 or Z"),
        Step::Zone => sort_as_misuse(rt, "--zone has no value: add a name, as Europe/Berlin"),
        Step::Year => {
            sort_as_misuse(
                rt,
                "--year has no value: add its four digits, as 2024, FILE=2024 or mtime",
            )
        }
        Step::To => sort_as_misuse(
            rt,
            "--to has no value: add utc, unix, or an offset, as +05:30",
        ),
        Step::Until => sort_as_misuse(
            rt,
            "--until has no value: add a date-time, as 2024-02-29T12:00:00Z",
        ),
        _ if lists && (!words.is_empty() || asked.is_any()) => {
            sort_as_misuse(rt, "--list-forms takes no other words: leave them out")
        }
        _ if lists => Ok(Sorted::Forms),
        _ => {
            let (words, files) = split(rt, words)?;
            Ok(Sorted::Words(words, files, asked))
        }
    }
}

// A misuse of no word.
fn sort_as_misuse(rt: &HostRuntime, text: &'static str) -> Result<Sorted, AllocError> {
    Ok(Sorted::Misuse(text, String::new(rt.alloc())))
}

// The words without the name of the program. An option and its value, as `--form=git`, are two.
fn cut_at_signs(rt: &HostRuntime, given: Vec<String>) -> Result<Vec<String>, AllocError> {
    let mut words = Vec::new(rt.alloc());
    let mut is_file = false;
    for word in given.into_iter().skip(1) {
        is_file |= is_dashes(word.as_bytes());
        match word.as_str().split_once('=') {
            Some((option, value)) if !is_file && is_valued(kind_of(option.as_bytes())) => {
                words.push(option.to_string(rt.alloc())?)?;
                words.push(value.to_string(rt.alloc())?)?;
            }
            _ if !is_file && is(word.as_bytes(), "-h") => {
                words.push("--help".to_string(rt.alloc())?)?;
            }
            _ => words.push(word)?,
        }
    }
    Ok(words)
}

// The words of the request, and the files. The options may stand behind files, but not behind `--`.
fn split(rt: &HostRuntime, given: Vec<String>) -> Result<(Vec<String>, Vec<String>), AllocError> {
    let front = front_length(bytes_of(rt, given.as_slice())?.as_slice());
    let mut words = Vec::new(rt.alloc());
    let mut files = Vec::new(rt.alloc());
    let mut is_file = false;
    for (k, word) in given.into_iter().enumerate() {
        if !is_file && is(word.as_bytes(), "--all") && front <= words.len() {
            words.insert(front, word)?;
        } else if k < front || !is_file && is_option(word.as_bytes()) {
            words.push(word)?;
        } else if !is_file && is_dashes(word.as_bytes()) {
            is_file = true;
        } else {
            files.push(word)?;
        }
    }
    Ok((words, files))
}

// Prints each form with a sample, and returns the exit status.
fn list_forms(rt: &HostRuntime) -> u8 {
    for name in FORMS {
        let Ok(line) = format!(in rt.alloc(); "{:<14}{}", form_name(name), sample_of(name)) else {
            say(rt, "", "no memory is left");
            return FAILED;
        };
        let printed = print_line(rt, line.as_str());
        if printed != 0 {
            return printed;
        }
    }
    0
}

// The reader of the words for how stamps are read. Any year stands for those that are given: each
// file has its own.
fn reader_asked(asked: &Asked) -> Result<Reader, ReadingMisuse> {
    reader_of(
        bytes_if(&asked.form),
        bytes_if(&asked.place),
        offset_of(asked),
        if asked.years.is_empty() {
            None
        } else {
            Some(b"2000")
        },
    )
}

// The style in which a merge writes stamps, if one is given.
fn style_of(asked: &Asked, request: &Request) -> Result<Option<Style>, ReadingMisuse> {
    match (&asked.to, request) {
        (None, _) => Ok(None),
        (Some(word), Request::Merge(_)) => Ok(Some(style_asked(word.as_bytes())?)),
        (Some(_), _) => Err(ReadingMisuse::ToAlone),
    }
}

// The first misuse of the values of `--year`, and what is at fault: one that is no year, or that
// names no file of the command.
fn year_misuse<'a>(asked: &'a Asked, files: &[String]) -> Option<(ReadingMisuse, &'a str)> {
    for value in &asked.years {
        if !is_year(year_in(value.as_bytes())) {
            return Some((ReadingMisuse::Year, value.as_str()));
        }
        if let Some(name) = name_in(value.as_bytes()) {
            let is_input = files.is_empty() && is(name, "-");
            if !is_input && !files.iter().any(|file| file.as_bytes() == name) {
                let (front, _) = value.as_str().rsplit_once('=').unwrap_or(("", ""));
                return Some((ReadingMisuse::YearFile, front));
            }
        }
    }
    None
}

// The value of the option that a misuse is of.
fn value_at_fault(asked: &Asked, misuse: ReadingMisuse) -> &str {
    let value = match misuse {
        ReadingMisuse::UnknownForm | ReadingMisuse::Description => &asked.form,
        ReadingMisuse::Place => &asked.place,
        ReadingMisuse::Offset(_) => &asked.offset,
        ReadingMisuse::To(_) => &asked.to,
        _ => return "",
    };
    match value {
        Some(value) => value.as_str(),
        None => "",
    }
}

// How stamps are read, as far as words say it. The first lines of a log choose the form unless a
// word gives a form or a place.
fn choice_of<'a>(
    asked: &'a Asked,
    zone: Option<&'static OwnedZone>,
    years: &'a [&'a [u8]],
    words: &'a [String],
) -> Given<'a> {
    Given {
        chooses: asked.form.is_none() && asked.place.is_none(),
        form: bytes_if(&asked.form),
        place: bytes_if(&asked.place),
        offset: offset_of(asked),
        zone,
        zone_name: name_if(&asked.zone),
        years,
        is_quiet: asked.is_quiet,
        words,
        options: asked.options.as_slice(),
    }
}

// The offset of stamps that have none. The clocks of a zone are read as those of UTC at first.
fn offset_of(asked: &Asked) -> Option<&[u8]> {
    match &asked.zone {
        Some(_) => Some(b"Z"),
        None => bytes_if(&asked.offset),
    }
}

// A word, if it is given.
fn name_if(word: &Option<String>) -> Option<&str> {
    match word {
        Some(word) => Some(word.as_str()),
        None => None,
    }
}

// The bytes of a word, if it is given.
fn bytes_if(word: &Option<String>) -> Option<&[u8]> {
    match word {
        Some(word) => Some(word.as_bytes()),
        None => None,
    }
}

// The words of the request as bytes: `--until` and its value are the last of them.
fn words_of_request<'a>(
    rt: &HostRuntime,
    given: &'a [String],
    asked: &'a Asked,
) -> Result<Vec<&'a [u8]>, AllocError> {
    let mut words = bytes_of(rt, given)?;
    if let Some(bound) = &asked.until {
        words.push(b"--until")?;
        words.push(bound.as_bytes())?;
    }
    Ok(words)
}

// Does what the words ask for, without those for how stamps are read.
fn obey(rt: &HostRuntime, given: &[String], files: &[String], asked: &Asked) -> ExitCode {
    let (Ok(words), Ok(years)) = (
        words_of_request(rt, given, asked),
        bytes_of(rt, asked.years.as_slice()),
    ) else {
        say(rt, "", "no memory is left");
        return ExitCode::from(FAILED);
    };
    match request_of(words.as_slice()) {
        Ok(Request::Help) => ExitCode::from(print_line(rt, USAGE)),
        Ok(Request::Version) => ExitCode::from(print_line(rt, VERSION_LINE)),
        Ok(request) => {
            if let Some((misuse, word)) = year_misuse(asked, files) {
                return report_misuse(rt, reading_line(misuse), word);
            }
            if asked.zone.is_some() && asked.offset.is_some() {
                return report_misuse(rt, reading_line(ReadingMisuse::ZoneAndOffset), "");
            }
            match (reader_asked(asked), style_of(asked, &request)) {
                (Ok(reader), Ok(to)) => {
                    let zone = match &asked.zone {
                        Some(name) => match zone_named(rt, name) {
                            Some(zone) => Some(zone),
                            None => return ExitCode::from(FAILED),
                        },
                        None => None,
                    };
                    let Ok(zone) = for_good(rt.alloc(), zone) else {
                        say(rt, "", "no memory is left");
                        return ExitCode::from(FAILED);
                    };
                    let reader = with_zone(reader, zone.as_ref());
                    let choice = choice_of(asked, zone.as_ref(), years.as_slice(), given);
                    if let Request::Cut(cut) = request {
                        return cut_files(rt, cut, reader, zone, choice, asked, files);
                    }
                    run(rt, job_of(request, reader, to), choice, files)
                }
                (Err(misuse), _) | (_, Err(misuse)) => {
                    report_misuse(rt, reading_line(misuse), value_at_fault(asked, misuse))
                }
            }
        }
        Err(misuse) => {
            report_misuse(
                rt,
                misuse_line(misuse),
                word_at_fault(given, asked, words.as_slice(), misuse),
            )
        }
    }
}

// Cuts the files, once the instants of the bounds are known.
fn cut_files(
    rt: &HostRuntime,
    cut: Cut,
    reader: Reader,
    zone: &Option<OwnedZone>,
    given: Given<'_>,
    asked: &Asked,
    files: &[String],
) -> ExitCode {
    let mut task = reading_task(reader);
    let last = if needs_last(cut) {
        match last_of_files(rt, &task, given, files) {
            Ok(last) => last,
            Err(status) => return ExitCode::from(status),
        }
    } else {
        None
    };
    let around = Around {
        offset: match offset_asked(bytes_if(&asked.offset)) {
            Ok(offset) => offset,
            Err(_) => None,
        },
        present: if needs_now(cut) { now_of(rt) } else { None },
        last,
    };
    match action_of(cut, zone, &around) {
        Ok(action) => {
            if asked.is_verbose {
                say_action(rt, &action);
            }
            task.action = action;
            run(rt, Job::Work(task), given, files)
        }
        Err(fault) => report_misuse(
            rt,
            no_cut_line(fault),
            bound_at_fault(cut, fault, zone, &around, given.words, asked),
        ),
    }
}

// The present instant, if the clock of the system tells it.
fn now_of(rt: &HostRuntime) -> Option<UtcDateTime> {
    let Ok(now) = SystemTime::now(rt) else {
        return None;
    };
    let Ok(since) = now.duration_since(UNIX_EPOCH) else {
        return None;
    };
    let Ok(seconds) = i64::try_from(since.as_secs()) else {
        return None;
    };
    let Ok(at) = UtcDateTime::from_unix_timestamp(seconds) else {
        return None;
    };
    at.checked_add(SignedDuration::nanoseconds(since.subsec_nanos() as i64))
}

// The bound that has no instant: the first of the words unless that has one.
fn bound_at_fault<'a>(
    cut: Cut,
    fault: NoCut,
    zone: &Option<OwnedZone>,
    around: &Around,
    given: &'a [String],
    asked: &'a Asked,
) -> &'a str {
    let place = match cut {
        _ if fault == NoCut::Swapped => return "",
        Cut::Between(first, _) if bound_instant(first, zone, around).is_ok() => 2,
        Cut::Since(_) | Cut::Until(_) | Cut::Between(_, _) => 1,
    };
    match (given.get(place), &asked.until) {
        (Some(word), _) => word.as_str(),
        (None, Some(bound)) => bound.as_str(),
        (None, None) => "",
    }
}

// Says between which instants lines are written.
fn say_action(rt: &HostRuntime, action: &Action) {
    match action {
        Action::Since(from) => say_instant(rt, "from", *from),
        Action::Until(to) => say_instant(rt, "before", *to),
        Action::Between(from, to) => {
            say_instant(rt, "from", *from);
            say_instant(rt, "before", *to);
        }
        Action::Write(_, _) | Action::Check(_) | Action::CheckAll(_) | Action::Gaps(_, _) => {}
    }
}

// Says an instant after a word.
fn say_instant(rt: &HostRuntime, word: &str, instant: UtcDateTime) {
    if let Some(text) = text_in(&Style::Utc, instant) {
        let _ = eprintln!(rt; "stamps: {word} {}", text.as_str());
    }
}

// The word at fault: the last of the shortest beginning of the words that is refused for this reason.
fn word_at_fault<'a>(
    given: &'a [String],
    asked: &'a Asked,
    words: &[&[u8]],
    misuse: Misuse,
) -> &'a str {
    for (count, _) in words.iter().enumerate() {
        if count < words.len()
            && matches!(request_of(&words[..=count]), Err(found) if found == misuse)
        {
            return word_at(given, asked, count);
        }
    }
    ""
}

// The word of the request at a place: behind those that are given are `--until` and its value.
fn word_at<'a>(given: &'a [String], asked: &'a Asked, place: usize) -> &'a str {
    match given.get(place) {
        Some(word) => word.as_str(),
        None if place == given.len() => "--until",
        None => match &asked.until {
            Some(bound) => bound.as_str(),
            None => "",
        },
    }
}

// The words as bytes.
fn bytes_of<'a>(rt: &HostRuntime, given: &'a [String]) -> Result<Vec<&'a [u8]>, AllocError> {
    let mut words = Vec::new(rt.alloc());
    for word in given {
        words.push(word.as_bytes())?;
    }
    Ok(words)
}

// The name of the program, and the words after it.
fn words_given(rt: &HostRuntime) -> io::Result<Vec<String>> {
    Ok(env::args(rt)?.collect(rt.alloc())?)
}

// Prints a misuse to standard error. Where its text has two quotes, the word that is wrong is between them.
fn report_misuse(rt: &HostRuntime, text: &str, word: &str) -> ExitCode {
    let _ = match text.split_once("''") {
        Some((front, rest)) => eprintln!(rt; "stamps: {front}'{word}'{rest}: see --help"),
        None => eprintln!(rt; "stamps: {text}: see --help"),
    };
    ExitCode::from(FAILED)
}

// The work on files.
#[derive(Drop)]
enum Job {
    Work(Task),
    Count(ClockBuckets, bool),
    Merge(Reader, Option<Style>, bool),
    Nothing,
}

// The job of a request, by how stamps are read.
fn job_of(request: Request, reader: Reader, to: Option<Style>) -> Job {
    match request {
        Request::Help | Request::Version | Request::Cut(_) => Job::Nothing,
        Request::Work(action) => Job::Work(Task {
            action,
            reader,
            anew: None,
        }),
        Request::Count(clock, shows_all, is_strict) => Job::Count(
            ClockBuckets {
                clock,
                shows_all,
                reader,
                anew: None,
            },
            is_strict,
        ),
        Request::Merge(is_strict) => Job::Merge(reader, to, is_strict),
    }
}

// Does the job on the files.
fn run(rt: &HostRuntime, job: Job, given: Given<'_>, files: &[String]) -> ExitCode {
    let words = given.words;
    ExitCode::from(match job {
        Job::Nothing => 0,
        Job::Work(task) => inputs::run(rt, &task, given, words, files),
        Job::Count(buckets, is_strict) => counts::run(rt, &buckets, is_strict, given, words, files),
        Job::Merge(reader, to, is_strict) => {
            merges::run(rt, reader, to, is_strict, given, words, files)
        }
    })
}

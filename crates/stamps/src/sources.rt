//! Where lines come from: standard input or files. A large file shows its progress.
ghost use Rattle.std.specs.Prelude.{◌≡◌};
ghost use Rattle.line_devices.specs.Device.{is_pipe_closed};
ghost use Rattle.stamps.specs.Faults.{unwritten_status};

use crate::ahead::Ahead;
use crate::clock_tallies::ClockTally;
use crate::files::Packing;
use crate::watches::Watch;
use line_devices::devices::Device;
use std::fs::{File, metadata};
use std::io;
use std::io::{ErrorKind, IsTerminal, Read, Stdin};
use std::time::{Instant, UNIX_EPOCH};
use utc_times::UtcDateTime;

/// The status after an error, as after a failed read or write.
pub const FAILED: u8 = 2;

/// The status after a write to a pipe that nothing reads: that of a program which the signal for it
/// ends.
pub const PIPE_CLOSED: u8 = 141;

// A file with more bytes than these shows its progress.
const LARGE: u64 = 100_000_000;

// Where bytes come from.
#[derive(Drop)]
enum Origin {
    Standard(Stdin),
    Regular(File),
}

// The progress of a large file: its bytes, those that were read, when it began, and when it was last printed.
#[derive(Drop)]
struct Progress {
    size: u64,
    done: u64,
    start: Instant,
    shown: Instant,
}

/// Standard input or a file.
#[derive(Drop)]
pub struct Input<'a> {
    rt: &'a HostRuntime,
    origin: Origin,
    progress: Option<Progress>,
    watch: Option<Watch>,
}

impl<'a> Input<'a> {
    /// Opens a file, or standard input if its name is `-`. Says why where it cannot. If the input
    /// is large and standard error is a terminal, it shows its progress there, unless it may not.
    pub fn open(rt: &'a HostRuntime, name: &str, may_show: bool) -> Option<Ahead<Input<'a>>> {
        if name == "-" {
            let progress = progress_of(rt, "/dev/stdin", may_show);
            return Some(Input::from(rt, Origin::Standard(rt.stdin()), progress));
        }
        if matches!(metadata(rt, name), Ok(found) if found.is_dir()) {
            say(rt, name, "a folder has no lines: name its files");
            return None;
        }
        match File::open(rt, name) {
            Ok(file) => {
                let progress = progress_of(rt, name, may_show);
                Some(Input::from(rt, Origin::Regular(file), progress))
            }
            Err(error) => {
                let _ = eprintln!(rt; "stamps: {name}: {error}");
                None
            }
        }
    }

    // The input from where the bytes come from, of which nothing is read.
    fn from(rt: &'a HostRuntime, origin: Origin, progress: Option<Progress>) -> Ahead<Input<'a>> {
        Ahead::new(
            Input {
                rt,
                origin,
                progress,
                watch: None,
            },
            rt.alloc(),
        )
    }

    /// Sets what counts the lines whose wall clocks a zone does not show once.
    pub fn set_watch(&mut self, watch: Option<Watch>) {
        self.watch = watch;
    }

    /// The lines whose wall clocks a zone does not show once, if they are counted.
    pub fn clocks(&self) -> Option<&ClockTally> {
        match &self.watch {
            Some(watch) => Some(watch.tally()),
            None => None,
        }
    }

    /// Whether it shows its progress.
    pub fn shows_progress(&self) -> bool {
        self.progress.is_some()
    }
}

impl Read for Input<'_> {
    ghost use Rattle.std.specs.Prelude.{None};

    ghost remaining = { λ _. None };

    fn read(&mut self, buffer: &mut [u8]) -> io::Result<usize> {
        let count = match &mut self.origin {
            Origin::Standard(input) => input.read(buffer)?,
            Origin::Regular(file) => file.read(buffer)?,
        };
        if let Some(progress) = &mut self.progress {
            show(self.rt, progress, count);
        }
        if let Some(watch) = &mut self.watch {
            if count == 0 {
                watch.end();
            } else {
                watch.take(&buffer[..count])?;
            }
        }
        Ok(count)
    }
}

/// The instant of the last change of a file, if it is known: that of standard input and of a pipe
/// is not.
pub fn time_of_change(rt: &HostRuntime, name: &str) -> Option<UtcDateTime> {
    if name == "-" {
        return None;
    }
    let changed = match metadata(rt, name) {
        Ok(found) if found.is_file() => found.modified(),
        _ => return None,
    };
    let Ok(changed) = changed else {
        return None;
    };
    let Ok(since) = changed.duration_since(UNIX_EPOCH) else {
        return None;
    };
    let Ok(seconds) = i64::try_from(since.as_secs()) else {
        return None;
    };
    match UtcDateTime::from_unix_timestamp(seconds) {
        Ok(at) => Some(at),
        Err(_) => None,
    }
}

// The progress of a file, if it is to be printed.
fn progress_of(rt: &HostRuntime, path: &str, may_show: bool) -> Option<Progress> {
    if !may_show || !rt.stderr().is_terminal() {
        return None;
    }
    let size = match metadata(rt, path) {
        Ok(found) if found.is_file() && found.len() > LARGE => found.len(),
        _ => return None,
    };
    match Instant::now(rt) {
        Ok(start) => Some(Progress {
            size,
            done: 0,
            start,
            shown: start,
        }),
        Err(_) => None,
    }
}

// Prints the progress after a read of this number of bytes, once a second.
fn show(rt: &HostRuntime, progress: &mut Progress, count: usize) {
    progress.done = progress.done.saturating_add(count as u64);
    let Ok(now) = Instant::now(rt) else {
        return;
    };
    if now.duration_since(progress.shown).as_secs() == 0 {
        return;
    }
    progress.shown = now;
    let seconds = now.duration_since(progress.start).as_secs();
    let (percent, rate, left) = figures(progress.size, progress.done, seconds);
    let _ = eprint!(rt; "\rstamps: {percent} %, {rate} MB a second, {left} s left        ");
}

// The percent that are done, the megabytes a second, and the seconds that are left.
fn figures(size: u64, done: u64, seconds: u64) -> (u64, u64, u64) {
    let rate = done / seconds.max(1);
    let left = size.saturating_sub(done) / rate.max(1);
    (
        (done / (size / 100).max(1)).min(100),
        rate / 1_000_000,
        left,
    )
}

/// Removes the line that shows the progress.
pub fn clear_progress(rt: &HostRuntime) {
    let _ = eprint!(rt; "\r                                                                \r");
}

/// Prints a line on standard error: the name of the program, that of a file if there is one, and a
/// text.
pub fn say(rt: &HostRuntime, name: &str, text: &str) {
    if name.is_empty() {
        let _ = eprintln!(rt; "stamps: {text}");
    } else {
        let _ = eprintln!(rt; "stamps: {name}: {text}");
    }
}

/// Says what reads a file that is compressed by its name. The words and the options are those
/// before the files.
pub fn say_compressed(rt: &HostRuntime, words: &[String], options: &[String], name: &str) {
    say_packed(rt, words, options, name, Packing::Gzip);
}

/// Says what reads an input that is packed. The words and the options are those before the files.
pub fn say_packed(
    rt: &HostRuntime,
    words: &[String],
    options: &[String],
    said: &str,
    packing: Packing,
) {
    let (kind, unpack) = match packing {
        Packing::Gzip => ("compressed", "zcat"),
        Packing::Zstd => ("compressed", "zstdcat"),
        Packing::Xz => ("compressed", "xzcat"),
        Packing::Bzip2 => ("compressed", "bzcat"),
        Packing::Utf16 => ("text of UTF-16", "iconv -f UTF-16 -t UTF-8"),
    };
    if said.is_empty() || said == "-" {
        let _ = eprint!(rt; "stamps: the input is {kind}: use {unpack} | stamps");
    } else {
        let _ = eprint!(rt; "stamps: {said}: the file is {kind}: use {unpack}");
        say_word(rt, said);
        let _ = eprint!(rt; " | stamps");
    }
    say_call(rt, words, options);
}

// Prints the words and the options of a call that reads standard input.
fn say_call(rt: &HostRuntime, words: &[String], options: &[String]) {
    for word in words {
        say_word(rt, word);
    }
    for word in options {
        say_word(rt, word);
    }
    let _ = eprintln!(rt; " -");
}

// Prints a blank and a word for a shell, in quotes if it needs them.
fn say_word(rt: &HostRuntime, word: &str) {
    if is_bare_word(word.as_bytes()) {
        let _ = eprint!(rt; " {word}");
        return;
    }
    let _ = eprint!(rt; " '");
    for letter in word.chars() {
        if letter == '\'' {
            let _ = eprint!(rt; "'\\''");
        } else {
            let _ = eprint!(rt; "{letter}");
        }
    }
    let _ = eprint!(rt; "'");
}

// Whether a shell reads a word without quotes as it is.
fn is_bare_word(word: &[u8]) -> bool {
    for byte in word {
        if !byte.is_ascii_alphanumeric() && !b"+-./:_".contains(byte) {
            return false;
        }
    }
    !word.is_empty()
}

/// Says that a write failed, unless nothing reads the output any more, and returns the exit status.
pub fn say_unwritten<T>(rt: &HostRuntime, name: &str, writer: &Device<T>) -> u8
    ensures { result ≡ unwritten_status (is_pipe_closed writer.now) }
{
    if writer.is_pipe_closed() {
        return PIPE_CLOSED;
    }
    say(rt, name, "write failed");
    FAILED
}

/// Prints a text and a line feed to standard output, and returns the exit status.
pub fn print_line(rt: &HostRuntime, text: &str) -> u8 {
    match println!(rt; "{text}") {
        Ok(()) => 0,
        Err(error) if error.kind() == ErrorKind::BrokenPipe => PIPE_CLOSED,
        Err(_) => {
            say(rt, "", "write failed");
            FAILED
        }
    }
}

//! Notes in place of lines.
ghost use Rattle.std.specs.Prelude.{◌≡◌, ◌≤◌, ◌-ℤ◌, length};
ghost use Rattle.stamps.specs.declared.notes.Note.TheVariants.{Gap};
ghost use Rattle.stamps.specs.Notes.{gap_text, instant_text, note_end, note_front, note_middle};

use crate::finding::Finding;
use crate::style::text_in;
use crate::task::Style;
use calendar_values::{SignedDuration, Text};
use rfc3339::to_unix_nanos;
use utc_times::UtcDateTime;

/// A note in place of a line.
#[derive(Clone, Copy, Debug)]
pub enum Note {
    /// A fault.
    Fault(Finding),
    /// The number of the line, the last instant before it, and its own.
    Gap(u64, UtcDateTime, UtcDateTime),
}

/// The first part of a note: the finding, or the instant of a line and its number.
pub fn front_of(note: &Note) -> Text
    ensures { result ≡ note_front note.now }
{
    match *note {
        Note::Fault(found) => found.text(),
        Note::Gap(line, _, at) => line_text(line, at),
    }
}

// An instant and the number of its line.
fn line_text(line: u64, at: UtcDateTime) -> Text
    ensures { result ≡ note_front (Gap line at at) }
{
    let mut text = instant_text(at);
    text.push_bytes(b" line ");
    text.push_decimal(line);
    text.push_bytes(b": ");
    text
}

/// The second part of a note: the length of a gap.
pub fn middle_of(note: &Note) -> Text
    ensures { result ≡ note_middle note.now }
{
    match *note {
        Note::Fault(_) => Text::new(),
        Note::Gap(_, before, at) => gap_text(at - before),
    }
}

// The length of a gap in seconds, and its text.
fn gap_text(gap: SignedDuration) -> Text
    ensures { result ≡ gap_text gap }
{
    let length = gap.unsigned_abs();
    let mut text = Text::new();
    text.push_decimal(length.as_secs());
    text.push_bytes(b".");
    text.push_fraction(length.subsec_nanos());
    text.push_bytes(b" s after ");
    text
}

/// The third part of a note: the instant before a gap, and a line feed.
pub fn end_of(note: &Note) -> Text
    ensures { result ≡ note_end note.now }
{
    let mut text = match *note {
        Note::Fault(_) => Text::new(),
        Note::Gap(_, before, _) => instant_text(before),
    };
    text.push_bytes(b"\n");
    text
}

// An instant in UTC, or as Unix seconds where it has no text there.
fn instant_text(at: UtcDateTime) -> Text
    ensures value { result ≡ instant_text at }
    ensures length { length result ≤ 35 }
{
    match text_in(&Style::Utc, at) {
        Some(text) => text,
        None => to_unix_nanos(at),
    }
}

//! The note on an input whose first lines have no stamp.

ghost use Rattle.std.specs.Prelude.{◌≡◌, ◌+◌, ◌-◌, ◌<◌, ◌≤◌, ◌++◌, All, IfSome, MatchOption, length, map};
ghost use Rattle.calendar_values.specs.Digits.{text_capacity};
ghost use Rattle.stamps.specs.Nearest.{FitsNone, HasNoFit, IsLongest, IsNearest, fit_of, shown_byte, shown_text, tried_lines, word_of};

use crate::choosing::stamp_by;
use crate::readers::mark_length;
use crate::sources::say;
use calendar_values::Text;
use line_devices::places::place_of;
use log_forms::{choose, form_name, reader_form};

// The most lines that are looked at, the most bytes of one, and the most of the bytes behind its stamp that are shown.
const MOST_LINES: usize = 4;

const MOST_BYTES: usize = 100;

const MOST_SHOWN: usize = 20;

/// Says that the first lines of an input have no stamp. If they could choose a form, it shows how
/// far the nearest form fits a line of theirs.
pub fn say_bare(rt: &HostRuntime, said: &str, chooses: bool, head: &[u8]) {
    let near = if chooses {
        nearest(&head[mark_length(true, head)..], 0)
    } else {
        None
    };
    if let Some(near) = near {
        let form = form_name(reader_form(near.number));
        let line = near.line;
        let shown = shown_text(near.rest);
        let text = shown.as_str();
        let text = format!(in rt.alloc();
            "line {line}: {form} fits up to \"{text}\": name the form by --form, and the place by --place"
        );
        if let Ok(text) = text {
            say(rt, said, text.as_str());
            return;
        }
    }
    say(
        rt,
        said,
        "the first lines have no stamp: name the form by --form, and the place by --place",
    );
}

// The first line of which a form fits a beginning: its number from 1 on, the number of the reader, and what is behind.
#[derive(Clone, Copy)]
struct Near<'a> {
    line: usize,
    number: usize,
    rest: &'a [u8],
}

// The first line that ends in some bytes, and of which a form fits a beginning: of the first four, so many of which are before.
fn nearest<'a>(head: &'a [u8], before: usize) -> Option<Near<'a>>
    requires { before ≤ 4 }
    ensures { MatchOption result (All HasNoFit (tried_lines (4 - before) head.now))
        (λ near. (before ≤ near.line) × IsNearest (tried_lines (4 - before) head.now)
        (near.line - before) near.number near.rest.now) }
{
    if before == MOST_LINES {
        return None;
    }
    let end = place_of(b'\n', head, 0);
    if end == head.len() {
        return None;
    }
    let line = &head[..end];
    if let Some((number, rest)) = nearest_in(line, line.len().min(MOST_BYTES)) {
        return Some(Near {
            line: before + 1,
            number,
            rest,
        });
    }
    nearest(&head[end + 1..], before + 1)
}

// The reader that finds a stamp in the longest beginning of a line, of so many bytes at most, and what is behind that stamp.
fn nearest_in<'a>(line: &'a [u8], most: usize) -> Option<(usize, &'a [u8])>
    requires { most ≤ length line.now }
    ensures { MatchOption result (FitsNone line.now most)
        (λ found. IsLongest line.now most found.0 found.1.now) }
{
    if most == 0 {
        return None;
    }
    if let Some((number, end)) = fit_of(&line[..most]) {
        return Some((number, &line[end..]));
    }
    nearest_in(line, most - 1)
}

// The reader that a text chooses alone, and the place where the stamp ends that it reads there.
fn fit_of(text: &[u8]) -> Option<(usize, usize)>
    ensures fit { result ≡ fit_of text.now }
    ensures within { IfSome result (λ fit. fit.1 ≤ length text.now) }
{
    let Some(number) = choose(&[text]) else {
        return None;
    };
    match stamp_by(number, text) {
        Ok(stamp) => Some((number, stamp.start + stamp.length)),
        Err(_) => None,
    }
}

// The first word of a text, with the byte before it, in letters of ASCII.
fn shown_text(rest: &[u8]) -> Text
    ensures { result ≡ shown_text rest.now }
{
    let text = &rest[..rest.len().min(MOST_SHOWN)];
    let front = text.len().min(2);
    let mut shown = Text::new();
    push_shown(&mut shown, &text[..front]);
    push_shown(&mut shown, word_of(&text[front..]));
    shown
}

// The bytes of a text before its first blank.
fn word_of(text: &[u8]) -> &[u8]
    ensures word { result.now ≡ word_of text.now }
    ensures within { length result.now ≤ length text.now }
{
    let end = place_of(b' ', text, 0);
    &text[..end]
}

// Adds bytes as they are shown.
fn push_shown(shown: &mut Text, bytes: &[u8])
    requires { length shown.old + length bytes.now ≤ text_capacity }
    ensures { shown.new ≡ shown.old ++ map shown_byte bytes.now }
{
    let Some((first, rest)) = bytes.split_first() else {
        return;
    };
    shown.push(shown_byte(*first));
    push_shown(shown, rest);
}

// A byte as it is shown.
fn shown_byte(byte: u8) -> u8
    ensures shown { result ≡ shown_byte byte }
    ensures ascii { result < 128 }
{
    if (b' '..=b'~').contains(&byte) && byte != b'"' {
        byte
    } else {
        b'?'
    }
}

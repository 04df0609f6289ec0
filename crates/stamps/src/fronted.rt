//! Logs whose lines have their stamps in front, in one style, for a merge.
ghost use Rattle.std.specs.Prelude.{◌≡◌, ◌+◌, ◌<◌, ◌≤◌, ◌∷◌, ◌++◌, ℕ, [], false, true, List, IfOk, IfSome, IsOk, None, OnOk, Some};
ghost use Rattle.std.specs.Prelude.{drop, is_some, length, option_map, take};
ghost use Rattle.std.specs.Io.{ReadsAtMost};
ghost use Rattle.std.specs.Io.KnownBytes.{Consumes, IsAtEnd, Keeps, ReadConsumes};
ghost use Rattle.line_devices.specs.LineParts.{HasNone};
ghost use Rattle.stamps.specs.FrontLines.{form_written, is_replaced, is_same_member, lead_of, value_lead, value_reader, with_blank, with_lead};
ghost use Rattle.stamps.specs.declared.fronted.Turning.{Turning};
ghost use Rattle.stamps.specs.Ahead.{left_of};
ghost use Rattle.stamps.specs.FrontRuns.{IsInStep, IsShort, first_known, front_turned, is_member, known_by, lead_if, lead_now, text_behind};
ghost use Rattle.stamps.specs.FrontRuns.{text_of, turned_left, with_lead_if};

use crate::ahead::{Ahead, copy_front};
use crate::changes::{Anew, Choice};
use crate::decide::LONGEST_HEAD;
use crate::readers::{
    FormReader, LineRefusal, LineStamp, PlaceText, Reader, is_json, line_stamp, mark_length,
};
use crate::style::{stamp_text, text_in};
use crate::task::Style;
use calendar_values::Text;
use line_devices::places::place_of;
use line_devices::stamp_tallies::kind_of;
use log_forms::{Assumed, FormName, Place, named_form, runs_on};
use std::alloc::{AllocError, Global};
use std::io;
use std::io::{ErrorKind, Read};
use utc_times::UtcDateTime;

// The most bytes of a read: few, since what is made of them is kept.
const BLOCK: usize = 16_384;

/// The stamp of a line in a merge of one style.
#[derive(Drop)]
pub struct Lead {
    /// The number of the bytes of the line before it.
    pub start: usize,
    /// Its text, and a blank where the whole line follows it.
    pub text: Text,
    /// The number of the bytes of the line that it replaces.
    pub count: usize,
}

/// The beginning of a line with this stamp, after a byte order mark of this number of bytes: the
/// stamp in a style, in its place where it begins the line and its word ends there, and otherwise
/// in front of the line. None if it has no text in that style.
pub fn lead_of(style: &Style, mark: usize, line: &[u8], stamp: &LineStamp) -> Option<Lead>
    requires { stamp.now.start + stamp.now.length ≤ length line.now }
    ensures { result ≡ lead_of style.now mark line.now stamp.now }
{
    let Some(text) = text_in(style, stamp.instant) else {
        return None;
    };
    if is_replaced(mark, line, stamp) {
        return Some(Lead {
            start: 0,
            text,
            count: stamp.start + stamp.length,
        });
    }
    Some(Lead {
        start: 0,
        text: with_blank(&text),
        count: mark,
    })
}

/// The stamp of a record of JSON in a style, in its place, as the word of that style writes it.
/// None if it has no text in that style.
pub fn value_lead(style: &Style, stamp: &LineStamp) -> Option<Lead>
    ensures { result ≡ value_lead style.now stamp.now }
{
    match stamp_text(style, stamp) {
        Some(text) => Some(Lead {
            start: stamp.start,
            text,
            count: stamp.length,
        }),
        None => None,
    }
}

/// Whether a reader reads a member of JSON, and another one the same.
pub fn is_same_member(reader: &Reader, other: &Reader) -> bool
    ensures { result ≡ is_same_member reader.now other.now }
{
    match (reader, other) {
        (Reader::Formed(first), Reader::Formed(second)) => is_json(first.place)
            && is_json(second.place)
            && first.text.items() == second.text.items(),
        _ => false,
    }
}

/// The reader of the same member of JSON once a merge in one style has written it: that of the form
/// of the style. None if the reader reads no member of JSON.
pub fn value_reader(style: &Style, reader: &Reader) -> Option<Reader>
    ensures { result ≡ value_reader style.now reader.now }
{
    let Reader::Formed(reader) = reader else {
        return None;
    };
    if !is_json(reader.place) {
        return None;
    }
    let mut text = PlaceText::new(0);
    text.push_all(reader.text.items());
    Some(Reader::Formed(FormReader {
        form: named_form(form_written(style)),
        place: Place::Json,
        text,
        assumed: Assumed {
            offset: None,
            year: None,
            month: 0,
        },
        zone: None,
    }))
}

// The form of the texts of a style.
fn form_written(style: &Style) -> FormName
    ensures { result ≡ form_written style.now }
{
    match style {
        Style::Utc | Style::At(_) => FormName::Rfc3339,
        Style::Unix => FormName::Unix,
    }
}

// Whether a stamp in one style replaces the one of a line: that begins the line, and its word ends there.
fn is_replaced(mark: usize, line: &[u8], stamp: &LineStamp) -> bool
    requires { stamp.now.start + stamp.now.length ≤ length line.now }
    ensures { result ≡ is_replaced mark line.now stamp.now }
{
    stamp.start == mark && !runs_on(false, &line[stamp.start + stamp.length..])
}

// A text and a blank.
fn with_blank(text: &Text) -> Text
    requires { length text.now ≤ 35 }
    ensures { result ≡ with_blank text.now }
{
    let mut blank = Text::new();
    blank.push_bytes(text.as_bytes());
    blank.push(b' ');
    blank
}

/// How the lines of a log are read, and the styles of their stamps.
#[derive(Drop)]
pub struct Turning {
    /// The style of those in front.
    pub style: Style,
    /// The style of those in records of JSON, which stay in their place.
    pub value_style: Style,
    /// The reader of these, if the first lines have them. Others have their stamps in front.
    pub other: Option<Reader>,
    /// The first reader.
    pub reader: Reader,
    /// How the form is chosen anew where it changes, unless words name it.
    pub anew: Option<Anew>,
}

/// The last instant, the number of lines and the reader before a line of a log.
#[derive(Drop)]
pub struct Known {
    /// The last instant.
    pub last: Option<UtcDateTime>,
    /// The number of the lines before, at most 2^64 - 1.
    pub lines: u64,
    /// The reader of the next line.
    pub choice: Choice,
}

impl Known {
    // What is known before the first line.
    fn new() -> Known
        ensures { result ≡ first_known }
    {
        Known {
            last: None,
            lines: 0,
            choice: Choice::new(),
        }
    }

    // Takes in the beginning of the next line. Returns the beginning that it is written with, if it has another one.
    fn take(&mut self, turning: &Turning, line: &[u8]) -> Option<Lead>
        ensures known { self.new ≡ known_by turning.now self.old line.now }
        ensures lead { result ≡ lead_now turning.now self.old line.now }
        ensures within { IfSome result (λ lead. lead.start + lead.count ≤ length line.now) }
    {
        let is_first = self.lines == 0;
        let reader = self.choice.reader(&turning.anew, &turning.reader);
        let found = line_stamp(reader, self.last, is_first, line);
        let lead = lead_if(turning, reader, mark_length(is_first, line), line, &found);
        let kind = kind_of(line, found.is_ok());
        self.lines = self.lines.saturating_add(1);
        self.choice.take(&turning.anew, self.lines, kind, line);
        match found {
            Ok(stamp) => self.last = Some(stamp.instant),
            Err(_) => {}
        }
        lead
    }
}

// The beginning of a line with this stamp, if it has one, by its reader.
fn lead_if(
    turning: &Turning,
    reader: &Reader,
    mark: usize,
    line: &[u8],
    found: &Result<LineStamp, LineRefusal>,
) -> Option<Lead>
    requires mark { mark ≤ length line.now }
    requires within { IfOk found.now (λ stamp. stamp.start + stamp.length ≤ length line.now) }
    ensures lead { result ≡ lead_if turning.now (is_member turning.now.other reader.now) mark
        line.now found.now }
    ensures within { IfSome result (λ lead. lead.start + lead.count ≤ length line.now) }
{
    match found {
        Ok(stamp) if is_member(&turning.other, reader) => value_lead(&turning.value_style, stamp),
        Ok(stamp) => lead_of(&turning.style, mark, line, stamp),
        Err(_) => None,
    }
}

// Whether a reader reads the member of JSON whose value stays in its place.
fn is_member(other: &Option<Reader>, reader: &Reader) -> bool
    ensures { result ≡ is_member other.now reader.now }
{
    match other {
        Some(other) => is_same_member(reader, other),
        None => false,
    }
}

/// The lines of a log, as far as they are read: the beginning of the last one is kept until it is
/// long enough, and then it is open.
#[derive(Drop)]
pub struct Fronts {
    /// The same before the last line, and after it once it is open.
    pub known: Known,
    /// Whether the beginning of the last line is written.
    pub is_open: bool,
    /// The beginning of a line that is not open.
    pub head: Vec<u8>,
    /// The text that is written, and not given yet.
    pub ready: Vec<u8>,
}

impl Fronts {
    // Takes the memory for the beginning of a line and for what is made of a block at once: what grows takes more.
    fn reserve(&mut self) -> Result<(), AllocError>
        ensures text { (turning : Turning) (left : List ℕ)
            → text_of turning self.new left ≡ text_of turning self.old left }
        ensures short { IsShort self.old → IsShort self.new }
    {
        if self.head.capacity() == 0 {
            self.head.reserve_exact(LONGEST_HEAD)?;
            self.ready.reserve_exact(LONGEST_HEAD + BLOCK)?;
        }
        Ok(())
    }

    // Takes in a block.
    fn take(&mut self, turning: &Turning, block: &[u8]) -> Result<(), AllocError>
        ensures text { OnOk result (IsShort self.old → (left : List ℕ)
            → text_of turning.now self.new left
            ≡ text_of turning.now self.old (block.now ++ left)) }
        ensures short { OnOk result (IsShort self.old → IsShort self.new) }
    {
        let mut from = 0;
        'lines: while from < block.len() {
            let end = place_of(b'\n', block, from);
            self.take_part(turning, &block[from..end])?;
            if end == block.len() {
                return Ok(());
            }
            self.end_line(turning)?;
            from = end + 1;
        }
        Ok(())
    }

    // Takes in a part of a line, which has no line feed.
    fn take_part(&mut self, turning: &Turning, part: &[u8]) -> Result<(), AllocError>
        requires none { HasNone 10 part.now 0 (length part.now) }
        ensures text { OnOk result (IsShort self.old → (left : List ℕ)
            → text_of turning.now self.new left
            ≡ text_of turning.now self.old (part.now ++ left)) }
        ensures short { OnOk result (IsShort self.old → IsShort self.new) }
    {
        if self.is_open {
            self.ready.extend_from_slice(part)?;
            return Ok(());
        }
        let room = LONGEST_HEAD.saturating_sub(self.head.len());
        if part.len() < room {
            self.head.extend_from_slice(part)?;
            return Ok(());
        }
        self.head.extend_from_slice(&part[..room])?;
        self.begin_line(turning)?;
        self.ready.extend_from_slice(&part[room..])?;
        Ok(())
    }

    // Ends a line, which may have no bytes, with a line feed.
    fn end_line(&mut self, turning: &Turning) -> Result<(), AllocError>
        ensures text { OnOk result (IsShort self.old → (left : List ℕ)
            → text_of turning.now self.new left ≡ text_of turning.now self.old (10 ∷ left)) }
        ensures short { OnOk result (IsShort self.new) }
    {
        if self.is_open {
            return self.close();
        }
        self.begin_line(turning)?;
        self.close()
    }

    // Writes the line feed of a line that is written.
    fn close(&mut self) -> Result<(), AllocError>
        ensures ready { OnOk result (self.new.ready.items ≡ self.old.ready.items ++ 10 ∷ []) }
        ensures known { self.new.known ≡ self.old.known }
        ensures closed { self.new.is_open ≡ false }
        ensures head { self.new.head.items ≡ [] }
    {
        self.is_open = false;
        self.head.truncate(0);
        self.ready.push(b'\n')?;
        Ok(())
    }

    // Ends the log: writes the bytes behind its last line feed, if there are any.
    fn end(&mut self, turning: &Turning) -> Result<(), AllocError>
        ensures text { OnOk result (IsShort self.old
            → self.new.ready.items ≡ text_of turning.now self.old []) }
        ensures short { OnOk result (IsShort self.old → IsShort self.new) }
    {
        if self.is_open {
            return Ok(());
        }
        if self.head.is_empty() {
            return Ok(());
        }
        self.begin_line(turning)
    }

    // Writes the beginning of a line by what is kept of it.
    fn begin_line(&mut self, turning: &Turning) -> Result<(), AllocError>
        ensures ready { OnOk result (self.new.ready.items ≡ self.old.ready.items
            ++ front_turned turning.now self.old.known self.old.head.items) }
        ensures known { OnOk result
            (self.new.known ≡ known_by turning.now self.old.known self.old.head.items) }
        ensures open { OnOk result (self.new.is_open ≡ true) }
    {
        let line = self.head.as_slice();
        let lead = self.known.take(turning, line);
        write_front(&mut self.ready, &lead, line)?;
        self.is_open = true;
        Ok(())
    }
}

// Writes a line, with another beginning if there is one.
fn write_front(ready: &mut Vec<u8>, lead: &Option<Lead>, line: &[u8]) -> Result<(), AllocError>
    requires { IfSome lead.now (λ lead. lead.start + lead.count ≤ length line.now) }
    ensures { OnOk result (ready.new.items ≡ ready.old.items ++ with_lead_if lead.now line.now) }
{
    match lead {
        Some(lead) => write_lead(ready, lead, line),
        None => ready.extend_from_slice(line),
    }
}

// Writes a line with another beginning.
fn write_lead(ready: &mut Vec<u8>, lead: &Lead, line: &[u8]) -> Result<(), AllocError>
    requires { lead.now.start + lead.now.count ≤ length line.now }
    ensures { OnOk result (ready.new.items ≡ ready.old.items ++ with_lead lead.now line.now) }
{
    ready.extend_from_slice(&line[..lead.start])?;
    ready.extend_from_slice(lead.text.as_bytes())?;
    ready.extend_from_slice(&line[lead.start + lead.count..])
}

/// A log whose lines have their stamps in front, if a style is given. Otherwise it is the log.
#[derive(Drop)]
pub struct Turned<R> {
    inner: Ahead<R>,
    turning: Option<Turning>,
    fronts: Fronts,
    is_ended: bool,
    served: usize,
}

impl<R: Read> Turned<R> {
    /// The log of which nothing is read.
    pub fn new(inner: Ahead<R>, turning: Option<Turning>, alloc: Global) -> Turned<R> {
        Turned {
            inner,
            turning,
            fronts: Fronts {
                known: Known::new(),
                is_open: false,
                head: Vec::new(alloc),
                ready: Vec::new(alloc),
            },
            is_ended: false,
            served: 0,
        }
    }

    /// The log as it is read.
    pub fn inner(&self) -> &Ahead<R> {
        &self.inner
    }

    /// The forms that its lines chose anew.
    pub fn choice(&self) -> &Choice {
        &self.fronts.known.choice
    }
}

impl<R: Read> Turned<R> {
    // Reads some of the log as its style writes it. Fails where a read fails, or no memory is left.
    fn read_turned(&mut self, buffer: &mut [u8]) -> io::Result<usize>
        ensures bound { ReadsAtMost result buffer.new }
        ensures turned { IsOk result → IsInStep self.old
            → ReadConsumes (turned_left R.remaining self.old) (turned_left R.remaining self.new)
            result buffer.new }
        ensures step { OnOk result (IsInStep self.old → IsInStep self.new) }
    {
        if self.turning.is_none() {
            return self.inner.read(buffer);
        }
        'turns: for _ in 0..u64::MAX {
            if let Some(count) = self.give(buffer) {
                return Ok(count);
            }
            self.turn_on(buffer)?;
        }
        Err(io::Error::from(ErrorKind::Other))
    }

    // Gives bytes that are ready, and none at the end of the log or where there is no room. None if a block is to be read first.
    fn give(&mut self, buffer: &mut [u8]) -> Option<usize>
        ensures bound { IfSome result (λ count. count ≤ length buffer.new) }
        ensures length { length buffer.new ≡ length buffer.old }
        ensures given { IfSome result (λ count. IsInStep self.old → is_some self.old.turning ≡ true
            → Consumes (turned_left R.remaining self.old) (turned_left R.remaining self.new)
            (take count buffer.new)) }
        ensures end { IfSome result (λ count. IsInStep self.old → is_some self.old.turning ≡ true
            → count ≡ 0 → 0 < length buffer.old
            → IsAtEnd (turned_left R.remaining self.new)) }
        ensures step { IsInStep self.old → IsInStep self.new }
        ensures turning { self.new.turning ≡ self.old.turning }
        ensures same { result ≡ None → self.new ≡ self.old }
        ensures room { result ≡ None → 0 < length buffer.old }
        ensures open { result ≡ None → self.old.is_ended ≡ false }
        ensures all { result ≡ None → length self.old.fronts.ready.items ≤ self.old.served }
    {
        if self.served < self.fronts.ready.len() {
            let count = copy_front(&self.fronts.ready[self.served..], buffer);
            self.served += count;
            return Some(count);
        }
        if self.is_ended || buffer.is_empty() {
            return Some(0);
        }
        None
    }

    // Reads a block of the log, and makes ready what is written of it, once all that was ready is given.
    fn turn_on(&mut self, buffer: &mut [u8]) -> io::Result<()>
        requires { 0 < length buffer.old }
        ensures length { length buffer.new ≡ length buffer.old }
        ensures kept { OnOk result (IsInStep self.old
            → length self.old.fronts.ready.items ≤ self.old.served → self.old.is_ended ≡ false
            → Keeps (turned_left R.remaining self.old) (turned_left R.remaining self.new)) }
        ensures step { OnOk result (IsInStep self.old → IsInStep self.new) }
        ensures turning { self.new.turning ≡ self.old.turning }
    {
        let Some(turning) = &self.turning else {
            return Ok(());
        };
        self.served = 0;
        self.is_ended = turn_block(turning, &mut self.fronts, &mut self.inner, buffer)? == 0;
        Ok(())
    }
}

// Reads a block of a log, and makes ready what is written of it and of the lines before, in place of what was ready. Returns the number
// of the bytes that it read: 0 at the end of the log.
fn turn_block<R: Read>(
    turning: &Turning,
    fronts: &mut Fronts,
    log: &mut Ahead<R>,
    buffer: &mut [u8],
) -> io::Result<usize>
    requires { 0 < length buffer.old }
    ensures length { length buffer.new ≡ length buffer.old }
    ensures text { IfOk result (λ count. 0 < count → IsShort fronts.old → Keeps
        (option_map (text_behind turning.now fronts.old) (left_of R.remaining log.old))
        (option_map (text_of turning.now fronts.new) (left_of R.remaining log.new))) }
    ensures end { IfOk result (λ count. count ≡ 0 → IsShort fronts.old → Keeps
        (option_map (text_behind turning.now fronts.old) (left_of R.remaining log.old))
        (Some fronts.new.ready.items)) }
    ensures short { OnOk result (IsShort fronts.old → IsShort fronts.new) }
{
    fronts.ready.truncate(0);
    fronts.reserve()?;
    let room = buffer.len().min(BLOCK);
    let count = log.read(&mut buffer[..room])?;
    if count > 0 {
        fronts.take(turning, &buffer[..count])?;
    } else {
        fronts.end(turning)?;
    }
    Ok(count)
}

impl<R: Read> Read for Turned<R> {
    ghost remaining = { λ _. None };

    fn read(&mut self, buffer: &mut [u8]) -> io::Result<usize> {
        self.read_turned(buffer)
    }
}

//! Readers of the stamps of lines.
ghost use Rattle.std.specs.Prelude.{◌≡◌, ◌≤◌, ◌<◌, ◌+◌, ◌^◌, ℤ, IfSome, Ok, Option, drop, length};
ghost use Rattle.std.specs.Result.{result_ok};
ghost use Rattle.stamps.specs.LineStamps.{has_mark, mark_length};
ghost use Rattle.stamps.specs.Readers.{form_stamp, formed_at, in_line, is_json, is_quote, json_kind, line_stamp, plain_at, value_kind};
ghost use Rattle.stamps.specs.declared.readers.Reader.TheVariants.{Plain};

use crate::decide::{Stamp, byte_at, front_of, has_mark, stamp_of};
use crate::zoned::assumed_stamp;
use format_descriptions::ValueRefusal;
use line_devices::table::Table;
use log_forms::{Assumed, Form, Place, Stamp as FormStamp, StampRefusal, assumed_after};
use rfc3339::{Component, TextRefusal};
use utc_times::UtcDateTime;
use zones::OwnedZone;

/// The most bytes of the text or the name of a place.
pub const MOST_TEXT: usize = 255;

/// The text or the name of a place.
pub type PlaceText = Table<u8, MOST_TEXT>;

/// A reader of stamps in a form, at a place.
#[derive(Drop)]
pub struct FormReader {
    /// The form.
    pub form: Form,
    /// The place.
    pub place: Place,
    /// The text or the name of the place.
    pub text: PlaceText,
    /// The offset and the year where the form lacks them.
    pub assumed: Assumed,
    /// The time zone of stamps without an offset, in place of the assumed offset.
    pub zone: Option<&'static OwnedZone>,
}

/// A reader of stamps.
#[derive(Drop)]
pub enum Reader {
    /// Date-times of RFC 3339, at the front of lines.
    Plain,
    /// Those of a form, at a place.
    Formed(FormReader),
}

/// The stamp of a line.
#[derive(Clone, Copy, Debug)]
pub struct LineStamp {
    /// Its instant.
    pub instant: UtcDateTime,
    /// The number of the bytes of the line before it, with those of a byte order mark.
    pub start: usize,
    /// The number of its bytes.
    pub length: usize,
    /// Whether a bracket follows it.
    pub is_zoned: bool,
    /// Whether these bytes are a whole value of JSON: a number, or a text with its quotes.
    pub is_value: bool,
}

/// How a stamp is a value of JSON.
#[derive(Clone, Copy, Debug, PartialEq, Eq)]
pub enum ValueKind {
    /// The bytes of a stamp: it is a number.
    Number,
    /// They and a quote on each side: it is a text.
    Quoted,
    /// None, or more than that.
    Other,
}

/// Why a line has no stamp.
#[derive(Clone, Copy, Debug, PartialEq, Eq)]
pub enum LineRefusal {
    /// It has no text of the form at the place.
    Absent,
    /// A part of a date-time of RFC 3339 is out of its range.
    OutOfRange(Component),
    /// A part of a text of another form is missing, or out of its range.
    Part(ValueRefusal),
}

/// The stamp of a line, by the last instant before it and by whether it is the first line.
#[inline(always)]
pub fn line_stamp(
    reader: &Reader,
    last: Option<UtcDateTime>,
    is_first: bool,
    line: &[u8],
) -> Result<LineStamp, LineRefusal>
    ensures { result ≡ line_stamp reader.now last is_first line.now }
{
    let before = mark_length(is_first, line);
    match reader {
        Reader::Plain => plain_at(before, stamp_of(&line[before..])),
        Reader::Formed(reader) => form_stamp(reader, last, before, line),
    }
}

/// The stamp of a line that begins with a date-time of RFC 3339, by whether it is the first line.
/// None if the reader reads other lines.
#[inline(always)]
pub fn plain_stamp(reader: &Reader, is_first: bool, line: &[u8]) -> Option<LineStamp>
    ensures stamp { IfSome result (λ stamp. (last : Option ℤ)
        → line_stamp reader.now last is_first line.now ≡ Ok stamp) }
    ensures plain { reader.now ≡ Plain → (last : Option ℤ)
        → result ≡ result_ok (line_stamp reader.now last is_first line.now) }
{
    let Reader::Plain = reader else {
        return None;
    };
    let before = mark_length(is_first, line);
    match stamp_of(&line[before..]) {
        Ok(stamp) => Some(at_front(before, &stamp)),
        Err(_) => None,
    }
}

// The stamp of a line with this many bytes before it.
#[inline(always)]
fn at_front(before: usize, stamp: &Stamp) -> LineStamp
    ensures { plain_at before (Ok stamp.now) ≡ Ok result }
{
    LineStamp {
        instant: stamp.instant,
        start: before,
        length: stamp.length,
        is_zoned: stamp.is_zoned,
        is_value: false,
    }
}

// The number of the bytes of a byte order mark that the line begins with, which only the first line may.
#[inline(always)]
pub(crate) fn mark_length(is_first: bool, line: &[u8]) -> usize
    ensures value { result ≡ mark_length (has_mark is_first line.now) }
    ensures within { result ≤ length line.now }
{
    if has_mark(is_first, line) { 3 } else { 0 }
}

// The stamp of a line that is a date-time of RFC 3339, with this many bytes before it.
#[inline(always)]
fn plain_at(before: usize, stamp: Result<Stamp, TextRefusal>) -> Result<LineStamp, LineRefusal>
    ensures { result ≡ plain_at before stamp }
{
    match stamp {
        Ok(stamp) => Ok(at_front(before, &stamp)),
        Err(TextRefusal::Syntax) => Err(LineRefusal::Absent),
        Err(TextRefusal::OutOfRange(component)) => Err(LineRefusal::OutOfRange(component)),
    }
}

// The stamp of a line in a form, in the bytes of the line after the first ones.
#[inline(never)]
fn form_stamp(
    reader: &FormReader,
    last: Option<UtcDateTime>,
    before: usize,
    line: &[u8],
) -> Result<LineStamp, LineRefusal>
    requires { before ≤ length line.now }
    ensures { result ≡ formed_at before reader.now.place (drop before line.now)
        (form_stamp reader.now last (drop before line.now)) }
{
    let assumed = assumed_after(&reader.assumed, last);
    let line = &line[before..];
    match assumed_stamp(reader, &assumed, line) {
        Ok(stamp) => Ok(in_line(before, value_kind(reader.place, line, &stamp), &stamp)),
        Err(StampRefusal::Absent) => Err(LineRefusal::Absent),
        Err(StampRefusal::Part(refusal)) => Err(LineRefusal::Part(refusal)),
    }
}

// The value of JSON that the stamp of a line is: a number unless a quote is before it, and a text if one follows it too.
fn value_kind(place: Place, line: &[u8], stamp: &FormStamp) -> ValueKind
    requires { stamp.now.start + stamp.now.length ≤ length line.now }
    ensures { result ≡ value_kind place line.now stamp.now }
{
    if is_json(place) {
        json_kind(front_of(line), stamp)
    } else {
        ValueKind::Other
    }
}

// Whether a place is a member of JSON.
pub(crate) fn is_json(place: Place) -> bool
    ensures { result ≡ is_json place }
{
    match place {
        Place::Json => true,
        Place::Front | Place::Field(_) | Place::After | Place::Access | Place::Coloured => false,
    }
}

// The value of JSON that a stamp in a text is.
fn json_kind(front: &[u8], stamp: &FormStamp) -> ValueKind
    requires { stamp.now.start + stamp.now.length < 2 ^ 63 }
    ensures { result ≡ json_kind front.now stamp.now }
{
    if stamp.start == 0 {
        return ValueKind::Other;
    }
    if !is_quote(byte_at(front, stamp.start - 1)) {
        return ValueKind::Number;
    }
    if is_quote(byte_at(front, stamp.start + stamp.length)) {
        ValueKind::Quoted
    } else {
        ValueKind::Other
    }
}

// Whether there is a byte, and it is a quote.
fn is_quote(byte: Option<u8>) -> bool
    ensures { result ≡ is_quote byte }
{
    match byte {
        Some(byte) => byte == b'"',
        None => false,
    }
}

// The stamp of a line with this many bytes before the text that has it: the bytes of the value that it is.
fn in_line(before: usize, kind: ValueKind, stamp: &FormStamp) -> LineStamp
    requires { before + (stamp.now.start + stamp.now.length) < 2 ^ 63 }
    ensures { result ≡ in_line before kind stamp.now }
{
    match kind {
        ValueKind::Quoted => LineStamp {
            instant: stamp.instant,
            start: before + stamp.start.saturating_sub(1),
            length: stamp.length + 2,
            is_zoned: stamp.is_zoned,
            is_value: true,
        },
        ValueKind::Number | ValueKind::Other => LineStamp {
            instant: stamp.instant,
            start: before + stamp.start,
            length: stamp.length,
            is_zoned: stamp.is_zoned,
            is_value: matches!(kind, ValueKind::Number),
        },
    }
}

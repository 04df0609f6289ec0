//! Texts by format descriptions.
ghost use Rattle.std.specs.Prelude.{◌≡◌, ◌≤◌, ◌++◌, length, take, drop, IfOk, SomeIff, List, ℕ};
ghost use Rattle.std.specs.List.{concat};
ghost use Rattle.format_descriptions.specs.Written.{Fits};
ghost use Rattle.muxandu_c.specs.Answers.{status_of, value_or, written_over, text_if_room, length_of_answer};
ghost use Rattle.muxandu_c.specs.Batches.{with_room};
ghost use Rattle.muxandu_c.specs.Descriptions.{with_items, status_with_items, room_before};
ghost use Rattle.muxandu_c.specs.Formats.{fitting, text_or_refused, text_by_kind, plain_text_by, date_text_by, time_text_by, offset_text_by};
ghost use Rattle.muxandu_c.specs.Formats.{text_of_value, formatted_by, formatted_text};
ghost use Rattle.muxandu_c.specs.TextBlocks.{texts_of, status_of_texts, spans_of};

use crate::batches::stop_at;
use crate::description_items::MuxanduItem;
use crate::descriptions::{MUXANDU_DESCRIPTION_ROOM, read_description, read_items};
use crate::parts::read_date_time;
use crate::refused::{MuxanduStatus, Refused};
use crate::texts::put_text;
use crate::values::{MuxanduBatch, MuxanduDateTime, MuxanduSpan};
use calendar_values::{Date, Text, Time, UtcOffset};
use format_descriptions::{
    FormatRefusal, Item, format, format_date, format_offset, format_plain, format_time,
};
use offset_times::OffsetDateTime;
use plain_times::PlainDateTime;

/// The number of a kind of values.
pub type MuxanduKind = u32;

/// The parts of a date-time that a description writes or reads. A call tests the other parts too,
/// and reads them as those of 1970-01-01 0:00 UTC.
#[derive(Clone, Copy, Drop)]
pub enum Kind {
    /// The date, the time of day and the offset.
    OffsetDateTime = 1,
    /// The date and the time of day.
    PlainDateTime = 2,
    /// The date.
    Date = 3,
    /// The time of day.
    Time = 4,
    /// The offset.
    UtcOffset = 5,
}

// A text, if there is one.
fn fitting(text: Option<Text>) -> Result<Text, Refused>
    ensures { (whole : List ℕ) → SomeIff text (Fits whole) whole → result ≡ fitting whole }
{
    match text {
        Some(text) => Ok(text),
        None => Err(Refused::NoText),
    }
}

// A text, or why there is none.
fn text_or_refused(text: Result<Text, FormatRefusal>) -> Result<Text, Refused>
    ensures { result ≡ text_or_refused text }
{
    match text {
        Ok(text) => Ok(text),
        Err(_) => Err(Refused::NoText),
    }
}

// The text of the parts that a kind of values has.
#[tactic(auto, unfolding(crate::specs::Formats::text_by_kind))]
fn text_by_kind(kind: u32, items: &[Item], at: OffsetDateTime) -> Result<Text, Refused>
    ensures { result ≡ text_by_kind kind items.now at }
{
    let (date, time, offset) = at.parts();
    match kind {
        1 => fitting(format(items, date, time, offset)),
        2 => plain_text(items, at.date_time()),
        3 => date_text(items, date),
        4 => time_text(items, time),
        5 => offset_text(items, offset),
        _ => Err(Refused::Unit),
    }
}

fn plain_text(items: &[Item], at: PlainDateTime) -> Result<Text, Refused>
    ensures { result ≡ plain_text_by items.now at }
{
    text_or_refused(format_plain(items, at))
}

fn date_text(items: &[Item], date: Date) -> Result<Text, Refused>
    ensures { result ≡ date_text_by items.now date }
{
    text_or_refused(format_date(items, date))
}

fn time_text(items: &[Item], time: Time) -> Result<Text, Refused>
    ensures { result ≡ time_text_by items.now time }
{
    text_or_refused(format_time(items, time))
}

fn offset_text(items: &[Item], offset: UtcOffset) -> Result<Text, Refused>
    ensures { result ≡ offset_text_by items.now offset }
{
    text_or_refused(format_offset(items, offset))
}

// The text of a date-time by its kind.
fn text_of_value(kind: u32, items: &[Item], date_time: MuxanduDateTime) -> Result<Text, Refused>
    ensures { result ≡ text_of_value kind items.now date_time }
{
    text_by_kind(kind, items, read_date_time(date_time)?)
}

// The same by the numbers of items.
fn formatted_by(
    kind: u32,
    numbers: &[MuxanduItem],
    date_time: MuxanduDateTime,
) -> Result<Text, Refused>
    ensures { result ≡ formatted_by kind numbers.now date_time }
{
    let mut room = [Item::Byte(0); MUXANDU_DESCRIPTION_ROOM];
    let count = read_items(numbers, &mut room)?;
    text_of_value(kind, &room[..count], date_time)
}

/// Writes the text of a date-time as the items say to the front of `buffer`, and its length to
/// `size`. The text has at most 64 bytes, all ASCII. `kind` says which of its parts the value has.
/// Errors, in this order: UNIT if a number is no item, or for more than 128 items. Those of the
/// date-time. UNIT if `kind` is none. NO_TEXT if the kind lacks a component of the items. NO_TEXT
/// for a text of more than 64 bytes, or with one that is not ASCII. BUFFER if the text is longer
/// than `buffer`: `size` is then its length, and `buffer` is unchanged.
#[unsafe(no_mangle)]
pub extern "C" fn muxandu_format_items(
    kind: MuxanduKind,
    items: &[MuxanduItem],
    date_time: MuxanduDateTime,
    buffer: &mut [u8],
    size: &mut usize,
) -> MuxanduStatus
    ensures status { result ≡
        status_of (text_if_room (formatted_by kind items.now date_time) buffer.old) }
    ensures written { buffer.new ≡
        written_over (text_if_room (formatted_by kind items.now date_time) buffer.old) buffer.old }
    ensures size { size.new ≡
        value_or (length_of_answer (formatted_by kind items.now date_time)) size.old }
    ensures room { IfOk (formatted_by kind items.now date_time) (λ text. length text ≤ 64) }
{
    put_text(formatted_by(kind, items, date_time), buffer, size)
}

// The text of a date-time by the text of a description.
fn formatted_text(
    kind: u32,
    description: &[u8],
    date_time: MuxanduDateTime,
) -> Result<Text, Refused>
    ensures { result ≡ formatted_text kind description.now date_time }
{
    let mut room = [Item::Byte(0); MUXANDU_DESCRIPTION_ROOM];
    match read_description(2, description, &mut room) {
        Ok(count) => text_of_value(kind, &room[..count], date_time),
        Err(fault) => Err(fault.refused),
    }
}

/// Writes the text of a date-time by a description in version 2 of its language, such as
/// `[year]-[month]-[day]`, as muxandu_format_items does. Errors, in this order: SYNTAX if the text
/// is no description: muxandu_description_parse returns the place and the reason. Those of
/// muxandu_format_items.
#[unsafe(no_mangle)]
pub extern "C" fn muxandu_format(
    kind: MuxanduKind,
    description: &[u8],
    date_time: MuxanduDateTime,
    buffer: &mut [u8],
    size: &mut usize,
) -> MuxanduStatus
    ensures status { result ≡ status_of
        (text_if_room (formatted_text kind description.now date_time) buffer.old) }
    ensures written { buffer.new ≡ written_over
        (text_if_room (formatted_text kind description.now date_time) buffer.old) buffer.old }
    ensures size { size.new ≡
        value_or (length_of_answer (formatted_text kind description.now date_time)) size.old }
    ensures room { IfOk (formatted_text kind description.now date_time) (λ text. length text ≤ 64) }
{
    put_text(formatted_text(kind, description, date_time), buffer, size)
}

/// Writes the text of each date-time as the items say into the block `texts`, one after the other
/// with nothing between, and its place to `spans`. It stops at the first that muxandu_format_items
/// rejects, with BUFFER if the rest of `texts` is too short. Errors, in this order: UNIT if a
/// number is no item, or for more than 128 items. BUFFER if `spans` has fewer items than
/// `date_times`. The call then writes nothing. Else that of the first rejected item.
#[unsafe(no_mangle)]
pub extern "C" fn muxandu_format_all(
    kind: MuxanduKind,
    items: &[MuxanduItem],
    date_times: &[MuxanduDateTime],
    texts: &mut [u8],
    spans: &mut [MuxanduSpan],
) -> MuxanduBatch
    ensures count { result.count ≡ length (texts_of (formatted_by kind items.now) texts.old
        (with_items items.now (with_room spans.old date_times.now))) }
    ensures status { result.status ≡ status_with_items items.now
        (room_before spans.old date_times.now
        (status_of_texts (formatted_by kind items.now) texts.old date_times.now)) }
    ensures written { let all = concat (texts_of (formatted_by kind items.now) texts.old
        (with_items items.now (with_room spans.old date_times.now))) in
        texts.new ≡ all ++ drop (length all) texts.old }
    ensures spans { spans.new ≡ spans_of 0 (texts_of (formatted_by kind items.now) texts.old
        (with_items items.now (with_room spans.old date_times.now)))
        ++ drop result.count spans.old }
{
    let mut room = [Item::Byte(0); MUXANDU_DESCRIPTION_ROOM];
    match read_items(items, &mut room) {
        Ok(count) => {
            if spans.len() < date_times.len() {
                return stop_at(0, Refused::Buffer);
            }
            fill_formats(kind, &room[..count], date_times, texts, spans)
        }
        Err(refused) => stop_at(0, refused),
    }
}

fn fill_formats(
    kind: u32,
    items: &[Item],
    date_times: &[MuxanduDateTime],
    texts: &mut [u8],
    spans: &mut [MuxanduSpan],
) -> MuxanduBatch
    requires room { length date_times.now ≤ length spans.old }
    ensures count { result.count ≡
        length (texts_of (text_of_value kind items.now) texts.old date_times.now) }
    ensures status { result.status ≡
        status_of_texts (text_of_value kind items.now) texts.old date_times.now }
    ensures written { let made = texts_of (text_of_value kind items.now) texts.old date_times.now in
        texts.new ≡ concat made ++ drop (length (concat made)) texts.old }
    ensures spans { spans.new ≡ spans_of 0
        (texts_of (text_of_value kind items.now) texts.old date_times.now)
        ++ drop result.count spans.old }
{
    let mut start = 0;
    for (k, date_time) in date_times.iter().enumerate() {
        match write_format_at(kind, items, *date_time, texts, start) {
            Ok(length) => {
                spans[k] = MuxanduSpan { start, length };
                start += length;
            }
            Err(refused) => return stop_at(k, refused),
        }
    }
    MuxanduBatch {
        count: date_times.len(),
        status: 0,
    }
}

// Puts the text of a date-time after this number of bytes of a block, if there is room, and returns its length.
fn write_format_at(
    kind: u32,
    items: &[Item],
    date_time: MuxanduDateTime,
    block: &mut [u8],
    start: usize,
) -> Result<usize, Refused>
    requires { start ≤ length block.old }
    ensures length { let left = drop start block.old in result ≡
        length_of_answer (text_if_room (text_of_value kind items.now date_time) left) }
    ensures written { let left = drop start block.old in block.new ≡ take start block.old
        ++ written_over (text_if_room (text_of_value kind items.now date_time) left) left }
{
    write_format(kind, items, date_time, &mut block[start..])
}

// Puts the text of a date-time at the front of the block, if it has room, and says how long it is.
fn write_format(
    kind: u32,
    items: &[Item],
    date_time: MuxanduDateTime,
    block: &mut [u8],
) -> Result<usize, Refused>
    ensures length { result ≡
        length_of_answer (text_if_room (text_of_value kind items.now date_time) block.old) }
    ensures written { block.new ≡
        written_over (text_if_room (text_of_value kind items.now date_time) block.old) block.old }
{
    let text = text_of_value(kind, items, date_time)?;
    let bytes = text.as_bytes();
    if block.len() < bytes.len() {
        return Err(Refused::Buffer);
    }
    block[..bytes.len()].copy_from_slice(bytes);
    Ok(bytes.len())
}

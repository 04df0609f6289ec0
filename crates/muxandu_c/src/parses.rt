//! Texts read by format descriptions.
ghost use Rattle.std.specs.Prelude.{◌≡◌, ◌++◌, ◌≤◌, length, drop};
ghost use Rattle.muxandu_c.specs.Batches.{values_of, status_of_items, with_room};
ghost use Rattle.muxandu_c.specs.Descriptions.{with_items, status_with_items, room_before};
ghost use Rattle.muxandu_c.specs.EachBatches.{written_each, status_of_each, count_of_values};
ghost use Rattle.muxandu_c.specs.EachBatches.{with_both_rooms, room_status};
ghost use Rattle.muxandu_c.specs.Outcomes.{outcome_of};
ghost use Rattle.muxandu_c.specs.Parses.{value_of_text, parsed_by, parsed_text, read_by, read_at, read_in, size_read, value_over};

use crate::batches::{Conversion, fill, stop_at};
use crate::description_items::MuxanduItem;
use crate::descriptions::{MUXANDU_DESCRIPTION_ROOM, read_description, read_items};
use crate::each_batches::convert_each;
use crate::formats::MuxanduKind;
use crate::outcomes::{Fault, MuxanduOutcome, outcome_of, plain_fault};
use crate::parsed_values::{refused_value, value_by_kind, value_fault};
use crate::refused::{MuxanduStatus, Refused};
use crate::values::{MuxanduBatch, MuxanduDateTime, MuxanduSpan};
use format_descriptions::{Item, Parts, parse_into};

// The date-time of a text.
fn value_of_text(kind: u32, items: &[Item], text: &[u8]) -> Result<MuxanduDateTime, Fault>
    ensures { result ≡ value_of_text kind items.now text.now }
{
    let mut parts = Parts::none();
    match parse_into(items, text, &mut parts) {
        Ok(()) => match value_by_kind(kind, &parts) {
            Some(Ok(date_time)) => Ok(date_time),
            Some(Err(refusal)) => Err(value_fault(items, text, refusal)),
            None => Err(plain_fault(Refused::Unit)),
        },
        Err(place) => Err(Fault {
            place,
            refused: Refused::Syntax,
            reason: 0,
        }),
    }
}

// The same by the numbers of items.
fn parsed_by(kind: u32, numbers: &[MuxanduItem], text: &[u8]) -> Result<MuxanduDateTime, Fault>
    ensures { result ≡ parsed_by kind numbers.now text.now }
{
    let mut room = [Item::Byte(0); MUXANDU_DESCRIPTION_ROOM];
    match read_items(numbers, &mut room) {
        Ok(count) => value_of_text(kind, &room[..count], text),
        Err(refused) => Err(plain_fault(refused)),
    }
}

// The same by the text of a description.
fn parsed_text(kind: u32, description: &[u8], text: &[u8]) -> Result<MuxanduDateTime, Fault>
    ensures { result ≡ parsed_text kind description.now text.now }
{
    let mut room = [Item::Byte(0); MUXANDU_DESCRIPTION_ROOM];
    match read_description(2, description, &mut room) {
        Ok(count) => value_of_text(kind, &room[..count], text),
        Err(fault) => Err(fault),
    }
}

// Puts a date-time into the place of the caller, unless there is an error. Says how many bytes were read.
fn put_value(
    answer: Result<MuxanduDateTime, Fault>,
    length: usize,
    out: &mut MuxanduDateTime,
) -> MuxanduOutcome
    ensures outcome { result ≡ outcome_of (size_read length answer) }
    ensures written { out.new ≡ value_over answer out.old }
{
    match answer {
        Ok(date_time) => {
            *out = date_time;
            outcome_of(Ok(length))
        }
        Err(fault) => outcome_of(Err(fault)),
    }
}

/// The date-time of a text that is written as the items say, to its end. `kind` says which parts it
/// has: the others are those of 1970-01-01 0:00 UTC. A Unix timestamp alone gives a date-time, in
/// UTC if the text has no offset. `size` is the length of the text. Errors, in this order: UNIT if
/// a number is no item, or for more than 128 items. SYNTAX with the index of the byte where the
/// item begins that the text lacks. UNIT if `kind` is none. SYNTAX with a part as the reason,
/// without which the text names no one value. RESULT with the first part that is out of range, or
/// that is not a part of the value. Its place is the byte where the item of the part begins, or the
/// length of the text if no item gives the part. If the other parts contradict a Unix timestamp,
/// the reason is the finest timestamp of the text.
#[unsafe(no_mangle)]
pub extern "C" fn muxandu_parse_items(
    kind: MuxanduKind,
    items: &[MuxanduItem],
    text: &[u8],
    out: &mut MuxanduDateTime,
) -> MuxanduOutcome
    ensures outcome { result ≡
        outcome_of (size_read (length text.now) (parsed_by kind items.now text.now)) }
    ensures written { out.new ≡ value_over (parsed_by kind items.now text.now) out.old }
{
    put_value(parsed_by(kind, items, text), text.len(), out)
}

/// The date-time of a text by a description in version 2 of its language, such as
/// `[year]-[month]-[day]`, as muxandu_parse_items reads it. Errors, in this order: SYNTAX if the
/// description is none, with the place and the reason of its first fault. Those of
/// muxandu_parse_items.
#[unsafe(no_mangle)]
pub extern "C" fn muxandu_parse(
    kind: MuxanduKind,
    description: &[u8],
    text: &[u8],
    out: &mut MuxanduDateTime,
) -> MuxanduOutcome
    ensures outcome { result ≡
        outcome_of (size_read (length text.now) (parsed_text kind description.now text.now)) }
    ensures written { out.new ≡ value_over (parsed_text kind description.now text.now) out.old }
{
    put_value(parsed_text(kind, description, text), text.len(), out)
}

#[derive(Clone, Copy)]
struct FromSpans<'a> {
    kind: u32,
    items: &'a [Item],
    texts: &'a [u8],
}

impl Conversion<MuxanduSpan, MuxanduDateTime> for FromSpans<'_> {
    ghost value_of = { λ c span. read_at c.kind c.items.now c.texts.now span };

    fn convert(self, item: MuxanduSpan) -> Result<MuxanduDateTime, Refused> {
        read_at(self.kind, self.items, self.texts, item)
    }
}

// The date-time of the text of a span.
fn read_at(
    kind: u32,
    items: &[Item],
    texts: &[u8],
    span: MuxanduSpan,
) -> Result<MuxanduDateTime, Refused>
    ensures { result ≡ read_at kind items.now texts.now span }
{
    if span.start > texts.len() || span.length > texts.len() - span.start {
        return Err(Refused::Span);
    }
    read_text(kind, items, &texts[span.start..span.start + span.length])
}

// The date-time of a text, or its error alone, for which the place of a part is not sought.
fn read_text(kind: u32, items: &[Item], text: &[u8]) -> Result<MuxanduDateTime, Refused>
    ensures { result ≡ read_by kind items.now text.now }
{
    let mut parts = Parts::none();
    match parse_into(items, text, &mut parts) {
        Ok(()) => match value_by_kind(kind, &parts) {
            Some(Ok(date_time)) => Ok(date_time),
            Some(Err(refusal)) => Err(refused_value(refusal)),
            None => Err(Refused::Unit),
        },
        Err(_) => Err(Refused::Syntax),
    }
}

/// The date-time of each text of a block, up to the first that muxandu_parse_items rejects. A span
/// outside the block `texts` fails with SPAN. Errors, in this order: UNIT if a number is no item,
/// or for more than 128 items. BUFFER if `out` has fewer items than `spans`. The call then writes
/// nothing. Else that of the first rejected item.
#[unsafe(no_mangle)]
pub extern "C" fn muxandu_parse_all(
    kind: MuxanduKind,
    items: &[MuxanduItem],
    texts: &[u8],
    spans: &[MuxanduSpan],
    out: &mut [MuxanduDateTime],
) -> MuxanduBatch
    ensures count { result.count ≡ length (values_of (read_in kind items.now texts.now)
        (with_items items.now (with_room out.old spans.now))) }
    ensures status { result.status ≡ status_with_items items.now (room_before out.old spans.now
        (status_of_items (read_in kind items.now texts.now) spans.now)) }
    ensures written { out.new ≡ values_of (read_in kind items.now texts.now)
        (with_items items.now (with_room out.old spans.now)) ++ drop result.count out.old }
{
    let mut room = [Item::Byte(0); MUXANDU_DESCRIPTION_ROOM];
    match read_items(items, &mut room) {
        Ok(count) => {
            if out.len() < spans.len() {
                return stop_at(0, Refused::Buffer);
            }
            fill_spans(kind, &room[..count], texts, spans, out)
        }
        Err(refused) => stop_at(0, refused),
    }
}

fn fill_spans(
    kind: u32,
    items: &[Item],
    texts: &[u8],
    spans: &[MuxanduSpan],
    out: &mut [MuxanduDateTime],
) -> MuxanduBatch
    requires room { length spans.now ≤ length out.old }
    ensures count { result.count ≡
        length (values_of (read_at kind items.now texts.now) spans.now) }
    ensures status { result.status ≡
        status_of_items (read_at kind items.now texts.now) spans.now }
    ensures written { out.new ≡ values_of (read_at kind items.now texts.now) spans.now
        ++ drop result.count out.old }
{
    fill(FromSpans { kind, items, texts }, spans, out)
}

/// The date-time of each text of a block, and the status of muxandu_parse_items for it. The status
/// is SPAN for a span outside the block `texts`. If an item fails, its place in `out` keeps its
/// contents, and the call continues with the next. `count` is the number of converted items.
/// Errors, in this order: UNIT if a number is no item, or for more than 128 items. BUFFER if `out`
/// or `statuses` has fewer items than `spans`. The call then writes nothing.
#[unsafe(no_mangle)]
pub extern "C" fn muxandu_parse_each(
    kind: MuxanduKind,
    items: &[MuxanduItem],
    texts: &[u8],
    spans: &[MuxanduSpan],
    out: &mut [MuxanduDateTime],
    statuses: &mut [MuxanduStatus],
) -> MuxanduBatch
    ensures count { result.count ≡ count_of_values (read_in kind items.now texts.now)
        (with_items items.now (with_both_rooms out.old statuses.old spans.now)) }
    ensures status { result.status ≡
        status_with_items items.now (room_status out.old statuses.old spans.now) }
    ensures written { out.new ≡ written_each (read_in kind items.now texts.now)
        (with_items items.now (with_both_rooms out.old statuses.old spans.now)) out.old }
    ensures statuses { let gone = with_both_rooms out.old statuses.old spans.now in
        statuses.new ≡ status_of_each (read_in kind items.now texts.now) (with_items items.now gone)
        ++ drop (length (with_items items.now gone)) statuses.old }
{
    let mut room = [Item::Byte(0); MUXANDU_DESCRIPTION_ROOM];
    match read_items(items, &mut room) {
        Ok(count) => read_each(kind, &room[..count], texts, spans, out, statuses),
        Err(refused) => stop_at(0, refused),
    }
}

fn read_each(
    kind: u32,
    items: &[Item],
    texts: &[u8],
    spans: &[MuxanduSpan],
    out: &mut [MuxanduDateTime],
    statuses: &mut [u32],
) -> MuxanduBatch
    ensures count { result.count ≡ count_of_values (read_at kind items.now texts.now)
        (with_both_rooms out.old statuses.old spans.now) }
    ensures status { result.status ≡ room_status out.old statuses.old spans.now }
    ensures written { out.new ≡ written_each (read_at kind items.now texts.now)
        (with_both_rooms out.old statuses.old spans.now) out.old }
    ensures statuses { let gone = with_both_rooms out.old statuses.old spans.now in
        statuses.new ≡ status_of_each (read_at kind items.now texts.now) gone
        ++ drop (length gone) statuses.old }
{
    convert_each(FromSpans { kind, items, texts }, spans, out, statuses)
}

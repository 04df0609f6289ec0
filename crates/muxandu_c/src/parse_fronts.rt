//! Texts read by format descriptions at the front of more.
ghost use Rattle.std.specs.Prelude.{◌≡◌, Ok, length};
ghost use Rattle.muxandu_c.specs.Outcomes.{outcome_of};
ghost use Rattle.muxandu_c.specs.ParseFronts.{front_of_text, front_by, front_text, front_value, front_size, front_fault, place_in_front};
ghost use Rattle.muxandu_c.specs.Parses.{value_over, parsed_by};
ghost use Rattle.muxandu_c.specs.declared.values.MuxanduDateTime.{MuxanduDateTime};

use crate::description_items::MuxanduItem;
use crate::descriptions::{MUXANDU_DESCRIPTION_ROOM, read_description, read_items};
use crate::formats::MuxanduKind;
use crate::outcomes::{Fault, MuxanduOutcome, outcome_of, plain_fault};
use crate::parsed_values::{part_at_fault, refused_value, value_by_kind};
use crate::reasons::reason_of_field;
use crate::refused::Refused;
use crate::values::MuxanduDateTime;
use format_descriptions::{Item, Parts, ValueRefusal, parse_front_into, part_place};

// The date-time at the front of a text, and the number of its bytes.
fn front_of_text(kind: u32, items: &[Item], text: &[u8]) -> Result<(MuxanduDateTime, usize), Fault>
    ensures { result ≡ front_of_text kind items.now text.now }
{
    let mut parts = Parts::none();
    match parse_front_into(items, text, &mut parts) {
        Ok(rest) => {
            let size = text.len() - rest.len();
            match value_by_kind(kind, &parts) {
                Some(Ok(date_time)) => Ok((date_time, size)),
                Some(Err(refusal)) => Err(front_fault(items, text, size, refusal)),
                None => Err(plain_fault(Refused::Unit)),
            }
        }
        Err(place) => Err(Fault {
            place,
            refused: Refused::Syntax,
            reason: 0,
        }),
    }
}

// The error of parts that are no value, which a front of this size gives.
fn front_fault(items: &[Item], text: &[u8], size: usize, refusal: ValueRefusal) -> Fault
    ensures { result ≡ front_fault items.now text.now size refusal }
{
    Fault {
        place: place_in_front(items, text, size, refusal),
        refused: refused_value(refusal),
        reason: reason_of_field(part_at_fault(refusal)),
    }
}

// The place of a part in a text that begins with a front of this size, or that size if no item gives the part.
fn place_in_front(items: &[Item], text: &[u8], size: usize, refusal: ValueRefusal) -> usize
    ensures { result ≡ place_in_front items.now text.now size refusal }
{
    match refusal {
        ValueRefusal::Missing(_) => 0,
        ValueRefusal::Wrong(field) => match part_place(items, text, field) {
            Some(at) => at.place,
            None => size,
        },
    }
}

// The same by the numbers of items.
fn front_by(
    kind: u32,
    numbers: &[MuxanduItem],
    text: &[u8],
) -> Result<(MuxanduDateTime, usize), Fault>
    ensures { result ≡ front_by kind numbers.now text.now }
{
    let mut room = [Item::Byte(0); MUXANDU_DESCRIPTION_ROOM];
    match read_items(numbers, &mut room) {
        Ok(count) => front_of_text(kind, &room[..count], text),
        Err(refused) => Err(plain_fault(refused)),
    }
}

// The same by the text of a description.
fn front_text(kind: u32, description: &[u8], text: &[u8]) -> Result<(MuxanduDateTime, usize), Fault>
    ensures { result ≡ front_text kind description.now text.now }
{
    let mut room = [Item::Byte(0); MUXANDU_DESCRIPTION_ROOM];
    match read_description(2, description, &mut room) {
        Ok(count) => front_of_text(kind, &room[..count], text),
        Err(fault) => Err(fault),
    }
}

// Puts a date-time into the place of the caller, unless there is an error.
fn put_front(
    answer: Result<(MuxanduDateTime, usize), Fault>,
    out: &mut MuxanduDateTime,
) -> MuxanduOutcome
    ensures outcome { result ≡ outcome_of (front_size answer) }
    ensures written { out.new ≡ value_over (front_value answer) out.old }
{
    match answer {
        Ok((date_time, size)) => {
            *out = date_time;
            outcome_of(Ok(size))
        }
        Err(fault) => outcome_of(Err(fault)),
    }
}

/// The date-time at the front of a text that begins as the items say, as muxandu_parse_items reads
/// it. `size` is the number of bytes that it read, so the rest of the text begins there: 10 for
/// `2024-02-29 INFO`. Errors: those of muxandu_parse_items, but for more after the last item. If no
/// item gives the part that is at fault, its place is the number of bytes read.
#[unsafe(no_mangle)]
pub extern "C" fn muxandu_parse_items_front(
    kind: MuxanduKind,
    items: &[MuxanduItem],
    text: &[u8],
    out: &mut MuxanduDateTime,
) -> MuxanduOutcome
    ensures outcome { result ≡ outcome_of (front_size (front_by kind items.now text.now)) }
    ensures written { out.new ≡
        value_over (front_value (front_by kind items.now text.now)) out.old }
    // A text that muxandu_parse_items reads is read whole, and as it is there.
    ensures same { (v : MuxanduDateTime) → parsed_by kind items.now text.now ≡ Ok v
        → front_by kind items.now text.now ≡ Ok (v, length text.now) }
{
    put_front(front_by(kind, items, text), out)
}

/// The date-time at the front of a text by a description in version 2 of its language, such as
/// `[year]-[month]-[day]`, as muxandu_parse_items_front reads it. Errors, in this order: SYNTAX if
/// the description is none, with the place and the reason of its first fault. Those of
/// muxandu_parse_items_front.
#[unsafe(no_mangle)]
pub extern "C" fn muxandu_parse_front(
    kind: MuxanduKind,
    description: &[u8],
    text: &[u8],
    out: &mut MuxanduDateTime,
) -> MuxanduOutcome
    ensures outcome { result ≡ outcome_of (front_size (front_text kind description.now text.now)) }
    ensures written { out.new ≡
        value_over (front_value (front_text kind description.now text.now)) out.old }
{
    put_front(front_text(kind, description, text), out)
}

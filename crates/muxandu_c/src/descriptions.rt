//! Format descriptions: their texts, and their items.
ghost use Rattle.std.specs.Prelude.{◌≡◌, ◌≤◌, ◌++◌, length, take, drop, map, IfOk, Ok, Err};
ghost use Rattle.muxandu_c.specs.DescriptionItems.{numbers_of_item};
ghost use Rattle.muxandu_c.specs.Descriptions.{version_numbered, described_items, numbered_in_room, numbers_over};
ghost use Rattle.muxandu_c.specs.Descriptions.{item_or_refused, items_of, source_of, source_of_items, source_over, refused_items};
ghost use Rattle.muxandu_c.specs.Outcomes.{outcome_of, size_of};

use crate::batches::{Conversion, fill};
use crate::description_items::{MuxanduItem, item_of, numbers_of_item};
use crate::outcomes::{Fault, MuxanduOutcome, outcome_of, plain_fault};
use crate::reasons::{reason_of_fault, reason_of_item_fault};
use crate::refused::Refused;
use format_descriptions::{
    DescriptionVersion, Item, ItemFault, parse_description, write_description,
};

/// The most items of a description.
pub const MUXANDU_DESCRIPTION_ROOM: usize = 128;

// The version of this number.
fn version_numbered(number: u32) -> Option<DescriptionVersion>
    ensures { result ≡ version_numbered number }
{
    match number {
        1 => Some(DescriptionVersion::One),
        2 => Some(DescriptionVersion::Two),
        _ => None,
    }
}

#[derive(Clone, Copy)]
struct ToNumbers;

impl Conversion<Item, MuxanduItem> for ToNumbers {
    ghost value_of = { λ conversion item. Ok (numbers_of_item item) };

    fn convert(self, item: Item) -> Result<MuxanduItem, Refused> {
        Ok(numbers_of_item(item))
    }
}

#[derive(Clone, Copy)]
struct FromNumbers;

impl Conversion<MuxanduItem, Item> for FromNumbers {
    ghost value_of = { λ conversion item. item_or_refused item };

    fn convert(self, item: MuxanduItem) -> Result<Item, Refused> {
        match item_of(item) {
            Some(item) => Ok(item),
            None => Err(Refused::Unit),
        }
    }
}

// Puts the numbers of items at the front of a table.
fn write_numbers(items: &[Item], out: &mut [MuxanduItem])
    requires { length items.now ≤ length out.old }
    ensures { out.new ≡ map numbers_of_item items.now ++ drop (length items.now) out.old }
{
    let _all = fill(ToNumbers, items, out);
}

// Puts the items of these numbers at the front of a table with room for any, and says how many there are.
pub(crate) fn read_items(numbers: &[MuxanduItem], room: &mut [Item]) -> Result<usize, Refused>
    requires { MUXANDU_DESCRIPTION_ROOM ≤ length room.old }
    ensures count { result ≡ size_of (items_of numbers.now) }
    ensures items { IfOk (items_of numbers.now) (λ items. take (length items) room.new ≡ items) }
{
    if numbers.len() > MUXANDU_DESCRIPTION_ROOM {
        return Err(Refused::Unit);
    }
    if fill(FromNumbers, numbers, room).status != 0 {
        return Err(Refused::Unit);
    }
    Ok(numbers.len())
}

// Puts the items of a text at the front of a table, and says how many there are.
pub(crate) fn read_description(version: u32, text: &[u8], room: &mut [Item]) -> Result<usize, Fault>
    requires { length room.old ≡ MUXANDU_DESCRIPTION_ROOM }
    ensures count { result ≡ size_of (described_items version text.now) }
    ensures items { IfOk (described_items version text.now)
        (λ items. take (length items) room.new ≡ items) }
{
    let Some(version) = version_numbered(version) else {
        return Err(plain_fault(Refused::Unit));
    };
    match parse_description(version, text, room) {
        Ok(count) => Ok(count),
        Err(refusal) => Err(Fault {
            place: refusal.place,
            refused: Refused::Syntax,
            reason: reason_of_fault(refusal.fault),
        }),
    }
}

/// The items of a description, such as `[year]-[month]-[day]`, in version 1 or 2 of its language:
/// docs/reference/FORMATS.md has both. Keep the items for the calls that take them. `size` is their
/// number. Errors, in this order: UNIT if the version is neither 1 nor 2. SYNTAX if the text is no
/// description, with the place and the reason of its first fault: it has at most 128 items. BUFFER
/// if `items` has room for fewer. The call then writes nothing.
#[unsafe(no_mangle)]
pub extern "C" fn muxandu_description_parse(
    version: u32,
    text: &[u8],
    items: &mut [MuxanduItem],
) -> MuxanduOutcome
    ensures outcome { result ≡
        outcome_of (numbered_in_room (length items.old) (described_items version text.now)) }
    ensures written { items.new ≡ numbers_over (described_items version text.now) items.old }
{
    let mut room = [Item::Byte(0); MUXANDU_DESCRIPTION_ROOM];
    match read_description(version, text, &mut room) {
        Ok(count) => {
            if items.len() < count {
                return MuxanduOutcome {
                    size: count,
                    status: Refused::Buffer as u32,
                    reason: 0,
                };
            }
            write_numbers(&room[..count], items);
            outcome_of(Ok(count))
        }
        Err(fault) => outcome_of(Err(fault)),
    }
}

/// Writes the text of items as a description in version 1 or 2 of its language to the front of
/// `buffer`. `size` is its length. muxandu_description_parse reads it back as the same items.
/// It has at most 10,241 bytes. Errors, in this order: UNIT if the version is neither 1 nor 2. UNIT
/// if a number is no item, or for more than 128 items. NO_TEXT or BUFFER, with the index of the
/// item and the reason. After an error `buffer` is unchanged.
#[unsafe(no_mangle)]
pub extern "C" fn muxandu_description_text(
    version: u32,
    items: &[MuxanduItem],
    buffer: &mut [u8],
) -> MuxanduOutcome
    ensures outcome { result ≡
        outcome_of (size_of (source_of version (length buffer.old) items.now)) }
    ensures written { buffer.new ≡
        source_over (source_of version (length buffer.old) items.now) buffer.old }
    ensures room { IfOk (source_of version (length buffer.old) items.now)
        (λ text. length text ≤ 10_241) }
{
    outcome_of(write_source(version, items, buffer))
}

// Puts the text of items at the front of a buffer, and says how long it is.
fn write_source(version: u32, items: &[MuxanduItem], buffer: &mut [u8]) -> Result<usize, Fault>
    ensures size { result ≡ size_of (source_of version (length buffer.old) items.now) }
    ensures written { buffer.new ≡
        source_over (source_of version (length buffer.old) items.now) buffer.old }
    ensures room { IfOk (source_of version (length buffer.old) items.now)
        (λ text. length text ≤ 10_241) }
{
    let Some(version) = version_numbered(version) else {
        return Err(plain_fault(Refused::Unit));
    };
    let mut room = [Item::Byte(0); MUXANDU_DESCRIPTION_ROOM];
    match read_items(items, &mut room) {
        Ok(count) => write_items(version, &room[..count], buffer),
        Err(refused) => Err(plain_fault(refused)),
    }
}

// Puts the text of at most 128 items at the front of a buffer, if it has one that fits.
fn write_items(
    version: DescriptionVersion,
    items: &[Item],
    buffer: &mut [u8],
) -> Result<usize, Fault>
    requires { length items.now ≤ 128 }
    ensures size { result ≡ size_of (source_of_items version (length buffer.old) items.now) }
    ensures written { buffer.new ≡
        source_over (source_of_items version (length buffer.old) items.now) buffer.old }
    ensures room { IfOk (source_of_items version (length buffer.old) items.now)
        (λ text. length text ≤ 10_241) }
{
    match write_description(version, items, buffer) {
        Ok(size) => Ok(size),
        Err(refusal) => Err(Fault {
            place: refusal.place,
            refused: refused_items(refusal.fault),
            reason: reason_of_item_fault(refusal.fault),
        }),
    }
}

// The error of items that have no text.
fn refused_items(fault: ItemFault) -> Refused
    ensures { result ≡ refused_items fault }
{
    match fault {
        ItemFault::NoRoom => Refused::Buffer,
        ItemFault::NoName
        | ItemFault::NoCount
        | ItemFault::NoEscape
        | ItemFault::NoFirst
        | ItemFault::PastEnd
        | ItemFault::TooDeep => Refused::NoText,
    }
}

//! Texts of descriptions, from their items.
ghost use Rattle.std.specs.Prelude.{◌≡◌, ◌++◌, ℕ, List, Ok, Err, ◌≤◌, ◌-◌, length, take, drop, IfOk, IfErr, IfNone, OnErr, false, nat_lt};
ghost use Rattle.std.specs.Result.{result_map_both};
ghost use Rattle.format_descriptions.specs.DescriptionTexts.{with_piece, with_source, byte_source, plain_source};
ghost use Rattle.format_descriptions.specs.DescriptionTexts.{group_opening, group_end, is_several, end_of_several};
ghost use Rattle.format_descriptions.specs.DescriptionTexts.{group_fault, last_end, source_from, and_then, unless_fault};
ghost use Rattle.format_descriptions.specs.DescriptionTexts.{description_source, refusal_of_items};

use crate::component_texts::{Source, put_component, put_piece};
use crate::description_lengths::count_items;
use crate::item::{behind, size_of};
use crate::{DescriptionVersion, Item, ItemFault, ItemRefusal};

/// How many bytes the text of these items as a description has. It is put at the front of `room`,
/// and no byte after it changes. `parse_description` reads it back as the same items.
///
/// Else why the items have no text, and at which of them: the first fault, which `NoRoom` is too.
/// After an error no byte of `room` is changed.
///
/// ```
/// use format_descriptions::{Component, DescriptionVersion, Item, Padding, write_description};
/// let items = [Item::Part(Component::Hour(Padding::Bare)), Item::Byte(b'h')];
/// let mut room = [0; 32];
/// assert_eq!(rt; write_description(DescriptionVersion::Two, &items, &mut room), Ok(20));
/// assert_eq!(rt; &room[..20], b"[hour padding:none]h".as_slice());
/// ```
pub fn write_description(
    version: DescriptionVersion,
    items: &[Item],
    room: &mut [u8],
) -> Result<usize, ItemRefusal>
    ensures count { result ≡ result_map_both (λ text. length text) (refusal_of_items items.now)
        (description_source version (length room.old) items.now) }
    ensures text { IfOk (description_source version (length room.old) items.now)
        (λ text. room.new ≡ text ++ drop (length text) room.old) }
    // What the items have, by the result.
    ensures written { IfOk result (λ count. (text : List ℕ) ×
        (description_source version (length room.old) items.now ≡ Ok text) ×
        (length text ≡ count) × (room.new ≡ text ++ drop count room.old)) }
    ensures refused { IfErr result (λ refusal. (left : ℕ) ×
        (description_source version (length room.old) items.now ≡ Err (refusal.fault, left)) ×
        (refusal.place ≡ length items.now - left)) }
    ensures unchanged { OnErr result (room.new ≡ room.old) }
{
    match count_items(version, 0, items, items.len(), room.len(), 0) {
        Ok(count) => {
            let _text = put_items(version, 0, items, items.len(), room, 0);
            Ok(count)
        }
        Err(fault) => Err(refusal(items, fault)),
    }
}

// A fault by its place from the front.
fn refusal(items: &[Item], fault: (ItemFault, usize)) -> ItemRefusal
    ensures { result ≡ refusal_of_items items.now fault }
{
    let (fault, left) = fault;
    ItemRefusal {
        place: items.len().saturating_sub(left),
        fault,
    }
}

// Puts the text of the first items, which are in this number of groups.
fn put_items(
    version: DescriptionVersion,
    depth: u8,
    items: &[Item],
    count: usize,
    room: &mut [u8],
    used: usize,
) -> Source
    requires used { used ≤ length room.old }
    requires depth { depth ≤ 32 }
    ensures text { result_map_both (λ n. take n room.new) (λ fault. fault) result
        ≡ source_from version (length room.old) depth false items.now 0 count (take used room.old) }
    ensures within { IfOk result (λ n. n ≤ length room.old) }
    ensures more { IfOk result (λ n. used ≤ n) }
    ensures others { IfOk result (λ n. (k : ℕ) → n ≤ k → drop k room.new ≡ drop k room.old) }
{
    let mut items = items;
    let mut count = count;
    let mut used = used;
    let mut several = false;
    while let Some((item, others)) = items.split_first() {
        let left = items.len();
        if count == 0 {
            return put_piece(last_end(several), left, room, used);
        }
        count -= 1;
        let Some(size) = size_of(*item) else {
            used = match put_item(version, depth, several, *item, left, room, used) {
                Ok(longer) => longer,
                Err(fault) => return Err(fault),
            };
            several = false;
            items = others;
            continue;
        };
        used = match put_opening(depth, several, *item, size, count, left, room, used) {
            Ok(longer) => longer,
            Err(fault) => return Err(fault),
        };
        used = match put_items(version, depth + 1, others, size, room, used) {
            Ok(longer) => longer,
            Err(fault) => return Err(fault),
        };
        used = match put_piece(group_end(*item), left, room, used) {
            Ok(longer) => longer,
            Err(fault) => return Err(fault),
        };
        several = is_several(*item);
        items = behind(size, others);
        count -= size;
    }
    put_piece(last_end(several), 0, room, used)
}

// Puts the text of an item that is no head of a group, after the `]` of several groups.
#[inline(never)]
fn put_item(
    version: DescriptionVersion,
    depth: u8,
    several: bool,
    item: Item,
    left: usize,
    room: &mut [u8],
    used: usize,
) -> Source
    requires { used ≤ length room.old }
    ensures text { result_map_both (λ n. take n room.new) (λ fault. fault) result
        ≡ and_then
        (with_piece (length room.old) left (take used room.old) (end_of_several several item))
        (λ text. with_source (length room.old) left text
        (plain_source version (nat_lt 0 depth) item)) }
    ensures within { IfOk result (λ n. n ≤ length room.old) }
    ensures more { IfOk result (λ n. used ≤ n) }
    ensures others { IfOk result (λ n. (k : ℕ) → n ≤ k → drop k room.new ≡ drop k room.old) }
{
    let used = put_piece(end_of_several(several, item), left, room, used)?;
    match item {
        Item::Byte(byte) => put_byte(version, depth > 0, byte, left, room, used),
        Item::Part(component) => put_component(component, left, room, used),
        Item::Optional(_) | Item::First(_) | Item::Or(_) => put_piece(b"", left, room, used),
    }
}

// Puts the text before a group of this size, of this number of items at most, after the `]` of several groups.
#[inline(never)]
fn put_opening(
    depth: u8,
    several: bool,
    item: Item,
    size: usize,
    count: usize,
    left: usize,
    room: &mut [u8],
    used: usize,
) -> Source
    requires { used ≤ length room.old }
    ensures text { result_map_both (λ n. take n room.new) (λ fault. fault) result
        ≡ and_then
        (with_piece (length room.old) left (take used room.old) (end_of_several several item))
        (λ text. unless_fault (length room.old) left text (group_opening item)
        (group_fault depth several item size count)) }
    ensures within { IfOk result (λ n. n ≤ length room.old) }
    ensures more { IfOk result (λ n. used ≤ n) }
    ensures others { IfOk result (λ n. (k : ℕ) → n ≤ k → drop k room.new ≡ drop k room.old) }
    ensures fits { IfOk result (λ n. (size ≤ count) × (depth ≤ 31)) }
{
    let used = put_piece(end_of_several(several, item), left, room, used)?;
    match group_fault(depth, several, item, size, count) {
        Some(fault) => Err((fault, left)),
        None => put_piece(group_opening(item), left, room, used),
    }
}

// Puts the text of a byte.
#[tactic(auto, unfolding(crate::specs::DescriptionTexts::byte_source))]
fn put_byte(
    version: DescriptionVersion,
    in_group: bool,
    byte: u8,
    left: usize,
    room: &mut [u8],
    used: usize,
) -> Source
    requires { used ≤ length room.old }
    ensures text { result_map_both (λ n. take n room.new) (λ fault. fault) result
        ≡ with_source (length room.old) left (take used room.old)
        (byte_source version in_group byte) }
    ensures within { IfOk result (λ n. n ≤ length room.old) }
    ensures more { IfOk result (λ n. used ≤ n) }
    ensures others { IfOk result (λ n. (k : ℕ) → n ≤ k → drop k room.new ≡ drop k room.old) }
{
    match version {
        DescriptionVersion::One => {
            if byte == b'[' {
                put_piece(b"[[", left, room, used)
            } else if byte == b']' && in_group {
                Err((ItemFault::NoEscape, left))
            } else {
                put_piece(&[byte], left, room, used)
            }
        }
        DescriptionVersion::Two => {
            if byte == b'[' || byte == b']' || byte == b'\\' {
                put_piece(&[b'\\', byte], left, room, used)
            } else {
                put_piece(&[byte], left, room, used)
            }
        }
    }
}

// The text before a group.
pub(crate) fn group_opening(item: Item) -> &'static [u8]
    ensures { result.now ≡ group_opening item }
{
    match item {
        Item::Byte(_) | Item::Part(_) => b"",
        Item::Optional(_) => b"[optional [",
        Item::First(_) => b"[first [",
        Item::Or(_) => b" [",
    }
}

// The text after a group.
pub(crate) fn group_end(item: Item) -> &'static [u8]
    ensures { result.now ≡ group_end item }
{
    match item {
        Item::Byte(_) | Item::Part(_) => b"",
        Item::Optional(_) => b"]]",
        Item::First(_) | Item::Or(_) => b"]",
    }
}

// Whether another group can follow this one in the same brackets.
pub(crate) fn is_several(item: Item) -> bool
    ensures { result ≡ is_several item }
{
    match item {
        Item::Byte(_) | Item::Part(_) | Item::Optional(_) => false,
        Item::First(_) | Item::Or(_) => true,
    }
}

// The `]` of several groups at the end of the items.
pub(crate) fn last_end(several: bool) -> &'static [u8]
    ensures { result.now ≡ last_end several }
{
    if several { b"]" } else { b"" }
}

// The `]` of several groups, unless this is another of them.
pub(crate) fn end_of_several(several: bool, item: Item) -> &'static [u8]
    ensures { result.now ≡ end_of_several several item }
{
    match (several, item) {
        (false, _) | (true, Item::Or(_)) => b"",
        (true, Item::Byte(_) | Item::Part(_) | Item::Optional(_) | Item::First(_)) => b"]",
    }
}

// The fault of a group of this size, of this number of items at most.
pub(crate) fn group_fault(
    depth: u8,
    several: bool,
    item: Item,
    size: usize,
    count: usize,
) -> Option<ItemFault>
    ensures fault { result ≡ group_fault depth several item size count }
    ensures fits { IfNone result ((size ≤ count) × (depth ≤ 31)) }
{
    match item {
        Item::Or(_) if !several => return Some(ItemFault::NoFirst),
        _ => {}
    }
    if size > count {
        Some(ItemFault::PastEnd)
    } else if depth > 31 {
        Some(ItemFault::TooDeep)
    } else {
        None
    }
}

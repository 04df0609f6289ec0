//! Lengths of the texts of descriptions, which are counted before they are written.
ghost use Rattle.std.specs.Prelude.{◌≡◌, ℕ, List, ◌≤◌, ◌<◌, ◌+◌, length, IfOk, IfErr, false, nat_lt};
ghost use Rattle.format_descriptions.specs.DescriptionTexts.{with_piece, with_source, in_brackets, source_length};
ghost use Rattle.format_descriptions.specs.DescriptionTexts.{byte_source, component_source, plain_source, end_of_several};
ghost use Rattle.format_descriptions.specs.DescriptionTexts.{group_opening, group_fault, and_then, unless_fault, source_from};
ghost use Rattle.format_descriptions.specs.declared.component.Component.TheVariants.{Ignore};
ghost use Rattle.format_descriptions.specs.declared.item_refusal.ItemFault.TheVariants.{NoRoom};

use crate::component_texts::{Source, words_of};
use crate::description_texts::{
    end_of_several, group_end, group_fault, group_opening, is_several, last_end,
};
use crate::item::{behind, size_of};
use crate::{Component, DescriptionVersion, Item, ItemFault};
use calendar_values::Text;

// Counts one more piece after the bytes of a room.
fn count_piece(piece: &[u8], left: usize, room: usize, used: usize) -> Source
    requires { used ≤ room }
    ensures count { (text : List ℕ) → length text ≡ used →
        result ≡ source_length (with_piece room left text piece.now) }
    ensures within { IfOk result (λ n. n ≤ room) }
    ensures fits { IfOk result (λ n. n ≡ used + length piece.now) }
    ensures fails { IfErr result (λ fault. (fault ≡ (NoRoom, left)) ×
        (room < used + length piece.now)) }
{
    if room - used < piece.len() {
        Err((ItemFault::NoRoom, left))
    } else {
        Ok(used + piece.len())
    }
}

// Counts the name of a component, its modifiers and its `]`.
fn count_words(
    words: (&[u8], &[u8], &[u8], &[u8], &[u8]),
    left: usize,
    room: usize,
    used: usize,
) -> Source
    requires { used ≤ room }
    ensures count { (text : List ℕ) → length text ≡ used →
        result ≡ source_length (with_piece room left text
        (in_brackets words.entry.0.now words.entry.1.now words.entry.2.now
        words.entry.3.now words.entry.4.now)) }
    ensures within { IfOk result (λ n. n ≤ room) }
{
    let (name, first, second, third, fourth) = words;
    let used = count_piece(name, left, room, used)?;
    let used = count_piece(first, left, room, used)?;
    let used = count_piece(second, left, room, used)?;
    let used = count_piece(third, left, room, used)?;
    let used = count_piece(fourth, left, room, used)?;
    count_piece(b"]", left, room, used)
}

// Counts the text of a component.
#[tactic(auto, unfolding(crate::specs::DescriptionTexts::component_source))]
fn count_component(component: Component, left: usize, room: usize, used: usize) -> Source
    requires { used ≤ room }
    ensures count { (text : List ℕ) → length text ≡ used →
        result ≡ source_length (with_source room left text (component_source component)) }
    ensures within { IfOk result (λ n. n ≤ room) }
{
    match component {
        Component::Ignore(count) => count_ignore(count, left, room, used),
        _ => match words_of(component) {
            Ok(words) => count_words(words, left, room, used),
            Err(fault) => Err((fault, left)),
        },
    }
}

// Counts the text of a number of bytes to skip.
#[tactic(auto, unfolding(crate::specs::DescriptionTexts::component_source))]
fn count_ignore(count: u16, left: usize, room: usize, used: usize) -> Source
    requires { used ≤ room }
    ensures count { (text : List ℕ) → length text ≡ used →
        result ≡ source_length (with_source room left text (component_source (Ignore count))) }
    ensures within { IfOk result (λ n. n ≤ room) }
{
    if count == 0 {
        return Err((ItemFault::NoCount, left));
    }
    let mut digits = Text::new();
    digits.push_decimal(count as u64);
    let words: (&[u8], &[u8], &[u8], &[u8], &[u8]) = (
        b"[ignore count:",
        digits.as_bytes(),
        b"",
        b"",
        b"",
    );
    count_words(words, left, room, used)
}

// Counts the text of a byte.
#[tactic(auto, unfolding(crate::specs::DescriptionTexts::byte_source))]
fn count_byte(
    version: DescriptionVersion,
    in_group: bool,
    byte: u8,
    left: usize,
    room: usize,
    used: usize,
) -> Source
    requires { used ≤ room }
    ensures count { (text : List ℕ) → length text ≡ used →
        result ≡ source_length (with_source room left text (byte_source version in_group byte)) }
    ensures within { IfOk result (λ n. n ≤ room) }
{
    match version {
        DescriptionVersion::One => {
            if byte == b'[' {
                count_piece(b"[[", left, room, used)
            } else if byte == b']' && in_group {
                Err((ItemFault::NoEscape, left))
            } else {
                count_piece(&[byte], left, room, used)
            }
        }
        DescriptionVersion::Two => {
            if byte == b'[' || byte == b']' || byte == b'\\' {
                count_piece(&[b'\\', byte], left, room, used)
            } else {
                count_piece(&[byte], left, room, used)
            }
        }
    }
}

// Counts the text of an item that is no head of a group, after the `]` of several groups.
#[inline(never)]
fn count_item(
    version: DescriptionVersion,
    depth: u8,
    several: bool,
    item: Item,
    left: usize,
    room: usize,
    used: usize,
) -> Source
    requires { used ≤ room }
    ensures count { (text : List ℕ) → length text ≡ used → result ≡ source_length (and_then
        (with_piece room left text (end_of_several several item))
        (λ ended. with_source room left ended (plain_source version (nat_lt 0 depth) item))) }
    ensures within { IfOk result (λ n. n ≤ room) }
{
    let used = count_piece(end_of_several(several, item), left, room, used)?;
    match item {
        Item::Byte(byte) => count_byte(version, depth > 0, byte, left, room, used),
        Item::Part(component) => count_component(component, left, room, used),
        Item::Optional(_) | Item::First(_) | Item::Or(_) => count_piece(b"", left, room, used),
    }
}

// Counts the text before a group of this size, of this number of items at most, after the `]` of several groups.
#[inline(never)]
fn count_opening(
    depth: u8,
    several: bool,
    item: Item,
    size: usize,
    count: usize,
    left: usize,
    room: usize,
    used: usize,
) -> Source
    requires { used ≤ room }
    ensures count { (text : List ℕ) → length text ≡ used → result ≡ source_length (and_then
        (with_piece room left text (end_of_several several item))
        (λ ended. unless_fault room left ended (group_opening item)
        (group_fault depth several item size count))) }
    ensures within { IfOk result (λ n. n ≤ room) }
    ensures fits { IfOk result (λ n. (size ≤ count) × (depth ≤ 31)) }
{
    let used = count_piece(end_of_several(several, item), left, room, used)?;
    match group_fault(depth, several, item, size, count) {
        Some(fault) => Err((fault, left)),
        None => count_piece(group_opening(item), left, room, used),
    }
}

// Counts the text of the first items, which are in this number of groups.
pub(crate) fn count_items(
    version: DescriptionVersion,
    depth: u8,
    items: &[Item],
    count: usize,
    room: usize,
    used: usize,
) -> Source
    requires used { used ≤ room }
    requires depth { depth ≤ 32 }
    ensures count { (text : List ℕ) → length text ≡ used →
        result ≡ source_length (source_from version room depth false items.now 0 count text) }
    ensures within { IfOk result (λ n. n ≤ room) }
{
    let mut items = items;
    let mut count = count;
    let mut used = used;
    let mut several = false;
    while let Some((item, others)) = items.split_first() {
        let left = items.len();
        if count == 0 {
            return count_piece(last_end(several), left, room, used);
        }
        count -= 1;
        let Some(size) = size_of(*item) else {
            used = match count_item(version, depth, several, *item, left, room, used) {
                Ok(longer) => longer,
                Err(fault) => return Err(fault),
            };
            several = false;
            items = others;
            continue;
        };
        used = match count_opening(depth, several, *item, size, count, left, room, used) {
            Ok(longer) => longer,
            Err(fault) => return Err(fault),
        };
        used = match count_items(version, depth + 1, others, size, room, used) {
            Ok(longer) => longer,
            Err(fault) => return Err(fault),
        };
        used = match count_piece(group_end(*item), left, room, used) {
            Ok(longer) => longer,
            Err(fault) => return Err(fault),
        };
        several = is_several(*item);
        items = behind(size, others);
        count -= size;
    }
    count_piece(last_end(several), 0, room, used)
}

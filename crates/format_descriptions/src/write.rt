//! Texts written by descriptions.
ghost use Rattle.std.specs.Prelude.{◌≡◌, ◌≤◌, ◌∷◌, ◌++◌, [], length, SomeIff, IsTrue, IsAscii};
ghost use Rattle.std.specs.Bool.{OnTrue, OnFalse};
ghost use Rattle.format_descriptions.specs.Groups.{written_from};
ghost use Rattle.format_descriptions.specs.Written.{component_text, item_text, items_text, flat_text, described_text, Fits};

use crate::item::{behind, is_other, size_of};
use crate::pieces::put_component;
use crate::{Component, Item};
use calendar_values::{Date, Text, Time, UtcOffset};
use offset_times::OffsetDateTime;

/// The text of a date-time as the items write it, by its own wall clock and offset. None where the
/// text has more than 64 bytes, or one that is not ASCII.
///
/// ```
/// use format_descriptions::{Component, Item, Padding};
/// let items = [Item::Part(Component::Day(Padding::Zero)), Item::Byte(b'!')];
/// let at = OffsetDateTime::from_unix_timestamp(0)?;
/// let text = format_descriptions::format_date_time(&items, at);
/// assert_eq!(rt; text.map(|text| text.as_bytes() == b"01!".as_slice()), Some(true));
/// ```
pub fn format_date_time(items: &[Item], at: OffsetDateTime) -> Option<Text>
    ensures text { SomeIff result (Fits (described_text items.now at))
        (described_text items.now at) }
{
    let (date, time, offset) = at.parts();
    format(items, date, time, offset)
}

/// The text of a date, a time of day and an offset as the items write them. None where the text has
/// more than 64 bytes, or one that is not ASCII.
///
/// ```
/// use format_descriptions::{Component, Item, Padding};
/// let items = [Item::Part(Component::Day(Padding::Zero)), Item::Byte(b'!')];
/// let date = Date::from_calendar_date(2024, Month::March, 5)?;
/// let text = format_descriptions::format(&items, date, Time::MIDNIGHT, UtcOffset::UTC);
/// assert_eq!(rt; text.map(|text| text.as_bytes() == b"05!".as_slice()), Some(true));
/// ```
pub fn format(items: &[Item], date: Date, time: Time, offset: UtcOffset) -> Option<Text>
    ensures text { SomeIff result (Fits (items_text items.now date time offset))
        (items_text items.now date time offset) }
{
    let mut text = Text::new();
    if write_items(items, items.len(), date, time, offset, &mut text) {
        Some(text)
    } else {
        None
    }
}

// Adds what the first items write to a text, and returns whether it did. It calls itself for each group in a group, so the text
// stays where it is: no frame of the stack has another.
fn write_items(
    items: &[Item],
    count: usize,
    date: Date,
    time: Time,
    offset: UtcOffset,
    text: &mut Text,
) -> bool
    requires { Fits text.old }
    ensures text { let all = text.old
        ++ flat_text (written_from items.now 0 count) date time offset in
        OnTrue result (Fits all × (text.new ≡ all)) }
    ensures none { OnFalse result
        (¬ Fits (text.old ++ flat_text (written_from items.now 0 count) date time offset)) }
{
    let mut items = items;
    let mut count = count;
    while let Some((item, others)) = items.split_first() {
        if count == 0 {
            return true;
        }
        count -= 1;
        let Some(size) = size_of(*item) else {
            if !put_item(*item, date, time, offset, text) {
                return false;
            }
            items = others;
            continue;
        };
        if !is_other(*item) && !write_items(others, size.min(count), date, time, offset, text) {
            return false;
        }
        items = behind(size, others);
        count = count.saturating_sub(size);
    }
    true
}

// Adds the text of an item, and returns whether it did. It does not where the byte is not ASCII, the component cannot write
// the value, or the text would have more than 64 bytes.
#[tactic(auto, unfolding(crate::specs::Written::item_text))]
#[inline(never)]
fn put_item(item: Item, date: Date, time: Time, offset: UtcOffset, text: &mut Text) -> bool
    ensures text { let all = text.old ++ item_text item date time offset in
        OnTrue result (Fits all × (text.new ≡ all)) }
    ensures none { OnFalse result (¬ Fits (text.old ++ item_text item date time offset)) }
{
    match item {
        Item::Byte(byte) => put_byte(byte, text),
        Item::Part(component) => format_component_into(component, date, time, offset, text),
        Item::Optional(_) | Item::First(_) | Item::Or(_) => put_nothing(text),
    }
}

/// The text of a component of a date, a time of day and an offset. None of a value that it cannot
/// write.
///
/// ```
/// use format_descriptions::{Component, Padding, format_component};
/// let date = Date::from_calendar_date(2024, Month::March, 5)?;
/// let day = Component::Day(Padding::Zero);
/// let text = format_component(day, date, Time::MIDNIGHT, UtcOffset::UTC);
/// assert_eq!(rt; text.map(|text| text.as_bytes() == b"05".as_slice()), Some(true));
/// ```
#[tactic(auto, unfolding(crate::specs::Written::component_text))]
pub fn format_component(
    component: Component,
    date: Date,
    time: Time,
    offset: UtcOffset,
) -> Option<Text>
    ensures text { let text = component_text component date time offset in
        SomeIff result (IsAscii text) text }
{
    let mut text = Text::new();
    if put_component(component, date, time, offset, &mut text) {
        // For the proof alone: the bytes of a text are ASCII.
        let _bytes = text.as_bytes();
        Some(text)
    } else {
        None
    }
}

/// Adds the text of a component of a date, a time of day and an offset to a text, and returns
/// whether it did. It does not where the component cannot write the value, or where the text would
/// have more than 64 bytes: then the text stays as it is.
///
/// ```
/// use format_descriptions::{Component, Padding, format_component_into};
/// let date = Date::from_calendar_date(2024, Month::March, 5)?;
/// let day = Component::Day(Padding::Zero);
/// let mut text = Month::March.text();
/// let is_added = format_component_into(day, date, Time::MIDNIGHT, UtcOffset::UTC, &mut text);
/// assert_eq!(rt; (is_added, text.as_bytes() == b"March05".as_slice()), (true, true));
/// ```
#[tactic(auto, using(crate::proofs::ItemLemmas::unwritable))]
#[inline(always)]
pub fn format_component_into(
    component: Component,
    date: Date,
    time: Time,
    offset: UtcOffset,
    text: &mut Text,
) -> bool
    ensures text { let all = text.old ++ component_text component date time offset in
        OnTrue result (Fits all × (text.new ≡ all)) }
    ensures none { OnFalse result
        (¬ Fits (text.old ++ component_text component date time offset)) }
    ensures unchanged { OnFalse result (text.new ≡ text.old) }
{
    if text.as_bytes().len() <= 32 {
        if !put_component(component, date, time, offset, text) {
            return false;
        }
        // For the proof alone: the bytes of a text are ASCII, and not too many.
        let _bytes = text.as_bytes();
        return true;
    }
    let mut piece = Text::new();
    if !put_component(component, date, time, offset, &mut piece) {
        return false;
    }
    push_text(piece.as_bytes(), text)
}

// Adds bytes, and returns whether it did: not where there would be more than 64.
fn push_text(bytes: &[u8], text: &mut Text) -> bool
    requires { IsAscii bytes.now }
    ensures text { let all = text.old ++ bytes.now in OnTrue result (Fits all × (text.new ≡ all)) }
    ensures none { OnFalse result (¬ Fits (text.old ++ bytes.now)) }
    ensures unchanged { OnFalse result (text.new ≡ text.old) }
{
    if text.as_bytes().len() + bytes.len() > 64 {
        return false;
    }
    text.push_bytes(bytes);
    true
}

// Adds a byte, and returns whether it did.
fn put_byte(byte: u8, text: &mut Text) -> bool
    ensures text { let all = text.old ++ byte ∷ [] in OnTrue result (Fits all × (text.new ≡ all)) }
    ensures none { OnFalse result (¬ Fits (text.old ++ byte ∷ [])) }
{
    if (byte >= 128) | (text.as_bytes().len() >= 64) {
        return false;
    }
    text.push(byte);
    true
}

// Adds nothing, which it can.
fn put_nothing(text: &Text) -> bool
    ensures fits { Fits (text.now ++ []) }
    ensures always { IsTrue result }
{
    let _bytes = text.as_bytes();
    true
}

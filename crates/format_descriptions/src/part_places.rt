//! The place of a part in a text.
ghost use Rattle.std.specs.Prelude.{◌≡◌, ◌+◌, ◌<◌, ◌≤◌, length, Some, IfSome};
ghost use Rattle.format_descriptions.specs.PartPlaces.{has_part, is_component, place_of_item, last_place, part_place};
ghost use Rattle.format_descriptions.specs.PlaceLaws.{IsGivenAt};

use crate::{Field, Item, Parts, parse_front};

/// The place of a part in a text.
#[derive(Clone, Copy, Debug, PartialEq, Eq)]
pub struct PartPlace {
    /// The index of the byte where the item begins that gives the part.
    pub place: usize,
    /// The number of bytes that the item takes.
    pub length: usize,
}

/// The place of the item that gives a part, in a text that begins as the items say. Call it with
/// the part that an error of `Parts` names. Of a group, the one that was read counts. None if the
/// text does not begin so, or has no such part.
///
/// ```
/// use format_descriptions::{Component, Field, Item, Padding, part_place};
/// let items = [
///     Item::Part(Component::Month(Padding::Zero)),
///     Item::Byte(b'-'),
///     Item::Part(Component::Day(Padding::Zero)),
/// ];
/// let day = part_place(&items, b"02-30", Field::Day);
/// assert_eq!(rt; day.map(|day| (day.place, day.length)), Some((3, 2)));
/// assert_eq!(rt; part_place(&items, b"02-30", Field::Year), None);
/// ```
#[tactic(auto, unfolding(crate::specs::PartPlaces::part_place))]
pub fn part_place(items: &[Item], text: &[u8], field: Field) -> Option<PartPlace>
    ensures equation { result ≡ part_place items.now text.now field }
    ensures inside { IfSome result (λ at. at.place + at.length ≤ length text.now) }
    // The component that gives the part begins there, in the choice of the items that is read.
    ensures given { IfSome result (λ at. IsGivenAt items.now text.now field at) }
{
    match parse_front(items, text) {
        Ok((parts, _)) => {
            if has_part(field, parts) {
                last_place(items.len(), items, text, field)
            } else {
                None
            }
        }
        Err(_) => None,
    }
}

// The place of the last of the first items that gives a part.
#[tactic(auto, unfolding(crate::specs::PartPlaces::last_place))]
fn last_place(count: usize, items: &[Item], text: &[u8], field: Field) -> Option<PartPlace>
    requires { count ≤ length items.now }
    ensures equation { result ≡ last_place count items.now text.now field }
    ensures inside { IfSome result (λ at. at.place + at.length ≤ length text.now) }
{
    let mut count = count;
    while count > 0 {
        count -= 1;
        if let Some(place) = place_of_item(count, items, text, field) {
            return Some(place);
        }
    }
    None
}

// The place of the item of this index, if it is the one that gives the part.
#[tactic(auto, unfolding(crate::specs::PartPlaces::place_of_item))]
fn place_of_item(index: usize, items: &[Item], text: &[u8], field: Field) -> Option<PartPlace>
    requires { index < length items.now }
    ensures equation { result ≡ place_of_item index items.now text.now field }
    ensures inside { IfSome result (λ at. at.place + at.length ≤ length text.now) }
{
    if !is_component(items[index]) {
        return None;
    }
    match parse_front(&items[..index], text) {
        Ok((before, start)) => match parse_front(&items[..index + 1], text) {
            Ok((upto, end)) => {
                if !has_part(field, before) & has_part(field, upto) {
                    Some(PartPlace {
                        place: start,
                        length: end.saturating_sub(start),
                    })
                } else {
                    None
                }
            }
            Err(_) => None,
        },
        Err(_) => None,
    }
}

// Whether an item is a component.
fn is_component(item: Item) -> bool
    ensures { result ≡ is_component (Some item) }
{
    match item {
        Item::Part(_) => true,
        Item::Byte(_) | Item::Optional(_) | Item::First(_) | Item::Or(_) => false,
    }
}

// Whether the parts have this one.
#[tactic(auto, unfolding(crate::specs::PartPlaces::has_part))]
fn has_part(field: Field, parts: Parts) -> bool
    ensures { result ≡ has_part field parts }
{
    match field {
        Field::Year => parts.year.is_some(),
        Field::YearCentury => parts.year_century.is_some(),
        Field::YearLastTwo => parts.year_last_two.is_some(),
        Field::IsoYear => parts.iso_year.is_some(),
        Field::IsoYearCentury => parts.iso_year_century.is_some(),
        Field::IsoYearLastTwo => parts.iso_year_last_two.is_some(),
        Field::Month => parts.month.is_some(),
        Field::Day => parts.day.is_some(),
        Field::Ordinal => parts.ordinal.is_some(),
        Field::Weekday => parts.weekday.is_some(),
        Field::IsoWeek => parts.iso_week.is_some(),
        Field::SundayWeek => parts.sunday_week.is_some(),
        Field::MondayWeek => parts.monday_week.is_some(),
        Field::Hour => parts.hour.is_some(),
        Field::Hour12 => parts.hour_12.is_some(),
        Field::Period => parts.is_afternoon.is_some(),
        Field::Minute => parts.minute.is_some(),
        Field::Second => parts.second.is_some(),
        Field::Subsecond => parts.nanosecond.is_some(),
        Field::OffsetHour => parts.offset_hour.is_some(),
        Field::OffsetMinute => parts.offset_minute.is_some(),
        Field::OffsetSecond => parts.offset_second.is_some(),
        Field::UnixSecond => parts.unix_second.is_some(),
        Field::UnixMillisecond => parts.unix_millisecond.is_some(),
        Field::UnixMicrosecond => parts.unix_microsecond.is_some(),
        Field::UnixNanosecond => parts.unix_nanosecond.is_some(),
    }
}

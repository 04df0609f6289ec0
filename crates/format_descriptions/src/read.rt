//! Texts read by descriptions.
ghost use Rattle.std.specs.Prelude.{◌≡◌, ◌-◌, ◌≤◌, ℕ, None, Ok, Err, length, option_map, IfOk, IfErr, IfSome, IfNone, IsTrue};
ghost use Rattle.std.specs.Result.{result_map_both};
ghost use Rattle.format_descriptions.specs.KeptParts.{Keeps};
ghost use Rattle.format_descriptions.specs.Read.{part_at, item_at, items_at, no_parts, front_of, read_from, read_end};
ghost use Rattle.format_descriptions.specs.declared.component.Component.TheVariants.{UnixTimestamp};

use crate::clock_fractions::{hour_fraction_at, minute_fraction_at};
use crate::fields::{component_at, signed_hours, signed_year};
use crate::fractions::fraction;
use crate::item::{behind, fault_after, is_other, size_of};
use crate::kept_parts::{keep, restore};
use crate::parts::{fits, fits_choice, fits_signed, signed};
use crate::reading::{after_mark, two};
use crate::unix::unix_at;
use crate::usual::date_and_clock_into;
use crate::words::{month, weekday};
use crate::{Component, Item, Parts, Sign, UnixPrecision, YearBase};

/// The parts of a text that is written as the items say, to its end. Else the place, counted from
/// 0, where the item begins that cannot be read or contradicts a part before it, or where more
/// follows the last item.
///
/// ```
/// use format_descriptions::{Component, Item, Padding};
/// let items = [Item::Part(Component::Day(Padding::Zero)), Item::Byte(b'!')];
/// assert_eq!(rt; format_descriptions::parse(&items, b"29!").map(|parts| parts.day), Ok(Some(29)));
/// assert_eq!(rt; format_descriptions::parse(&items, b"29?").map(|parts| parts.day), Err(2));
/// ```
pub fn parse(items: &[Item], text: &[u8]) -> Result<Parts, usize>
    ensures reading { result ≡ result_map_both (λ p. p) (λ left. length text.now - left)
        (items_at items.now text.now no_parts) }
    // What the text says, by the result.
    ensures accepted { IfOk result (λ parts. items_at items.now text.now no_parts ≡ Ok parts) }
    ensures refused { IfErr result (λ place. (left : ℕ) ×
        (items_at items.now text.now no_parts ≡ Err left) × (place ≡ length text.now - left)) }
{
    let mut parts = Parts::none();
    match parse_into(items, text, &mut parts) {
        Ok(()) => Ok(parts),
        Err(place) => Err(place),
    }
}

/// Reads a text that is written as the items say, to its end, into these parts, with which no
/// component may disagree. Else returns the place, as `parse` does: then no part is known.
///
/// ```
/// use format_descriptions::{Component, Item, Padding, Parts, parse_into};
/// let items = [Item::Part(Component::Day(Padding::Zero)), Item::Byte(b'!')];
/// let mut parts = Parts::none();
/// assert_eq!(rt; parse_into(&items, b"29!", &mut parts), Ok(()));
/// assert_eq!(rt; parts.day, Some(29));
/// assert_eq!(rt; parse_into(&items, b"28!", &mut parts), Err(0));
/// assert_eq!(rt; parts.day, None);
/// ```
pub fn parse_into(items: &[Item], text: &[u8], parts: &mut Parts) -> Result<(), usize>
    ensures reading { result_map_both (λ done. parts.new) (λ place. place) result
        ≡ result_map_both (λ p. p) (λ left. length text.now - left)
        (items_at items.now text.now parts.old) }
    ensures refused { IfErr result (λ place. parts.new ≡ no_parts) }
{
    match front_of(items, text, parts) {
        Ok(rest) => {
            if rest.is_empty() {
                Ok(())
            } else {
                *parts = Parts::none();
                Err(text.len() - rest.len())
            }
        }
        Err(left) => {
            *parts = Parts::none();
            Err(text.len() - left)
        }
    }
}

/// The parts at the front of a text that is written as the items say, and how many bytes they take.
/// Else the place, counted from 0, where the item begins that cannot be read or contradicts a part
/// before it.
///
/// ```
/// use format_descriptions::{Component, Item, Padding, parse_front};
/// let items = [Item::Part(Component::Day(Padding::Zero))];
/// let front = parse_front(&items, b"29 February");
/// assert_eq!(rt; front.map(|(parts, count)| (parts.day, count)), Ok((Some(29), 2)));
/// assert_eq!(rt; parse_front(&items, b"February").map(|(_, count)| count), Err(0));
/// ```
pub fn parse_front(items: &[Item], text: &[u8]) -> Result<(Parts, usize), usize>
    ensures reading { result ≡ result_map_both (λ read. (read.0, length text.now - length read.1))
        (λ left. length text.now - left) (front_of items.now text.now no_parts) }
{
    let mut parts = Parts::none();
    match front_of(items, text, &mut parts) {
        Ok(rest) => Ok((parts, text.len() - rest.len())),
        Err(left) => Err(text.len() - left),
    }
}

/// Reads items at the front of a text into the parts, and returns the bytes after them. Else the
/// place, counted from 0, where the item begins that cannot be read or contradicts a part: then no
/// part is known.
///
/// ```
/// use format_descriptions::{Component, Item, Padding, Parts, parse_front_into};
/// let items = [Item::Part(Component::Day(Padding::Zero))];
/// let mut parts = Parts::none();
/// let rest = parse_front_into(&items, b"29 February", &mut parts);
/// assert_eq!(rt; (parts.day, rest.map(|rest| rest.len())), (Some(29), Ok(9)));
/// ```
pub fn parse_front_into<'a>(
    items: &[Item],
    text: &'a [u8],
    parts: &mut Parts,
) -> Result<&'a [u8], usize>
    ensures reading { result_map_both (λ rest. (parts.new, rest.now)) (λ place. place) result
        ≡ result_map_both (λ read. read) (λ left. length text.now - left)
        (front_of items.now text.now parts.old) }
    ensures refused { IfErr result (λ place. parts.new ≡ no_parts) }
    ensures shorter { IfOk result (λ rest. length rest.now ≤ length text.now) }
{
    match front_of(items, text, parts) {
        Ok(rest) => Ok(rest),
        Err(left) => {
            *parts = Parts::none();
            Err(text.len() - left)
        }
    }
}

// Reads all items at the front of a text into the parts, and returns what follows them. Else how many bytes are left from the
// item on that cannot be read. Up to the first group no item can be left out, so the loop needs neither a count nor a fault.
#[inline(always)]
fn front_of<'a>(items: &[Item], text: &'a [u8], parts: &mut Parts) -> Result<&'a [u8], usize>
    ensures value { result_map_both (λ rest. (parts.new, rest.now)) (λ left. left) result
        ≡ front_of items.now text.now parts.old }
    ensures shorter { IfOk result (λ rest. length rest.now ≤ length text.now) }
    ensures left { IfErr result (λ left. left ≤ length text.now) }
{
    let (mut items, mut rest) = date_and_clock_into(items, text, parts);
    while let Some((item, others)) = items.split_first() {
        if let Item::Byte(byte) = item {
            let Some(more) = after_mark(*byte, rest) else {
                return Err(rest.len());
            };
            rest = more;
            items = others;
            continue;
        }
        if size_of(*item).is_some() {
            return front(items, items.len(), rest, parts);
        }
        let Some(more) = item_at(item, rest, parts) else {
            return Err(rest.len());
        };
        rest = more;
        items = others;
    }
    Ok(rest)
}

// Reads the first items at the front of a text into the parts, and returns what follows them. Else how many bytes are left
// from the item on that cannot be read: then the parts are those of the items before it, or of a group. It calls itself for
// each group in a group, so an item is read by a function of its own: its stack is not there once for each of them.
fn front<'a>(
    items: &[Item],
    count: usize,
    text: &'a [u8],
    parts: &mut Parts,
) -> Result<&'a [u8], usize>
    ensures value { result_map_both (λ rest. (parts.new, rest.now)) (λ left. left) result
        ≡ read_from items.now 0 count None text.now parts.old }
    ensures kept { Keeps parts.old parts.new }
    ensures shorter { IfOk result (λ rest. length rest.now ≤ length text.now) }
    ensures left { IfErr result (λ left. left ≤ length text.now) }
{
    let mut items = items;
    let mut count = count;
    let mut fault = None;
    let mut rest = text;
    while let Some((item, others)) = items.split_first() {
        if count == 0 {
            return front_end(fault, rest, parts);
        }
        count -= 1;
        let Some(size) = size_of(*item) else {
            if let Some(left) = fault {
                return Err(left);
            }
            let Some(more) = group_item_at(item, rest, parts) else {
                return Err(rest.len());
            };
            rest = more;
            items = others;
            continue;
        };
        match fault {
            None => {
                if is_other(*item) {
                    items = behind(size, others);
                    count = count.saturating_sub(size);
                    continue;
                }
            }
            Some(left) => {
                if !is_other(*item) {
                    return Err(left);
                }
            }
        }
        if fails_at_once(others, size.min(count), rest) {
            fault = fault_after(*item, fault, rest.len());
            items = behind(size, others);
            count = count.saturating_sub(size);
            continue;
        }
        let before = keep(parts);
        match front(others, size.min(count), rest, parts) {
            Ok(more) => {
                rest = more;
                fault = None;
            }
            Err(left) => {
                restore(&before, parts);
                fault = fault_after(*item, fault, left);
            }
        }
        items = behind(size, others);
        count = count.saturating_sub(size);
    }
    front_end(fault, rest, parts)
}

// Whether the first of these items is a byte that the text does not begin with: no part is read then.
#[inline(always)]
fn fails_at_once(items: &[Item], count: usize, text: &[u8]) -> bool
    ensures { IsTrue result → (parts : Parts) →
        read_from items.now 0 count None text.now parts ≡ Err (length text.now) }
{
    match items.split_first() {
        Some((Item::Byte(byte), _)) if count > 0 => after_mark(*byte, text).is_none(),
        _ => false,
    }
}

// The end of the items, after a fault or after none. The parts are those that were read.
fn front_end<'a>(fault: Option<usize>, text: &'a [u8], parts: &Parts) -> Result<&'a [u8], usize>
    ensures value { result_map_both (λ rest. (parts.now, rest.now)) (λ left. left) result
        ≡ read_end fault text.now parts.now }
    ensures shorter { IfOk result (λ rest. length rest.now ≤ length text.now) }
{
    match fault {
        None => Ok(text),
        Some(left) => Err(left),
    }
}

// Reads an item of a group into the parts, and returns what follows it.
#[inline(never)]
fn group_item_at<'a>(item: &Item, text: &'a [u8], parts: &mut Parts) -> Option<&'a [u8]>
    ensures value { option_map (λ rest. (parts.new, rest.now)) result
        ≡ item_at item.now text.now parts.old }
    ensures kept { Keeps parts.old parts.new }
    ensures shorter { IfSome result (λ rest. length rest.now ≤ length text.now) }
{
    match item_at(item, text, parts) {
        Some(rest) => Some(rest),
        None => None,
    }
}

// Reads an item into the parts, and returns what follows it.
#[tactic(auto, unfolding(crate::specs::Read::item_at))]
#[inline(always)]
fn item_at<'a>(item: &Item, text: &'a [u8], parts: &mut Parts) -> Option<&'a [u8]>
    ensures value { option_map (λ rest. (parts.new, rest.now)) result
        ≡ item_at item.now text.now parts.old }
    ensures unchanged { IfNone result (parts.new ≡ parts.old) }
    ensures shorter { IfSome result (λ rest. length rest.now ≤ length text.now) }
{
    match item {
        Item::Byte(byte) => after_mark(*byte, text),
        Item::Optional(_) | Item::First(_) | Item::Or(_) => Some(text),
        Item::Part(component) => component_into(component, text, parts),
    }
}

/// The parts with what a component reads at the front of a text, and the bytes after it. None where
/// the text does not begin so, or contradicts one of the parts.
///
/// ```
/// use format_descriptions::{Component, Padding, Parts, parse_component};
/// let day = Component::Day(Padding::Zero);
/// let read = parse_component(day, b"05!", Parts::none());
/// assert_eq!(rt; read.map(|(parts, rest)| (parts.day, rest.len())), Some((Some(5), 1)));
/// ```
pub fn parse_component(component: Component, text: &[u8], parts: Parts) -> Option<(Parts, &[u8])>
    ensures value { option_map (λ read. (read.0, read.1.now)) result
        ≡ part_at component text.now parts }
    ensures shorter { IfSome result (λ read. length read.1.now ≤ length text.now) }
{
    let mut parts = parts;
    match parse_component_into(component, text, &mut parts) {
        Some(rest) => Some((parts, rest)),
        None => None,
    }
}

/// Reads a component at the front of a text into the parts, and returns the bytes after it. None
/// where the text does not begin so, or contradicts one of the parts: then no part changes.
///
/// ```
/// use format_descriptions::{Component, Padding, Parts, parse_component_into};
/// let day = Component::Day(Padding::Zero);
/// let mut parts = Parts::none();
/// let rest = parse_component_into(day, b"05!", &mut parts);
/// assert_eq!(rt; (parts.day, rest.map(|rest| rest.len())), (Some(5), Some(1)));
/// ```
#[inline(always)]
pub fn parse_component_into<'a>(
    component: Component,
    text: &'a [u8],
    parts: &mut Parts,
) -> Option<&'a [u8]>
    ensures value { option_map (λ rest. (parts.new, rest.now)) result
        ≡ part_at component text.now parts.old }
    ensures unchanged { IfNone result (parts.new ≡ parts.old) }
    ensures shorter { IfSome result (λ rest. length rest.now ≤ length text.now) }
{
    component_into(&component, text, parts)
}

// The same of a component that stays in its place. Each component has its arm, so that a table of them needs no test.
#[tactic(auto, unfolding(crate::specs::Read::component_at, crate::specs::Read::agrees, crate::specs::Read::with_part))]
#[inline(always)]
fn component_into<'a>(component: &Component, text: &'a [u8], parts: &mut Parts) -> Option<&'a [u8]>
    ensures value { option_map (λ rest. (parts.new, rest.now)) result
        ≡ part_at component.now text.now parts.old }
    ensures unchanged { IfNone result (parts.new ≡ parts.old) }
    ensures shorter { IfSome result (λ rest. length rest.now ≤ length text.now) }
{
    match *component {
        Component::Year(YearBase::Calendar, sign, padding, range) => {
            let ((is_negative, number), rest) = signed_year(sign, padding, range, text)?;
            let year = signed(is_negative, number);
            if !fits_signed(parts.year, year) {
                return None;
            }
            parts.year = Some(year);
            Some(rest)
        }
        Component::Month(padding) => {
            let (number, rest) = two(padding, text)?;
            if !fits(parts.month, number) {
                return None;
            }
            parts.month = Some(number);
            Some(rest)
        }
        Component::MonthName(form, case) => {
            let (number, rest) = month(form, case, text)?;
            if !fits(parts.month, number) {
                return None;
            }
            parts.month = Some(number);
            Some(rest)
        }
        Component::Day(padding) => {
            let (number, rest) = two(padding, text)?;
            if !fits(parts.day, number) {
                return None;
            }
            parts.day = Some(number);
            Some(rest)
        }
        Component::WeekdayName(form, case) => {
            let (number, rest) = weekday(form, case, text)?;
            if !fits(parts.weekday, number) {
                return None;
            }
            parts.weekday = Some(number);
            Some(rest)
        }
        Component::Hour(padding) => {
            let (number, rest) = two(padding, text)?;
            if !fits(parts.hour, number) {
                return None;
            }
            parts.hour = Some(number);
            Some(rest)
        }
        Component::Minute(padding) => {
            let (number, rest) = two(padding, text)?;
            if !fits(parts.minute, number) {
                return None;
            }
            parts.minute = Some(number);
            Some(rest)
        }
        Component::Second(padding) => {
            let (number, rest) = two(padding, text)?;
            if !fits(parts.second, number) {
                return None;
            }
            parts.second = Some(number);
            Some(rest)
        }
        Component::OffsetHour(sign, padding) => {
            let ((is_west, number), rest) = signed_hours(sign, padding, text)?;
            if !fits_choice(parts.is_west, is_west) {
                return None;
            }
            if !fits(parts.offset_hour, number) {
                return None;
            }
            parts.is_west = Some(is_west);
            parts.offset_hour = Some(number);
            Some(rest)
        }
        Component::OffsetMinute(padding) => {
            let (number, rest) = two(padding, text)?;
            if !fits(parts.offset_minute, number) {
                return None;
            }
            parts.offset_minute = Some(number);
            Some(rest)
        }
        Component::Subsecond(digits) => {
            let (number, rest) = fraction(digits, text)?;
            if !fits(parts.nanosecond, number) {
                return None;
            }
            parts.nanosecond = Some(number);
            Some(rest)
        }
        Component::Year(YearBase::IsoWeek, _, _, _)
        | Component::YearCentury(_, _, _, _)
        | Component::YearLastTwo(_, _)
        | Component::Ordinal(_)
        | Component::WeekdayNumber(_, _)
        | Component::WeekNumber(_, _)
        | Component::Hour12(_)
        | Component::Period(_, _)
        | Component::OffsetSecond(_)
        | Component::UnixTimestamp(_, _)
        | Component::Ignore(_)
        | Component::End
        | Component::IgnoreWeekday(_, _)
        | Component::IgnoreDigits
        | Component::OffsetWord(_, _)
        | Component::YearSince(_)
        | Component::YearSix(_)
        | Component::HourFraction(_)
        | Component::MinuteFraction(_) => other_part_at(*component, text, parts),
    }
}

// The same of each component.
#[tactic(auto, unfolding(crate::specs::Read::component_at, crate::specs::Read::agrees, crate::specs::Read::with_part))]
#[inline(never)]
fn other_part_at<'a>(component: Component, text: &'a [u8], parts: &mut Parts) -> Option<&'a [u8]>
    ensures value { option_map (λ rest. (parts.new, rest.now)) result
        ≡ part_at component text.now parts.old }
    ensures unchanged { IfNone result (parts.new ≡ parts.old) }
    ensures shorter { IfSome result (λ rest. length rest.now ≤ length text.now) }
{
    match component {
        Component::UnixTimestamp(precision, sign) => unix_part_at(precision, sign, text, parts),
        Component::HourFraction(digits) => hour_fraction_at(digits, text, parts),
        Component::MinuteFraction(digits) => minute_fraction_at(digits, text, parts),
        _ => {
            let (number, rest) = component_at(component, text)?;
            if !parts.agrees(component, number) {
                return None;
            }
            parts.set(component, number);
            Some(rest)
        }
    }
}

// The same of a Unix timestamp.
#[tactic(auto, unfolding(crate::specs::Read::component_at))]
fn unix_part_at<'a>(
    precision: UnixPrecision,
    sign: Sign,
    text: &'a [u8],
    parts: &mut Parts,
) -> Option<&'a [u8]>
    ensures value { option_map (λ rest. (parts.new, rest.now)) result
        ≡ part_at (UnixTimestamp precision sign) text.now parts.old }
    ensures unchanged { IfNone result (parts.new ≡ parts.old) }
    ensures shorter { IfSome result (λ rest. length rest.now ≤ length text.now) }
{
    let (given, rest) = unix_at(sign, precision.digits(), text)?;
    if !parts.agrees_unix(precision, given) {
        return None;
    }
    parts.set_unix(precision, given);
    Some(rest)
}

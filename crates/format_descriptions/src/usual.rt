//! Usual dates and clocks at the front of a text, each read at once.
ghost use Rattle.std.specs.Prelude.{◌≡◌, ◌∷◌, ◌≤◌, None, length, IfNone, IfSome, IsTrue};
ghost use Rattle.format_descriptions.specs.Read.{front_of};
ghost use Rattle.format_descriptions.specs.declared.component.Component.TheVariants.{Year, Month, Day, Hour, Minute, Second};
ghost use Rattle.format_descriptions.specs.declared.item.Item.TheVariants.{Byte, Part};
ghost use Rattle.format_descriptions.specs.declared.modifiers.Sign.TheVariants.{Automatic};
ghost use Rattle.format_descriptions.specs.declared.modifiers.YearBase.TheVariants.{Calendar};

use crate::parts::signed;
use crate::reading::{after_mark, two_digits, year};
use crate::{Component, Item, Padding, Parts, Sign, YearBase, YearRange};

// Reads a date and a clock at the front of a text into the parts, where the items begin with them, and returns the items and the
// bytes after them. What is not read so is left to be read item by item.
#[inline(always)]
pub(crate) fn date_and_clock_into<'i, 'a>(
    items: &'i [Item],
    text: &'a [u8],
    parts: &mut Parts,
) -> (&'i [Item], &'a [u8])
    ensures value { front_of result.0.now result.1.now parts.new
        ≡ front_of items.now text.now parts.old }
    ensures shorter { length result.1.now ≤ length text.now }
{
    let Some((after_date, rest)) = date_into(items, text, parts) else {
        return (items, text);
    };
    match clock_into(after_date, rest, parts) {
        Some(read) => read,
        None => (after_date, rest),
    }
}

// Reads a year, a month and a day of two digits with `-` between them into the parts, and returns the items and the bytes after
// them. None says nothing of the text, and then no part changes.
#[tactic(auto, using(crate::proofs::UsualLemmas::date_on))]
#[inline(always)]
fn date_into<'i, 'a>(
    items: &'i [Item],
    text: &'a [u8],
    parts: &mut Parts,
) -> Option<(&'i [Item], &'a [u8])>
    ensures value { IfSome result (λ read. front_of read.0.now read.1.now parts.new
        ≡ front_of items.now text.now parts.old) }
    ensures unchanged { IfNone result (parts.new ≡ parts.old) }
    ensures shorter { IfSome result (λ read. length read.1.now ≤ length text.now) }
{
    let (_, _, _, _, others) = date_items(items)?;
    if text.len() < 10 || !has_no_date(parts) {
        return None;
    }
    let (year, rest) = year(text)?;
    let (month, rest) = two_digits(after_mark(b'-', rest)?)?;
    let (day, rest) = two_digits(after_mark(b'-', rest)?)?;
    parts.year = Some(signed(false, year));
    parts.month = Some(month);
    parts.day = Some(day);
    Some((others, rest))
}

// The same of an hour, a minute and a second with `:` between them, after a byte.
#[tactic(auto, using(crate::proofs::UsualLemmas::clock_on))]
#[inline(always)]
fn clock_into<'i, 'a>(
    items: &'i [Item],
    text: &'a [u8],
    parts: &mut Parts,
) -> Option<(&'i [Item], &'a [u8])>
    ensures value { IfSome result (λ read. front_of read.0.now read.1.now parts.new
        ≡ front_of items.now text.now parts.old) }
    ensures unchanged { IfNone result (parts.new ≡ parts.old) }
    ensures shorter { IfSome result (λ read. length read.1.now ≤ length text.now) }
{
    let (byte, _, _, _, others) = clock_items(items)?;
    if text.len() < 9 || !has_no_clock(parts) {
        return None;
    }
    let (hour, rest) = two_digits(after_mark(byte, text)?)?;
    let (minute, rest) = two_digits(after_mark(b':', rest)?)?;
    let (second, rest) = two_digits(after_mark(b':', rest)?)?;
    parts.hour = Some(hour);
    parts.minute = Some(minute);
    parts.second = Some(second);
    Some((others, rest))
}

// How a date pads its year, the range of its years, how it pads its month and its day, and the items after it.
#[inline(always)]
fn date_items(items: &[Item]) -> Option<(Padding, YearRange, Padding, Padding, &[Item])>
    ensures { IfSome result (λ date. items.now
        ≡ Part (Year Calendar Automatic date.0 date.1) ∷ Byte 45 ∷ Part (Month date.2)
        ∷ Byte 45 ∷ Part (Day date.3) ∷ date.4.now) }
{
    let [year, dash, month, other_dash, day, others @ ..] = items else {
        return None;
    };
    let (padding, range) = year_of(*year)?;
    let month_padding = month_of(*month)?;
    let day_padding = day_of(*day)?;
    if is_byte(*dash, b'-') && is_byte(*other_dash, b'-') {
        Some((padding, range, month_padding, day_padding, others))
    } else {
        None
    }
}

// The byte before a clock, how the clock pads its hour, its minute and its second, and the items after it.
#[inline(always)]
fn clock_items(items: &[Item]) -> Option<(u8, Padding, Padding, Padding, &[Item])>
    ensures { IfSome result (λ clock. items.now
        ≡ Byte clock.0 ∷ Part (Hour clock.1) ∷ Byte 58 ∷ Part (Minute clock.2)
        ∷ Byte 58 ∷ Part (Second clock.3) ∷ clock.4.now) }
{
    let [
        before,
        hour,
        colon,
        minute,
        other_colon,
        second,
        others @ ..,
    ] = items
    else {
        return None;
    };
    let byte = byte_of(*before)?;
    let hour_padding = hour_of(*hour)?;
    let minute_padding = minute_of(*minute)?;
    let second_padding = second_of(*second)?;
    if is_byte(*colon, b':') && is_byte(*other_colon, b':') {
        Some((byte, hour_padding, minute_padding, second_padding, others))
    } else {
        None
    }
}

// Whether no part of a date is known.
#[inline(always)]
fn has_no_date(parts: &Parts) -> bool
    ensures year { IsTrue result → parts.now.year ≡ None }
    ensures month { IsTrue result → parts.now.month ≡ None }
    ensures day { IsTrue result → parts.now.day ≡ None }
{
    parts.year.is_none() && parts.month.is_none() && parts.day.is_none()
}

// Whether no part of a clock is known.
#[inline(always)]
fn has_no_clock(parts: &Parts) -> bool
    ensures hour { IsTrue result → parts.now.hour ≡ None }
    ensures minute { IsTrue result → parts.now.minute ≡ None }
    ensures second { IsTrue result → parts.now.second ≡ None }
{
    parts.hour.is_none() && parts.minute.is_none() && parts.second.is_none()
}

// Whether an item is this byte.
#[inline(always)]
fn is_byte(item: Item, byte: u8) -> bool
    ensures { IsTrue result → item ≡ Byte byte }
{
    match item {
        Item::Byte(own) => own == byte,
        _ => false,
    }
}

// The byte that an item is.
#[inline(always)]
fn byte_of(item: Item) -> Option<u8>
    ensures { IfSome result (λ byte. item ≡ Byte byte) }
{
    match item {
        Item::Byte(byte) => Some(byte),
        _ => None,
    }
}

// The padding and the range of a year of the calendar that has a sign where it needs one.
#[inline(always)]
fn year_of(item: Item) -> Option<(Padding, YearRange)>
    ensures { IfSome result (λ form. item ≡ Part (Year Calendar Automatic form.0 form.1)) }
{
    match component_of(item)? {
        Component::Year(YearBase::Calendar, Sign::Automatic, padding, range) => {
            Some((padding, range))
        }
        _ => None,
    }
}

// The padding of a month.
#[inline(always)]
fn month_of(item: Item) -> Option<Padding>
    ensures { IfSome result (λ padding. item ≡ Part (Month padding)) }
{
    match component_of(item)? {
        Component::Month(padding) => Some(padding),
        _ => None,
    }
}

// The padding of a day.
#[inline(always)]
fn day_of(item: Item) -> Option<Padding>
    ensures { IfSome result (λ padding. item ≡ Part (Day padding)) }
{
    match component_of(item)? {
        Component::Day(padding) => Some(padding),
        _ => None,
    }
}

// The padding of an hour.
#[inline(always)]
fn hour_of(item: Item) -> Option<Padding>
    ensures { IfSome result (λ padding. item ≡ Part (Hour padding)) }
{
    match component_of(item)? {
        Component::Hour(padding) => Some(padding),
        _ => None,
    }
}

// The padding of a minute.
#[inline(always)]
fn minute_of(item: Item) -> Option<Padding>
    ensures { IfSome result (λ padding. item ≡ Part (Minute padding)) }
{
    match component_of(item)? {
        Component::Minute(padding) => Some(padding),
        _ => None,
    }
}

// The padding of a second.
#[inline(always)]
fn second_of(item: Item) -> Option<Padding>
    ensures { IfSome result (λ padding. item ≡ Part (Second padding)) }
{
    match component_of(item)? {
        Component::Second(padding) => Some(padding),
        _ => None,
    }
}

// The component that an item is.
#[inline(always)]
fn component_of(item: Item) -> Option<Component>
    ensures { IfSome result (λ component. item ≡ Part component) }
{
    match item {
        Item::Part(component) => Some(component),
        _ => None,
    }
}

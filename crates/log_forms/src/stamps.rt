//! The stamp of a line.
ghost use Rattle.std.specs.Prelude.{◌≡◌, ◌+◌, ◌≤◌, IfOk, IfSome, drop, length, option_map, take};
ghost use Rattle.std.specs.Char.{is_ascii_digit};
ghost use Rattle.std.specs.List.{take_while};
ghost use Rattle.format_descriptions.specs.Groups.{is_other};
ghost use Rattle.format_descriptions.specs.Read.{front_of, no_parts};
ghost use Rattle.log_forms.specs.Splits.{counted_reading, ends_within, if_read, reading_in_two, splits};
ghost use Rattle.log_forms.specs.Stamps.{ended_stamp, has_digits, stamp_at, stamp_behind, stamp_in};
ghost use Rattle.log_forms.specs.Stamps.{longest_front};

use crate::ends::{is_apart, opens_bracket};
use crate::form::Form;
use crate::fronts::follows_no_zone;
use crate::instants::{Assumed, instant_of_parts};
use crate::places::{Place, text_at};
use format_descriptions::{Item, Parts, ValueRefusal, parse_front, parse_front_into};
use line_devices::stamp_tallies::LONGEST_STAMP;
use utc_times::UtcDateTime;

/// The most bytes of a line that decide on its stamp: those in which it ends, and more that can
/// have a word for a zone.
pub const LONGEST_FRONT: usize = 65_533;

/// A stamp.
#[derive(Clone, Copy, Debug)]
pub struct Stamp {
    /// Its instant.
    pub instant: UtcDateTime,
    /// The number of the bytes of the line before it.
    pub start: usize,
    /// The number of its bytes.
    pub length: usize,
    /// Whether a bracket follows it.
    pub is_zoned: bool,
}

/// Why a line has no stamp.
#[derive(Clone, Copy, Debug, PartialEq, Eq)]
pub enum StampRefusal {
    /// It has no text of the form at the place.
    Absent,
    /// A part of the text is missing, or out of its range.
    Part(ValueRefusal),
}

/// The stamp that a line has in a form, at a place. The text is the one of [`Place::After`], and
/// the name of [`Place::Json`]. A stamp ends within the first 65,500 bytes of the line, where its
/// last word ends. No offset, time zone or half of the day follows a stamp without an offset, and
/// the word before it is no time zone. No year follows a stamp without a year.
///
/// Fails with `Absent` if there is none. Fails with `Part` for the first part that is missing or
/// out of its range.
#[tactic(auto, unfolding(crate::specs::Stamps::stamp_at))]
pub fn stamp_at(
    form: &Form,
    place: Place,
    text: &[u8],
    assumed: &Assumed,
    line: &[u8],
) -> Result<Stamp, StampRefusal>
    ensures stamp { result ≡ stamp_at form.now place text.now assumed.now line.now }
    ensures within { IfOk result (λ stamp. stamp.start + stamp.length ≤ length line.now) }
{
    let front = front_of(line);
    match text_at(place, text, front) {
        Some(rest) => stamp_behind(form, assumed, front, rest),
        None => Err(StampRefusal::Absent),
    }
}

// As many bytes of a line as decide on its stamp.
#[tactic(auto, using(crate::proofs::FrontLemmas::fronts))]
pub(crate) fn front_of(line: &[u8]) -> &[u8]
    ensures value { result.now ≡ take 65533 line.now }
    ensures short { length result.now ≤ 65_533 }
    ensures shorter { length result.now ≤ length line.now }
{
    if line.len() <= LONGEST_FRONT {
        return line;
    }
    &line[..LONGEST_FRONT]
}

// The stamp after what precedes it in a text, which is the end of the front of a line.
#[tactic(auto, using(crate::proofs::FrontLemmas::behind_nothing))]
fn stamp_behind(
    form: &Form,
    assumed: &Assumed,
    front: &[u8],
    text: &[u8],
) -> Result<Stamp, StampRefusal>
    requires text { length text.now ≤ length front.now }
    requires short { length front.now ≤ 65_533 }
    ensures stamp { result ≡ stamp_behind form.now assumed.now front.now text.now }
    ensures within { IfOk result (λ stamp. stamp.start + stamp.length ≤ length front.now) }
{
    if form.lead.is_empty() {
        return stamp_in(form, assumed, front, text);
    }
    match parse_front(form.lead.items(), text) {
        Ok((_, lead)) => stamp_in(form, assumed, front, &text[lead..]),
        Err(_) => Err(StampRefusal::Absent),
    }
}

// The stamp at the front of a text, which is the end of the front of a line.
#[tactic(auto, using(crate::proofs::SplitLemmas::no_counted_stamp))]
fn stamp_in(
    form: &Form,
    assumed: &Assumed,
    front: &[u8],
    text: &[u8],
) -> Result<Stamp, StampRefusal>
    requires text { length text.now ≤ length front.now }
    requires short { length front.now ≤ 65_533 }
    ensures stamp { result ≡ stamp_in form.now assumed.now front.now text.now }
    ensures within { IfOk result (λ stamp. stamp.start + stamp.length ≤ length front.now) }
{
    let mut parts = Parts::none();
    match read_counted(form, text, &mut parts) {
        Some(rest) => {
            let length = text.len() - rest.len();
            ended_stamp(
                assumed,
                &parts,
                front,
                front.len() - text.len(),
                length,
                text,
            )
        }
        None => Err(StampRefusal::Absent),
    }
}

// Reads a text into no parts if it has as many digits as the form counts, and returns what follows.
#[tactic(auto, using(crate::proofs::SplitLemmas::counted_in_two))]
fn read_counted<'a>(form: &Form, text: &'a [u8], parts: &mut Parts) -> Option<&'a [u8]>
    requires { parts.old ≡ no_parts }
    ensures value { option_map (λ rest. (parts.new, rest.now)) result
        ≡ counted_reading form.now text.now }
    ensures shorter { IfSome result (λ rest. length rest.now ≤ length text.now) }
{
    let items = form.items.items();
    let is_split = 0 < form.ahead && form.ahead <= items.len() && splits(items, form.ahead);
    match form.digits {
        Some(digits) if is_split => read_in_two(items, form.ahead, digits, text, parts),
        _ => {
            if !has_digits(form, text) {
                return None;
            }
            read_all(items, text, parts)
        }
    }
}

// Reads a text into parts, and returns what follows.
#[inline(always)]
fn read_all<'a>(items: &[Item], text: &'a [u8], parts: &mut Parts) -> Option<&'a [u8]>
    ensures value { option_map (λ rest. (parts.new, rest.now)) result
        ≡ if_read (front_of items.now text.now parts.old) }
    ensures shorter { IfSome result (λ rest. length rest.now ≤ length text.now) }
{
    match parse_front_into(items, text, parts) {
        Ok(rest) => Some(rest),
        Err(_) => None,
    }
}

// Reads a text into no parts, first by the items before the digits, and then by the others if there are as many digits.
fn read_in_two<'a>(
    items: &[Item],
    ahead: usize,
    digits: usize,
    text: &'a [u8],
    parts: &mut Parts,
) -> Option<&'a [u8]>
    requires ahead { ahead ≤ length items.now }
    ensures value { option_map (λ rest. (parts.new, rest.now)) result
        ≡ reading_in_two (take ahead items.now) (drop ahead items.now) digits text.now parts.old }
    ensures shorter { IfSome result (λ rest. length rest.now ≤ length text.now) }
{
    let Some(rest) = read_all(&items[..ahead], text, parts) else {
        return None;
    };
    if digit_count(&text[text.len() - rest.len()..]) != digits {
        return None;
    }
    read_all(&items[ahead..], rest, parts)
}

// Whether no group goes past the first items, as many as the count, and none after them is in place of one of theirs.
#[tactic(auto, unfolding(crate::specs::Splits::splits))]
fn splits(items: &[Item], count: usize) -> bool
    ensures { result ≡ splits count items.now }
{
    let Some((item, others)) = items.split_first() else {
        return true;
    };
    if count == 0 {
        return !is_other(*item);
    }
    ends_within(count - 1, *item) && splits(others, count - 1)
}

// Whether an item is the head of a group in place of another.
fn is_other(item: Item) -> bool
    ensures { result ≡ is_other item }
{
    match item {
        Item::Or(_) => true,
        Item::Byte(_) | Item::Part(_) | Item::Optional(_) | Item::First(_) => false,
    }
}

// Whether the group of an item ends within the next items, as many as the count.
fn ends_within(count: usize, item: Item) -> bool
    ensures { result ≡ ends_within count item }
{
    match item {
        Item::Byte(_) | Item::Part(_) => true,
        Item::Optional(size) | Item::First(size) | Item::Or(size) => !(count < size),
    }
}

// Whether a text has as many digits as the form counts.
#[tactic(auto, using(crate::proofs::FrontLemmas::counted_in_front))]
fn has_digits(form: &Form, text: &[u8]) -> bool
    ensures { result ≡ has_digits form.now text.now }
{
    let Some(digits) = form.digits else {
        return true;
    };
    if form.ahead == 0 {
        return digit_count(text) == digits;
    }
    match parse_front(ahead_of(form), text) {
        Ok((_, ahead)) => digit_count(&text[ahead..]) == digits,
        Err(_) => false,
    }
}

// The items before the digits that are counted.
fn ahead_of(form: &Form) -> &[Item]
    ensures { result.now ≡ take form.now.ahead form.now.items }
{
    let items = form.items.items();
    if form.ahead < items.len() {
        &items[..form.ahead]
    } else {
        items
    }
}

// The number of digits at the front of a text.
pub(crate) fn digit_count(text: &[u8]) -> usize
    ensures value { result ≡ length (take_while is_ascii_digit text.now) }
    ensures at_most { result ≤ length text.now }
{
    let mut rest = text;
    while let Some((first, more)) = rest.split_first() {
        if !first.is_ascii_digit() {
            return text.len() - rest.len();
        }
        rest = more;
    }
    text.len()
}

// The stamp of these parts, which starts at a place of the front of a line, and of which a text begins with this many bytes, if it ends
// before the rest, and no time zone is before it.
fn ended_stamp(
    assumed: &Assumed,
    parts: &Parts,
    front: &[u8],
    start: usize,
    size: usize,
    text: &[u8],
) -> Result<Stamp, StampRefusal>
    requires within { size ≤ length text.now }
    requires short { start + size ≤ 65_533 }
    requires front { start ≤ length front.now }
    ensures stamp { result ≡ ended_stamp assumed.now parts.now front.now start size text.now }
    ensures within { IfOk result (λ stamp. stamp.start + stamp.length ≤ start + size) }
{
    let (stamp, rest) = (&text[..size], &text[size..]);
    if start + size > LONGEST_STAMP
        || !(is_apart(parts, stamp, rest) && follows_no_zone(parts, &front[..start]))
    {
        return Err(StampRefusal::Absent);
    }
    match instant_of_parts(assumed, parts) {
        Ok(instant) => Ok(Stamp {
            instant,
            start,
            length: size,
            is_zoned: opens_bracket(rest),
        }),
        Err(refusal) => Err(StampRefusal::Part(refusal)),
    }
}

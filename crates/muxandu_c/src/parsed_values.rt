//! Date-times of the parts that a text names.
ghost use Rattle.std.specs.Prelude.{◌≡◌, ◌==◌, Ok, Err, IsTrue};
ghost use Rattle.calendar_values.specs.WallClock.{wall_clock};
ghost use Rattle.offset_times.specs.Local.{wall_at};
ghost use Rattle.format_descriptions.specs.PartPlaces.{has_part};
ghost use Rattle.muxandu_c.specs.Parses.{value_fault, refused_value, part_at_fault, place_of_fault, place_or_end, value_by_kind};
ghost use Rattle.muxandu_c.specs.Parses.{offset_value, plain_value, date_value, time_value, utc_offset_value, zoned_value};
ghost use Rattle.muxandu_c.specs.Parses.{counted_value, offset_or_utc, shown_value, with_rest, number_or, signed_or, agreeing_value, whole_value};
ghost use Rattle.muxandu_c.specs.Parses.{finest_count, has_count};
ghost use Rattle.muxandu_c.specs.Values.{date_time_parts};

use crate::outcomes::Fault;
use crate::parts::{date_time_of, shown_as_if_utc, wall_of, wall_parts};
use crate::reasons::reason_of_field;
use crate::refused::Refused;
use crate::values::MuxanduDateTime;
use calendar_values::{Date, Time, UtcOffset};
use format_descriptions::{Field, Item, PartPlace, Parts, ValueRefusal, part_place};
use offset_times::OffsetDateTime;
use stamp_times::Timestamp;

// The date-time of parts, if the kind is one.
#[tactic(auto, unfolding(crate::specs::Parses::value_by_kind))]
pub(crate) fn value_by_kind(
    kind: u32,
    parts: &Parts,
) -> Option<Result<MuxanduDateTime, ValueRefusal>>
    ensures { result ≡ value_by_kind kind parts.now }
{
    match kind {
        1 => Some(zoned_value(parts)),
        2 => Some(plain_value(parts)),
        3 => Some(date_value(parts)),
        4 => Some(time_value(parts)),
        5 => Some(utc_offset_value(parts)),
        _ => None,
    }
}

// The error of parts that are no value: the error alone, and with the part and its place in the text.
pub(crate) fn refused_value(refusal: ValueRefusal) -> Refused
    ensures { result ≡ refused_value refusal }
{
    match refusal {
        ValueRefusal::Missing(_) => Refused::Syntax,
        ValueRefusal::Wrong(_) => Refused::Result,
    }
}

pub(crate) fn value_fault(items: &[Item], text: &[u8], refusal: ValueRefusal) -> Fault
    ensures { result ≡ value_fault items.now text.now refusal }
{
    Fault {
        place: place_of_fault(items, text, refusal),
        refused: refused_value(refusal),
        reason: reason_of_field(part_at_fault(refusal)),
    }
}

// The part that is at fault.
pub(crate) fn part_at_fault(refusal: ValueRefusal) -> Field
    ensures { result ≡ part_at_fault refusal }
{
    match refusal {
        ValueRefusal::Missing(field) | ValueRefusal::Wrong(field) => field,
    }
}

// Its place in the text.
fn place_of_fault(items: &[Item], text: &[u8], refusal: ValueRefusal) -> usize
    ensures { result ≡ place_of_fault items.now text.now refusal }
{
    match refusal {
        ValueRefusal::Missing(_) => 0,
        ValueRefusal::Wrong(field) => place_or_end(text, part_place(items, text, field)),
    }
}

// The place of a part in a text, or the length of a text that has no such part.
fn place_or_end(text: &[u8], found: Option<PartPlace>) -> usize
    ensures { result ≡ place_or_end text.now found }
{
    match found {
        Some(at) => at.place,
        None => text.len(),
    }
}

// The parts of a date and a time of day at an offset.
fn parts_of(date: Date, time: Time, offset: UtcOffset) -> MuxanduDateTime
    ensures { result ≡ date_time_parts (wall_at (wall_clock date time) offset) }
{
    date_time_of(OffsetDateTime::new_in_offset(date, time, offset))
}

fn date_value(parts: &Parts) -> Result<MuxanduDateTime, ValueRefusal>
    ensures { result ≡ date_value parts.now }
{
    let date = parts.date()?;
    Ok(parts_of(date, Time::MIDNIGHT, UtcOffset::UTC))
}

fn time_value(parts: &Parts) -> Result<MuxanduDateTime, ValueRefusal>
    ensures { result ≡ time_value parts.now }
{
    let time = parts.time()?;
    Ok(parts_of(Date::UNIX_EPOCH, time, UtcOffset::UTC))
}

fn utc_offset_value(parts: &Parts) -> Result<MuxanduDateTime, ValueRefusal>
    ensures { result ≡ utc_offset_value parts.now }
{
    let offset = parts.offset()?;
    Ok(parts_of(Date::UNIX_EPOCH, Time::MIDNIGHT, offset))
}

fn plain_value(parts: &Parts) -> Result<MuxanduDateTime, ValueRefusal>
    ensures { result ≡ plain_value parts.now }
{
    let date = parts.date()?;
    let time = parts.time()?;
    Ok(parts_of(date, time, UtcOffset::UTC))
}

pub(crate) fn offset_value(parts: &Parts) -> Result<MuxanduDateTime, ValueRefusal>
    ensures { result ≡ offset_value parts.now }
{
    let date = parts.date()?;
    let time = parts.time()?;
    let offset = parts.offset()?;
    Ok(parts_of(date, time, offset))
}

// The date-time of a Unix timestamp, or else of a date, a time of day and an offset.
fn zoned_value(parts: &Parts) -> Result<MuxanduDateTime, ValueRefusal>
    ensures { result ≡ zoned_value parts.now }
{
    match parts.timestamp() {
        Ok(at) => counted_value(parts, at),
        Err(ValueRefusal::Missing(_)) => offset_value(parts),
        Err(ValueRefusal::Wrong(field)) => Err(ValueRefusal::Wrong(field)),
    }
}

// The date-time of an instant at the offset of the parts, if they agree with it.
fn counted_value(parts: &Parts, at: Timestamp) -> Result<MuxanduDateTime, ValueRefusal>
    ensures { result ≡ counted_value parts.now at }
{
    let offset = offset_or_utc(parts)?;
    match shown_as_if_utc(at, offset.whole_seconds()) {
        Ok(wall) => shown_value(parts, wall, offset),
        Err(_) => Err(ValueRefusal::Wrong(Field::OffsetHour)),
    }
}

// The offset of the parts, or that of UTC.
fn offset_or_utc(parts: &Parts) -> Result<UtcOffset, ValueRefusal>
    ensures { result ≡ offset_or_utc parts.now }
{
    match parts.offset() {
        Ok(offset) => Ok(offset),
        Err(ValueRefusal::Missing(_)) => Ok(UtcOffset::UTC),
        Err(ValueRefusal::Wrong(field)) => Err(ValueRefusal::Wrong(field)),
    }
}

// The date-time that clocks at an offset show, if the parts agree with it.
fn shown_value(
    parts: &Parts,
    wall: Timestamp,
    offset: UtcOffset,
) -> Result<MuxanduDateTime, ValueRefusal>
    ensures { result ≡ shown_value parts.now wall offset }
{
    let whole = with_rest(*parts, wall_parts(wall, offset.whole_seconds()));
    whole_value(&whole, wall, offset)
}

// The same of parts that lack none.
fn whole_value(
    whole: &Parts,
    wall: Timestamp,
    offset: UtcOffset,
) -> Result<MuxanduDateTime, ValueRefusal>
    ensures { result ≡ whole_value whole.now wall offset }
{
    let date = whole.date()?;
    let time = whole.time()?;
    agreeing_value(
        whole,
        wall,
        OffsetDateTime::new_in_offset(date, time, offset),
    )
}

// The date-time of this wall clock, if it shows that. Else the timestamp of the parts is wrong.
fn agreeing_value(
    parts: &Parts,
    wall: Timestamp,
    at: OffsetDateTime,
) -> Result<MuxanduDateTime, ValueRefusal>
    ensures { result ≡ agreeing_value parts.now wall at }
{
    if wall_of(at) == wall {
        Ok(date_time_of(at))
    } else {
        Err(ValueRefusal::Wrong(finest_count(parts)))
    }
}

// The Unix timestamp that names the instant of parts: the finest that they have.
#[tactic(auto, unfolding(crate::specs::Parses::finest_count, format_descriptions::specs::PartPlaces::has_part))]
fn finest_count(parts: &Parts) -> Field
    ensures finest { result ≡ finest_count parts.now }
    ensures known { IsTrue (has_count parts.now) → IsTrue (has_part result parts.now) }
{
    if parts.unix_nanosecond.is_some() {
        Field::UnixNanosecond
    } else if parts.unix_microsecond.is_some() {
        Field::UnixMicrosecond
    } else if parts.unix_millisecond.is_some() {
        Field::UnixMillisecond
    } else {
        Field::UnixSecond
    }
}

// The parts with those of a date-time where the text does not give them.
#[tactic(auto, unfolding(crate::specs::Parses::with_rest))]
fn with_rest(parts: Parts, at: MuxanduDateTime) -> Parts
    ensures { result ≡ with_rest parts at }
{
    Parts {
        year: signed_or(parts.year, at.year),
        month: number_or(parts.month, at.month as u32),
        day: number_or(parts.day, at.day as u32),
        hour: number_or(parts.hour, at.hour as u32),
        minute: number_or(parts.minute, at.minute as u32),
        second: number_or(parts.second, at.second as u32),
        nanosecond: number_or(parts.nanosecond, at.nanosecond),
        ..parts
    }
}

fn number_or(known: Option<u32>, number: u32) -> Option<u32>
    ensures { result ≡ number_or known number }
{
    match known {
        Some(known) => Some(known),
        None => Some(number),
    }
}

fn signed_or(known: Option<i32>, number: i32) -> Option<i32>
    ensures { result ≡ signed_or known number }
{
    match known {
        Some(known) => Some(known),
        None => Some(number),
    }
}

//! The stamps of lines whose wall clocks are those of a time zone.
ghost use Rattle.std.specs.Prelude.{◌≡◌, ◌+◌, ◌≤◌, IfOk, drop, length};
ghost use Rattle.log_forms.specs.Years.{assumed_after};
ghost use Rattle.stamps.specs.LineStamps.{has_mark, mark_length};
ghost use Rattle.stamps.specs.Showings.{IsFormShowing, IsLineShowing, IsWallShowing, wall_if_ok, wall_unless_ok, zone_wall};
ghost use Rattle.stamps.specs.Zoned.{assumed_stamp, at_instant, in_zone, stamp_by, with_zone, zone_of, zoned_stamp};

use crate::readers::{FormReader, Reader, mark_length};
use calendar_values::UtcOffset;
use format_descriptions::{Field, ValueRefusal};
use log_forms::{Assumed, Stamp, StampRefusal, assumed_after, lacks_offset, stamp_at};
use log_zones::{NoInstant, Showing, instant_in, showing_in};
use utc_times::UtcDateTime;
use zones::OwnedZone;

/// The reader with a zone, or with none. That of RFC 3339 at the front needs none.
pub fn with_zone(reader: Reader, zone: Option<&'static OwnedZone>) -> Reader
    ensures { result ≡ with_zone zone.entry reader }
{
    match reader {
        Reader::Plain => Reader::Plain,
        Reader::Formed(reader) => Reader::Formed(FormReader { zone, ..reader }),
    }
}

/// The stamp of a text in a form, by what is assumed. If the reader has a time zone, the instant of
/// a stamp without an offset is the earliest at which the clocks of the zone show it. A stamp that
/// they never show has an hour that is out of range.
pub fn assumed_stamp(
    reader: &FormReader,
    assumed: &Assumed,
    text: &[u8],
) -> Result<Stamp, StampRefusal>
    ensures stamp { result ≡ assumed_stamp (zone_of reader.now) reader.now assumed.now text.now }
    ensures within { IfOk result (λ stamp. stamp.start + stamp.length ≤ length text.now) }
{
    match reader.zone {
        None => stamp_by(reader, assumed, text),
        Some(zone) => zoned_stamp(zone, reader, assumed, text),
    }
}

// The stamp of a text in a form, by an assumed offset.
#[inline(always)]
fn stamp_by(reader: &FormReader, assumed: &Assumed, text: &[u8]) -> Result<Stamp, StampRefusal>
    ensures stamp { result ≡ stamp_by reader.now assumed.now text.now }
    ensures within { IfOk result (λ stamp. stamp.start + stamp.length ≤ length text.now) }
{
    stamp_at(
        &reader.form,
        reader.place,
        reader.text.items(),
        assumed,
        text,
    )
}

// The stamp of a text in a form: with an offset of its own, or else by a zone. A form without an offset is read once.
#[inline(never)]
fn zoned_stamp(
    zone: &OwnedZone,
    reader: &FormReader,
    assumed: &Assumed,
    text: &[u8],
) -> Result<Stamp, StampRefusal>
    ensures stamp { result ≡ zoned_stamp zone.now reader.now assumed.now text.now }
    ensures within { IfOk result (λ stamp. stamp.start + stamp.length ≤ length text.now) }
{
    if !lacks_offset(&reader.form) {
        let none = Assumed {
            offset: None,
            ..*assumed
        };
        if let Ok(stamp) = stamp_by(reader, &none, text) {
            return Ok(stamp);
        }
    }
    let as_utc = Assumed {
        offset: Some(UtcOffset::UTC),
        ..*assumed
    };
    in_zone(zone, stamp_by(reader, &as_utc, text))
}

// A stamp whose wall clock is that of a zone. As it was read, its instant is that of clocks in UTC.
fn in_zone(zone: &OwnedZone, stamp: Result<Stamp, StampRefusal>) -> Result<Stamp, StampRefusal>
    ensures { result ≡ in_zone zone.now stamp }
{
    match stamp {
        Ok(stamp) => at_instant(stamp, instant_in(zone, stamp.instant)),
        Err(refusal) => Err(refusal),
    }
}

// A stamp at the instant of its wall clock, if there is one.
fn at_instant(stamp: Stamp, instant: Result<UtcDateTime, NoInstant>) -> Result<Stamp, StampRefusal>
    ensures { result ≡ at_instant stamp instant }
{
    match instant {
        Ok(instant) => Ok(Stamp { instant, ..stamp }),
        Err(NoInstant::Skipped) => Err(StampRefusal::Part(ValueRefusal::Wrong(Field::Hour))),
        Err(NoInstant::OutOfRange) => Err(StampRefusal::Part(ValueRefusal::Wrong(Field::Year))),
    }
}

/// How often the clocks of the zone of a reader show the wall clock of a line, by the last instant
/// before it and by whether it is the first line. None if the line has no stamp that the zone gives
/// an instant.
pub fn line_showing(
    reader: &Reader,
    last: Option<UtcDateTime>,
    is_first: bool,
    line: &[u8],
) -> Option<Showing>
    ensures { IsLineShowing reader.now last (mark_length (has_mark is_first line.now)) line.now
        result }
{
    let before = mark_length(is_first, line);
    match reader {
        Reader::Plain => None,
        Reader::Formed(reader) => form_showing(reader, last, &line[before..]),
    }
}

// How often the clocks of the zone of a reader show the wall clock of a text.
fn form_showing(reader: &FormReader, last: Option<UtcDateTime>, text: &[u8]) -> Option<Showing>
    ensures { IsFormShowing (zone_of reader.now) reader.now last text.now result }
{
    let Some(zone) = reader.zone else {
        return None;
    };
    let assumed = assumed_after(&reader.assumed, last);
    wall_showing(zone, zone_wall(reader, &assumed, text))
}

// How often the clocks of a zone show a wall clock, if there is one.
fn wall_showing(zone: &OwnedZone, wall: Option<UtcDateTime>) -> Option<Showing>
    ensures { IsWallShowing zone.now wall result }
{
    match wall {
        Some(wall) => Some(showing_in(zone, wall)),
        None => None,
    }
}

// The wall clock of a stamp without an offset of its own, as the instant at which clocks in UTC show it.
fn zone_wall(reader: &FormReader, assumed: &Assumed, text: &[u8]) -> Option<UtcDateTime>
    ensures { result ≡ zone_wall reader.now assumed.now text.now }
{
    let as_utc = Assumed {
        offset: Some(UtcOffset::UTC),
        ..*assumed
    };
    let wall = wall_if_ok(stamp_by(reader, &as_utc, text));
    if lacks_offset(&reader.form) {
        return wall;
    }
    let none = Assumed {
        offset: None,
        ..*assumed
    };
    wall_unless_ok(stamp_by(reader, &none, text), wall)
}

// The wall clock of a stamp that was read by clocks in UTC, if there is a stamp.
fn wall_if_ok(stamp: Result<Stamp, StampRefusal>) -> Option<UtcDateTime>
    ensures { result ≡ wall_if_ok stamp }
{
    match stamp {
        Ok(stamp) => Some(stamp.instant),
        Err(_) => None,
    }
}

// The wall clock, unless there is a stamp with an offset of its own.
fn wall_unless_ok(
    own: Result<Stamp, StampRefusal>,
    wall: Option<UtcDateTime>,
) -> Option<UtcDateTime>
    ensures { result ≡ wall_unless_ok own wall }
{
    match own {
        Ok(_) => None,
        Err(_) => wall,
    }
}

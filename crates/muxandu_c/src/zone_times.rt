//! Date-times on the clocks of time zones.
ghost use Rattle.muxandu_c.specs.ZoneOffsets.{AnswersBy};
ghost use Rattle.muxandu_c.specs.ZoneTimes.{IsNext, IsNextIn, IsNextOf, IsPrevious, IsPreviousIn, IsPreviousOf};
ghost use Rattle.muxandu_c.specs.ZoneTimes.{IsShown, IsShownAt, IsShownIn};

use crate::parts::{date_time_of, read_timestamp};
use crate::refused::{MuxanduStatus, Refused, answer};
use crate::values::{MuxanduDateTime, MuxanduTimestamp};
use crate::zone_numbers::{
    MUXANDU_ZONE_ROOM, MuxanduTransition, MuxanduZone, no_transition, read_table, zone_of,
};
use crate::zone_writes::numbers_of_transition;
use stamp_times::Timestamp;
use zoned_times::ToZone;
use zones::Zone;

// The date-time that the clocks of a zone show at an instant.
pub(crate) fn show_instant(zone: &Zone, at: Timestamp) -> Result<MuxanduDateTime, Refused>
    ensures { IsShown zone.now at result }
{
    match at.to_zone(zone) {
        Some(shown) => Ok(date_time_of(shown)),
        None => Err(Refused::Result),
    }
}

// The first transition after an instant.
fn next(zone: &Zone, at: Timestamp) -> Result<MuxanduTransition, Refused>
    ensures { IsNext zone.now at result }
{
    match at.next_transition_in_zone(zone) {
        Some(row) => Ok(numbers_of_transition(row)),
        None => Err(Refused::Result),
    }
}

// The last transition before an instant.
fn previous(zone: &Zone, at: Timestamp) -> Result<MuxanduTransition, Refused>
    ensures { IsPrevious zone.now at result }
{
    match at.previous_transition_in_zone(zone) {
        Some(row) => Ok(numbers_of_transition(row)),
        None => Err(Refused::Result),
    }
}

// The date-time that the clocks of a zone show at an instant, of a zone of these numbers.
fn shown_in(
    zone: MuxanduZone,
    table: &[MuxanduTransition],
    at: Timestamp,
) -> Result<MuxanduDateTime, Refused>
    ensures { IsShownIn zone table.now at result }
{
    let mut room = [no_transition(); MUXANDU_ZONE_ROOM];
    let count = match read_table(table, &mut room) {
        Ok(count) => count,
        Err(refused) => return Err(refused),
    };
    match zone_of(zone, table, &room[..count]) {
        Ok(zone) => show_instant(&zone, at),
        Err(refused) => Err(refused),
    }
}

// The first transition after an instant, of a zone of these numbers.
fn next_in(
    zone: MuxanduZone,
    table: &[MuxanduTransition],
    at: Timestamp,
) -> Result<MuxanduTransition, Refused>
    ensures { IsNextIn zone table.now at result }
{
    let mut room = [no_transition(); MUXANDU_ZONE_ROOM];
    let count = match read_table(table, &mut room) {
        Ok(count) => count,
        Err(refused) => return Err(refused),
    };
    match zone_of(zone, table, &room[..count]) {
        Ok(zone) => next(&zone, at),
        Err(refused) => Err(refused),
    }
}

// The last transition before an instant, of a zone of these numbers.
fn previous_in(
    zone: MuxanduZone,
    table: &[MuxanduTransition],
    at: Timestamp,
) -> Result<MuxanduTransition, Refused>
    ensures { IsPreviousIn zone table.now at result }
{
    let mut room = [no_transition(); MUXANDU_ZONE_ROOM];
    let count = match read_table(table, &mut room) {
        Ok(count) => count,
        Err(refused) => return Err(refused),
    };
    match zone_of(zone, table, &room[..count]) {
        Ok(zone) => previous(&zone, at),
        Err(refused) => Err(refused),
    }
}

// The date-time that the clocks of a zone show at the instant of a timestamp.
fn timestamp_to_zone(
    at: MuxanduTimestamp,
    zone: MuxanduZone,
    table: &[MuxanduTransition],
) -> Result<MuxanduDateTime, Refused>
    ensures { IsShownAt zone table.now at result }
{
    match read_timestamp(at) {
        Ok(at) => shown_in(zone, table, at),
        Err(refused) => Err(refused),
    }
}

// The first transition after the instant of a timestamp.
fn zone_next_transition(
    zone: MuxanduZone,
    table: &[MuxanduTransition],
    at: MuxanduTimestamp,
) -> Result<MuxanduTransition, Refused>
    ensures { IsNextOf zone table.now at result }
{
    match read_timestamp(at) {
        Ok(at) => next_in(zone, table, at),
        Err(refused) => Err(refused),
    }
}

// The last transition before the instant of a timestamp.
fn zone_previous_transition(
    zone: MuxanduZone,
    table: &[MuxanduTransition],
    at: MuxanduTimestamp,
) -> Result<MuxanduTransition, Refused>
    ensures { IsPreviousOf zone table.now at result }
{
    match read_timestamp(at) {
        Ok(at) => previous_in(zone, table, at),
        Err(refused) => Err(refused),
    }
}

/// The date-time that the clocks of a time zone show at an instant. Errors, in this order: those of
/// the timestamp, ZONE if the numbers are no zone, RESULT if the date is out of range.
#[unsafe(no_mangle)]
pub extern "C" fn muxandu_timestamp_to_zone(
    at: MuxanduTimestamp,
    zone: MuxanduZone,
    transitions: &[MuxanduTransition],
    out: &mut MuxanduDateTime,
) -> MuxanduStatus
    ensures { AnswersBy result out.old out.new (IsShownAt zone transitions.now at) }
{
    answer(timestamp_to_zone(at, zone, transitions), out)
}

/// The first transition of a time zone after an instant. Errors, in this order: those of the
/// timestamp, ZONE if the numbers are no zone, RESULT if there is none.
#[unsafe(no_mangle)]
pub extern "C" fn muxandu_zone_next_transition(
    zone: MuxanduZone,
    transitions: &[MuxanduTransition],
    at: MuxanduTimestamp,
    out: &mut MuxanduTransition,
) -> MuxanduStatus
    ensures { AnswersBy result out.old out.new (IsNextOf zone transitions.now at) }
{
    answer(zone_next_transition(zone, transitions, at), out)
}

/// The last transition of a time zone before an instant. Errors: those of
/// muxandu_zone_next_transition.
#[unsafe(no_mangle)]
pub extern "C" fn muxandu_zone_previous_transition(
    zone: MuxanduZone,
    transitions: &[MuxanduTransition],
    at: MuxanduTimestamp,
    out: &mut MuxanduTransition,
) -> MuxanduStatus
    ensures { AnswersBy result out.old out.new (IsPreviousOf zone transitions.now at) }
{
    answer(zone_previous_transition(zone, transitions, at), out)
}

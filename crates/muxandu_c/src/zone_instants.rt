//! Wall clocks of time zones, and the instants that have them.
ghost use Rattle.std.specs.Prelude.{◌≡◌};
ghost use Rattle.muxandu_c.specs.ZoneInstants.{AreInstants, AreInstantsIn, AreInstantsOf};
ghost use Rattle.muxandu_c.specs.ZoneInstants.{IsChosen, IsChosenBy, IsChosenIn, IsChosenOf, IsChosenThen};
ghost use Rattle.muxandu_c.specs.ZoneInstants.{instants_as, instants_of_times};
ghost use Rattle.muxandu_c.specs.ZoneOffsets.{AnswersBy};

use crate::parts::{date_time_of, read_date_time};
use crate::refused::{MuxanduStatus, Refused, answer};
use crate::values::MuxanduDateTime;
use crate::zone_choices::{Choice, MuxanduChoice, choose, read_choice, refused_as};
use crate::zone_numbers::{
    MUXANDU_ZONE_ROOM, MuxanduTransition, MuxanduZone, no_transition, read_table, zone_of,
};
use offset_times::{Assume, OffsetDateTime};
use plain_times::PlainDateTime;
use zoned_times::{AtZone, LocalTimes};
use zones::Zone;

/// The instants at which the clocks of a time zone show a wall clock. There is one, or there are
/// two in a fold, where clocks are put back over it. There is none in a gap, where clocks are put
/// forward past it. Their Unix seconds may lie outside the range of timestamps by 93599.
#[repr(C)]
#[derive(Clone, Copy)]
pub struct MuxanduZoneInstants {
    /// The Unix second of the earlier instant, or of the only one. In a gap it is that of the
    /// instant that the offset after the gap makes of the wall clock.
    pub earlier_seconds: i64,
    /// The Unix second of the later instant, or of the only one. In a gap it is that of the instant
    /// that the offset before the gap makes of the wall clock.
    pub later_seconds: i64,
    /// The Unix second at which clocks are put forward in a gap, else 0.
    pub gap_second: i64,
    /// The nanosecond of both instants, 0 to 999999999: that of the wall clock.
    pub nanoseconds: u32,
    /// The offset of the earlier instant in seconds, in a gap that after it: -93599 to 93599.
    pub earlier_offset_seconds: i32,
    /// The offset of the later instant, in a gap that before it.
    pub later_offset_seconds: i32,
    /// The number of instants: 1, 2 in a fold, 0 in a gap.
    pub count: u32,
}

// The numbers of two instants.
fn instants_as(
    count: u32,
    earlier: OffsetDateTime,
    later: OffsetDateTime,
    gap_second: i64,
) -> MuxanduZoneInstants
    ensures { result ≡ instants_as count earlier later gap_second }
{
    MuxanduZoneInstants {
        earlier_seconds: earlier.unix_timestamp(),
        later_seconds: later.unix_timestamp(),
        gap_second,
        nanoseconds: earlier.nanosecond(),
        earlier_offset_seconds: earlier.offset().whole_seconds(),
        later_offset_seconds: later.offset().whole_seconds(),
        count,
    }
}

// The numbers of the instants of a wall clock.
fn instants_of_times(times: LocalTimes, wall: PlainDateTime) -> MuxanduZoneInstants
    ensures { result ≡ instants_of_times wall times }
{
    match times {
        LocalTimes::Single(at) => instants_as(1, at, at, 0),
        LocalTimes::Fold(earlier, later) => instants_as(2, earlier, later, 0),
        LocalTimes::Gap(gap, _, _) => instants_as(
            0,
            wall.assume_offset(gap.after),
            wall.assume_offset(gap.before),
            gap.second,
        ),
    }
}

// The instants of a wall clock.
fn instants_of(zone: &Zone, wall: PlainDateTime) -> MuxanduZoneInstants
    ensures { AreInstants zone.now wall result }
{
    instants_of_times(wall.at_zone(zone), wall)
}

// The date-time of a wall clock by a choice.
fn choose_at(zone: &Zone, wall: PlainDateTime, choice: Choice) -> Result<MuxanduDateTime, Refused>
    ensures { IsChosen zone.now wall choice result }
{
    match choose(wall.at_zone(zone), choice) {
        Ok(at) => Ok(date_time_of(at)),
        Err(refusal) => Err(refused_as(refusal)),
    }
}

// The date-time of a wall clock by the number of a choice.
pub(crate) fn choose_by(
    zone: &Zone,
    wall: PlainDateTime,
    choice: u32,
) -> Result<MuxanduDateTime, Refused>
    ensures { IsChosenThen zone.now wall choice result }
{
    match read_choice(choice) {
        Ok(choice) => choose_at(zone, wall, choice),
        Err(refused) => Err(refused),
    }
}

// The instants of a wall clock, of a zone of these numbers.
fn instants_in(
    zone: MuxanduZone,
    table: &[MuxanduTransition],
    wall: PlainDateTime,
) -> Result<MuxanduZoneInstants, Refused>
    ensures { AreInstantsIn zone table.now wall result }
{
    let mut room = [no_transition(); MUXANDU_ZONE_ROOM];
    let count = match read_table(table, &mut room) {
        Ok(count) => count,
        Err(refused) => return Err(refused),
    };
    match zone_of(zone, table, &room[..count]) {
        Ok(zone) => Ok(instants_of(&zone, wall)),
        Err(refused) => Err(refused),
    }
}

// The date-time of a wall clock by a choice, of a zone of these numbers.
fn chosen_in(
    zone: MuxanduZone,
    table: &[MuxanduTransition],
    wall: PlainDateTime,
    choice: Choice,
) -> Result<MuxanduDateTime, Refused>
    ensures { IsChosenIn zone table.now wall choice result }
{
    let mut room = [no_transition(); MUXANDU_ZONE_ROOM];
    let count = match read_table(table, &mut room) {
        Ok(count) => count,
        Err(refused) => return Err(refused),
    };
    match zone_of(zone, table, &room[..count]) {
        Ok(zone) => choose_at(&zone, wall, choice),
        Err(refused) => Err(refused),
    }
}

// The instants of the wall clock of a date-time.
fn zone_instants_of(
    zone: MuxanduZone,
    table: &[MuxanduTransition],
    local: MuxanduDateTime,
) -> Result<MuxanduZoneInstants, Refused>
    ensures { AreInstantsOf zone table.now local result }
{
    match read_date_time(local) {
        Ok(at) => instants_in(zone, table, at.date_time()),
        Err(refused) => Err(refused),
    }
}

// The date-time of a wall clock by the number of a choice, of a zone of these numbers.
fn chosen_by(
    zone: MuxanduZone,
    table: &[MuxanduTransition],
    wall: PlainDateTime,
    choice: u32,
) -> Result<MuxanduDateTime, Refused>
    ensures { IsChosenBy zone table.now wall choice result }
{
    match read_choice(choice) {
        Ok(choice) => chosen_in(zone, table, wall, choice),
        Err(refused) => Err(refused),
    }
}

// The date-time of the wall clock of a date-time by the number of a choice.
fn date_time_at_zone(
    local: MuxanduDateTime,
    zone: MuxanduZone,
    table: &[MuxanduTransition],
    choice: u32,
) -> Result<MuxanduDateTime, Refused>
    ensures { IsChosenOf zone table.now local choice result }
{
    match read_date_time(local) {
        Ok(at) => chosen_by(zone, table, at.date_time(), choice),
        Err(refused) => Err(refused),
    }
}

/// The instants at which the clocks of a time zone show the wall clock of a date-time: all of them.
/// The offset of the date-time does not count, but must be one. Errors, in this order: those of the
/// date-time, ZONE if the numbers are no zone.
#[unsafe(no_mangle)]
pub extern "C" fn muxandu_zone_instants_of(
    zone: MuxanduZone,
    transitions: &[MuxanduTransition],
    local: MuxanduDateTime,
    out: &mut MuxanduZoneInstants,
) -> MuxanduStatus
    ensures { AnswersBy result out.old out.new (AreInstantsOf zone transitions.now local) }
{
    answer(zone_instants_of(zone, transitions, local), out)
}

/// The date-time of a time zone with the wall clock of another one, by a choice where there are two
/// or none. In a gap it is the date-time that the zone shows then. The offset of the other does not
/// count, but must be one. Errors, in this order: those of the date-time, UNIT if the number is no
/// choice, ZONE if the numbers are no zone. With the choice REJECT also GAP and FOLD. RESULT if the
/// date of the date-time in place of a skipped one is out of range.
#[unsafe(no_mangle)]
pub extern "C" fn muxandu_date_time_at_zone(
    local: MuxanduDateTime,
    zone: MuxanduZone,
    transitions: &[MuxanduTransition],
    choice: MuxanduChoice,
    out: &mut MuxanduDateTime,
) -> MuxanduStatus
    ensures { AnswersBy result out.old out.new (IsChosenOf zone transitions.now local choice) }
{
    answer(date_time_at_zone(local, zone, transitions, choice), out)
}

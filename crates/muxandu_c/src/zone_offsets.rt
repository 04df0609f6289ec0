//! Offsets of time zones.
ghost use Rattle.zones.specs.Seconds.{IsSecond};
ghost use Rattle.muxandu_c.specs.ZoneOffsets.{AnswersBy, IsOffsetAt, IsOffsetIn};

use crate::parts::read_timestamp;
use crate::refused::{MuxanduStatus, Refused, answer};
use crate::values::MuxanduTimestamp;
use crate::zone_numbers::{
    MUXANDU_ZONE_ROOM, MuxanduTransition, MuxanduZone, no_transition, read_table, zone_of,
};

// The offset of a zone at a Unix second.
fn offset_in(zone: MuxanduZone, table: &[MuxanduTransition], second: i64) -> Result<i32, Refused>
    requires { IsSecond second }
    ensures { IsOffsetIn zone table.now second result }
{
    let mut room = [no_transition(); MUXANDU_ZONE_ROOM];
    let count = match read_table(table, &mut room) {
        Ok(count) => count,
        Err(refused) => return Err(refused),
    };
    match zone_of(zone, table, &room[..count]) {
        Ok(zone) => Ok(zone.offset_at(second)),
        Err(refused) => Err(refused),
    }
}

// The offset of a zone at an instant.
fn zone_offset_at(
    zone: MuxanduZone,
    table: &[MuxanduTransition],
    at: MuxanduTimestamp,
) -> Result<i32, Refused>
    ensures { IsOffsetAt zone table.now at result }
{
    match read_timestamp(at) {
        Ok(at) => offset_in(zone, table, at.as_seconds()),
        Err(refused) => Err(refused),
    }
}

/// The offset of a time zone at an instant, in seconds: that after the last transition at or before
/// it. Errors, in this order: those of the timestamp, ZONE if the numbers are no zone.
#[unsafe(no_mangle)]
pub extern "C" fn muxandu_zone_offset_at(
    zone: MuxanduZone,
    transitions: &[MuxanduTransition],
    at: MuxanduTimestamp,
    out: &mut i32,
) -> MuxanduStatus
    ensures { AnswersBy result out.old out.new (IsOffsetAt zone transitions.now at) }
{
    answer(zone_offset_at(zone, transitions, at), out)
}

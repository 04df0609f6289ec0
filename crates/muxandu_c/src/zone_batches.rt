//! Columns of instants and of wall clocks in time zones.
ghost use Rattle.std.specs.Prelude.{◌≡◌, ◌≤◌, IfErr, IfOk, Ok, Err, Result, length, take, drop};
ghost use Rattle.zones.specs.Intervals.{Holds, IsWithin};
ghost use Rattle.zones.specs.Seconds.{IsSecond};
ghost use Rattle.muxandu_c.specs.Batches.{AreValuesOf};
ghost use Rattle.muxandu_c.specs.ZoneBatches.{AreAllIn, AreChosenOf, AreOffsetsOf, AreShownOf};
ghost use Rattle.muxandu_c.specs.ZoneBatches.{IsChosenIn, IsOffsetIn, IsShownIn, second_value};
ghost use Rattle.muxandu_c.specs.declared.refused.Refused.{Refused};
ghost use Rattle.zones.specs.Zones.{ZoneParts};

use crate::batches::stop_at;
use crate::parts::{read_date_time, read_timestamp};
use crate::refused::Refused;
use crate::values::{MuxanduBatch, MuxanduDateTime, MuxanduTimestamp};
use crate::zone_choices::MuxanduChoice;
use crate::zone_instants::choose_by;
use crate::zone_numbers::{
    MUXANDU_ZONE_ROOM, MuxanduTransition, MuxanduZone, no_transition, read_table, zone_of,
};
use crate::zone_times::show_instant;
use zones::laws::intervals_hold;
use zones::{Interval, Zone};

// The interval of a second.
#[inline(always)]
fn interval_of(zone: &Zone, second: i64) -> Interval
    requires { IsSecond second }
    ensures holds { Holds zone.now result }
    ensures within { IsWithin result second }
{
    intervals_hold();
    zone.interval_at(second)
}

// The interval that is kept if the second lies in it, and else that of the second.
#[inline(always)]
fn interval_for(zone: &Zone, kept: Interval, second: i64) -> Interval
    requires second { IsSecond second }
    requires kept { Holds zone.now kept }
    ensures holds { Holds zone.now result }
    ensures within { IsWithin result second }
{
    if kept.contains(second) {
        return kept;
    }
    interval_of(zone, second)
}

// A Unix second of the range.
#[inline(always)]
fn read_second(seconds: i64) -> Result<i64, Refused>
    ensures value { result ≡ second_value seconds }
    ensures in_range { IfOk result IsSecond }
{
    let at = MuxanduTimestamp {
        seconds,
        nanoseconds: 0,
    };
    Ok(read_timestamp(at)?.as_seconds())
}

// The interval of an item, which may be no second of the range.
#[inline(always)]
fn interval_in(zone: &Zone, kept: Interval, item: i64) -> Result<Interval, Refused>
    requires { Holds zone.now kept }
    ensures holds { IfOk result (Holds zone.now) }
    ensures offset { IfOk result (λ found. IsOffsetIn zone.now item (Ok found.kind.offset)) }
    ensures refused { IfErr result (λ refusal. IsOffsetIn zone.now item (Err refusal)) }
{
    match read_second(item) {
        Ok(second) => Ok(interval_for(zone, kept, second)),
        Err(refused) => Err(refused),
    }
}

// The offset of a zone at each second, up to the first that is refused.
fn fill_offsets(zone: &Zone, seconds: &[i64], out: &mut [i32]) -> MuxanduBatch
    requires room { length seconds.now ≤ length out.old }
    ensures values { AreValuesOf (IsOffsetIn zone.now) seconds.now
        (take result.count out.new) result.status }
    ensures count { result.count ≤ length seconds.now }
    ensures behind { drop result.count out.new ≡ drop result.count out.old }
{
    let mut kept = interval_of(zone, 0);
    for (k, item) in seconds.iter().enumerate() {
        match interval_in(zone, kept, *item) {
            Ok(found) => kept = found,
            Err(refused) => return stop_at(k, refused),
        }
        out[k] = kept.kind.offset;
    }
    MuxanduBatch {
        count: seconds.len(),
        status: 0,
    }
}

/// The offset of a time zone at each Unix second, up to the first that muxandu_zone_offset_at
/// rejects. Seconds in their order take the least time, since the call looks up the first alone of
/// those between the same two transitions. Errors: BUFFER if `out` has fewer items than `seconds`,
/// ZONE if the numbers are no zone. After these two nothing is written. Else the error is that of
/// the first rejected item.
#[unsafe(no_mangle)]
pub extern "C" fn muxandu_zone_offsets_at(
    zone: MuxanduZone,
    transitions: &[MuxanduTransition],
    seconds: &[i64],
    out: &mut [i32],
) -> MuxanduBatch
    ensures { AreOffsetsOf zone transitions.now seconds.now result out.old out.new }
{
    if out.len() < seconds.len() {
        return stop_at(0, Refused::Buffer);
    }
    let mut room = [no_transition(); MUXANDU_ZONE_ROOM];
    let count = match read_table(transitions, &mut room) {
        Ok(count) => count,
        Err(refused) => return stop_at(0, refused),
    };
    match zone_of(zone, transitions, &room[..count]) {
        Ok(zone) => fill_offsets(&zone, seconds, out),
        Err(refused) => stop_at(0, refused),
    }
}

// What a zone makes of each item of a batch, or an error.
trait InZone<A, B>: Copy {
    /// The results that an item may have.
    ghost makes: { Self → ZoneParts → A → Result B Refused → Type 0 };

    fn make(self, zone: &Zone, item: A) -> Result<B, Refused>
        ensures { makes self zone.now item result };
}

// What a zone makes of each item, up to the first that is refused.
#[inline(always)]
fn fill_in_zone<A: Copy, B: Copy, C: InZone<A, B>>(
    maker: C,
    zone: &Zone,
    items: &[A],
    out: &mut [B],
) -> MuxanduBatch
    requires room { length items.now ≤ length out.old }
    ensures values { AreValuesOf (C.makes maker zone.now) items.now
        (take result.count out.new) result.status }
    ensures count { result.count ≤ length items.now }
    ensures behind { drop result.count out.new ≡ drop result.count out.old }
{
    for (k, item) in items.iter().enumerate() {
        match maker.make(zone, *item) {
            Ok(value) => out[k] = value,
            Err(refused) => return stop_at(k, refused),
        }
    }
    MuxanduBatch {
        count: items.len(),
        status: 0,
    }
}

// The same of a zone of these numbers, if there is room.
fn convert_in_zone<A: Copy, B: Copy, C: InZone<A, B>>(
    maker: C,
    zone: MuxanduZone,
    table: &[MuxanduTransition],
    items: &[A],
    out: &mut [B],
) -> MuxanduBatch
    ensures { AreAllIn (C.makes maker) zone table.now items.now result out.old out.new }
{
    if out.len() < items.len() {
        return stop_at(0, Refused::Buffer);
    }
    let mut room = [no_transition(); MUXANDU_ZONE_ROOM];
    let count = match read_table(table, &mut room) {
        Ok(count) => count,
        Err(refused) => return stop_at(0, refused),
    };
    match zone_of(zone, table, &room[..count]) {
        Ok(zone) => fill_in_zone(maker, &zone, items, out),
        Err(refused) => stop_at(0, refused),
    }
}

// The date-time that the clocks of a zone show at a timestamp.
#[derive(Clone, Copy)]
struct Show;

impl InZone<MuxanduTimestamp, MuxanduDateTime> for Show {
    ghost makes = { λ maker z item result. IsShownIn z item result };

    fn make(self, zone: &Zone, item: MuxanduTimestamp) -> Result<MuxanduDateTime, Refused> {
        match read_timestamp(item) {
            Ok(at) => show_instant(zone, at),
            Err(refused) => Err(refused),
        }
    }
}

// The date-time of a zone with the wall clock of a date-time, by the number of a choice.
#[derive(Clone, Copy)]
struct Choose {
    choice: u32,
}

impl InZone<MuxanduDateTime, MuxanduDateTime> for Choose {
    ghost makes = { λ maker z item result. IsChosenIn maker.choice z item result };

    fn make(self, zone: &Zone, item: MuxanduDateTime) -> Result<MuxanduDateTime, Refused> {
        match read_date_time(item) {
            Ok(at) => choose_by(zone, at.date_time(), self.choice),
            Err(refused) => Err(refused),
        }
    }
}

/// The date-time that the clocks of a time zone show at each timestamp, up to the first that
/// muxandu_timestamp_to_zone rejects. Errors: BUFFER if `out` has fewer items than `timestamps`,
/// ZONE if the numbers are no zone. After these two nothing is written. Else the error is that of
/// the first rejected item.
#[unsafe(no_mangle)]
pub extern "C" fn muxandu_timestamps_to_zone(
    timestamps: &[MuxanduTimestamp],
    zone: MuxanduZone,
    transitions: &[MuxanduTransition],
    out: &mut [MuxanduDateTime],
) -> MuxanduBatch
    ensures { AreShownOf zone transitions.now timestamps.now result out.old out.new }
{
    convert_in_zone(Show, zone, transitions, timestamps, out)
}

/// The date-time of a time zone with the wall clock of each date-time, by a choice where there are
/// two or none, up to the first that muxandu_date_time_at_zone rejects. Errors: BUFFER if `out` has
/// fewer items than `locals`, ZONE if the numbers are no zone. After these two nothing is written.
/// Else the error is that of the first rejected item.
#[unsafe(no_mangle)]
pub extern "C" fn muxandu_date_times_at_zone(
    locals: &[MuxanduDateTime],
    zone: MuxanduZone,
    transitions: &[MuxanduTransition],
    choice: MuxanduChoice,
    out: &mut [MuxanduDateTime],
) -> MuxanduBatch
    ensures { AreChosenOf choice zone transitions.now locals.now result out.old out.new }
{
    convert_in_zone(Choose { choice }, zone, transitions, locals, out)
}

//! Kinds of local time of time zones, and their abbreviations.
ghost use Rattle.std.specs.Prelude.{◌≡◌, length, Some, []};
ghost use Rattle.zones.specs.Seconds.{IsSecond};
ghost use Rattle.zone_files.specs.Kinds.{name_of_rule};
ghost use Rattle.zone_files.specs.Rules.{rule_parts};
ghost use Rattle.muxandu_c.specs.Descriptions.{source_over};
ghost use Rattle.muxandu_c.specs.Outcomes.{outcome_of, size_of};
ghost use Rattle.muxandu_c.specs.ZoneNumbers.{IsTypeOf};
ghost use Rattle.muxandu_c.specs.ZoneOffsets.{AnswersBy};
ghost use Rattle.muxandu_c.specs.ZoneTypes.{IsTypeAt, IsTypeIn, name_in_room, name_in_rule, name_in_tzif};

use crate::outcomes::{MuxanduOutcome, outcome_of};
use crate::parts::read_timestamp;
use crate::refused::{MuxanduStatus, Refused, answer};
use crate::values::MuxanduTimestamp;
use crate::zone_numbers::{
    MUXANDU_ZONE_ROOM, MuxanduTransition, MuxanduZone, no_transition, read_table, zone_of,
};
use crate::zone_reads::{fault_of_file, fault_of_rule};
use crate::zone_writes::mark;
use zone_files::{TzRule, ZoneFile, parse_rule};
use zones::TimeType;

/// A kind of local time of a time zone.
#[repr(C)]
#[derive(Clone, Copy)]
pub struct MuxanduTimeType {
    /// The offset in seconds: -93599 to 93599.
    pub offset_seconds: i32,
    /// The number of the abbreviation.
    pub designation: u16,
    /// 1 for daylight saving time, else 0.
    pub is_daylight: u8,
}

// The numbers of a kind of local time.
fn numbers_of_kind(kind: TimeType) -> MuxanduTimeType
    ensures { IsTypeOf result.offset_seconds result.designation result.is_daylight kind }
{
    MuxanduTimeType {
        offset_seconds: kind.offset,
        designation: kind.designation,
        is_daylight: mark(kind.is_daylight),
    }
}

// The kind of local time of a zone at a Unix second.
fn type_in(
    zone: MuxanduZone,
    table: &[MuxanduTransition],
    second: i64,
) -> Result<MuxanduTimeType, Refused>
    requires { IsSecond second }
    ensures { IsTypeIn zone table.now second result }
{
    let mut room = [no_transition(); MUXANDU_ZONE_ROOM];
    let count = match read_table(table, &mut room) {
        Ok(count) => count,
        Err(refused) => return Err(refused),
    };
    match zone_of(zone, table, &room[..count]) {
        Ok(zone) => Ok(numbers_of_kind(zone.type_at(second))),
        Err(refused) => Err(refused),
    }
}

// The kind of local time of a zone at an instant.
fn zone_type_at(
    zone: MuxanduZone,
    table: &[MuxanduTransition],
    at: MuxanduTimestamp,
) -> Result<MuxanduTimeType, Refused>
    ensures { IsTypeAt zone table.now at result }
{
    match read_timestamp(at) {
        Ok(at) => type_in(zone, table, at.as_seconds()),
        Err(refused) => Err(refused),
    }
}

// The abbreviation of a rule with a number, or no bytes.
fn name_in(rule: TzRule<'_>, number: u16) -> &[u8]
    ensures { result.now ≡ name_of_rule (Some (rule_parts rule.entry)) [] number }
{
    if number == 256 {
        return rule.name;
    }
    if number == 257 {
        if let Some(daylight) = rule.daylight {
            return daylight.name;
        }
    }
    &[]
}

// Puts an abbreviation at the front of a buffer, if it has room.
fn put_name(name: &[u8], buffer: &mut [u8]) -> MuxanduOutcome
    ensures outcome { result ≡ outcome_of (size_of (name_in_room (length buffer.old) name.now)) }
    ensures written { buffer.new ≡
        source_over (name_in_room (length buffer.old) name.now) buffer.old }
{
    let size = name.len();
    if buffer.len() < size {
        return MuxanduOutcome {
            size,
            status: Refused::Buffer as u32,
            reason: 0,
        };
    }
    buffer[..size].copy_from_slice(name);
    outcome_of(Ok(size))
}

/// The kind of local time of a time zone at an instant: that after the last transition at or before
/// it. Errors, in this order: those of the timestamp, ZONE if the numbers are no zone.
#[unsafe(no_mangle)]
pub extern "C" fn muxandu_zone_type_at(
    zone: MuxanduZone,
    transitions: &[MuxanduTransition],
    at: MuxanduTimestamp,
    out: &mut MuxanduTimeType,
) -> MuxanduStatus
    ensures { AnswersBy result out.old out.new (IsTypeAt zone transitions.now at) }
{
    answer(zone_type_at(zone, transitions, at), out)
}

/// Writes the abbreviation with a number, such as `CEST`, to the front of `buffer`. The number is
/// that of a kind of local time, and `bytes` are the file from which muxandu_zone_from_tzif read
/// the zone. `size` is the length of the text: 0 for a number that the zone does not have. Errors,
/// in this order: SYNTAX with the index of the byte and the reason if the bytes are no such file.
/// BUFFER if the text is longer than `buffer`; `size` is then its length. After an error nothing is
/// written.
#[unsafe(no_mangle)]
pub extern "C" fn muxandu_zone_abbreviation_from_tzif(
    bytes: &[u8],
    designation: u16,
    buffer: &mut [u8],
) -> MuxanduOutcome
    ensures outcome { result ≡
        outcome_of (size_of (name_in_tzif bytes.now designation (length buffer.old))) }
    ensures written { buffer.new ≡
        source_over (name_in_tzif bytes.now designation (length buffer.old)) buffer.old }
{
    match ZoneFile::read(bytes) {
        Ok(file) => put_name(file.abbreviation(designation), buffer),
        Err(refusal) => outcome_of(Err(fault_of_file(refusal))),
    }
}

/// Writes the abbreviation with a number to the front of `buffer`. The number is that of a kind of
/// local time, and `text` is the rule from which muxandu_zone_from_text read the zone. `size` is
/// the length of the abbreviation: 0 for a number that the zone does not have. Errors, in this
/// order: SYNTAX with the index of the byte and the reason if the text is no rule. BUFFER if the
/// abbreviation is longer than `buffer`; `size` is then its length. After an error nothing is
/// written.
#[unsafe(no_mangle)]
pub extern "C" fn muxandu_zone_abbreviation_from_text(
    text: &[u8],
    designation: u16,
    buffer: &mut [u8],
) -> MuxanduOutcome
    ensures outcome { result ≡
        outcome_of (size_of (name_in_rule text.now designation (length buffer.old))) }
    ensures written { buffer.new ≡
        source_over (name_in_rule text.now designation (length buffer.old)) buffer.old }
{
    match parse_rule(text) {
        Ok(rule) => put_name(name_in(rule, designation), buffer),
        Err(refusal) => outcome_of(Err(fault_of_rule(refusal))),
    }
}

//! Time zones read from files and from texts.
ghost use Rattle.std.specs.Prelude.{◌≡◌, ◌≤◌, IfErr, IfOk, length, take};
ghost use Rattle.zone_files.specs.Kinds.{AreRows};
ghost use Rattle.muxandu_c.specs.ZoneReads.{IsPut, IsRead, IsReadAlone, IsRowsFault, IsRuleText, IsTzif};
ghost use Rattle.muxandu_c.specs.ZoneReads.{fault_of_reason, file_fault, reason_of_part, reason_of_rule, rule_fault, zone_fault};

use crate::outcomes::{Fault, MuxanduOutcome, outcome_of};
use crate::reasons::Reason;
use crate::refused::Refused;
use crate::zone_numbers::{MUXANDU_ZONE_ROOM, MuxanduTransition, MuxanduZone, no_transition};
use crate::zone_writes::write_zone;
use zone_files::{FilePart, FileRefusal, RuleFault, RuleRefusal, ZoneFile, parse_rule, rule_zone};
use zones::{Transition, Zone, ZoneError};

// The reason of a text that is no rule.
fn reason_of_rule(fault: RuleFault) -> u32
    ensures { result ≡ reason_of_rule fault }
{
    match fault {
        RuleFault::Name => Reason::RuleName as u32,
        RuleFault::Digit => Reason::RuleDigit as u32,
        RuleFault::Range => Reason::RuleRange as u32,
        RuleFault::Byte => Reason::RuleByte as u32,
    }
}

// The reason of bytes that are no file of a time zone.
fn reason_of_part(part: FilePart) -> u32
    ensures { result ≡ reason_of_part part }
{
    match part {
        FilePart::Length => Reason::FileLength as u32,
        FilePart::Magic => Reason::FileMagic as u32,
        FilePart::Version => Reason::FileVersion as u32,
        FilePart::LeapSeconds => Reason::FileLeapSeconds as u32,
        FilePart::Count => Reason::FileCount as u32,
        FilePart::Offset => Reason::FileOffset as u32,
        FilePart::Daylight => Reason::FileDaylight as u32,
        FilePart::Designation => Reason::FileDesignation as u32,
        FilePart::Names => Reason::FileNames as u32,
        FilePart::Index => Reason::FileIndex as u32,
        FilePart::Footer => Reason::FileFooter as u32,
        FilePart::Rule(fault) => reason_of_rule(fault),
    }
}

// The error of a text or of a file, at its place.
fn fault_at(place: usize, reason: u32) -> Fault
    ensures { result ≡ fault_of_reason place reason }
{
    Fault {
        place,
        refused: Refused::Syntax,
        reason,
    }
}

// The error of a text that is no rule.
pub(crate) fn fault_of_rule(refusal: RuleRefusal) -> Fault
    ensures { result ≡ rule_fault refusal }
{
    fault_at(refusal.place, reason_of_rule(refusal.fault))
}

// The error of bytes that are no file of a time zone.
pub(crate) fn fault_of_file(refusal: FileRefusal) -> Fault
    ensures { result ≡ file_fault refusal }
{
    fault_at(refusal.place, reason_of_part(refusal.part))
}

// The error of transitions and a rule that make no zone.
fn fault_of_zone(error: ZoneError) -> Fault
    ensures { result ≡ zone_fault error }
{
    match error {
        ZoneError::Row(place) => fault_at(place, Reason::ZoneTransition as u32),
        ZoneError::Rule => fault_at(0, Reason::ZoneRule as u32),
    }
}

// Puts the transitions of a file at the front of a table, and says how many there are.
fn read_rows(file: &ZoneFile, room: &mut [Transition]) -> Result<usize, Fault>
    requires { 512 ≤ length room.old }
    ensures count { IfOk result (λ count. count ≡ length file.now.block.indexes) }
    ensures few { IfOk result (λ count. count ≤ 512) }
    ensures rows { IfOk result (λ count. AreRows file.now (take count room.new)) }
    ensures fault { IfErr result (IsRowsFault file.now) }
    ensures length { length room.new ≡ length room.old }
{
    let count = file.transitions();
    if count > MUXANDU_ZONE_ROOM {
        return Err(fault_at(count, Reason::ZoneSize as u32));
    }
    match file.write_rows(room) {
        Ok(()) => Ok(count),
        Err(error) => Err(fault_of_zone(error)),
    }
}

// Puts the numbers of a zone into the places of a caller, if there is room for its transitions.
fn put_zone(zone: &Zone, out: &mut MuxanduZone, table: &mut [MuxanduTransition]) -> MuxanduOutcome
    requires { length zone.now.rows ≤ 512 }
    ensures { IsPut zone.now result out.old out.new table.old table.new }
{
    let size = zone.table().len();
    if table.len() < size {
        return MuxanduOutcome {
            size,
            status: Refused::Buffer as u32,
            reason: 0,
        };
    }
    outcome_of(Ok(write_zone(zone, out, table)))
}

/// Reads a time zone from the bytes of a file of RFC 9636, as /usr/share/zoneinfo/Europe/Berlin has
/// them, and writes its numbers to `zone` and its transitions to the front of `transitions`. Keep
/// both for the calls that take them. `size` is the number of the transitions. Errors, in this
/// order: SYNTAX if the bytes are no such file, with the index of the byte and the reason. SYNTAX
/// with the reason ZONE_SIZE for more than 512 transitions. SYNTAX with the reason ZONE_TRANSITION
/// and the index of the transition, or with ZONE_RULE. BUFFER if `transitions` has room for fewer.
/// After an error nothing is written.
#[unsafe(no_mangle)]
pub extern "C" fn muxandu_zone_from_tzif(
    bytes: &[u8],
    zone: &mut MuxanduZone,
    transitions: &mut [MuxanduTransition],
) -> MuxanduOutcome
    ensures { IsRead (IsTzif bytes.now) result zone.old zone.new transitions.old transitions.new }
{
    let file = match ZoneFile::read(bytes) {
        Ok(file) => file,
        Err(refusal) => return outcome_of(Err(fault_of_file(refusal))),
    };
    let mut room = [no_transition(); MUXANDU_ZONE_ROOM];
    let count = match read_rows(&file, &mut room) {
        Ok(count) => count,
        Err(fault) => return outcome_of(Err(fault)),
    };
    match file.zone(&room[..count]) {
        Ok(found) => put_zone(&found, zone, transitions),
        Err(error) => outcome_of(Err(fault_of_zone(error))),
    }
}

/// Reads a time zone from the text of a rule in the form of the environment variable TZ, such as
/// `CET-1CEST,M3.5.0,M10.5.0/3`, and writes its numbers to `zone`. The rule holds at all times, so
/// the zone has no transitions: pass none to the calls that take them. `size` is 0. The number of
/// its abbreviation of standard time is 256, and that of daylight saving time 257. Errors, in this
/// order: SYNTAX if the text is no rule, with the index of the byte and the reason. SYNTAX with the
/// reason ZONE_RULE if the rule overlaps itself in some year. After an error nothing is written.
#[unsafe(no_mangle)]
pub extern "C" fn muxandu_zone_from_text(text: &[u8], zone: &mut MuxanduZone) -> MuxanduOutcome
    ensures { IsReadAlone (IsRuleText text.now) result zone.old zone.new }
{
    let rule = match parse_rule(text) {
        Ok(rule) => rule,
        Err(refusal) => return outcome_of(Err(fault_of_rule(refusal))),
    };
    match rule_zone(rule) {
        Some(found) => outcome_of(Ok(write_zone(&found, zone, &mut []))),
        None => outcome_of(Err(fault_of_zone(ZoneError::Rule))),
    }
}

//! The file of a time zone.
ghost use Rattle.std.specs.Prelude.{◌≡◌, ◌↔◌, ◌≤◌, ◌<◌, IfErr, IfNone, IfOk, IfSome, IsTrue, MatchResult, OnOk, Ok, length};
ghost use Rattle.std.specs.Option.{option_map};
ghost use Rattle.zone_files.specs.Rules.{rule_parts};
ghost use Rattle.zone_files.specs.declared.endings.Ending.TheVariants.{Goes, Kept};
ghost use Rattle.zones.specs.Tables.{type_after};
ghost use Rattle.zone_files.specs.Endings.{IsEnding, name_limit};
ghost use Rattle.zone_files.specs.Abbreviations.{IsAbbreviated};
ghost use Rattle.zone_files.specs.FileGrammar.{DerivesFile};
ghost use Rattle.zone_files.specs.FileReading.{FileParts, file_of};
ghost use Rattle.zone_files.specs.FileZones.{AreAllRows, IsFileFault, IsFileZone, IsFaultAfter, IsWholeFault, IsWholeZone, IsZoneAfter};
ghost use Rattle.zone_files.specs.Kinds.{AreRows, IsKindOf, IsRow, IsRowFault, abbreviation_of, kind_before, time_at};
ghost use Rattle.zones.specs.Seconds.{IsSecond};

use crate::abbreviated::Abbreviated;
use crate::endings::{Ending, make_ending};
use crate::file_faults::FileRefusal;
use crate::files::{Parsed, reading_of};
use crate::kinds::{kind_at, name_from, second_at};
use crate::tz_rule::TzRule;
use std::alloc::{AllocError, Global};
use std::marker::Model;
use zones::{Cycle, OwnedZone, TimeType, Transition, Zone, ZoneError};

// The last second that a zone knows; the first is as far before 1970.
const MOST_SECONDS: i64 = 34_560_000_000_000;

/// The file of a time zone as RFC 9636 has it, versions 1 to 4. It borrows its bytes.
#[derive(Drop)]
pub struct ZoneFile<'a> {
    parsed: Parsed<'a>,
}

impl<'a> Model for ZoneFile<'a> {
    ghost use Rattle.zone_files.specs.FileReading.{FileParts};
    ghost use Rattle.zone_files.specs.Files.{parsed_parts};
    ghost use Rattle.zone_files.specs.Kinds.{IsWhole};

    ghost Value = { FileParts };

    ghost view = { λ file. parsed_parts file.parsed };

    ghost invariant = { λ file. IsWhole (parsed_parts file.parsed) };
}

// Whether the second is at most 400,000,000 days from 1970.
fn is_second(second: i64) -> bool
    ensures { IsTrue result ↔ IsSecond second }
{
    if second < -MOST_SECONDS {
        return false;
    }
    second <= MOST_SECONDS
}

// A transition.
fn transition(second: i64, before: TimeType, after: TimeType) -> Transition
    requires { IsSecond second }
    ensures second { result.second ≡ second }
    ensures before { result.before ≡ before }
    ensures after { result.after ≡ after }
{
    Transition {
        second,
        before,
        after,
    }
}

// Whether the two are one kind of local time.
fn is_same(one: TimeType, other: TimeType) -> bool
    ensures { IsTrue result ↔ (one ≡ other) }
{
    one.offset == other.offset
        && one.is_daylight == other.is_daylight
        && one.designation == other.designation
}

// The kind of local time after the last transition.
fn last_kind(first: TimeType, rows: &[Transition]) -> TimeType
    ensures { result ≡ type_after first rows.now (length rows.now) }
{
    let count = rows.len();
    if count == 0 {
        first
    } else {
        rows[count - 1].after
    }
}

// The zone of transitions and what follows them.
fn zone_after<'a>(
    first: TimeType,
    rows: &'a [Transition],
    ending: Ending,
) -> Result<Zone<'a>, ZoneError>
    ensures { MatchResult result (λ z. IsZoneAfter first rows.now ending z)
        (λ e. IsFaultAfter first rows.now ending e) }
{
    match ending {
        Ending::NoRule => Zone::new(first, rows, None),
        Ending::Kept(kind) => zone_kept(first, rows, kind),
        Ending::Goes(cycle) => zone_with(first, rows, cycle),
    }
}

// The zone of transitions, the last of which leads to a kind of local time that is kept.
fn zone_kept<'a>(
    first: TimeType,
    rows: &'a [Transition],
    kind: TimeType,
) -> Result<Zone<'a>, ZoneError>
    ensures { MatchResult result (λ z. IsZoneAfter first rows.now (Kept kind) z)
        (λ e. IsFaultAfter first rows.now (Kept kind) e) }
{
    if rows.is_empty() {
        return Ok(Zone::of_type(kind));
    }
    if !is_same(last_kind(first, rows), kind) {
        return Err(ZoneError::Rule);
    }
    Zone::new(first, rows, None)
}

// The zone of transitions and a cycle after them.
fn zone_with<'a>(
    first: TimeType,
    rows: &'a [Transition],
    cycle: Cycle,
) -> Result<Zone<'a>, ZoneError>
    ensures { MatchResult result (λ z. IsZoneAfter first rows.now (Goes cycle) z)
        (λ e. IsFaultAfter first rows.now (Goes cycle) e) }
{
    if !rows.is_empty() {
        return Zone::new(first, rows, Some(cycle));
    }
    match Zone::of_rule(cycle) {
        Some(zone) => Ok(zone),
        None => Err(ZoneError::Rule),
    }
}

impl<'a> ZoneFile<'a> {
    /// Reads a file. Fails with the part at fault and the index of its byte. A later version than 1
    /// has two blocks, of which the second counts. Bytes after the rule do not count.
    pub fn read(bytes: &'a [u8]) -> Result<ZoneFile<'a>, FileRefusal>
        // What is read is derived by the grammar,
        ensures derived { IfOk result (λ file. DerivesFile bytes.now file) }
        // what the grammar derives is read,
        ensures all { (file : FileParts) → DerivesFile bytes.now file → result ≡ Ok file }
        // and a fault is the first one from the left.
        ensures reading { result ≡ file_of bytes.now }
        ensures place { IfErr result (λ refusal. refusal.place ≤ length bytes.now) }
    {
        match reading_of(bytes) {
            Ok(parsed) => Ok(ZoneFile { parsed }),
            Err(refusal) => Err(refusal),
        }
    }

    /// Returns how many transitions the file has.
    pub fn transitions(&self) -> usize
        ensures { result ≡ length self.now.block.indexes }
    {
        self.parsed.block.indexes.len()
    }

    /// Returns the rule after the last transition, if the file has one.
    pub fn rule(&self) -> Option<TzRule<'a>>
        ensures { option_map rule_parts result ≡ self.now.rule }
    {
        self.parsed.rule
    }

    /// Returns the abbreviation that a [`TimeType`] of the file numbers, such as `CEST`. The
    /// numbers 256 and 257 are those of the names of the rule that no transition has.
    pub fn abbreviation(&self, number: u16) -> &'a [u8]
        ensures { result.now ≡ abbreviation_of self.now number }
    {
        let names = self.parsed.block.names;
        if let Some(rule) = self.parsed.rule {
            if number == 256 {
                return rule.name;
            }
            if number == 257 {
                if let Some(daylight) = rule.daylight {
                    return daylight.name;
                }
            }
        }
        name_from(names, (number as usize).min(names.len()))
    }

    /// Returns what the zone of the file has at the second: the offset, whether it is daylight
    /// saving time, and the abbreviation.
    pub fn abbreviation_at(&self, zone: &Zone, second: i64) -> Abbreviated<'a>
        requires { IsSecond second }
        ensures { IsAbbreviated self.now zone.now second result.offset result.is_daylight
            result.abbreviation.now }
    {
        let kind = zone.type_at(second);
        Abbreviated {
            offset: kind.offset,
            is_daylight: kind.is_daylight,
            abbreviation: self.abbreviation(kind.designation),
        }
    }

    // The kind of local time at a place.
    fn kind(&self, k: usize) -> TimeType
        requires { k < self.now.count }
        ensures { IsKindOf self.now.block k result }
    {
        kind_at(self.parsed.block, k)
    }

    // What follows the transitions.
    fn ending(&self) -> Ending
        ensures { IsEnding self.now.block.names (name_limit self.now.block.names) self.now.rule
            result }
    {
        make_ending(self.parsed.block.names, self.parsed.rule)
    }

    // The transition at a place, if its second is in range, from the kind of local time before it.
    fn row(&self, i: usize, before: TimeType) -> Option<Transition>
        requires place { i < length self.now.block.indexes }
        requires before { IsKindOf self.now.block (kind_before self.now.block.indexes i) before }
        ensures some { IfSome result (λ row. IsRow self.now i row) }
        ensures none { IfNone result (IsSecond (time_at self.now.wide self.now.block.times i) → ⊥) }
    {
        let second = second_at(self.parsed.is_wide, self.parsed.block.times, i);
        if !is_second(second) {
            return None;
        }
        let after = self.parsed.block.indexes[i] as usize;
        Some(transition(second, before, self.kind(after)))
    }

    /// Writes the transitions to the front of `room`. Fails with the index of the first that is
    /// out of range.
    pub fn write_rows(&self, room: &mut [Transition]) -> Result<(), ZoneError>
        requires { length self.now.block.indexes ≤ length room.old }
        ensures rows { OnOk result (AreRows self.now room.new) }
        ensures fault { IfErr result (λ e. IsRowFault self.now e) }
        ensures length { length room.new ≡ length room.old }
    {
        let _ = &self.parsed;
        let count = self.transitions();
        let mut before = self.kind(0);
        'rows: for i in 0..count {
            match self.row(i, before) {
                Some(row) => {
                    before = row.after;
                    room[i] = row;
                }
                None => return Err(ZoneError::Row(i)),
            }
        }
        Ok(())
    }

    /// Returns the zone of the file, whose transitions these are. Fails with the index of the
    /// first transition that does not follow the one before it. Fails also if the rule overlaps
    /// itself in some year, or does not follow the last transition. A file without transitions
    /// has its rule at all times.
    pub fn zone<'b>(&self, rows: &'b [Transition]) -> Result<Zone<'b>, ZoneError>
        requires { AreRows self.now rows.now }
        ensures { MatchResult result (λ z. IsFileZone self.now rows.now z)
            (λ e. IsFileFault self.now rows.now e) }
    {
        let _ = &self.parsed;
        let first = self.kind(0);
        zone_after(first, rows, self.ending())
    }

    // All the transitions of the file, if each is in range.
    fn all_rows(&self, alloc: Global) -> Result<Result<Vec<Transition>, ZoneError>, AllocError>
        ensures { IfOk result (λ found. MatchResult found (λ rows. AreAllRows self.now rows.items)
            (λ e. IsRowFault self.now e)) }
    {
        let _ = &self.parsed;
        let count = self.transitions();
        let mut rows = Vec::with_capacity(alloc, count)?;
        let mut before = self.kind(0);
        'each: for i in 0..count {
            match self.row(i, before) {
                Some(row) => {
                    before = row.after;
                    rows.push(row)?;
                }
                None => return Ok(Err(ZoneError::Row(i))),
            }
        }
        Ok(Ok(rows))
    }

    /// Returns the zone of the file with its transitions. Fails as [`ZoneFile::write_rows`] and
    /// [`ZoneFile::zone`] do, and if there is no memory for the transitions.
    pub fn owned_zone(&self, alloc: Global) -> Result<Result<OwnedZone, ZoneError>, AllocError>
        ensures { IfOk result (λ found. MatchResult found (λ z. IsWholeZone self.now z)
            (λ e. IsWholeFault self.now e)) }
    {
        let rows = match self.all_rows(alloc)? {
            Ok(rows) => rows,
            Err(e) => return Ok(Err(e)),
        };
        match self.zone(&rows) {
            Ok(zone) => Ok(Ok(OwnedZone::new(alloc, &zone)?)),
            Err(e) => Ok(Err(e)),
        }
    }
}

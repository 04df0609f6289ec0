//! The time zone that the words of the command line name.

use crate::sources::say;
use std::alloc::{AllocError, Global};
use std::env;
use std::fs::{File, metadata};
use std::io::{ErrorKind, Read};
use zone_files::{FilePart, RuleFault, ZoneFile, is_zone_name};
use zones::{OwnedZone, ZoneError};

// The folder of the files of zones, where TZDIR names none.
const FOLDER: &str = "/usr/share/zoneinfo";

// The most bytes of the file of a zone. Those of today have 4,000 at most.
const MOST_BYTES: usize = 65_536;

// The most bytes of a read.
const BLOCK: usize = 4096;

/// The zone of a name, by its file in the folder that the variable TZDIR names, or in that of the
/// system. Says why where there is none.
pub fn zone_named(rt: &HostRuntime, name: &str) -> Option<OwnedZone> {
    if !is_zone_name(name.as_bytes()) {
        let _ = eprintln!(rt;
            "stamps: the zone '{name}' is no name: write one as Europe/Berlin: see --help"
        );
        return None;
    }
    let Ok(path) = path_of(rt, name) else {
        say(rt, "", "no memory is left");
        return None;
    };
    let bytes = read_file(rt, name, path.as_str())?;
    zone_in(rt, path.as_str(), bytes.as_slice())
}

// The path of the file of a zone.
fn path_of(rt: &HostRuntime, name: &str) -> Result<String, AllocError> {
    match env::var(rt, "TZDIR") {
        Ok(folder) if !folder.is_empty() => format!(in rt.alloc(); "{folder}/{name}"),
        _ => format!(in rt.alloc(); "{FOLDER}/{name}"),
    }
}

// The bytes of the file of a zone. Says why where it cannot read them.
fn read_file(rt: &HostRuntime, name: &str, path: &str) -> Option<Vec<u8>> {
    let mut file = match File::open(rt, path) {
        Ok(file) if matches!(metadata(rt, path), Ok(found) if found.is_file()) => file,
        Err(error) if !matches!(error.kind(), ErrorKind::NotFound) => {
            let _ = eprintln!(rt; "stamps: {path}: {error}");
            return None;
        }
        _ => {
            let _ = eprintln!(rt;
                "stamps: the zone '{name}' is unknown: there is no file {path}: see --help"
            );
            return None;
        }
    };
    let mut bytes = Vec::new(rt.alloc());
    let mut block = [0u8; BLOCK];
    for _ in 0..=MOST_BYTES {
        match file.read(&mut block) {
            Ok(0) => return Some(bytes),
            Ok(count) => {
                let Ok(()) = bytes.extend_from_slice(&block[..count]) else {
                    say(rt, "", "no memory is left");
                    return None;
                };
            }
            Err(error) => {
                let _ = eprintln!(rt; "stamps: {path}: {error}");
                return None;
            }
        }
        if bytes.len() > MOST_BYTES {
            break;
        }
    }
    let _ = eprintln!(rt; "stamps: {path}: the file of a zone has at most {MOST_BYTES} bytes");
    None
}

// The zone of the bytes of a file. Says why where there is none.
fn zone_in(rt: &HostRuntime, path: &str, bytes: &[u8]) -> Option<OwnedZone> {
    let file = match ZoneFile::read(bytes) {
        Ok(file) => file,
        Err(refusal) => {
            let (place, fault) = (refusal.place, part_fault(refusal.part));
            let _ = eprintln!(rt; "stamps: {path}: no file of a time zone: byte {place}: {fault}");
            return None;
        }
    };
    match file.owned_zone(rt.alloc()) {
        Ok(Ok(zone)) => Some(zone),
        Ok(Err(ZoneError::Row(row))) => {
            let _ = eprintln!(rt;
                "stamps: {path}: no time zone: transition {row} does not follow the one before it"
            );
            None
        }
        Ok(Err(ZoneError::Rule)) => {
            let _ = eprintln!(rt;
                "stamps: {path}: no time zone: its rule overlaps itself, or the last transition"
            );
            None
        }
        Err(_) => {
            say(rt, "", "no memory is left");
            None
        }
    }
}

// What is the matter with a part of the file of a zone.
fn part_fault(part: FilePart) -> &'static str {
    match part {
        FilePart::Length => "the file ends here",
        FilePart::Magic => "it does not begin with TZif",
        FilePart::Version => "its version is unknown, or changes",
        FilePart::LeapSeconds => "its transitions count leap seconds, which Unix time has not",
        FilePart::Count => "it has no kind of local time, or no abbreviation",
        FilePart::Offset => "an offset is out of range",
        FilePart::Daylight => "a mark of daylight saving time is neither 0 nor 1",
        FilePart::Designation => "an abbreviation begins past their end",
        FilePart::Names => "no zero ends the last abbreviation",
        FilePart::Index => "a transition leads to no kind of local time",
        FilePart::Footer => "no new line begins the rule",
        FilePart::Rule(RuleFault::Name) => "the rule has no name here",
        FilePart::Rule(RuleFault::Digit) => "the rule has no digit here",
        FilePart::Rule(RuleFault::Range) => "a number of the rule is out of range",
        FilePart::Rule(RuleFault::Byte) => "the rule has another byte here",
    }
}

/// Keeps a zone to the end of the program, if one is given. Fails only if no memory is left.
pub fn for_good(
    alloc: Global,
    zone: Option<OwnedZone>,
) -> Result<&'static Option<OwnedZone>, AllocError> {
    match Box::new(alloc, zone) {
        Ok(kept) => Ok(Box::leak(kept)),
        Err(_) => Err(AllocError),
    }
}

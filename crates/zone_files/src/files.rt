//! The parts of a file.
ghost use Rattle.std.specs.Prelude.{◌≡◌, ◌+◌, ◌*◌, ◌≤◌, ◌<◌, IfErr, IfOk, Ok, drop, length};
ghost use Rattle.std.specs.Option.{option_map};
ghost use Rattle.std.specs.Result.{result_map_both};
ghost use Rattle.zone_files.specs.Blocks.{file_stop};
ghost use Rattle.zone_files.specs.FileReading.{FileParts, block_fault, bytes_fault, file_in, file_of, file_refusal, first_fault};
ghost use Rattle.zone_files.specs.FileReading.{first_version, footer_at, index_fault, kind_fault, later_block, later_version, line_at};
ghost use Rattle.zone_files.specs.FileReading.{line_rule, names_fault, unless};
ghost use Rattle.zone_files.specs.FileGrammar.{DerivesFile};
ghost use Rattle.zone_files.specs.Kinds.{IsWhole};
ghost use Rattle.zone_files.specs.Files.{block_parts, parsed_parts};
ghost use Rattle.zone_files.specs.Rules.{rule_parts};
ghost use Rattle.zone_files.specs.declared.file_faults.FilePart.TheVariants.{Version};

use crate::blocks::{Block, block_of, header, signed_word};
use crate::counts::Counts;
use crate::file_faults::{FilePart, FileRefusal, FileStop, stop_in_file};
use crate::pieces::{Kind, split};
use crate::rules::rule_in;
use crate::tz_rule::TzRule;

// The greatest offset.
const MOST_OFFSET: i64 = 93_599;

// The parts of a file.
#[derive(Clone, Copy)]
pub(crate) struct Parsed<'a> {
    pub(crate) is_wide: bool,
    pub(crate) count: usize,
    pub(crate) block: Block<'a>,
    pub(crate) rule: Option<TzRule<'a>>,
}

// The fault of the index of a kind of local time.
fn index_fault(left: usize, count: usize, indexes: &[u8], i: usize) -> Option<FileStop>
    requires { i < length indexes.now }
    ensures { result ≡ index_fault left count indexes.now i }
{
    if (indexes[i] as usize) < count {
        return None;
    }
    Some(FileStop {
        part: FilePart::Index,
        left: left.saturating_sub(i),
    })
}

// The first fault of the indexes.
fn indexes_fault(left: usize, count: usize, indexes: &[u8]) -> Option<FileStop>
    ensures { result ≡
        first_fault (index_fault left count indexes.now) (length indexes.now) 0 }
{
    'indexes: for i in 0..indexes.len() {
        match index_fault(left, count, indexes, i) {
            Some(stop) => return Some(stop),
            None => {}
        }
    }
    None
}

// The fault of a kind of local time.
fn kind_fault(left: usize, block: Block<'_>, k: usize) -> Option<FileStop>
    requires { 6 * k + 6 ≤ length block.types.now }
    ensures { result ≡ kind_fault left (block_parts block.entry) k }
{
    let offset = signed_word(block.types, 6 * k);
    if offset < -MOST_OFFSET || offset > MOST_OFFSET {
        return Some(FileStop {
            part: FilePart::Offset,
            left: left.saturating_sub(6 * k),
        });
    }
    if block.types[6 * k + 4] > 1 {
        return Some(FileStop {
            part: FilePart::Daylight,
            left: left.saturating_sub(6 * k + 4),
        });
    }
    if (block.types[6 * k + 5] as usize) < block.names.len() {
        return None;
    }
    Some(FileStop {
        part: FilePart::Designation,
        left: left.saturating_sub(6 * k + 5),
    })
}

// The first fault of the kinds of local time.
fn kinds_fault(left: usize, block: Block<'_>, count: usize) -> Option<FileStop>
    requires { 6 * count ≤ length block.types.now }
    ensures { result ≡ first_fault (kind_fault left (block_parts block.entry)) count 0 }
{
    'kinds: for k in 0..count {
        match kind_fault(left, block, k) {
            Some(stop) => return Some(stop),
            None => {}
        }
    }
    None
}

// The fault of abbreviations that no zero byte ends.
fn names_fault(left: usize, names: &[u8]) -> Option<FileStop>
    requires { 0 < length names.now }
    ensures { result ≡ names_fault left names.now }
{
    let last = names.len() - 1;
    if names[last] == 0 {
        return None;
    }
    Some(FileStop {
        part: FilePart::Names,
        left: left.saturating_sub(last),
    })
}

// The first fault in the bytes of a block.
#[tactic(auto, unfolding(crate::specs::FileReading::bytes_fault))]
fn bytes_fault(left: usize, count: usize, block: Block<'_>) -> Option<FileStop>
    requires types { 6 * count ≤ length block.types.now }
    requires names { 0 < length block.names.now }
    ensures { result ≡ bytes_fault left count (block_parts block.entry) }
{
    let left = left.saturating_sub(block.times.len());
    if let Some(stop) = indexes_fault(left, count, block.indexes) {
        return Some(stop);
    }
    let left = left.saturating_sub(block.indexes.len());
    if let Some(stop) = kinds_fault(left, block, count) {
        return Some(stop);
    }
    names_fault(left.saturating_sub(block.types.len()), block.names)
}

// The first fault of a block, at whose beginning so many bytes are left.
#[tactic(auto, unfolding(crate::specs::FileReading::block_fault))]
fn block_fault(left: usize, count: usize, block: Block<'_>) -> Option<FileStop>
    requires { 6 * count ≤ length block.types.now }
    ensures { result ≡ block_fault left count (block_parts block.entry) }
{
    if count == 0 || block.names.is_empty() {
        return Some(FileStop {
            part: FilePart::Count,
            left,
        });
    }
    bytes_fault(left, count, block)
}

// The rule of a line, where so many bytes are left at its beginning.
fn line_rule(left: usize, line: &[u8]) -> Result<Option<TzRule<'_>>, FileStop>
    ensures { result_map_both (option_map rule_parts) (λ stop. stop) result
        ≡ line_rule left line.now }
{
    if line.is_empty() {
        return Ok(None);
    }
    match rule_in(line) {
        Ok(rule) => Ok(Some(rule)),
        Err(stop) => Err(FileStop {
            part: FilePart::Rule(stop.fault),
            left: left.saturating_sub(line.len().saturating_sub(stop.left)),
        }),
    }
}

// The rule of a line, which a new line ends.
#[tactic(auto, unfolding(crate::specs::FileReading::line_at))]
fn line_at(bytes: &[u8]) -> Result<Option<TzRule<'_>>, FileStop>
    ensures { result_map_both (option_map rule_parts) (λ stop. stop) result ≡ line_at bytes.now }
{
    let (line, rest) = split(Kind::Line, bytes);
    if rest.is_empty() {
        return Err(FileStop {
            part: FilePart::Length,
            left: 0,
        });
    }
    line_rule(bytes.len(), line)
}

// The rule between two new lines.
fn footer_at(bytes: &[u8]) -> Result<Option<TzRule<'_>>, FileStop>
    ensures { result_map_both (option_map rule_parts) (λ stop. stop) result ≡ footer_at bytes.now }
{
    match bytes.split_first() {
        None => Err(stop_in_file(FilePart::Length, bytes)),
        Some((b'\n', rest)) => line_at(rest),
        Some(_) => Err(stop_in_file(FilePart::Footer, bytes)),
    }
}

// A file of version 1 after its header.
#[tactic(auto, unfolding(crate::specs::FileReading::first_version))]
fn first_version(counts: Counts, bytes: &[u8]) -> Result<Parsed<'_>, FileStop>
    ensures { result_map_both parsed_parts (λ stop. stop) result ≡ first_version counts bytes.now }
{
    let (block, _) = block_of(4, counts, bytes)?;
    match block_fault(bytes.len(), counts.types as usize, block) {
        Some(stop) => Err(stop),
        None => Ok(Parsed {
            is_wide: false,
            count: counts.types as usize,
            block,
            rule: None,
        }),
    }
}

// A later version after its second header.
#[tactic(auto, unfolding(crate::specs::FileReading::later_block))]
fn later_block(counts: Counts, bytes: &[u8]) -> Result<Parsed<'_>, FileStop>
    ensures { result_map_both parsed_parts (λ stop. stop) result ≡ later_block counts bytes.now }
{
    let (block, rest) = block_of(8, counts, bytes)?;
    if let Some(stop) = block_fault(bytes.len(), counts.types as usize, block) {
        return Err(stop);
    }
    let rule = footer_at(rest)?;
    Ok(Parsed {
        is_wide: true,
        count: counts.types as usize,
        block,
        rule,
    })
}

// A later version after its first header.
#[tactic(auto, unfolding(crate::specs::FileReading::later_version))]
fn later_version(first: Counts, bytes: &[u8]) -> Result<Parsed<'_>, FileStop>
    ensures { result_map_both parsed_parts (λ stop. stop) result ≡ later_version first bytes.now }
{
    let (_, passed) = block_of(4, first, bytes)?;
    let (second, rest) = header(passed)?;
    if second.version == first.version {
        return later_block(second, rest);
    }
    Err(version_fault(passed))
}

// The fault of a second header of another version.
fn version_fault(header: &[u8]) -> FileStop
    ensures { result ≡ file_stop Version (drop 4 header.now) }
{
    FileStop {
        part: FilePart::Version,
        left: header.len().saturating_sub(4),
    }
}

// The parts of a file, or its first fault.
#[tactic(auto, unfolding(crate::specs::FileReading::file_in))]
fn file_in(bytes: &[u8]) -> Result<Parsed<'_>, FileStop>
    ensures { result_map_both parsed_parts (λ stop. stop) result ≡ file_in bytes.now }
{
    let (first, rest) = header(bytes)?;
    if first.version == 0 {
        first_version(first, rest)
    } else {
        later_version(first, rest)
    }
}

// A fault, at the index of its byte.
fn file_refusal(stop: FileStop, bytes: &[u8]) -> FileRefusal
    ensures value { result ≡ file_refusal bytes.now stop }
    ensures place { result.place ≤ length bytes.now }
{
    FileRefusal {
        part: stop.part,
        place: bytes.len().saturating_sub(stop.left),
    }
}

// The parts of a file, or its first fault at the index of its byte.
#[tactic(auto, unfolding(crate::specs::FileReading::file_of))]
fn first_reading(bytes: &[u8]) -> Result<Parsed<'_>, FileRefusal>
    ensures reading { result_map_both parsed_parts (λ refusal. refusal) result ≡ file_of bytes.now }
    ensures place { IfErr result (λ refusal. refusal.place ≤ length bytes.now) }
{
    match file_in(bytes) {
        Ok(file) => Ok(file),
        Err(stop) => Err(file_refusal(stop, bytes)),
    }
}

// The parts of a file, which its bytes derive, or its first fault.
pub(crate) fn reading_of(bytes: &[u8]) -> Result<Parsed<'_>, FileRefusal>
    ensures derived { IfOk result (λ file. DerivesFile bytes.now (parsed_parts file)) }
    ensures all { (file : FileParts) → DerivesFile bytes.now file →
        result_map_both parsed_parts (λ refusal. refusal) result ≡ Ok file }
    ensures whole { IfOk result (λ file. IsWhole (parsed_parts file)) }
    ensures reading { result_map_both parsed_parts (λ refusal. refusal) result ≡ file_of bytes.now }
    ensures place { IfErr result (λ refusal. refusal.place ≤ length bytes.now) }
{
    first_reading(bytes)
}

//! Rules, and their texts.
ghost use Rattle.std.specs.Prelude.{◌≡◌, ◌≤◌, IfErr, IfOk, Ok, length, pos, neg_ℤ, ◌≤ℤ◌};
ghost use Rattle.std.specs.Result.{result_map_both};
ghost use Rattle.calendar_values.specs.Offsets.{IsOffset};
ghost use Rattle.zone_files.specs.Grammar.{Derives};
ghost use Rattle.zone_files.specs.Reading.{daylight_at, daylight_offset_at, offset_at, refusal_of, rule_after, rule_in, rule_of, rule_with_daylight};
ghost use Rattle.zone_files.specs.Rules.{RuleParts, daylight_parts, rule_parts};

use crate::clocks::signed;
use crate::days::moment;
use crate::faults::{RuleFault, RuleRefusal, Stop, stop_at};
use crate::names::name;
use crate::numbers::Field;
use crate::tz_rule::{Daylight, TzRule};

// An offset, which the text counts west of UTC.
#[tactic(auto, unfolding(crate::specs::Reading::offset_at))]
fn offset(text: &[u8]) -> Result<(i32, &[u8]), Stop>
    ensures value { result_map_both (λ read. (read.0, read.1.now)) (λ stop. stop) result
        ≡ offset_at text.now }
    ensures low { IfOk result (λ read. neg_ℤ (pos 89_999) ≤ℤ read.0) }
    ensures high { IfOk result (λ read. read.0 ≤ℤ pos 89_999) }
{
    let (west, rest) = signed(Field::OffsetHours, text)?;
    Ok((-west, rest))
}

// The offset of daylight saving time, or else an hour more than that of standard time.
fn daylight_offset(standard: i32, text: &[u8]) -> Result<(i32, &[u8]), Stop>
    requires low { neg_ℤ (pos 89_999) ≤ℤ standard }
    requires high { standard ≤ℤ pos 89_999 }
    ensures value { result_map_both (λ read. (read.0, read.1.now)) (λ stop. stop) result
        ≡ daylight_offset_at standard text.now }
    ensures in_range { IfOk result (λ read. IsOffset read.0) }
{
    match text.split_first() {
        Some((b',', _)) => Ok((standard + 3_600, text)),
        _ => offset(text),
    }
}

// Daylight saving time.
#[tactic(auto, unfolding(crate::specs::Reading::daylight_at))]
fn daylight_time(standard: i32, text: &[u8]) -> Result<(Daylight<'_>, &[u8]), Stop>
    requires low { neg_ℤ (pos 89_999) ≤ℤ standard }
    requires high { standard ≤ℤ pos 89_999 }
    ensures { result_map_both (λ read. (daylight_parts read.0, read.1.now)) (λ stop. stop) result
        ≡ daylight_at standard text.now }
{
    let (name, rest) = name(text)?;
    let (offset, rest) = daylight_offset(standard, rest)?;
    let (from, rest) = moment(rest)?;
    let (until, rest) = moment(rest)?;
    Ok((
        Daylight {
            name,
            offset,
            from,
            until,
        },
        rest,
    ))
}

// A rule with daylight saving time, and nothing after it.
#[tactic(auto, unfolding(crate::specs::Reading::rule_with_daylight))]
fn rule_with_daylight<'a>(name: &'a [u8], offset: i32, text: &'a [u8]) -> Result<TzRule<'a>, Stop>
    requires low { neg_ℤ (pos 89_999) ≤ℤ offset }
    requires high { offset ≤ℤ pos 89_999 }
    ensures { result_map_both rule_parts (λ stop. stop) result
        ≡ rule_with_daylight name.now offset text.now }
{
    let (daylight, rest) = daylight_time(offset, text)?;
    if !rest.is_empty() {
        return Err(stop_at(RuleFault::Byte, rest));
    }
    Ok(TzRule {
        name,
        offset,
        daylight: Some(daylight),
    })
}

// The rule of a text, or its first fault.
#[tactic(auto, unfolding(crate::specs::Reading::rule_in))]
pub(crate) fn rule_in(text: &[u8]) -> Result<TzRule<'_>, Stop>
    ensures { result_map_both rule_parts (λ stop. stop) result ≡ rule_in text.now }
{
    let (name, rest) = name(text)?;
    let (offset, rest) = offset(rest)?;
    rule_after(name, offset, rest)
}

// The rule of a name, an offset, and what follows them.
fn rule_after<'a>(name: &'a [u8], offset: i32, text: &'a [u8]) -> Result<TzRule<'a>, Stop>
    requires low { neg_ℤ (pos 89_999) ≤ℤ offset }
    requires high { offset ≤ℤ pos 89_999 }
    ensures { result_map_both rule_parts (λ stop. stop) result
        ≡ rule_after name.now offset text.now }
{
    if text.is_empty() {
        return Ok(TzRule {
            name,
            offset,
            daylight: None,
        });
    }
    rule_with_daylight(name, offset, text)
}

// A fault, at the index of its byte.
fn refusal_of(stop: Stop, text: &[u8]) -> RuleRefusal
    ensures value { result ≡ refusal_of text.now stop }
    ensures place { result.place ≤ length text.now }
{
    RuleRefusal {
        fault: stop.fault,
        place: text.len().saturating_sub(stop.left),
    }
}

// The rule of a text, or its first fault at the index of its byte.
#[tactic(auto, unfolding(crate::specs::Reading::rule_of))]
fn reading(text: &[u8]) -> Result<TzRule<'_>, RuleRefusal>
    ensures reading { result_map_both rule_parts (λ refusal. refusal) result ≡ rule_of text.now }
    ensures place { IfErr result (λ refusal. refusal.place ≤ length text.now) }
{
    match rule_in(text) {
        Ok(rule) => Ok(rule),
        Err(stop) => Err(refusal_of(stop, text)),
    }
}

/// Reads the text of a rule in the form of the environment variable `TZ`.
///
/// ```
/// let rule = zone_files::parse_rule(b"CET-1CEST,M3.5.0,M10.5.0/3")?;
/// assert_eq!(rt; rule.offset, 3_600);
/// ```
pub fn parse_rule(text: &[u8]) -> Result<TzRule<'_>, RuleRefusal>
    // What is read is derived by the grammar,
    ensures derived { IfOk result (λ rule. Derives text.now (rule_parts rule)) }
    // what the grammar derives is read,
    ensures all { (rule : RuleParts) → Derives text.now rule →
        result_map_both rule_parts (λ refusal. refusal) result ≡ Ok rule }
    // and a fault is the first one from the left.
    ensures reading { result_map_both rule_parts (λ refusal. refusal) result ≡ rule_of text.now }
    ensures place { IfErr result (λ refusal. refusal.place ≤ length text.now) }
{
    reading(text)
}

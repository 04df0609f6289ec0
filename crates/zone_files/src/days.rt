//! The days and the moments of a rule's text.
ghost use Rattle.std.specs.Prelude.{◌≡◌, IfOk, pos, neg_ℤ, ◌≤ℤ◌};
ghost use Rattle.std.specs.Result.{result_map_both};
ghost use Rattle.zone_files.specs.Reading.{common_at, counted_at, day_at, moment_at, time_at, weekday_at};
ghost use Rattle.zone_files.specs.Rules.{day_parts, moment_parts};
ghost use Rattle.zones.specs.Rules.{IsRuleDay};

use crate::clocks::signed;
use crate::faults::{RuleFault, Stop, stop_at};
use crate::numbers::{Field, after_byte, number};
use calendar_values::Month;
use zones::{Moment, RuleDay};

// A month, a week and a weekday.
#[tactic(auto, unfolding(crate::specs::Reading::weekday_at))]
fn weekday(text: &[u8]) -> Result<(RuleDay, &[u8]), Stop>
    ensures value { result_map_both (λ read. (day_parts read.0, read.1.now)) (λ stop. stop) result
        ≡ weekday_at text.now }
    ensures day { IfOk result (λ read. IsRuleDay read.0) }
{
    let (month, rest) = number(Field::Month, text)?;
    let rest = after_byte(b'.', rest)?;
    let (week, rest) = number(Field::Week, rest)?;
    let rest = after_byte(b'.', rest)?;
    let (weekday, rest) = number(Field::Weekday, rest)?;
    match Month::from_number(month as u8) {
        Ok(month) => Ok((RuleDay::Weekday(month, week as u8, weekday as u8), rest)),
        Err(_) => Err(stop_at(RuleFault::Range, text)),
    }
}

// A day counted without 29 February.
#[tactic(auto, unfolding(crate::specs::Reading::common_at))]
fn common_day(text: &[u8]) -> Result<(RuleDay, &[u8]), Stop>
    ensures value { result_map_both (λ read. (day_parts read.0, read.1.now)) (λ stop. stop) result
        ≡ common_at text.now }
    ensures day { IfOk result (λ read. IsRuleDay read.0) }
{
    let (day, rest) = number(Field::Common, text)?;
    Ok((RuleDay::Common(day), rest))
}

// A day counted with it.
#[tactic(auto, unfolding(crate::specs::Reading::counted_at))]
fn counted_day(text: &[u8]) -> Result<(RuleDay, &[u8]), Stop>
    ensures value { result_map_both (λ read. (day_parts read.0, read.1.now)) (λ stop. stop) result
        ≡ counted_at text.now }
    ensures day { IfOk result (λ read. IsRuleDay read.0) }
{
    let (day, rest) = number(Field::Counted, text)?;
    Ok((RuleDay::Counted(day), rest))
}

// A day of each year.
fn day(text: &[u8]) -> Result<(RuleDay, &[u8]), Stop>
    ensures value { result_map_both (λ read. (day_parts read.0, read.1.now)) (λ stop. stop) result
        ≡ day_at text.now }
    ensures day { IfOk result (λ read. IsRuleDay read.0) }
{
    match text.split_first() {
        Some((b'M', rest)) => weekday(rest),
        Some((b'J', rest)) => common_day(rest),
        _ => counted_day(text),
    }
}

// A time of day after a slash, or else 2:00.
fn time(text: &[u8]) -> Result<(i32, &[u8]), Stop>
    ensures value { result_map_both (λ read. (read.0, read.1.now)) (λ stop. stop) result
        ≡ time_at text.now }
    ensures low { IfOk result (λ read. neg_ℤ (pos 604_799) ≤ℤ read.0) }
    ensures high { IfOk result (λ read. read.0 ≤ℤ pos 604_799) }
{
    match text.split_first() {
        Some((b'/', rest)) => signed(Field::TimeHours, rest),
        _ => Ok((7_200, text)),
    }
}

// A moment of each year after a comma.
#[tactic(auto, unfolding(crate::specs::Reading::moment_at))]
pub(crate) fn moment(text: &[u8]) -> Result<(Moment, &[u8]), Stop>
    ensures { result_map_both (λ read. (moment_parts read.0, read.1.now)) (λ stop. stop) result
        ≡ moment_at text.now }
{
    let rest = after_byte(b',', text)?;
    let (day, rest) = day(rest)?;
    let (time, rest) = time(rest)?;
    Ok((Moment { day, time }, rest))
}

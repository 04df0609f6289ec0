//! The texts of rules.
ghost use Rattle.std.specs.Prelude.{◌≡◌, ◌<◌, ◌≤◌, ◌++◌, ◌∷◌, [], IfOk, OnOk, length, pos, neg_ℤ, ◌≤ℤ◌};
ghost use Rattle.std.specs.Char.{is_ascii_alphabetic};
ghost use Rattle.std.specs.List.{list_all};
ghost use Rattle.calendar_values.specs.Month.{month_number};
ghost use Rattle.zone_files.specs.Grammar.{Derives};
ghost use Rattle.zone_files.specs.RuleTexts.{HasText, IsTextOffset, clock_text, day_text, daylight_offset_text, daylight_text};
ghost use Rattle.zone_files.specs.RuleTexts.{minutes_text, moment_text, name_text, offset_text, rest_text, rule_text};
ghost use Rattle.zone_files.specs.RuleTexts.{seconds_text, short_digits, signed_text, time_text, two_digits};
ghost use Rattle.zone_files.specs.Rules.DayParts.{OfWeek};
ghost use Rattle.zone_files.specs.Rules.{day_parts, daylight_parts, moment_parts, rule_parts};
ghost use Rattle.zones.specs.Rules.{IsRuleDay};

use crate::pieces::{Kind, split};
use crate::tz_rule::{Daylight, TzRule};
use calendar_values::Month;
use std::alloc::{AllocError, Global};
use zones::{Moment, RuleDay};

// Adds two digits.
fn put_two(out: &mut Vec<u8>, n: u32) -> Result<(), AllocError>
    requires { n < 100 }
    ensures { OnOk result (out.new.items ≡ out.old.items ++ two_digits n) }
{
    out.extend_from_slice(&[b'0' + (n / 10) as u8, b'0' + (n % 10) as u8])?;
    Ok(())
}

// Adds a number with as few digits as it has.
fn put_number(out: &mut Vec<u8>, n: u32) -> Result<(), AllocError>
    requires { n < 1_000 }
    ensures { OnOk result (out.new.items ≡ out.old.items ++ short_digits n) }
{
    if n < 10 {
        out.push(b'0' + n as u8)?;
        return Ok(());
    }
    if n < 100 {
        return put_two(out, n);
    }
    out.push(b'0' + (n / 100) as u8)?;
    put_two(out, n % 100)
}

// Adds the seconds of a minute, unless there are none.
fn put_seconds(out: &mut Vec<u8>, n: u32) -> Result<(), AllocError>
    requires { n < 60 }
    ensures { OnOk result (out.new.items ≡ out.old.items ++ seconds_text n) }
{
    if n == 0 {
        return Ok(());
    }
    out.push(b':')?;
    put_two(out, n)
}

// Adds the minutes and seconds of an hour, unless there are none.
fn put_minutes(out: &mut Vec<u8>, n: u32) -> Result<(), AllocError>
    requires { n < 3_600 }
    ensures { OnOk result (out.new.items ≡ out.old.items ++ minutes_text n) }
{
    if n == 0 {
        return Ok(());
    }
    out.push(b':')?;
    put_two(out, n / 60)?;
    put_seconds(out, n % 60)
}

// Adds a clock.
fn put_clock(out: &mut Vec<u8>, n: u32) -> Result<(), AllocError>
    requires { n < 604_800 }
    ensures { OnOk result (out.new.items ≡ out.old.items ++ clock_text n) }
{
    put_number(out, n / 3_600)?;
    put_minutes(out, n % 3_600)
}

// Adds a clock with a sign.
fn put_signed(out: &mut Vec<u8>, seconds: i32) -> Result<(), AllocError>
    requires low { neg_ℤ (pos 604_799) ≤ℤ seconds }
    requires high { seconds ≤ℤ pos 604_799 }
    ensures { OnOk result (out.new.items ≡ out.old.items ++ signed_text seconds) }
{
    if seconds < 0 {
        out.push(b'-')?;
    }
    put_clock(out, seconds.unsigned_abs())
}

// Whether a name has letters alone.
#[tactic(auto, using(crate::proofs::RuleTextLemmas::all_front))]
fn is_of_letters(name: &[u8]) -> bool
    ensures { result ≡ list_all is_ascii_alphabetic name.now }
{
    split(Kind::Letter, name).1.is_empty()
}

// Adds a name.
#[tactic(auto, unfolding(crate::specs::RuleTexts::name_text))]
fn put_name(out: &mut Vec<u8>, name: &[u8]) -> Result<(), AllocError>
    ensures { OnOk result (out.new.items ≡ out.old.items ++ name_text name.now) }
{
    if is_of_letters(name) {
        out.extend_from_slice(name)?;
        return Ok(());
    }
    out.push(b'<')?;
    out.extend_from_slice(name)?;
    out.push(b'>')?;
    Ok(())
}

// The number of a month.
fn number_of_month(month: Month) -> u32
    ensures value { result ≡ month_number month }
    ensures bound { result ≤ 12 }
{
    match month {
        Month::January => 1,
        Month::February => 2,
        Month::March => 3,
        Month::April => 4,
        Month::May => 5,
        Month::June => 6,
        Month::July => 7,
        Month::August => 8,
        Month::September => 9,
        Month::October => 10,
        Month::November => 11,
        Month::December => 12,
    }
}

// Adds a weekday in a week of a month.
#[tactic(auto, unfolding(crate::specs::RuleTexts::day_text))]
fn put_weekday(out: &mut Vec<u8>, month: Month, week: u8, weekday: u8) -> Result<(), AllocError>
    ensures { OnOk result (out.new.items ≡
        out.old.items ++ day_text (OfWeek (month_number month) week weekday)) }
{
    out.push(b'M')?;
    put_number(out, number_of_month(month))?;
    out.push(b'.')?;
    put_number(out, week as u32)?;
    out.push(b'.')?;
    put_number(out, weekday as u32)
}

// Adds a day of each year.
#[tactic(auto, unfolding(crate::specs::RuleTexts::day_text))]
fn put_day(out: &mut Vec<u8>, day: RuleDay) -> Result<(), AllocError>
    requires { IsRuleDay day }
    ensures { OnOk result (out.new.items ≡ out.old.items ++ day_text (day_parts day)) }
{
    match day {
        RuleDay::Weekday(month, week, weekday) => put_weekday(out, month, week, weekday),
        RuleDay::Common(n) => {
            out.push(b'J')?;
            put_number(out, n as u32)
        }
        RuleDay::Counted(n) => put_number(out, n as u32),
    }
}

// Adds a time of day, unless it is 2:00.
#[tactic(auto, unfolding(crate::specs::RuleTexts::time_text))]
fn put_time(out: &mut Vec<u8>, seconds: i32) -> Result<(), AllocError>
    requires low { neg_ℤ (pos 604_799) ≤ℤ seconds }
    requires high { seconds ≤ℤ pos 604_799 }
    ensures { OnOk result (out.new.items ≡ out.old.items ++ time_text seconds) }
{
    if 7_200 <= seconds && seconds <= 7_200 {
        return Ok(());
    }
    out.push(b'/')?;
    put_signed(out, seconds)
}

// Adds a day of each year and a time.
fn put_day_and_time(out: &mut Vec<u8>, moment: Moment) -> Result<(), AllocError>
    ensures { OnOk result (out.new.items ≡
        out.old.items ++ (day_text (day_parts moment.day) ++ time_text moment.time)) }
{
    put_day(out, moment.day)?;
    put_time(out, moment.time)
}

// Adds a moment of each year.
#[tactic(auto, unfolding(crate::specs::RuleTexts::moment_text))]
fn put_moment(out: &mut Vec<u8>, moment: Moment) -> Result<(), AllocError>
    ensures { OnOk result (out.new.items ≡ out.old.items ++ moment_text (moment_parts moment)) }
{
    out.push(b',')?;
    put_day_and_time(out, moment)
}

// Adds an offset, which the text counts west of UTC.
#[tactic(auto, unfolding(crate::specs::RuleTexts::offset_text))]
fn put_offset(out: &mut Vec<u8>, offset: i32) -> Result<(), AllocError>
    requires { IsTextOffset offset }
    ensures { OnOk result (out.new.items ≡ out.old.items ++ offset_text offset) }
{
    put_signed(out, -offset)
}

// Adds the offset of daylight saving time, unless it is an hour more than that of standard time.
#[tactic(auto, unfolding(crate::specs::RuleTexts::daylight_offset_text))]
fn put_daylight_offset(out: &mut Vec<u8>, standard: i32, offset: i32) -> Result<(), AllocError>
    requires standard { IsTextOffset standard }
    requires offset { IsTextOffset offset }
    ensures { OnOk result (out.new.items ≡
        out.old.items ++ daylight_offset_text standard offset) }
{
    if standard + 3_600 <= offset && offset <= standard + 3_600 {
        return Ok(());
    }
    put_offset(out, offset)
}

// Adds two moments of each year.
fn put_moments(out: &mut Vec<u8>, from: Moment, until: Moment) -> Result<(), AllocError>
    ensures { OnOk result (out.new.items ≡
        out.old.items ++ (moment_text (moment_parts from) ++ moment_text (moment_parts until))) }
{
    put_moment(out, from)?;
    put_moment(out, until)
}

// Adds the offset of daylight saving time and its moments.
fn put_offset_and_moments(
    out: &mut Vec<u8>,
    standard: i32,
    offset: i32,
    from: Moment,
    until: Moment,
) -> Result<(), AllocError>
    requires standard { IsTextOffset standard }
    requires offset { IsTextOffset offset }
    ensures { OnOk result (out.new.items ≡ out.old.items
        ++ (daylight_offset_text standard offset
        ++ (moment_text (moment_parts from) ++ moment_text (moment_parts until)))) }
{
    put_daylight_offset(out, standard, offset)?;
    put_moments(out, from, until)
}

// Adds daylight saving time.
#[tactic(auto, unfolding(crate::specs::RuleTexts::daylight_text))]
fn put_daylight(out: &mut Vec<u8>, standard: i32, daylight: Daylight<'_>) -> Result<(), AllocError>
    requires standard { IsTextOffset standard }
    requires offset { IsTextOffset daylight.offset }
    ensures { OnOk result (out.new.items ≡
        out.old.items ++ daylight_text standard (daylight_parts daylight.entry)) }
{
    put_name(out, daylight.name)?;
    put_offset_and_moments(
        out,
        standard,
        daylight.offset,
        daylight.from,
        daylight.until,
    )
}

// Adds what follows standard time.
fn put_rest(out: &mut Vec<u8>, rule: TzRule<'_>) -> Result<(), AllocError>
    requires { HasText (rule_parts rule) }
    ensures { OnOk result (out.new.items ≡
        out.old.items
        ++ rest_text (rule_parts rule.entry).offset (rule_parts rule.entry).daylight) }
{
    match rule.daylight {
        None => Ok(()),
        Some(daylight) => put_daylight(out, rule.offset, daylight),
    }
}

// The text of a rule.
#[tactic(auto, unfolding(crate::specs::RuleTexts::rule_text))]
fn text_of(alloc: Global, rule: TzRule<'_>) -> Result<Vec<u8>, AllocError>
    requires { HasText (rule_parts rule) }
    ensures { IfOk result (λ text. text.items ≡ rule_text (rule_parts rule.entry)) }
{
    let mut out = Vec::new(alloc);
    put_name(&mut out, rule.name)?;
    put_offset(&mut out, rule.offset)?;
    put_rest(&mut out, rule)?;
    Ok(out)
}

/// Returns the text of a rule, with the shortest numbers and nothing that may be left out, such as
/// `CET-1CEST,M3.5.0,M10.5.0/3`.
pub fn rule_text(alloc: Global, rule: TzRule<'_>) -> Result<Vec<u8>, AllocError>
    // Its names have three letters, digits and signs or more, and its offsets at most 24:59:59.
    requires { HasText (rule_parts rule) }
    ensures text { IfOk result (λ text. text.items ≡ rule_text (rule_parts rule.entry)) }
    // The text derives the rule, so parse_rule reads it back.
    ensures back { IfOk result (λ text. Derives text.items (rule_parts rule.entry)) }
{
    text_of(alloc, rule)
}

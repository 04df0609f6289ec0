//! The numbers of a time zone, which a caller keeps.
ghost use Rattle.std.specs.Prelude.{◌≡◌, ◌≤◌, drop, length, take};
ghost use Rattle.muxandu_c.specs.ZoneNumbers.{AreTransitionsOf, IsCycleOf, IsDayOf, IsRuleOf, IsTransitionOf, IsTypeOf, StandsFor, mark_of};

use crate::zone_numbers::{MuxanduTransition, MuxanduZone};
use zones::{Cycle, RuleDay, TimeType, Transition, Zone};

// The numbers of a day of each year.
#[derive(Clone, Copy)]
struct DayNumbers {
    kind: u8,
    month: u8,
    week: u8,
    weekday: u8,
    day: u16,
}

// The number of the mark of daylight saving time.
pub(crate) fn mark(is_daylight: bool) -> u8
    ensures { result ≡ mark_of is_daylight }
{
    if is_daylight { 1 } else { 0 }
}

// The numbers of a transition.
pub(crate) fn numbers_of_transition(row: Transition) -> MuxanduTransition
    ensures { IsTransitionOf result row }
{
    MuxanduTransition {
        second: row.second,
        before_offset_seconds: row.before.offset,
        after_offset_seconds: row.after.offset,
        before_designation: row.before.designation,
        after_designation: row.after.designation,
        before_is_daylight: mark(row.before.is_daylight),
        after_is_daylight: mark(row.after.is_daylight),
    }
}

// Puts the numbers of transitions at the front of a table.
fn write_rows(rows: &[Transition], table: &mut [MuxanduTransition])
    requires { length rows.now ≤ length table.old }
    ensures rows { AreTransitionsOf (take (length rows.now) table.new) rows.now }
    ensures behind { drop (length rows.now) table.new ≡ drop (length rows.now) table.old }
{
    let count = rows.len();
    'rows: for i in 0..count {
        table[i] = numbers_of_transition(rows[i]);
    }
}

// The numbers of a day of each year.
fn numbers_of_day(day: RuleDay) -> DayNumbers
    ensures { IsDayOf result.kind result.month result.week result.weekday result.day day }
{
    match day {
        RuleDay::Weekday(month, week, weekday) => DayNumbers {
            kind: 1,
            month: u8::from(month),
            week,
            weekday,
            day: 0,
        },
        RuleDay::Common(day) => DayNumbers {
            kind: 2,
            month: 0,
            week: 0,
            weekday: 0,
            day,
        },
        RuleDay::Counted(day) => DayNumbers {
            kind: 3,
            month: 0,
            week: 0,
            weekday: 0,
            day,
        },
    }
}

// The numbers of a zone without a rule.
fn numbers_of_type(first: TimeType) -> MuxanduZone
    ensures first { IsTypeOf result.offset_seconds result.designation result.is_daylight first }
    ensures rule { result.has_rule ≡ 0 }
{
    MuxanduZone {
        offset_seconds: first.offset,
        first_time: 0,
        first_offset_seconds: 0,
        second_time: 0,
        second_offset_seconds: 0,
        designation: first.designation,
        first_day: 0,
        first_designation: 0,
        second_day: 0,
        second_designation: 0,
        is_daylight: mark(first.is_daylight),
        has_rule: 0,
        first_kind: 0,
        first_month: 0,
        first_week: 0,
        first_weekday: 0,
        first_is_daylight: 0,
        second_kind: 0,
        second_month: 0,
        second_week: 0,
        second_weekday: 0,
        second_is_daylight: 0,
    }
}

// The numbers of a zone with a rule.
fn numbers_with_rule(first: TimeType, rule: Cycle) -> MuxanduZone
    ensures first { IsTypeOf result.offset_seconds result.designation result.is_daylight first }
    ensures mark { result.has_rule ≡ 1 }
    ensures rule { IsCycleOf result rule }
{
    let first_day = numbers_of_day(rule.first.day);
    let second_day = numbers_of_day(rule.second.day);
    MuxanduZone {
        offset_seconds: first.offset,
        first_time: rule.first.time,
        first_offset_seconds: rule.after_first.offset,
        second_time: rule.second.time,
        second_offset_seconds: rule.after_second.offset,
        designation: first.designation,
        first_day: first_day.day,
        first_designation: rule.after_first.designation,
        second_day: second_day.day,
        second_designation: rule.after_second.designation,
        is_daylight: mark(first.is_daylight),
        has_rule: 1,
        first_kind: first_day.kind,
        first_month: first_day.month,
        first_week: first_day.week,
        first_weekday: first_day.weekday,
        first_is_daylight: mark(rule.after_first.is_daylight),
        second_kind: second_day.kind,
        second_month: second_day.month,
        second_week: second_day.week,
        second_weekday: second_day.weekday,
        second_is_daylight: mark(rule.after_second.is_daylight),
    }
}

// The numbers of a zone, but for its transitions.
fn numbers_of_parts(first: TimeType, rule: Option<Cycle>) -> MuxanduZone
    ensures first { IsTypeOf result.offset_seconds result.designation result.is_daylight first }
    ensures rule { IsRuleOf result rule }
{
    match rule {
        Some(cycle) => numbers_with_rule(first, cycle),
        None => numbers_of_type(first),
    }
}

// Puts the numbers of a zone into the places of a caller, and says how many transitions it has.
pub(crate) fn write_zone(
    zone: &Zone,
    out: &mut MuxanduZone,
    table: &mut [MuxanduTransition],
) -> usize
    requires few { length zone.now.rows ≤ 512 }
    requires room { length zone.now.rows ≤ length table.old }
    ensures count { result ≡ length zone.now.rows }
    ensures stands { StandsFor out.new (take (length zone.now.rows) table.new) zone.now }
    ensures behind { drop (length zone.now.rows) table.new ≡ drop (length zone.now.rows) table.old }
{
    *out = numbers_of_parts(zone.first_type(), zone.rule());
    let rows = zone.table();
    write_rows(rows, table);
    rows.len()
}

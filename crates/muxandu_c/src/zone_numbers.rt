//! Time zones as numbers that a caller keeps.
ghost use Rattle.std.specs.Prelude.{◌≡◌, ◌≤◌, IfErr, IfNone, IfOk, IfSome, MatchResult, length, take};
ghost use Rattle.muxandu_c.specs.ZoneNumbers.{AreTransitionsOf, IsCycleOf, IsDayOf, IsFirstOf, IsSecondOf, IsNoRule, IsNoTable, IsNoZone};
ghost use Rattle.muxandu_c.specs.ZoneNumbers.{IsRuleOf, IsTransitionOf, IsTypeOf, StandsFor};
ghost use Rattle.zones.specs.Rules.{is_rule_day};
ghost use Rattle.zones.specs.declared.cycle.Cycle.{Cycle};
ghost use Rattle.zones.specs.declared.moment.Moment.{Moment};
ghost use Rattle.zones.specs.declared.rule_day.RuleDay.{RuleDay};
ghost use Rattle.zones.specs.declared.time_type.TimeType.{TimeType};
ghost use Rattle.zones.specs.declared.transition.Transition.{Transition};

use crate::refused::Refused;
use calendar_values::Month;
use zones::{Cycle, Moment, RuleDay, TimeType, Transition, Zone};

/// The most transitions of a zone.
pub const MUXANDU_ZONE_ROOM: usize = 512;

/// A transition of a time zone: its clocks go from one kind of local time to another.
#[repr(C)]
#[derive(Clone, Copy)]
pub struct MuxanduTransition {
    /// The Unix second from which on the kind after it holds.
    pub second: i64,
    /// The offset until then, in seconds: -93599 to 93599.
    pub before_offset_seconds: i32,
    /// The offset from then on.
    pub after_offset_seconds: i32,
    /// The number of the abbreviation until then.
    pub before_designation: u16,
    /// The number of the abbreviation from then on.
    pub after_designation: u16,
    /// 1 for daylight saving time until then, else 0.
    pub before_is_daylight: u8,
    /// 1 for daylight saving time from then on, else 0.
    pub after_is_daylight: u8,
}

/// A time zone, but for its transitions, which the caller keeps in an array of its own. Keep both
/// as a call wrote them.
#[repr(C)]
#[derive(Clone, Copy)]
pub struct MuxanduZone {
    /// The offset before the first transition, in seconds: -93599 to 93599.
    pub offset_seconds: i32,
    /// Seconds after the midnight of the first day of the rule, -604799 to 604799.
    pub first_time: i32,
    /// The offset after the first moment of the rule.
    pub first_offset_seconds: i32,
    /// Seconds after the midnight of the second day of the rule.
    pub second_time: i32,
    /// The offset after the second moment of the rule.
    pub second_offset_seconds: i32,
    /// The number of the abbreviation before the first transition.
    pub designation: u16,
    /// The first day of the rule, for the kinds 2 and 3.
    pub first_day: u16,
    /// The number of the abbreviation after the first moment of the rule.
    pub first_designation: u16,
    /// The second day of the rule, for the kinds 2 and 3.
    pub second_day: u16,
    /// The number of the abbreviation after the second moment of the rule.
    pub second_designation: u16,
    /// 1 for daylight saving time before the first transition, else 0.
    pub is_daylight: u8,
    /// 1 if a rule of each year follows the transitions, else 0.
    pub has_rule: u8,
    /// The kind of the first day: 1 for a weekday of a month, 2 for `Jn`, 3 for `n`.
    pub first_kind: u8,
    /// Its month, for kind 1.
    pub first_month: u8,
    /// Its week of the month, 1 to 5, for kind 1.
    pub first_week: u8,
    /// Its weekday, 0 for Sunday, for kind 1.
    pub first_weekday: u8,
    /// 1 for daylight saving time after the first moment, else 0.
    pub first_is_daylight: u8,
    /// The kind of the second day.
    pub second_kind: u8,
    /// Its month, for kind 1.
    pub second_month: u8,
    /// Its week of the month, for kind 1.
    pub second_week: u8,
    /// Its weekday, for kind 1.
    pub second_weekday: u8,
    /// 1 for daylight saving time after the second moment, else 0.
    pub second_is_daylight: u8,
}

// The greatest offset.
const MOST_OFFSET: i32 = 93_599;

// The last second of a transition; the first is as far before 1970.
const MOST_SECOND: i64 = 40_000_000_200_000;

// The most seconds between a midnight and a moment of a rule.
const MOST_TIME: i32 = 604_799;

// The kind of local time of these numbers.
fn read_type(offset: i32, designation: u16, mark: u8) -> Option<TimeType>
    ensures some { IfSome result (IsTypeOf offset designation mark) }
    ensures none { IfNone result ((t : TimeType) → IsTypeOf offset designation mark t → ⊥) }
{
    if offset < -MOST_OFFSET {
        return None;
    }
    if offset > MOST_OFFSET {
        return None;
    }
    match mark {
        0 => Some(TimeType {
            offset,
            is_daylight: false,
            designation,
        }),
        1 => Some(TimeType {
            offset,
            is_daylight: true,
            designation,
        }),
        _ => None,
    }
}

// The kind of local time before a transition.
fn read_before(row: MuxanduTransition) -> Option<TimeType>
    ensures some { IfSome result
        (IsTypeOf row.before_offset_seconds row.before_designation row.before_is_daylight) }
    ensures none { IfNone result ((t : TimeType) →
        IsTypeOf row.before_offset_seconds row.before_designation row.before_is_daylight t → ⊥) }
{
    read_type(
        row.before_offset_seconds,
        row.before_designation,
        row.before_is_daylight,
    )
}

// The kind of local time after a transition.
fn read_after(row: MuxanduTransition) -> Option<TimeType>
    ensures some { IfSome result
        (IsTypeOf row.after_offset_seconds row.after_designation row.after_is_daylight) }
    ensures none { IfNone result ((t : TimeType) →
        IsTypeOf row.after_offset_seconds row.after_designation row.after_is_daylight t → ⊥) }
{
    read_type(
        row.after_offset_seconds,
        row.after_designation,
        row.after_is_daylight,
    )
}

// The transition of these numbers.
fn read_transition(row: MuxanduTransition) -> Option<Transition>
    ensures some { IfSome result (IsTransitionOf row) }
    ensures none { IfNone result ((t : Transition) → IsTransitionOf row t → ⊥) }
{
    if row.second < -MOST_SECOND {
        return None;
    }
    if row.second > MOST_SECOND {
        return None;
    }
    let Some(before) = read_before(row) else {
        return None;
    };
    let Some(after) = read_after(row) else {
        return None;
    };
    Some(Transition {
        second: row.second,
        before,
        after,
    })
}

// Puts the transitions of these numbers at the front of a table, and says how many there are.
pub(crate) fn read_table(
    table: &[MuxanduTransition],
    room: &mut [Transition],
) -> Result<usize, Refused>
    requires { 512 ≤ length room.old }
    ensures count { IfOk result (λ count. count ≡ length table.now) }
    ensures few { IfOk result (λ count. count ≤ 512) }
    ensures rows { IfOk result (λ count. AreTransitionsOf table.now (take count room.new)) }
    ensures none { IfErr result (IsNoTable table.now) }
    ensures length { length room.new ≡ length room.old }
{
    let count = table.len();
    if count > MUXANDU_ZONE_ROOM {
        return Err(Refused::Zone);
    }
    'rows: for i in 0..count {
        match read_transition(table[i]) {
            Some(row) => room[i] = row,
            None => return Err(Refused::Zone),
        }
    }
    Ok(count)
}

// Whether a rule can name the day.
fn is_rule_day(day: RuleDay) -> bool
    ensures { result ≡ is_rule_day day }
{
    match day {
        RuleDay::Weekday(_, week, weekday) => 1 <= week && week <= 5 && weekday <= 6,
        RuleDay::Common(n) => 1 <= n && n <= 365,
        RuleDay::Counted(n) => n <= 365,
    }
}

// The day of each year of these numbers.
fn read_day(kind: u8, month: u8, week: u8, weekday: u8, day: u16) -> Option<RuleDay>
    ensures some { IfSome result (IsDayOf kind month week weekday day) }
    ensures none { IfNone result ((d : RuleDay) → IsDayOf kind month week weekday day d → ⊥) }
{
    match kind {
        1 => match Month::from_number(month) {
            Ok(month) => Some(RuleDay::Weekday(month, week, weekday)),
            Err(_) => None,
        },
        2 => Some(RuleDay::Common(day)),
        3 => Some(RuleDay::Counted(day)),
        _ => None,
    }
}

// The moment of each year on this day at this time.
fn moment_on(day: RuleDay, time: i32) -> Option<Moment>
    ensures some { IfSome result (λ m. (m.day ≡ day) × (m.time ≡ time)) }
    ensures none { IfNone result ((m : Moment) →
        is_rule_day m.day ≡ is_rule_day day → m.time ≡ time → ⊥) }
{
    if time < -MOST_TIME {
        return None;
    }
    if time > MOST_TIME {
        return None;
    }
    if !is_rule_day(day) {
        return None;
    }
    Some(Moment { day, time })
}

// The first moment of the rule.
fn read_first(zone: MuxanduZone) -> Option<(Moment, TimeType)>
    ensures some { IfSome result (λ read. IsFirstOf zone read.0 read.1) }
    ensures none { IfNone result ((m : Moment) (t : TimeType) → IsFirstOf zone m t → ⊥) }
{
    let Some(day) = read_day(
        zone.first_kind,
        zone.first_month,
        zone.first_week,
        zone.first_weekday,
        zone.first_day,
    ) else {
        return None;
    };
    let Some(moment) = moment_on(day, zone.first_time) else {
        return None;
    };
    let Some(after) = read_type(
        zone.first_offset_seconds,
        zone.first_designation,
        zone.first_is_daylight,
    ) else {
        return None;
    };
    Some((moment, after))
}

// The second moment of the rule.
fn read_second(zone: MuxanduZone) -> Option<(Moment, TimeType)>
    ensures some { IfSome result (λ read. IsSecondOf zone read.0 read.1) }
    ensures none { IfNone result ((m : Moment) (t : TimeType) → IsSecondOf zone m t → ⊥) }
{
    let Some(day) = read_day(
        zone.second_kind,
        zone.second_month,
        zone.second_week,
        zone.second_weekday,
        zone.second_day,
    ) else {
        return None;
    };
    let Some(moment) = moment_on(day, zone.second_time) else {
        return None;
    };
    let Some(after) = read_type(
        zone.second_offset_seconds,
        zone.second_designation,
        zone.second_is_daylight,
    ) else {
        return None;
    };
    Some((moment, after))
}

// The rule of these numbers.
fn read_cycle(zone: MuxanduZone) -> Option<Cycle>
    ensures some { IfSome result (IsCycleOf zone) }
    ensures none { IfNone result ((c : Cycle) → IsCycleOf zone c → ⊥) }
{
    let Some((first, after_first)) = read_first(zone) else {
        return None;
    };
    let Some((second, after_second)) = read_second(zone) else {
        return None;
    };
    Some(Cycle {
        first,
        second,
        after_first,
        after_second,
    })
}

// The rule of a zone, if it has one.
fn read_rule(zone: MuxanduZone) -> Result<Option<Cycle>, Refused>
    ensures { MatchResult result (IsRuleOf zone) (IsNoRule zone) }
{
    match zone.has_rule {
        0 => Ok(None),
        1 => match read_cycle(zone) {
            Some(cycle) => Ok(Some(cycle)),
            None => Err(Refused::Zone),
        },
        _ => Err(Refused::Zone),
    }
}

// The zone of these numbers, whose transitions these are.
pub(crate) fn zone_of<'a>(
    zone: MuxanduZone,
    table: &[MuxanduTransition],
    rows: &'a [Transition],
) -> Result<Zone<'a>, Refused>
    requires few { length table.now ≤ 512 }
    requires rows { AreTransitionsOf table.now rows.now }
    ensures { MatchResult result (StandsFor zone table.now) (IsNoZone zone table.now) }
{
    let _ = &table;
    let Some(first) = read_type(zone.offset_seconds, zone.designation, zone.is_daylight) else {
        return Err(Refused::Zone);
    };
    let rule = match read_rule(zone) {
        Ok(rule) => rule,
        Err(refused) => return Err(refused),
    };
    match Zone::new(first, rows, rule) {
        Ok(zone) => Ok(zone),
        Err(_) => Err(Refused::Zone),
    }
}

// What stands in a table for a transition before it is read.
pub(crate) fn no_transition() -> Transition {
    let none = TimeType {
        offset: 0,
        is_daylight: false,
        designation: 0,
    };
    Transition {
        second: 0,
        before: none,
        after: none,
    }
}

//! Clocks of a table and of the cycle after it.
ghost use Rattle.std.specs.Prelude.{◌≡◌, ◌↔◌, pos, neg_ℤ, ◌≤ℤ◌, IsTrue, Some, IfSome, IfNone};
ghost use Rattle.zones.specs.Clocks.{IsTypeAt, IsNext, IsLast, IsLastStarted};
ghost use Rattle.zones.specs.Cycles.{Always};
ghost use Rattle.zones.specs.Ranges.{IsCycleSecond};
ghost use Rattle.zones.specs.Seconds.{IsSecond};
ghost use Rattle.zones.specs.Tables.{IsForward, IsClear};
ghost use Rattle.zones.specs.Zones.{IsJoined, IsFirstMoment, NeverJoined, IsSettledOf, joined_second, joined_type};

use crate::{Cycle, Tail, TimeType, Transition, tables};

// A moment before all seconds.
pub(crate) const FIRST_MOMENT: i64 = -2_390_000;

// The kind of local time at the second.
pub(crate) fn type_at(first: TimeType, rows: &[Transition], tail: Tail, second: i64) -> TimeType
    requires joined { IsJoined first rows.now tail }
    requires second_in { IsCycleSecond second }
    ensures { IsTypeAt Always (joined_second rows.now tail) (joined_type first rows.now tail)
        second result }
{
    if second >= tail.from {
        tail.cycle.type_at(second)
    } else {
        tables::type_at(first, rows, second)
    }
}

// The last transition whose gap or fold starts at or before the wall clock.
pub(crate) fn last_started(
    first: TimeType,
    rows: &[Transition],
    tail: Tail,
    local: i64,
) -> Option<Transition>
    requires joined { IsJoined first rows.now tail }
    requires local_in { IsSecond local }
    ensures { IsLastStarted Always (joined_second rows.now tail) (joined_type first rows.now tail)
        local result }
{
    if local >= tail.from_local {
        Some(tail.cycle.transition_of(tail.cycle.last_start_at(local)))
    } else {
        tables::last_started(first, rows, local)
    }
}

// The kind of local time at the wall clock, if the cycle has it, and no gap or fold lies near.
pub(crate) fn settled_type(
    first: TimeType,
    rows: &[Transition],
    tail: Tail,
    local: i64,
) -> Option<TimeType>
    requires joined { IsJoined first rows.now tail }
    requires local_in { IsSecond local }
    ensures { IfSome result (λ kind. IsSettledOf first rows.now (Some tail) local kind) }
{
    if local < tail.from_local {
        return None;
    }
    tail.cycle.settled_type(local)
}

// The first transition after the second.
pub(crate) fn next(
    first: TimeType,
    rows: &[Transition],
    tail: Tail,
    second: i64,
) -> Option<Transition>
    requires joined { IsJoined first rows.now tail }
    requires second_in { IsCycleSecond second }
    ensures { IsNext Always (joined_second rows.now tail) (joined_type first rows.now tail)
        second result }
{
    if second >= tail.from {
        return Some(tail.cycle.transition_of(tail.cycle.last_at(second) + 1));
    }
    match tables::next(first, rows, second) {
        Some(row) => Some(row),
        None => Some(tail.cycle.transition_of(tail.moment)),
    }
}

// The last transition at or before the second.
pub(crate) fn last(
    first: TimeType,
    rows: &[Transition],
    tail: Tail,
    second: i64,
) -> Option<Transition>
    requires joined { IsJoined first rows.now tail }
    requires second_in { IsCycleSecond second }
    ensures { IsLast Always (joined_second rows.now tail) (joined_type first rows.now tail)
        second result }
{
    if second >= tail.from {
        Some(tail.cycle.transition_of(tail.cycle.last_at(second)))
    } else {
        tables::last(first, rows, second)
    }
}

// The first moment of a cycle after a table.
fn first_moment(first: TimeType, rows: &[Transition], cycle: Cycle) -> i64
    requires { IsForward first rows.now }
    ensures moment { IsFirstMoment rows.now cycle result }
    ensures low { neg_ℤ (pos 2_390_000) ≤ℤ result }
    ensures high { result ≤ℤ pos 2_390_001 }
{
    let count = rows.len();
    if count == 0 {
        return FIRST_MOMENT;
    }
    let last = rows[count - 1];
    cycle.last_at(last.second) + 1
}

// Whether the last row's gap or fold has ended at this wall clock.
fn is_clear(rows: &[Transition], local: i64) -> bool
    ensures { IsTrue result ↔ IsClear rows.now local }
{
    let count = rows.len();
    if count == 0 {
        return true;
    }
    let last = rows[count - 1];
    if last.end() > local {
        return false;
    }
    true
}

// The part of the cycle after the table, if the two meet.
pub(crate) fn tail_after(first: TimeType, rows: &[Transition], cycle: Cycle) -> Option<Tail>
    requires { IsForward first rows.now }
    ensures some { IfSome result (λ tail. (tail.cycle ≡ cycle) × IsJoined first rows.now tail) }
    ensures none { IfNone result (NeverJoined first rows.now cycle) }
{
    if !cycle.runs_forward() {
        return None;
    }
    let moment = first_moment(first, rows, cycle);
    let next = cycle.transition_of(moment);
    if !next.before.is(tables::type_after(first, rows, rows.len())) {
        return None;
    }
    let from_local = next.second + cycle.low();
    if !is_clear(rows, from_local) {
        return None;
    }
    Some(Tail {
        cycle,
        moment,
        from: next.second,
        from_local,
    })
}

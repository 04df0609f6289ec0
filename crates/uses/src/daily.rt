//! Work that is done each day at 9:00.

ghost use Rattle.std.specs.Prelude.{◌≡◌, ◌*◌, ◌+ℤ◌, ◌≤ℤ◌, ◌<ℤ◌, pos, IfSome, Some, SomeIff};
ghost use Rattle.calendar_values.specs.Clock.{nanos_per_day, nanos_per_hour};
ghost use Rattle.calendar_values.specs.WallClock.{wall_time, IsWallClock};
ghost use Rattle.offset_times.specs.Local.{instant_of, at_offset_of, wall_at};
ghost use Rattle.plain_times.specs.Replacements.{with_time};

use calendar_values::{SignedDuration, Time};
use offset_times::OffsetDateTime;

/// 9:00 of the day that clocks show: less than a day before now, and at most a day after.
pub fn nine_of_the_day(now: OffsetDateTime) -> Option<OffsetDateTime>
    ensures value { result ≡ Some (at_offset_of now (with_time now.wall (9 * nanos_per_hour))) }
    ensures offset { IfSome result (λ nine. nine.offset ≡ now.offset) }
    ensures at_nine { IfSome result (λ nine. wall_time nine.wall ≡ 9 * nanos_per_hour) }
    ensures recent { IfSome result (λ nine. instant_of now <ℤ
        (instant_of nine +ℤ pos nanos_per_day)) }
    ensures soon { IfSome result (λ nine. instant_of nine ≤ℤ
        (instant_of now +ℤ pos nanos_per_day)) }
{
    Some(now.replace_time(Time::from_hms(9, 0, 0).ok()?))
}

/// The run of today, at 9:00 by the same clocks. None where it is not still to come.
pub fn run_today(now: OffsetDateTime) -> Option<OffsetDateTime>
    ensures value { let nine = at_offset_of now (with_time now.wall (9 * nanos_per_hour)) in
        SomeIff result (instant_of now <ℤ instant_of nine) nine }
    ensures offset { IfSome result (λ run. run.offset ≡ now.offset) }
    ensures at_nine { IfSome result (λ run. wall_time run.wall ≡ 9 * nanos_per_hour) }
    ensures to_come { IfSome result (λ run. instant_of now <ℤ instant_of run) }
{
    let today = nine_of_the_day(now)?;
    if now < today {
        return Some(today);
    }
    None
}

/// The run after a run: the same time tomorrow, by the same clocks. None outside the range.
pub fn run_after(run: OffsetDateTime) -> Option<OffsetDateTime>
    ensures offset { IfSome result (λ next. next.offset ≡ run.offset) }
    ensures time { IfSome result (λ next. wall_time next.wall ≡ wall_time run.wall) }
    ensures instant { IfSome result (λ next. instant_of next ≡ instant_of run +ℤ
        pos nanos_per_day) }
    ensures value { let wall = run.wall +ℤ pos nanos_per_day in
        SomeIff result (IsWallClock wall) (wall_at wall run.offset) }
{
    Some(run.checked_add(SignedDuration::days(1))?)
}

/// The run after one that is over: at most a day from now. None outside the range.
pub fn run_after_past(past: OffsetDateTime, now: OffsetDateTime) -> Option<OffsetDateTime>
    requires over { instant_of past ≤ℤ instant_of now }
    ensures value { let wall = past.wall +ℤ pos nanos_per_day in
        SomeIff result (IsWallClock wall) (wall_at wall past.offset) }
    ensures offset { IfSome result (λ next. next.offset ≡ past.offset) }
    ensures time { IfSome result (λ next. wall_time next.wall ≡ wall_time past.wall) }
    ensures instant { IfSome result (λ next. instant_of next ≡ instant_of past +ℤ
        pos nanos_per_day) }
    ensures soon { IfSome result (λ next. instant_of next ≤ℤ
        (instant_of now +ℤ pos nanos_per_day)) }
{
    Some(run_after(past)?)
}

/// The next 9:00 by the same clocks: later than now, and at most a day later. None outside the
/// range.
pub fn next_run(now: OffsetDateTime) -> Option<OffsetDateTime>
    ensures today { let nine = at_offset_of now (with_time now.wall (9 * nanos_per_hour)) in
        instant_of now <ℤ instant_of nine → result ≡ Some nine }
    ensures tomorrow { let nine = at_offset_of now (with_time now.wall (9 * nanos_per_hour)) in
        let wall = nine.wall +ℤ pos nanos_per_day in
        instant_of nine ≤ℤ instant_of now →
        SomeIff result (IsWallClock wall) (wall_at wall now.offset) }
    ensures offset { IfSome result (λ next. next.offset ≡ now.offset) }
    ensures at_nine { IfSome result (λ next. wall_time next.wall ≡ 9 * nanos_per_hour) }
    ensures later { IfSome result (λ next. instant_of now <ℤ instant_of next) }
    ensures soon { IfSome result (λ next. instant_of next ≤ℤ
        (instant_of now +ℤ pos nanos_per_day)) }
{
    let nine = nine_of_the_day(now)?;
    if now < nine {
        return Some(nine);
    }
    Some(run_after_past(nine, now)?)
}

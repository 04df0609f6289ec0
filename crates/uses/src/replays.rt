//! Conversions and calls that come as lists.
ghost use Rattle.std.specs.Prelude.{◌≡◌, ◌≤◌, ◌+ℤ◌, ◌<ℤ◌, ◌∷◌, ◌++◌, [], pos, IfOk, IfSome, Some, length, vec_len, None, SomeIff};
ghost use Rattle.calendar_values.specs.Clock.{nanos_per_day};
ghost use Rattle.calendar_values.specs.WallClock.{IsWallClock, last_wall_clock, wall_day, wall_time};
ghost use Rattle.offset_times.specs.Local.{instant_of, local_at};
ghost use Rattle.stamp_times.specs.Counter.{last_instant, replies, reply, reply_of_instant};
ghost use Rattle.stamp_times.specs.Travel.{held_instant, held_after, stop_index};
ghost use Rattle.stamp_times.specs.declared.chains.steps.Step.TheVariants.{ToOffset, ToUtc};
ghost use Rattle.stamp_times.specs.declared.runs.calls.Reply.TheVariants.{Refused};

use calendar_values::{SignedDuration, Time, UtcOffset};
use offset_times::OffsetDateTime;
use stamp_times::{Call, Held, Replace, Reply, Shift, Step, Timestamp, chain, run};
use std::alloc::{AllocError, Global};
use utc_times::UtcDateTime;

/// The result of the steps, or the value before the step that stopped: the same instant.
pub fn convert(start: Held, steps: &[Step]) -> Held
    ensures { held_instant result ≡ held_instant start }
{
    match chain(start, steps) {
        Ok(held) => held,
        Err(stopped) => stopped.held,
    }
}

/// How many of the steps were made.
pub fn steps_made(start: Held, steps: &[Step]) -> usize
    ensures { result ≤ length steps.now }
{
    match chain(start, steps) {
        Ok(_) => steps.len(),
        Err(stopped) => stopped.index,
    }
}

/// The timestamp at the offset, by way of UTC. None if the date there is out of range.
pub fn by_way_of_utc(stamp: Timestamp, offset: UtcOffset) -> Option<OffsetDateTime>
    ensures value { let stop = stop_index stamp (ToUtc ∷ ToOffset offset ∷ []) in
        SomeIff result (stop ≡ None) (local_at stamp offset) }
    ensures instant { IfSome result (λ shown. instant_of shown ≡ stamp) }
{
    let held = chain(Held::Stamp(stamp), &[Step::ToUtc, Step::ToOffset(offset)]).ok()?;
    match held {
        Held::Offset(shown) => Some(shown),
        _ => None,
    }
}

/// The replies to the calls, one to each.
pub fn replies_to(alloc: Global, start: Timestamp, calls: &[Call]) -> Result<Vec<Reply>, AllocError>
    ensures { IfOk result (λ replies. vec_len replies ≡ length calls.now) }
{
    let (replies, _) = run(alloc, start, calls)?;
    Ok(replies)
}

/// Where calls and then others lead: where the run over all of them ends.
pub fn led_by_both(
    alloc: Global,
    start: Timestamp,
    first: &[Call],
    rest: &[Call],
) -> Result<Timestamp, AllocError>
    ensures { IfOk result (λ end. end ≡ last_instant start (first.now ++ rest.now)) }
{
    stamp_times::laws::runs_compose();
    let (_, between) = run(alloc, start, first)?;
    let (_, end) = run(alloc, between, rest)?;
    Ok(end)
}

/// The replies to calls, and those to others from where the first end: together those to all of
/// them.
pub fn replies_to_both(
    alloc: Global,
    start: Timestamp,
    first: &[Call],
    rest: &[Call],
) -> Result<(Vec<Reply>, Vec<Reply>), AllocError>
    ensures { IfOk result (λ both.
        both.0.items ++ both.1.items ≡ replies start (first.now ++ rest.now)) }
{
    stamp_times::laws::runs_compose();
    let (of_first, between) = run(alloc, start, first)?;
    let (of_rest, _) = run(alloc, between, rest)?;
    Ok((of_first, of_rest))
}

/// Where calls lead, also with a sum in their midst that is refused: it need not be made.
pub fn led_without(
    alloc: Global,
    start: Timestamp,
    first: &[Call],
    refused: Call,
    rest: &[Call],
) -> Result<Timestamp, AllocError>
    ensures { reply (last_instant start first.now) refused ≡ Refused → IfOk result (λ end.
        end ≡ last_instant start (first.now ++ (refused ∷ rest.now))) }
{
    stamp_times::laws::refused_calls_change_nothing();
    led_by_both(alloc, start, first, rest)
}

/// Where a day forward and a day back lead: to where they began.
pub fn day_and_back(alloc: Global, at: Timestamp) -> Result<Timestamp, AllocError>
    requires { IsWallClock (at +ℤ pos nanos_per_day) }
    ensures { IfOk result (λ end. end ≡ at) }
{
    let day = SignedDuration::days(1);
    let there = Call::Shift(Shift::CheckedAdd(day));
    let back = Call::Shift(Shift::CheckedSub(day));
    let (_, end) = run(alloc, at, &[there, back])?;
    Ok(end)
}

/// The reply to a step of a day, if it is in range.
pub fn replies_to_a_day(alloc: Global, at: Timestamp) -> Result<Vec<Reply>, AllocError>
    requires { IsWallClock (at +ℤ pos nanos_per_day) }
    ensures { IfOk result (λ replies.
        replies.items ≡ reply_of_instant (at +ℤ pos nanos_per_day) ∷ []) }
{
    let day = SignedDuration::days(1);
    let (replies, _) = run(alloc, at, &[Call::Shift(Shift::CheckedAdd(day))])?;
    Ok(replies)
}

/// By way of a timestamp to UTC again: neither step can be refused.
pub fn by_way_of_stamp(at: UtcDateTime) -> Held
    ensures { result ≡ Held.Utc at }
{
    chain(Held::Utc(at), &[Step::ToStamp, Step::ToUtc]).unwrap()
}

/// The result of some steps and then others, if all of them succeed.
pub fn converted_by_both(start: Held, first: &[Step], rest: &[Step]) -> Option<Held>
    ensures value { let steps = first.now ++ rest.now in
        SomeIff result (stop_index (held_instant start) steps ≡ None)
        (held_after start (held_instant start) steps) }
{
    stamp_times::laws::chains_compose();
    let between = chain(start, first).ok()?;
    chain(between, rest).ok()
}

/// The place of the step at which a chain over steps and then others stops, counted over all of
/// them. None where all can be made.
pub fn stop_in_both(start: Held, first: &[Step], rest: &[Step]) -> Option<usize>
    ensures { result ≡ stop_index (held_instant start) (first.now ++ rest.now) }
{
    stamp_times::laws::chains_compose();
    match chain(start, first) {
        Ok(between) => Some(first.len() + chain(between, rest).err()?.index),
        Err(stopped) => Some(stopped.index),
    }
}

/// The midnight of the day of an instant, by a replacement that is made as a call.
pub fn midnight(alloc: Global, at: Timestamp) -> Result<Timestamp, AllocError>
    ensures { IfOk result (λ end. (wall_day end ≡ wall_day at) × (wall_time end ≡ 0)) }
{
    let (_, end) = run(alloc, at, &[Call::Replace(Replace::Time(Time::MIDNIGHT))])?;
    Ok(end)
}

/// Where two calls of a day each lead, if both days are in range.
pub fn two_days(alloc: Global, at: Timestamp) -> Result<Timestamp, AllocError>
    requires one { IsWallClock (at +ℤ pos nanos_per_day) }
    requires both { IsWallClock (at +ℤ pos nanos_per_day +ℤ pos nanos_per_day) }
    ensures { IfOk result (λ end. end ≡ at +ℤ pos nanos_per_day +ℤ pos nanos_per_day) }
{
    let first = Call::Shift(Shift::CheckedAdd(SignedDuration::days(1)));
    let second = Call::Shift(Shift::CheckedAdd(SignedDuration::days(1)));
    let (_, end) = run(alloc, at, &[first, second])?;
    Ok(end)
}

/// The reply to a step of a day past the end of the range, and where it leads: it is refused, and
/// the timestamp stays.
pub fn past_the_end(alloc: Global, at: Timestamp) -> Result<(Vec<Reply>, Timestamp), AllocError>
    requires { last_wall_clock <ℤ (at +ℤ pos nanos_per_day) }
    ensures replies { IfOk result (λ both. both.0.items ≡ Refused ∷ []) }
    ensures stays { IfOk result (λ both. both.1 ≡ at) }
{
    let day = Call::Shift(Shift::CheckedAdd(SignedDuration::days(1)));
    run(alloc, at, &[day])
}

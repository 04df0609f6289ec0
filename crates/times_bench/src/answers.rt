//! The answers to lines.
ghost use Rattle.std.specs.Prelude.{◌≡◌, ◌≤◌, ◌<◌, ◌+◌, ◌++◌, length, None, codes, decimal, flat_map, IsTrue, IfOk, MatchResult};
ghost use Rattle.std.specs.Prelude.{vec_len, vec_capacity};
ghost use Rattle.calendar_values.specs.WallClock.{wall_day};
ghost use Rattle.times_bench.specs.Answers.{answer_to, answer_of, takes_memory, request_takes_memory, with_instant_nanosecond, day_text, held_start};
ghost use Rattle.times_bench.specs.Progress.{HasRoom};
ghost use Rattle.times_bench.specs.Requests.{unix_request, stamp_request, run_request, chain_request};
ghost use Rattle.times_bench.specs.Words.{words_of};
ghost use Rattle.stamp_times.specs.Counter.{reply, instant_after, replies, last_instant};
ghost use Rattle.stamp_times.specs.Texts.{timestamp_text};
ghost use Rattle.times_bench.specs.ReplyTexts.{held_text, reply_text};
ghost use Rattle.utc_times.specs.Texts.{utc_text};
ghost use Rattle.utc_times.specs.UnixTime.{unix_instant};

use super::lines::LONGEST_LINE;
use super::reply_texts::{push_held, push_reply, push_signed, refused_text};
use super::requests::{Calls, Room, Steps, read_chain, read_run, read_stamp, read_unix};
use super::sending::Pending;
use calendar_values::{ComponentRange, Text};
use offset_times::{Assume, OffsetDateTime};
use stamp_times::{Call, Held, Step, StoppedAt, Timestamp, chain};
use std::alloc::{AllocError, Global};
use utc_times::UtcDateTime;

// The most bytes of a reply, and of `; ` after it.
const REPLY_ROOM: usize = 64;

/// Puts the answer to a line after the pending bytes, and nothing if there is no memory for its
/// replies.
pub fn put_answer(
    alloc: Global,
    pending: &mut Pending,
    room: &mut Room,
    line: &[u8],
) -> Result<(), AllocError>
    requires { HasRoom pending.old }
    ensures { MatchResult result (λ _. pending.new ≡ pending.old ++ answer_of line.now)
        (λ _. (pending.new ≡ pending.old) × IsTrue (takes_memory line.now)) }
{
    if line.len() > LONGEST_LINE {
        put_bad_line(pending);
    } else if let Some(words) = line.strip_prefix(b"unix ".as_slice()) {
        put_unix(pending, words);
    } else if let Some(words) = line.strip_prefix(b"stamp ".as_slice()) {
        put_stamp(pending, words);
    } else if let Some(words) = line.strip_prefix(b"run ".as_slice()) {
        put_run(alloc, pending, &mut room.calls, words)?;
    } else if let Some(words) = line.strip_prefix(b"chain ".as_slice()) {
        put_chain(pending, &mut room.steps, words);
    } else {
        put_bad_line(pending);
    }
    pending.push(b'\n');
    Ok(())
}

// Puts the answer to a line that asks for nothing.
fn put_bad_line(pending: &mut Pending)
    requires { HasRoom pending.old }
    ensures answer { pending.new ≡ pending.old ++ answer_to None }
    ensures room { length pending.new < 65_536 }
{
    pending.push_all(b"bad line");
}

// Puts the answer to the words after `unix`.
fn put_unix(pending: &mut Pending, words: &[u8])
    requires { HasRoom pending.old }
    ensures answer { pending.new ≡ pending.old ++ answer_to (unix_request (words_of words.now)) }
    ensures room { length pending.new < 65_536 }
{
    let Some(second) = read_unix(words) else {
        return put_bad_line(pending);
    };
    match Timestamp::from_seconds(second) {
        Ok(at) => {
            let mut text = Text::new();
            at.to_utc().append_to(&mut text);
            put_text(pending, &text);
        }
        Err(_) => pending.push_all(b"refused timestamp"),
    }
}

// Puts the answer to the words after `stamp`.
fn put_stamp(pending: &mut Pending, words: &[u8])
    requires { HasRoom pending.old }
    ensures answer { pending.new ≡ pending.old ++ answer_to (stamp_request (words_of words.now)) }
    ensures room { length pending.new < 65_536 }
{
    let Some((second, nanosecond)) = read_stamp(words) else {
        return put_bad_line(pending);
    };
    match instant_at(second, nanosecond) {
        Ok(at) => {
            put_text(pending, &instant_text(at));
            put_text(pending, &day_text_of(at));
        }
        Err(refusal) => put_text(pending, &refused_text(refusal)),
    }
}

// Puts the answer to the words after `run`, and nothing where there is no memory for the replies.
#[inline(never)]
fn put_run(
    alloc: Global,
    pending: &mut Pending,
    calls: &mut Calls,
    words: &[u8],
) -> Result<(), AllocError>
    requires room { HasRoom pending.old }
    requires words { length words.now < 1024 }
    ensures answer { let request = run_request (words_of words.now) in
        MatchResult result (λ _. pending.new ≡ pending.old ++ answer_to request)
        (λ _. (pending.new ≡ pending.old) × IsTrue (request_takes_memory request)) }
    ensures room { length pending.new < 65_536 }
{
    let Some((second, nanosecond)) = read_run(words, calls) else {
        put_bad_line(pending);
        return Ok(());
    };
    match Timestamp::new(second, nanosecond) {
        Ok(start) => {
            let (replies, last) = replies_of(alloc, start.to_utc(), calls.items())?;
            pending.push_all(replies.as_slice());
            put_text(pending, &end_text(Timestamp::from(last)));
        }
        Err(refusal) => put_text(pending, &refused_text(refusal)),
    }
    Ok(())
}

// Puts the answer to the words after `chain`.
fn put_chain(pending: &mut Pending, steps: &mut Steps, words: &[u8])
    requires room { HasRoom pending.old }
    requires words { length words.now < 1024 }
    ensures answer { pending.new ≡ pending.old ++ answer_to (chain_request (words_of words.now)) }
    ensures room { length pending.new < 65_536 }
{
    let Some((second, nanosecond, start)) = read_chain(words, steps) else {
        return put_bad_line(pending);
    };
    match Timestamp::new(second, nanosecond) {
        Ok(at) => match chain(held_start(start, at), steps.items()) {
            Ok(held) => put_held(pending, held),
            Err(stopped) => {
                put_text(pending, &stopped_text(stopped.index));
                put_held(pending, stopped.held);
            }
        },
        Err(refusal) => put_text(pending, &refused_text(refusal)),
    }
}

// Puts a text.
fn put_text(pending: &mut Pending, text: &Text)
    requires { length pending.old + 64 ≤ 65_536 }
    ensures text { pending.new ≡ pending.old ++ text.now }
    ensures length { length pending.new ≤ length pending.old + 64 }
{
    pending.push_all(text.as_bytes());
}

// A Unix second with its nanosecond replaced.
fn instant_at(second: i64, nanosecond: u32) -> Result<UtcDateTime, ComponentRange>
    ensures { result ≡ with_instant_nanosecond (unix_instant second) nanosecond }
{
    UtcDateTime::from_unix_timestamp(second)?.replace_nanosecond(nanosecond)
}

// The text in UTC, and a space.
fn instant_text(at: UtcDateTime) -> Text
    ensures { result ≡ utc_text at ++ codes " " }
{
    let mut text = at.text();
    text.push(b' ');
    text
}

// The day of the year, the day of the week and the Julian day.
fn day_text_of(at: UtcDateTime) -> Text
    ensures { result ≡ day_text (wall_day at) }
{
    let mut text = Text::new();
    text.push_decimal(u64::from(at.ordinal()));
    text.push(b' ');
    text.push_bytes(at.weekday().text().as_bytes());
    text.push(b' ');
    push_signed(&mut text, at.to_julian_day());
    text
}

// Puts the type that holds an instant, and the text of the value.
fn put_held(pending: &mut Pending, held: Held)
    requires { length pending.old + 64 ≤ 65_536 }
    ensures text { pending.new ≡ pending.old ++ held_text held }
    ensures length { length pending.new ≤ length pending.old + 64 }
{
    let mut text = Text::new();
    push_held(&mut text, held);
    put_text(pending, &text);
}

// The instant as the start of a chain holds it. For an offset, what clocks in UTC show is the wall clock there.
fn held_start(start: Step, at: Timestamp) -> Held
    ensures { result ≡ held_start start at }
{
    match start {
        Step::ToStamp => Held::Stamp(at),
        Step::ToUtc => Held::Utc(at.to_utc()),
        Step::ToOffset(offset) => Held::Offset(at.to_utc().as_plain().assume_offset(offset)),
    }
}

// `stopped`, the place of the step, and a space.
fn stopped_text(index: usize) -> Text
    ensures { result ≡ codes "stopped " ++ decimal index ++ codes " " }
{
    let mut text = Text::new();
    text.push_bytes(b"stopped ");
    text.push_decimal(index as u64);
    text.push(b' ');
    text
}

// The replies to calls, each with `; ` after it, in memory that is taken before the first, and where the calls lead.
fn replies_of(
    alloc: Global,
    start: UtcDateTime,
    calls: &[Call],
) -> Result<(Vec<u8>, UtcDateTime), AllocError>
    requires { length calls.now ≤ 256 }
    ensures replies { IfOk result (λ ended. ended.0.items
        ≡ flat_map (λ reply. reply_text reply ++ codes "; ") (replies start calls.now)) }
    ensures last { IfOk result (λ ended. ended.1 ≡ last_instant start calls.now) }
    ensures length { IfOk result (λ ended. vec_len ended.0 ≤ 16_384) }
{
    let mut replies = Vec::with_capacity(alloc, calls.len() * REPLY_ROOM)?;
    let mut at = start;
    for call in calls {
        at = put_reply(&mut replies, at, *call);
    }
    Ok((replies, at))
}

// Puts the reply to a call, and `; `, where there is room for them, and gives where the call leads.
fn put_reply(replies: &mut Vec<u8>, at: UtcDateTime, call: Call) -> UtcDateTime
    requires { vec_len replies.old + 64 ≤ vec_capacity replies.old }
    ensures text { replies.new.items ≡ replies.old.items
        ++ (reply_text (reply at call) ++ codes "; ") }
    ensures next { result ≡ instant_after at call }
    ensures length { vec_len replies.new ≤ vec_len replies.old + 64 }
    ensures room { vec_capacity replies.old ≤ vec_capacity replies.new }
{
    let mut text = Text::new();
    let next = push_reply(&mut text, at, call);
    text.push_bytes(b"; ");
    put_in_room(replies, text.as_bytes());
    next
}

// Puts bytes where there is room for them.
fn put_in_room(bytes: &mut Vec<u8>, text: &[u8])
    requires { vec_len bytes.old + length text.now ≤ vec_capacity bytes.old }
    ensures items { bytes.new.items ≡ bytes.old.items ++ text.now }
    ensures length { vec_len bytes.new ≡ vec_len bytes.old + length text.now }
    ensures room { vec_capacity bytes.old ≤ vec_capacity bytes.new }
{
    match bytes.extend_from_slice(text) {
        Ok(()) => {}
        Err(_) => unreachable!(),
    }
}

// `end`, and the last instant.
fn end_text(last: Timestamp) -> Text
    ensures { result ≡ codes "end " ++ timestamp_text last }
{
    let mut text = Text::new();
    text.push_bytes(b"end ");
    last.append_to(&mut text);
    text
}

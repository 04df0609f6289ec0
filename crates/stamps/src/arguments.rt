//! The request that the words of the command line make.
ghost use Rattle.std.specs.Prelude.{◌≡◌, ◌≤◌, length, map};
ghost use Rattle.std.specs.Str.{bytes_eq};
ghost use Rattle.offset_times.specs.Local.{instant_of};
ghost use Rattle.rfc3339.specs.Reading.{reading_as};
ghost use Rattle.stamps.specs.Arguments.{asked_alone, at_offset, back_asked, between_cut, between_from, bound_asked, check_task, cut_asked, gaps_task};
ghost use Rattle.stamps.specs.Arguments.{is_finer, lacking_of, last_bound, local_bound, local_text, misuse_text, only_bound, other_bound};
ghost use Rattle.stamps.specs.Arguments.{since_cut, since_rest};
ghost use Rattle.stamps.specs.Arguments.{count_at, count_by, count_in, count_request, request_of, strictness, task_asked, unit_of, write_task};

use crate::bounds::{Bound, Cut};
use crate::counts::{Clock, Unit};
use crate::durations::duration_of;
use crate::reading::behind;
use crate::task::{Action, Style};
use calendar_values::{SignedDuration, UtcOffset};
use line_devices::table::Table;
use rfc3339::{Rfc3339, TextRefusal, parse_rfc3339_offset};
use utc_times::UtcDateTime;

// The most bytes of a date-time without an offset: nine digits of a fraction.
const MOST_LOCAL: usize = 29;

/// The request of the words of the command line.
#[derive(Clone, Copy, Debug)]
pub enum Request {
    /// The usage.
    Help,
    /// The version.
    Version,
    /// Work on lines.
    Work(Action),
    /// A cut of the lines.
    Cut(Cut),
    /// Merge files. If it is strict, a line that is earlier than the one before it in its file ends
    /// the run.
    Merge(bool),
    /// Count lines, with a row for each unit without lines if all are asked for. If it is strict,
    /// the first line without a stamp, or that goes back, ends the run.
    Count(Clock, bool, bool),
}

/// The misuse of the words of the command line.
#[derive(Clone, Copy, Debug, PartialEq, Eq)]
pub enum Misuse {
    /// There is none.
    NoWord,
    /// The first is no word of the program.
    UnknownWord,
    /// No offset follows `at`.
    NoOffset,
    /// No offset follows `at`.
    Offset(TextRefusal),
    /// An instant is missing after `since`, `until`, `between` or `--until`.
    NoInstant,
    /// A bound is an invalid date-time.
    Instant(TextRefusal),
    /// The fraction of a bound has a digit past the ninth that is not 0.
    TooFine,
    /// A bound counts back by an invalid duration.
    Back,
    /// No unit follows `count`.
    NoUnit,
    /// An unknown unit follows `count`.
    Unit,
    /// No duration follows `gaps`.
    NoDuration,
    /// An invalid duration follows `gaps`.
    Duration,
    /// A word follows that nothing asks for.
    Extra,
}

/// The request of the words after the name of the program.
#[tactic(auto, unfolding(crate::specs::Arguments::request_of))]
pub fn request_of(words: &[&[u8]]) -> Result<Request, Misuse>
    ensures { result ≡ request_of (map (λ word. word.now) words.now) }
{
    let Some((word, rest)) = words.split_first() else {
        return Err(Misuse::NoWord);
    };
    if is(word, "--help") {
        return asked_alone(Request::Help, rest);
    }
    if is(word, "--version") {
        return asked_alone(Request::Version, rest);
    }
    if is(word, "merge") {
        return Ok(Request::Merge(strictness(rest)?));
    }
    if is(word, "count") {
        return count_request(rest);
    }
    task_asked(word, rest)
}

// A count: its unit, and perhaps an offset.
fn count_request(words: &[&[u8]]) -> Result<Request, Misuse>
    ensures { result ≡ count_request (map (λ word. word.now) words.now) }
{
    let Some((text, rest)) = words.split_first() else {
        return Err(Misuse::NoUnit);
    };
    match unit_of(text) {
        Some(unit) => count_in(unit, rest),
        None => Err(Misuse::Unit),
    }
}

// The unit that a word names.
fn unit_of(word: &[u8]) -> Option<Unit>
    ensures { result ≡ unit_of word.now }
{
    if is(word, "minute") {
        Some(Unit::Minute)
    } else if is(word, "hour") {
        Some(Unit::Hour)
    } else if is(word, "day") {
        Some(Unit::Day)
    } else {
        None
    }
}

// A count in a unit, at the offset that follows `at`, or in UTC.
fn count_in(unit: Unit, words: &[&[u8]]) -> Result<Request, Misuse>
    ensures { result ≡ count_in unit (map (λ word. word.now) words.now) }
{
    match words.split_first() {
        Some((word, rest)) if is(word, "at") => count_at(unit, rest),
        _ => count_by(unit, UtcOffset::UTC, words),
    }
}

// A count at an offset.
fn count_at(unit: Unit, words: &[&[u8]]) -> Result<Request, Misuse>
    ensures { result ≡ count_at unit (map (λ word. word.now) words.now) }
{
    let Some((text, rest)) = words.split_first() else {
        return Err(Misuse::NoOffset);
    };
    match parse_rfc3339_offset(text) {
        Ok(offset) => count_by(unit, offset, rest),
        Err(refusal) => Err(Misuse::Offset(refusal)),
    }
}

// A count by a clock. With `--all` each unit without lines has a row.
fn count_by(unit: Unit, offset: UtcOffset, words: &[&[u8]]) -> Result<Request, Misuse>
    ensures { result ≡ count_by unit offset (map (λ word. word.now) words.now) }
{
    let clock = Clock { unit, offset };
    match words.split_first() {
        Some((flag, rest)) if is(flag, "--all") => {
            Ok(Request::Count(clock, true, strictness(rest)?))
        }
        _ => Ok(Request::Count(clock, false, strictness(words)?)),
    }
}

// A request that no word follows.
fn asked_alone(request: Request, words: &[&[u8]]) -> Result<Request, Misuse>
    ensures { result ≡ asked_alone request (map (λ word. word.now) words.now) }
{
    if words.is_empty() {
        Ok(request)
    } else {
        Err(Misuse::Extra)
    }
}

// The task that words ask for, the first of them apart.
#[tactic(auto, unfolding(crate::specs::Arguments::task_asked))]
fn task_asked(word: &[u8], words: &[&[u8]]) -> Result<Request, Misuse>
    ensures { result ≡ task_asked word.now (map (λ word. word.now) words.now) }
{
    if is(word, "utc") {
        Ok(Request::Work(write_task(Style::Utc, words)?))
    } else if is(word, "unix") {
        Ok(Request::Work(write_task(Style::Unix, words)?))
    } else if is(word, "at") {
        Ok(Request::Work(at_offset(words)?))
    } else if is(word, "check") {
        Ok(Request::Work(check_task(words)?))
    } else if is(word, "gaps") {
        Ok(Request::Work(gaps_task(words)?))
    } else {
        Ok(Request::Cut(cut_asked(word, words)?))
    }
}

/// Whether a word is this text.
pub(crate) fn is(word: &[u8], text: &str) -> bool
    ensures { result ≡ bytes_eq word.now text.now }
{
    word == text.as_bytes()
}

// The task of `check`: with `--all` it writes each finding.
fn check_task(words: &[&[u8]]) -> Result<Action, Misuse>
    ensures { result ≡ check_task (map (λ word. word.now) words.now) }
{
    match words.split_first() {
        Some((flag, rest)) if is(flag, "--all") => Ok(Action::CheckAll(strictness(rest)?)),
        _ => Ok(Action::Check(strictness(words)?)),
    }
}

// The task of `gaps`.
fn gaps_task(words: &[&[u8]]) -> Result<Action, Misuse>
    ensures { result ≡ gaps_task (map (λ word. word.now) words.now) }
{
    let Some((text, rest)) = words.split_first() else {
        return Err(Misuse::NoDuration);
    };
    let Some(seconds) = duration_of(text) else {
        return Err(Misuse::Duration);
    };
    let limit = SignedDuration::seconds(seconds as i64);
    Ok(Action::Gaps(limit, strictness(rest)?))
}

// A cut of the lines, by its first word and the rest.
#[tactic(auto, unfolding(crate::specs::Arguments::cut_asked))]
fn cut_asked(word: &[u8], words: &[&[u8]]) -> Result<Cut, Misuse>
    ensures { result ≡ cut_asked word.now (map (λ word. word.now) words.now) }
{
    if is(word, "since") {
        since_cut(words)
    } else if is(word, "until") {
        Ok(Cut::Until(last_bound(words)?))
    } else if is(word, "between") {
        between_cut(words)
    } else {
        Err(Misuse::UnknownWord)
    }
}

// The cut of `since`: with `--until` it has two bounds.
fn since_cut(words: &[&[u8]]) -> Result<Cut, Misuse>
    ensures { result ≡ since_cut (map (λ word. word.now) words.now) }
{
    let Some((text, rest)) = words.split_first() else {
        return Err(Misuse::NoInstant);
    };
    since_rest(bound_asked(text)?, rest)
}

// The cut since a bound, up to that of the words if there are any.
fn since_rest(from: Bound, words: &[&[u8]]) -> Result<Cut, Misuse>
    ensures { result ≡ since_rest from (map (λ word. word.now) words.now) }
{
    match words.split_first() {
        None => Ok(Cut::Since(from)),
        Some((word, rest)) if is(word, "--until") => between_from(from, rest),
        Some(_) => Err(Misuse::Extra),
    }
}

// The cut of `between`.
fn between_cut(words: &[&[u8]]) -> Result<Cut, Misuse>
    ensures { result ≡ between_cut (map (λ word. word.now) words.now) }
{
    let Some((text, rest)) = words.split_first() else {
        return Err(Misuse::NoInstant);
    };
    between_from(bound_asked(text)?, rest)
}

// The cut between a bound and that of the words.
fn between_from(from: Bound, words: &[&[u8]]) -> Result<Cut, Misuse>
    ensures { result ≡ between_from from (map (λ word. word.now) words.now) }
{
    Ok(Cut::Between(from, last_bound(words)?))
}

// Stamps in a style.
fn write_task(style: Style, words: &[&[u8]]) -> Result<Action, Misuse>
    ensures { result ≡ write_task style (map (λ word. word.now) words.now) }
{
    Ok(Action::Write(style, strictness(words)?))
}

// Whether `--strict` follows, and no other word.
fn strictness(words: &[&[u8]]) -> Result<bool, Misuse>
    ensures { result ≡ strictness (map (λ word. word.now) words.now) }
{
    let Some((flag, rest)) = words.split_first() else {
        return Ok(false);
    };
    if rest.is_empty() && is(flag, "--strict") {
        Ok(true)
    } else {
        Err(Misuse::Extra)
    }
}

// Stamps at an offset.
fn at_offset(words: &[&[u8]]) -> Result<Action, Misuse>
    ensures { result ≡ at_offset (map (λ word. word.now) words.now) }
{
    let Some((text, rest)) = words.split_first() else {
        return Err(Misuse::NoOffset);
    };
    match parse_rfc3339_offset(text) {
        Ok(offset) => write_task(Style::At(offset), rest),
        Err(refusal) => Err(Misuse::Offset(refusal)),
    }
}

// The last bound of a cut, which no word follows.
fn last_bound(words: &[&[u8]]) -> Result<Bound, Misuse>
    ensures { result ≡ last_bound (map (λ word. word.now) words.now) }
{
    let Some((text, rest)) = words.split_first() else {
        return Err(Misuse::NoInstant);
    };
    only_bound(bound_asked(text)?, rest)
}

/// The bound of a word: a date-time that is not finer than a nanosecond, a date, or a duration back
/// from the present instant or from the last stamp.
pub fn bound_asked(text: &[u8]) -> Result<Bound, Misuse>
    ensures { result ≡ bound_asked text.now }
{
    match instant_of_text(text) {
        Ok(_) if is_finer(text) => Err(Misuse::TooFine),
        Ok(instant) => Ok(Bound::Exact(instant)),
        Err(TextRefusal::Syntax) => other_bound(text),
        Err(refusal) => Err(Misuse::Instant(refusal)),
    }
}

// The bound of a word that is no date-time with an offset.
#[tactic(auto, unfolding(crate::specs::Arguments::other_bound))]
fn other_bound(text: &[u8]) -> Result<Bound, Misuse>
    ensures { result ≡ other_bound text.now }
{
    if text.starts_with(b"last-") {
        return Ok(Bound::BeforeLast(back_asked(behind(text, 5))?));
    }
    if text.starts_with(b"-") {
        return Ok(Bound::BeforeNow(back_asked(behind(text, 1))?));
    }
    local_bound(text)
}

// The duration by which a bound counts back.
fn back_asked(text: &[u8]) -> Result<SignedDuration, Misuse>
    ensures { result ≡ back_asked text.now }
{
    match duration_of(text) {
        Some(seconds) => Ok(SignedDuration::seconds(seconds as i64)),
        None => Err(Misuse::Back),
    }
}

// The bound of a date, or of a date-time without an offset: what its instant would be in UTC.
fn local_bound(text: &[u8]) -> Result<Bound, Misuse>
    ensures { result ≡ local_bound text.now }
{
    if text.len() > MOST_LOCAL {
        return Err(Misuse::Instant(TextRefusal::Syntax));
    }
    match local_clock(text) {
        Ok(wall) => Ok(Bound::Local(wall)),
        Err(refusal) => Err(Misuse::Instant(refusal)),
    }
}

// The wall clock of a text of at most 29 bytes.
fn local_clock(text: &[u8]) -> Result<UtcDateTime, TextRefusal>
    requires { length text.now ≤ 29 }
    ensures { result ≡ reading_as instant_of (local_text text.now) }
{
    let mut whole: Table<u8, 40> = Table::new(0);
    whole.push_all(text);
    whole.push_all(lacking_of(text.len()));
    instant_of_text(whole.items())
}

// What a text of so many bytes lacks to be a date-time in UTC.
fn lacking_of(count: usize) -> &'static [u8]
    ensures value { result.now ≡ lacking_of count }
    ensures short { length result.now ≤ 10 }
{
    match count {
        10 => b"T00:00:00Z",
        16 => b":00Z",
        _ => b"Z",
    }
}

// The instant of a date-time.
fn instant_of_text(text: &[u8]) -> Result<UtcDateTime, TextRefusal>
    ensures { result ≡ reading_as instant_of text.now }
{
    UtcDateTime::from_rfc3339(text)
}

// Whether a date-time has a fraction of which a digit past the ninth is not 0.
#[tactic(auto, unfolding(crate::specs::Arguments::is_finer))]
fn is_finer(text: &[u8]) -> bool
    ensures { result ≡ is_finer text.now }
{
    let fraction = text
        .iter()
        .skip(20)
        .take_while(|byte| byte.is_ascii_digit());
    fraction.skip(9).any(|digit| *digit != b'0')
}

// A bound that no word follows.
fn only_bound(bound: Bound, words: &[&[u8]]) -> Result<Bound, Misuse>
    ensures { result ≡ only_bound bound (map (λ word. word.now) words.now) }
{
    if words.is_empty() {
        Ok(bound)
    } else {
        Err(Misuse::Extra)
    }
}

/// The text of a misuse: the error and its remedy.
pub fn misuse_line(misuse: Misuse) -> &'static str
    ensures { result.now ≡ misuse_text misuse }
{
    match misuse {
        Misuse::NoWord => "no word is given: begin with one of those of the usage",
        Misuse::UnknownWord => "the word '' is unknown",
        Misuse::NoOffset => "at has no offset: add one, as +05:30 or Z",
        Misuse::Offset(TextRefusal::Syntax) =>
            "the offset '' has another form: write it as +05:30 or Z",
        Misuse::Offset(TextRefusal::OutOfRange(_)) =>
            "the offset '' is out of range: write one from -23:59 to +23:59",
        Misuse::NoInstant => "the bound is missing: add a date-time, as 2024-02-29T12:00:00Z",
        Misuse::Instant(TextRefusal::Syntax) =>
            "the bound '' is no instant: write a date-time, as 2024-02-29T12:00:00Z, a date, -1h or last-15m",
        Misuse::Instant(TextRefusal::OutOfRange(_)) =>
            "the bound '' has a part that is out of range: write a date-time of the calendar",
        Misuse::Back =>
            "the bound '' has another duration: write it as -1h, back from now, or last-15m, from the last stamp",
        Misuse::TooFine =>
            "the bound '' has more than nine digits of a fraction: write nine at most, or 0 for each digit past the ninth",
        Misuse::NoUnit => "count has no unit: add minute, hour or day",
        Misuse::Unit => "the unit '' is unknown: write minute, hour or day",
        Misuse::NoDuration => "gaps has no duration: add one, as 90s, 5m or 1h30m",
        Misuse::Duration =>
            "the duration '' has another form: write whole numbers with d, h, m and s, as 1h30m",
        Misuse::Extra => "the word '' is unknown or too many",
    }
}

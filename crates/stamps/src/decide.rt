//! The decision about a line.
ghost use Rattle.std.specs.Prelude.{◌≡◌, ◌≢◌, ◌≤◌, ℕ, ℤ, true, false, if◌then◌else◌, List, length, slice_get, take, Option, Some, None, IfSome, Ok, Err};
ghost use Rattle.line_devices.specs.StampTallies.{kind_of, tally_after};
ghost use Rattle.offset_times.specs.Local.{instant_of};
ghost use Rattle.rfc3339.specs.Front.{front_meaning};
ghost use Rattle.rfc3339.specs.Reading.{front_at};
ghost use Rattle.rfc3339.specs.declared.refusal.TextRefusal.TheVariants.{Syntax};
ghost use Rattle.stamps.specs.Changes.{choice_after};
ghost use Rattle.stamps.specs.Decisions.{as_it_is, cause_of, check_line, decision_by, finding_at_end, first_state, gap_after, gap_line};
ghost use Rattle.stamps.specs.Decisions.{as_note, going_on, stop_if};
ghost use Rattle.stamps.specs.Decisions.{is_earlier, later_of, line_kind, rewritten, stamp_after, state_after, state_by};
ghost use Rattle.stamps.specs.LineInstants.{stamp_instant};
ghost use Rattle.stamps.specs.LineStamps.{ends, front_stamp, has_mark, stamp, stamp_of};
ghost use Rattle.line_devices.specs.declared.stamp_tallies.LineKind.TheVariants.{Stamped};
ghost use Rattle.log_forms.specs.Ends.{runs_on};
ghost use Rattle.stamps.specs.Readers.{line_stamp, plain_at};
ghost use Rattle.stamps.specs.Styles.{text_in};
ghost use Rattle.stamps.specs.declared.decide.Decision.TheVariants.{Keep};
ghost use Rattle.stamps.specs.declared.decide.State.{State};

use crate::changes::{Anew, Choice};
use crate::finding::{Cause, Finding};
use crate::notes::Note;
use crate::readers::{LineRefusal, LineStamp, line_stamp};
use crate::reading::behind;
use crate::style::stamp_text;
use crate::task::{Action, Style, Task};
use calendar_values::{SignedDuration, Text};
use line_devices::stamp_tallies::{LONGEST_STAMP, StampTally, kind_of};
use log_forms::{LONGEST_FRONT, opens_bracket, runs_on};
use offset_times::OffsetDateTime;
use rfc3339::{TextRefusal, parse_rfc3339_front, syntax_fault};
use utc_times::UtcDateTime;

/// The most bytes of a line that decide what becomes of it: a byte order mark, and the front in
/// which a stamp is looked for.
pub const LONGEST_HEAD: usize = 65_536;

// The byte order mark of UTF-8.
const BYTE_ORDER_MARK: [u8; 3] = [0xEF, 0xBB, 0xBF];

/// A date-time of RFC 3339.
#[derive(Clone, Copy, Debug)]
pub struct Stamp {
    /// Its instant.
    pub instant: UtcDateTime,
    /// The number of its bytes.
    pub length: usize,
    /// Whether a bracket follows it.
    pub is_zoned: bool,
}

/// The state after the lines before.
#[derive(Drop)]
pub struct State {
    /// Their number, at most 2^64 - 1.
    pub lines: u64,
    /// The instant of the last stamp.
    pub last: Option<UtcDateTime>,
    /// The latest of the instants, where the task asks for gaps.
    pub latest: Option<UtcDateTime>,
    /// Whether the last line is written, where the task asks for some lines alone.
    pub goes_on: bool,
    /// How many of them have no stamp.
    pub tally: StampTally,
    /// The reader of the next line.
    pub choice: Choice,
}

/// The decision on a line.
#[derive(Drop)]
pub enum Decision {
    /// It is written: the first number of its bytes, the text in place of the second number of
    /// bytes, and the rest.
    Keep(usize, Text, usize),
    /// It is not written.
    Skip,
    /// A note is written in place of it.
    Tell(Note),
    /// It ends the run.
    Stop(Finding),
}

/// The state before the first line.
pub fn first_state(task: &Task) -> State
    ensures { result ≡ first_state task.now }
{
    State {
        lines: 0,
        last: None,
        latest: None,
        goes_on: matches!(task.action, Action::Until(_)),
        tally: StampTally::new(),
        choice: Choice::new(),
    }
}

/// Reads the stamp of a line, and updates the state.
#[tactic(auto, unfolding(crate::specs::Decisions::state_after))]
#[inline(always)]
pub fn read_stamp(task: &Task, state: &mut State, line: &[u8]) -> Result<LineStamp, LineRefusal>
    ensures stamp { result ≡ stamp_after task.now state.old line.now }
    ensures state { state.new ≡ state_after task.now state.old line.now }
{
    let reader = state.choice.reader(&task.anew, &task.reader);
    let stamp = line_stamp(reader, state.last, state.lines == 0, line);
    update(task, state, line, &stamp);
    stamp
}

/// The style in which a stamp is written anew, if it is one and no value of JSON. Then the decision
/// keeps the line with the text in that style, if there is one.
#[inline(always)]
pub fn style_of<'a>(action: &'a Action, stamp: &LineStamp) -> Option<&'a Style>
    ensures { IfSome result (λ style. (last latest : Option ℤ) (after : State) (text : List ℕ)
        → text_in style.now stamp.now.instant ≡ Some text
        → decision_by action.now last latest after (Ok stamp.now)
        ≡ Keep stamp.now.start text stamp.now.length) }
{
    match action {
        Action::Write(style, is_strict) if !(stamp.is_value || *is_strict && stamp.is_zoned) =>
            Some(style),
        _ => None,
    }
}

/// The finding at the end of the input, if there is one.
pub fn finding_at_end(task: &Task, state: &State) -> Option<Finding>
    ensures { result ≡ finding_at_end task.now state.now }
{
    match task.action {
        Action::Check(_) | Action::CheckAll(_) if state.lines > 0 && state.last.is_none() => Some(
            Finding::NoStamp,
        ),
        _ => None,
    }
}

// Whether a line begins with a byte order mark that is passed over, as the first line alone may.
#[tactic(auto, unfolding(crate::specs::LineStamps::has_mark))]
#[inline(always)]
pub(crate) fn has_mark(is_first: bool, line: &[u8]) -> bool
    ensures { result ≡ has_mark is_first line.now }
{
    is_first && line.starts_with(&BYTE_ORDER_MARK)
}

/// The decision on a line with this stamp, by the last and the latest instant before it, and by the
/// state after it.
#[inline(always)]
pub fn decision_by(
    action: &Action,
    last: Option<UtcDateTime>,
    latest: Option<UtcDateTime>,
    after: &State,
    stamp: &Result<LineStamp, LineRefusal>,
) -> Decision
    ensures { result ≡ decision_by action.now last latest after.now stamp.now }
{
    match action {
        Action::Write(style, is_strict) => rewritten(style, *is_strict, after.lines, stamp),
        Action::Check(is_strict) => check_line(*is_strict, after.lines, last, stamp),
        Action::CheckAll(is_strict) => as_note(check_line(*is_strict, after.lines, last, stamp)),
        Action::Gaps(limit, is_strict) => gap_line(*limit, *is_strict, after.lines, latest, stamp),
        Action::Since(_) | Action::Until(_) | Action::Between(_, _) => going_on(after.goes_on),
    }
}

// Brings the state up to a line with this stamp, or without one.
#[tactic(auto, using(crate::proofs::StampedLemmas::without_stamp))]
#[inline(always)]
fn update(task: &Task, state: &mut State, line: &[u8], stamp: &Result<LineStamp, LineRefusal>)
    ensures { state.new
        ≡ state_by task.now state.old line.now (line_kind line.now stamp.now) stamp.now }
{
    match stamp {
        Ok(stamp) => take_stamp(task, state, stamp),
        Err(_) => {
            state.lines = state.lines.saturating_add(1);
            take_without_stamp(
                &task.anew,
                &mut state.tally,
                &mut state.choice,
                state.lines,
                line,
            );
        }
    }
}

/// Brings the state up to a line with this stamp. Its tally changes in place.
#[inline(always)]
pub fn take_stamp(task: &Task, state: &mut State, stamp: &LineStamp)
    ensures { (line : List ℕ) → state.new
        ≡ state_by task.now state.old line Stamped (Ok stamp.now) }
{
    let at = stamp.instant;
    state.lines = state.lines.saturating_add(1);
    state.last = Some(at);
    state.tally.texts = state.tally.texts.saturating_add(1);
    state.choice.row = 0;
    match &task.action {
        Action::Write(_, _) | Action::Check(_) | Action::CheckAll(_) => {}
        Action::Gaps(_, _) => state.latest = Some(later_of(state.latest, at)),
        Action::Since(bound) => state.goes_on = !(at < *bound),
        Action::Until(bound) => state.goes_on = at < *bound,
        Action::Between(from, to) => state.goes_on = !(at < *from) && at < *to,
    }
}

// Brings the tally and the choice up to a line of this number without a stamp.
#[inline(never)]
fn take_without_stamp(
    anew: &Option<Anew>,
    tally: &mut StampTally,
    choice: &mut Choice,
    number: u64,
    line: &[u8],
)
    ensures tally { tally.new ≡ tally_after tally.old number (kind_of line.now false) }
    ensures choice { choice.new
        ≡ choice_after anew.now choice.old number (kind_of line.now false) line.now }
{
    let kind = kind_of(line, false);
    *tally = tally.after(number, kind);
    choice.take(anew, number, kind, line);
}

// The later of two instants, of which there may be one.
fn later_of(latest: Option<UtcDateTime>, at: UtcDateTime) -> UtcDateTime
    ensures { result ≡ later_of latest at }
{
    match latest {
        Some(before) if at < before => before,
        _ => at,
    }
}

// The stamp in front of a text.
#[tactic(auto, unfolding(crate::specs::LineStamps::stamp_of))]
#[inline(always)]
pub(crate) fn stamp_of(text: &[u8]) -> Result<Stamp, TextRefusal>
    ensures { result ≡ stamp_of text.now }
{
    stamp_in(front_of(text))
}

// As many bytes of a text as are looked at for a stamp.
#[tactic(auto, using(crate::proofs::LongLineLemmas::fronts))]
#[inline(always)]
pub(crate) fn front_of(text: &[u8]) -> &[u8]
    ensures { result.now ≡ take 65533 text.now }
{
    if text.len() <= LONGEST_FRONT {
        return text;
    }
    &text[..LONGEST_FRONT]
}

// The stamp in front of a text of at most 65,533 bytes.
#[inline(always)]
fn stamp_in(front: &[u8]) -> Result<Stamp, TextRefusal>
    ensures { result ≡ front_stamp front.now (front_at front.now) }
{
    match parse_rfc3339_front(front) {
        Ok((at, length)) => stamp_before(behind(front, length), at.to_utc(), length),
        Err(TextRefusal::Syntax) => Err(TextRefusal::Syntax),
        Err(refusal) => refusal_before(front, refusal),
    }
}

/// The instant of the stamp in front of a text in nanoseconds, if there is a stamp.
#[tactic(auto, unfolding(crate::specs::LineStamps::stamp_of))]
#[inline(always)]
pub(crate) fn nanos_of(text: &[u8]) -> Option<i128>
    ensures { (before : ℕ) → result ≡ stamp_instant (plain_at before (stamp_of text.now)) }
{
    nanos_in(front_of(text))
}

// The instant of the stamp in front of a text of at most 65,533 bytes.
#[inline(always)]
fn nanos_in(front: &[u8]) -> Option<i128>
    ensures { (before : ℕ) → result
        ≡ stamp_instant (plain_at before (front_stamp front.now (front_at front.now))) }
{
    match parse_rfc3339_front(front) {
        Ok((at, length)) => nanos_before(behind(front, length), at, length),
        Err(_) => None,
    }
}

// The instant of a date-time of this number of bytes before the rest of a line. If that continues it, there is none.
#[inline(always)]
fn nanos_before(rest: &[u8], at: OffsetDateTime, length: usize) -> Option<i128>
    ensures { result ≡ if ends length rest.now then Some (instant_of at) else None }
{
    if ends(length, rest) {
        Some(at.unix_timestamp_nanos())
    } else {
        None
    }
}

// The stamp of this number of bytes before the rest of a line. If that continues it, there is none.
#[inline(always)]
fn stamp_before(rest: &[u8], instant: UtcDateTime, length: usize) -> Result<Stamp, TextRefusal>
    ensures { result
        ≡ if ends length rest.now then Ok (stamp instant length rest.now) else Err Syntax }
{
    if !ends(length, rest) {
        return Err(TextRefusal::Syntax);
    }
    Ok(Stamp {
        instant,
        length,
        is_zoned: opens_bracket(rest),
    })
}

// The refusal of the date-time in a front. If what is after it continues it, there is no stamp.
fn refusal_before(front: &[u8], refusal: TextRefusal) -> Result<Stamp, TextRefusal>
    requires meaning { front_meaning front.now (front_at front.now) ≡ Err refusal }
    requires other { refusal ≢ Syntax }
    ensures { result ≡ front_stamp front.now (front_at front.now) }
{
    let length = syntax_fault(front);
    if ends(length, behind(front, length)) {
        Err(refusal)
    } else {
        Err(TextRefusal::Syntax)
    }
}

// The byte at a place of a text, if there is one.
#[inline(always)]
pub(crate) fn byte_at(text: &[u8], place: usize) -> Option<u8>
    ensures { result ≡ slice_get text.now place }
{
    text.get(place).copied()
}

// Whether a date-time of this number of bytes ends before the rest of a line, and has no more than a stamp may have.
#[inline(always)]
fn ends(length: usize, rest: &[u8]) -> bool
    ensures { result ≡ ends length rest.now }
{
    !(length > LONGEST_STAMP || is_continued(rest))
}

// Whether a word continues in the rest of a line. Of most lines the first byte is a blank.
#[inline(always)]
fn is_continued(rest: &[u8]) -> bool
    ensures { result ≡ runs_on false rest.now }
{
    match rest {
        [b' ', ..] => false,
        _ => runs_on(false, rest),
    }
}

// The line with its stamp written anew.
#[inline(always)]
fn rewritten(
    style: &Style,
    is_strict: bool,
    line: u64,
    stamp: &Result<LineStamp, LineRefusal>,
) -> Decision
    ensures { result ≡ rewritten style.now is_strict line stamp.now }
{
    match stamp {
        Ok(stamp) if is_strict && stamp.is_zoned => Decision::Stop(Finding::Line(
            line,
            Cause::Zone,
        )),
        Ok(stamp) => match stamp_text(style, stamp) {
            Some(text) => Decision::Keep(stamp.start, text, stamp.length),
            None => as_it_is(is_strict, line, Cause::NoText),
        },
        Err(refusal) => as_it_is(is_strict, line, cause_of(*refusal)),
    }
}

// The line as it is, or the end of the run.
fn as_it_is(is_strict: bool, line: u64, cause: Cause) -> Decision
    ensures { result ≡ as_it_is is_strict line cause }
{
    if is_strict {
        return Decision::Stop(Finding::Line(line, cause));
    }
    Decision::Keep(0, Text::new(), 0)
}

// What is the matter with a line whose stamp is refused.
fn cause_of(refusal: LineRefusal) -> Cause
    ensures { result ≡ cause_of refusal }
{
    match refusal {
        LineRefusal::Absent => Cause::Missing,
        LineRefusal::OutOfRange(component) => Cause::Refused(component),
        LineRefusal::Part(refusal) => Cause::Unread(refusal),
    }
}

// Whether the line has a stamp that is in order.
fn check_line(
    is_strict: bool,
    line: u64,
    last: Option<UtcDateTime>,
    stamp: &Result<LineStamp, LineRefusal>,
) -> Decision
    ensures { result ≡ check_line is_strict line last stamp.now }
{
    match stamp {
        Ok(stamp) if is_earlier(stamp.instant, last) => Decision::Stop(Finding::Line(
            line,
            Cause::Earlier,
        )),
        Err(LineRefusal::Absent) if is_strict => Decision::Stop(Finding::Line(
            line,
            Cause::Missing,
        )),
        Err(LineRefusal::OutOfRange(component)) => Decision::Stop(Finding::Line(
            line,
            Cause::Refused(*component),
        )),
        Err(LineRefusal::Part(refusal)) => Decision::Stop(Finding::Line(
            line,
            Cause::Unread(*refusal),
        )),
        Ok(_) | Err(LineRefusal::Absent) => Decision::Skip,
    }
}

// A note on what would end the run.
fn as_note(decision: Decision) -> Decision
    ensures { result ≡ as_note decision }
{
    match decision {
        Decision::Stop(found) => Decision::Tell(Note::Fault(found)),
        other => other,
    }
}

// A note where too much time passed before the line, since the latest instant before it.
fn gap_line(
    limit: SignedDuration,
    is_strict: bool,
    line: u64,
    latest: Option<UtcDateTime>,
    stamp: &Result<LineStamp, LineRefusal>,
) -> Decision
    ensures { result ≡ gap_line limit is_strict line latest stamp.now }
{
    match (stamp, latest) {
        (Ok(stamp), Some(before)) => gap_after(limit, is_strict, line, before, stamp.instant),
        (Ok(_), None) => Decision::Skip,
        (Err(refusal), _) => stop_if(is_strict, line, cause_of(*refusal)),
    }
}

// A note where the time between two instants is more than the limit.
fn gap_after(
    limit: SignedDuration,
    is_strict: bool,
    line: u64,
    before: UtcDateTime,
    at: UtcDateTime,
) -> Decision
    ensures { result ≡ gap_after limit is_strict line before at }
{
    if is_strict && at < before {
        return stop_if(true, line, Cause::Earlier);
    }
    if limit < at - before {
        Decision::Tell(Note::Gap(line, before, at))
    } else {
        Decision::Skip
    }
}

// The end of the run, or nothing of the line.
fn stop_if(fails: bool, line: u64, cause: Cause) -> Decision
    ensures { result ≡ stop_if fails line cause }
{
    if fails {
        Decision::Stop(Finding::Line(line, cause))
    } else {
        Decision::Skip
    }
}

// Whether an instant is earlier than the one before.
#[inline(always)]
fn is_earlier(instant: UtcDateTime, last: Option<UtcDateTime>) -> bool
    ensures { result ≡ is_earlier instant last }
{
    match last {
        Some(before) => instant < before,
        None => false,
    }
}

// The line whole, or nothing of it.
fn going_on(goes_on: bool) -> Decision
    ensures { result ≡ going_on goes_on }
{
    if goes_on {
        Decision::Keep(0, Text::new(), 0)
    } else {
        Decision::Skip
    }
}

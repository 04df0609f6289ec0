//! Lines out of blocks of bytes.
ghost use Rattle.std.specs.Prelude.{◌≡◌, ◌≢◌, ◌+◌, ◌≤◌, ◌<◌, ℕ, ℤ, Bool, not, true, false, List, [], ◌∷◌, ◌++◌, take, drop, length};
ghost use Rattle.std.specs.Prelude.{◌&&◌, ◌-ℤ◌, int_lt, nat_lt, pos, Ok, Option, OnOk, IfOk, IfErr, IfSome, IsOk};
ghost use Rattle.line_devices.specs.LineParts.{HasNone};
ghost use Rattle.line_devices.specs.Writing.{MarksFailure, SendsAll};
ghost use Rattle.stamps.specs.Decisions.{decision_by, decision_of, first_state, going_on, is_earlier, state_after};
ghost use Rattle.stamps.specs.declared.decide.Decision.TheVariants.{Keep, Skip};
ghost use Rattle.stamps.specs.declared.decide.State.{State};
ghost use Rattle.stamps.specs.Progress.{Begins, Completes, Decided, Ends, Keeps, KeepsLine, Passes};
ghost use Rattle.stamps.specs.Notes.{note_text};
ghost use Rattle.stamps.specs.Progress.{Settled, Stands, TellsNote, WritesPending, is_kept, mark_after, to_send};
ghost use Rattle.stamps.specs.declared.lines.LineFault.TheVariants.{Write};
ghost use Rattle.stamps.specs.declared.lines.Progress.TheVariants.{Kept};
ghost use Rattle.stamps.specs.declared.task.Action.TheVariants.{Check, CheckAll};

use crate::decide::{
    Decision, LONGEST_HEAD, State, decision_by, finding_at_end, first_state, read_stamp, style_of,
    take_stamp,
};
use crate::finding::Finding;
use crate::notes::{Note, end_of, front_of, middle_of};
use crate::readers::{LineStamp, plain_stamp};
use crate::style::text_in;
use crate::task::{Action, Task};
use calendar_values::SignedDuration;
use line_devices::devices::{DeviceFault, Sink};
use line_devices::places::place_of;
use line_devices::sending::{Pending, flush, send};
use line_devices::table::Table;
use utc_times::UtcDateTime;

/// The reason why the work ended before the end of the input.
#[derive(Clone, Copy, Debug, PartialEq, Eq)]
pub enum LineFault {
    /// A write failed.
    Write,
    /// A line ends the run.
    Found(Finding),
}

impl From<DeviceFault> for LineFault {
    ghost from_gives = { λ fault result. result ≡ Write };

    fn from(_fault: DeviceFault) -> LineFault {
        LineFault::Write
    }
}

/// How far a line is.
#[derive(Clone, Copy, Debug, PartialEq, Eq)]
pub enum Progress {
    /// Its beginning is kept, and nothing of it was sent.
    Kept,
    /// It is sent so far.
    Sent,
    /// Nothing of it is to be sent.
    Skipped,
}

/// The beginning of a line.
pub type Head = Table<u8, LONGEST_HEAD>;

/// The state after the bytes that were read.
#[derive(Drop)]
pub struct Work {
    /// The state after the lines before, and after the last one once it is not kept.
    pub state: State,
    /// How far the last line is.
    pub progress: Progress,
    /// The bytes of it that are kept.
    pub head: Head,
}

impl Work {
    /// The state before anything is read.
    pub fn new(task: &Task) -> Work
        ensures state { result.state ≡ first_state task.now }
        ensures progress { result.progress ≡ Kept }
        ensures head { result.head ≡ [] }
    {
        Work {
            state: first_state(task),
            progress: Progress::Kept,
            head: Head::new(0),
        }
    }
}

/// Takes in a block, and writes what is to be written of the lines in it, up to one that ends the
/// run.
pub fn feed<W: Sink>(
    task: &Task,
    writer: &mut W,
    pending: &mut Pending,
    work: &mut Work,
    block: &[u8],
) -> Result<(), LineFault>
    requires { pending.old ≡ [] }
    ensures stands { IsOk result → (base : Option (List ℕ)) (taken : List ℕ)
        → Stands task.now base (W.written writer.old) pending.old work.old taken
        → Stands task.now base (W.written writer.new) pending.new work.new (taken ++ block.now) }
    ensures ends { IfErr result (λ fault. (base : Option (List ℕ)) (taken more : List ℕ)
        → Stands task.now base (W.written writer.old) pending.old work.old taken
        → Ends task.now base (W.written writer.new) fault ((taken ++ block.now) ++ more)) }
    ensures empty { OnOk result (pending.new ≡ []) }
    ensures mark { W.is_marked writer.new ≡ mark_after result (W.is_marked writer.old) }
{
    let mut place = 0;
    'lines: while place < block.len() {
        place += take_front(task, writer, pending, work, &block[place..])?;
    }
    write_pending(writer, pending)
}

// Takes in the front of a text, up to its first line feed if it has one. Gives how many bytes it took.
#[inline(always)]
fn take_front<W: Sink>(
    task: &Task,
    writer: &mut W,
    pending: &mut Pending,
    work: &mut Work,
    text: &[u8],
) -> Result<usize, LineFault>
    requires { 0 < length text.now }
    ensures count { IfOk result (λ count. (0 < count) × (count ≤ length text.now)) }
    ensures stands { IfOk result (λ count. (base : Option (List ℕ)) (taken : List ℕ)
        → Stands task.now base (W.written writer.old) pending.old work.old taken
        → Stands task.now base (W.written writer.new) pending.new work.new
        (taken ++ take count text.now)) }
    ensures ends { IfErr result (λ fault. (base : Option (List ℕ)) (taken more : List ℕ)
        → Stands task.now base (W.written writer.old) pending.old work.old taken
        → Ends task.now base (W.written writer.new) fault ((taken ++ text.now) ++ more)) }
    ensures mark { W.is_marked writer.new ≡ mark_after result (W.is_marked writer.old) }
{
    let end = place_of(b'\n', text, 0);
    if end == text.len() {
        take_part(task, writer, pending, work, text)?;
        return Ok(end);
    }
    end_line(task, writer, pending, work, &text[..end])?;
    Ok(end + 1)
}

// Takes in a part of a line, which has no line feed.
fn take_part<W: Sink>(
    task: &Task,
    writer: &mut W,
    pending: &mut Pending,
    work: &mut Work,
    part: &[u8],
) -> Result<(), LineFault>
    requires { HasNone 10 part.now 0 (length part.now) }
    ensures stands { IsOk result → (base : Option (List ℕ)) (taken : List ℕ)
        → Stands task.now base (W.written writer.old) pending.old work.old taken
        → Stands task.now base (W.written writer.new) pending.new work.new (taken ++ part.now) }
    ensures ends { IfErr result (λ fault. (base : Option (List ℕ)) (taken more : List ℕ)
        → Stands task.now base (W.written writer.old) pending.old work.old taken
        → Ends task.now base (W.written writer.new) fault ((taken ++ part.now) ++ more)) }
    ensures mark { W.is_marked writer.new ≡ mark_after result (W.is_marked writer.old) }
{
    if is_kept(work.progress) {
        return keep_part(task, writer, pending, work, part);
    }
    pass(writer, pending, work.progress, part)
}

// Keeps a part of a line, up to one with which the line is long enough to be decided.
fn keep_part<W: Sink>(
    task: &Task,
    writer: &mut W,
    pending: &mut Pending,
    work: &mut Work,
    part: &[u8],
) -> Result<(), LineFault>
    requires { HasNone 10 part.now 0 (length part.now) }
    ensures stands { IsOk result → (base : Option (List ℕ)) (taken : List ℕ)
        → Keeps task.now base (W.written writer.old) pending.old work.old taken
        → Stands task.now base (W.written writer.new) pending.new work.new (taken ++ part.now) }
    ensures ends { IfErr result (λ fault. (base : Option (List ℕ)) (taken more : List ℕ)
        → Keeps task.now base (W.written writer.old) pending.old work.old taken
        → Ends task.now base (W.written writer.new) fault ((taken ++ part.now) ++ more)) }
    ensures mark { W.is_marked writer.new ≡ mark_after result (W.is_marked writer.old) }
{
    let room = work.head.room();
    work.head.push_front_of(part);
    if part.len() < room {
        return Ok(());
    }
    work.progress = begin(task, writer, pending, &mut work.state, work.head.items())?;
    pass(writer, pending, work.progress, rest_of(part, room))
}

// Ends a line with its last part, which the line feed follows.
fn end_line<W: Sink>(
    task: &Task,
    writer: &mut W,
    pending: &mut Pending,
    work: &mut Work,
    part: &[u8],
) -> Result<(), LineFault>
    requires { HasNone 10 part.now 0 (length part.now) }
    ensures stands { IsOk result → (base : Option (List ℕ)) (taken : List ℕ)
        → Stands task.now base (W.written writer.old) pending.old work.old taken
        → Stands task.now base (W.written writer.new) pending.new work.new
        ((taken ++ part.now) ++ 10 ∷ []) }
    ensures ends { IfErr result (λ fault. (base : Option (List ℕ)) (taken more : List ℕ)
        → Stands task.now base (W.written writer.old) pending.old work.old taken
        → Ends task.now base (W.written writer.new) fault
        (((taken ++ part.now) ++ 10 ∷ []) ++ more)) }
    ensures mark { W.is_marked writer.new ≡ mark_after result (W.is_marked writer.old) }
{
    decide_line(task, writer, pending, work, part)?;
    pass(writer, pending, work.progress, b"\n")?;
    work.progress = Progress::Kept;
    work.head.clear();
    Ok(())
}

// Decides a line by its last part, and sends what was not sent of it.
fn decide_line<W: Sink>(
    task: &Task,
    writer: &mut W,
    pending: &mut Pending,
    work: &mut Work,
    part: &[u8],
) -> Result<(), LineFault>
    requires { HasNone 10 part.now 0 (length part.now) }
    ensures decided { IsOk result → (base : Option (List ℕ)) (taken : List ℕ)
        → Stands task.now base (W.written writer.old) pending.old work.old taken
        → Decided task.now base (W.written writer.new) pending.new work.new (taken ++ part.now) }
    ensures ends { IfErr result (λ fault. (base : Option (List ℕ)) (taken more : List ℕ)
        → Stands task.now base (W.written writer.old) pending.old work.old taken
        → Ends task.now base (W.written writer.new) fault
        (((taken ++ part.now) ++ 10 ∷ []) ++ more)) }
    ensures mark { W.is_marked writer.new ≡ mark_after result (W.is_marked writer.old) }
{
    if is_fresh(work) {
        work.progress = begin(task, writer, pending, &mut work.state, part)?;
        return Ok(());
    }
    take_part(task, writer, pending, work, part)?;
    if is_kept(work.progress) {
        return begin_kept(task, writer, pending, work);
    }
    Ok(())
}

/// Sends the rest of the last line, which no line feed ends, and writes all.
pub fn finish<W: Sink>(
    task: &Task,
    writer: &mut W,
    pending: &mut Pending,
    work: &mut Work,
) -> Result<(), LineFault>
    ensures completes { IsOk result → (base : Option (List ℕ)) (taken : List ℕ)
        → Stands task.now base (W.written writer.old) pending.old work.old taken
        → Completes task.now base (W.written writer.new) work.new taken }
    ensures ends { IfErr result (λ fault. (base : Option (List ℕ)) (taken : List ℕ)
        → Stands task.now base (W.written writer.old) pending.old work.old taken
        → Ends task.now base (W.written writer.new) fault taken) }
    ensures mark { W.is_marked writer.new ≡ mark_after result (W.is_marked writer.old) }
{
    decide_rest(task, writer, pending, work)?;
    write_pending(writer, pending)?;
    match finding_at_end(task, &work.state) {
        Some(found) => Err(LineFault::Found(found)),
        None => Ok(()),
    }
}

// Writes what is pending.
fn write_pending<W: Sink>(writer: &mut W, pending: &mut Pending) -> Result<(), LineFault>
    ensures written { WritesPending result
        (W.written writer.old) (W.written writer.new) pending.old }
    ensures empty { OnOk result (pending.new ≡ []) }
    ensures mark { W.is_marked writer.new ≡ mark_after result (W.is_marked writer.old) }
{
    flush(writer, pending)?;
    Ok(())
}

// Decides what follows the last line feed, if anything does, and sends what was not sent of it.
fn decide_rest<W: Sink>(
    task: &Task,
    writer: &mut W,
    pending: &mut Pending,
    work: &mut Work,
) -> Result<(), LineFault>
    ensures settled { IsOk result → (base : Option (List ℕ)) (taken : List ℕ)
        → Stands task.now base (W.written writer.old) pending.old work.old taken
        → Settled task.now base (W.written writer.new) pending.new work.new taken }
    ensures ends { IfErr result (λ fault. (base : Option (List ℕ)) (taken : List ℕ)
        → Stands task.now base (W.written writer.old) pending.old work.old taken
        → Ends task.now base (W.written writer.new) fault taken) }
    ensures mark { W.is_marked writer.new ≡ mark_after result (W.is_marked writer.old) }
{
    if is_fresh(work) {
        return Ok(());
    }
    if is_kept(work.progress) {
        return begin_kept(task, writer, pending, work);
    }
    Ok(())
}

// Decides a line that is kept, and sends it.
fn begin_kept<W: Sink>(
    task: &Task,
    writer: &mut W,
    pending: &mut Pending,
    work: &mut Work,
) -> Result<(), LineFault>
    ensures decided { IsOk result → (base : Option (List ℕ)) (taken : List ℕ)
        → Keeps task.now base (W.written writer.old) pending.old work.old taken
        → Decided task.now base (W.written writer.new) pending.new work.new taken }
    ensures ends { IfErr result (λ fault. (base : Option (List ℕ)) (taken more : List ℕ)
        → Keeps task.now base (W.written writer.old) pending.old work.old taken
        → Ends task.now base (W.written writer.new) fault ((taken ++ 10 ∷ []) ++ more)) }
    ensures last { IfErr result (λ fault. (base : Option (List ℕ)) (taken : List ℕ)
        → Keeps task.now base (W.written writer.old) pending.old work.old taken
        → (work.old.head ≢ []) → Ends task.now base (W.written writer.new) fault taken) }
    ensures mark { W.is_marked writer.new ≡ mark_after result (W.is_marked writer.old) }
{
    work.progress = begin(task, writer, pending, &mut work.state, work.head.items())?;
    Ok(())
}

// Decides a line by what was read of it, and sends that. Where it ends the run, what is pending is written.
#[inline(always)]
fn begin<W: Sink>(
    task: &Task,
    writer: &mut W,
    pending: &mut Pending,
    state: &mut State,
    line: &[u8],
) -> Result<Progress, LineFault>
    ensures state { state.new ≡ state_after task.now state.old line.now }
    ensures begins { Begins result (decision_of task.now state.old line.now) state.new
        (W.written writer.old) (W.written writer.new) pending.old pending.new line.now }
    ensures mark { W.is_marked writer.new ≡ mark_after result (W.is_marked writer.old) }
{
    match task.action {
        Action::Write(_, _) | Action::Check(_) | Action::CheckAll(_) => {
            begin_at_once(task, writer, pending, state, line)
        }
        Action::Gaps(_, _) | Action::Since(_) | Action::Until(_) | Action::Between(_, _) => {
            begin_by_instant(task, writer, pending, state, line)
        }
    }
}

// Does so. For a date-time of RFC 3339 in front that is written anew, or in order, the way is short.
fn begin_at_once<W: Sink>(
    task: &Task,
    writer: &mut W,
    pending: &mut Pending,
    state: &mut State,
    line: &[u8],
) -> Result<Progress, LineFault>
    ensures state { state.new ≡ state_after task.now state.old line.now }
    ensures begins { Begins result (decision_of task.now state.old line.now) state.new
        (W.written writer.old) (W.written writer.new) pending.old pending.new line.now }
    ensures mark { W.is_marked writer.new ≡ mark_after result (W.is_marked writer.old) }
{
    let reader = state.choice.reader(&task.anew, &task.reader);
    if let Some(stamp) = plain_stamp(reader, state.lines == 0, line) {
        // A text that replaces a stamp is sent from where it was written.
        if let Some(style) = style_of(&task.action, &stamp) {
            if let Some(text) = &text_in(style, stamp.instant) {
                take_stamp(task, state, &stamp);
                let (start, count) = (stamp.start, stamp.length);
                return keep_text(writer, pending, line, start, text.as_bytes(), count);
            }
        } else if is_in_order(&task.action, state.last, &stamp) {
            take_stamp(task, state, &stamp);
            return Ok(Progress::Skipped);
        }
    }
    begin_line(task, writer, pending, state, line)
}

// Does so. For a date-time of RFC 3339 in front its instant decides, and the way is short.
fn begin_by_instant<W: Sink>(
    task: &Task,
    writer: &mut W,
    pending: &mut Pending,
    state: &mut State,
    line: &[u8],
) -> Result<Progress, LineFault>
    ensures state { state.new ≡ state_after task.now state.old line.now }
    ensures begins { Begins result (decision_of task.now state.old line.now) state.new
        (W.written writer.old) (W.written writer.new) pending.old pending.new line.now }
    ensures mark { W.is_marked writer.new ≡ mark_after result (W.is_marked writer.old) }
{
    let reader = state.choice.reader(&task.anew, &task.reader);
    let Some(stamp) = plain_stamp(reader, state.lines == 0, line) else {
        return begin_line(task, writer, pending, state, line);
    };
    let (last, latest, before) = (state.last, state.latest, state.latest);
    take_stamp(task, state, &stamp);
    if let Some(goes_on) = going_of(&task.action, before, state, &stamp) {
        return begin_whole(writer, pending, goes_on, line);
    }
    let decision = decision_by(&task.action, last, latest, state, &Ok(stamp));
    carry_out(writer, pending, decision, line)
}

// Whether a line with this stamp is written whole or not at all, by the latest instant before it and by the state after it. None where
// more decides.
#[inline(always)]
fn going_of(
    action: &Action,
    latest: Option<UtcDateTime>,
    after: &State,
    stamp: &LineStamp,
) -> Option<bool>
    ensures { IfSome result (λ goes_on. (last : Option ℤ)
        → decision_by action.now last latest after.now (Ok stamp.now) ≡ going_on goes_on) }
{
    match (action, latest) {
        (Action::Since(_) | Action::Until(_) | Action::Between(_, _), _) => Some(after.goes_on),
        (Action::Gaps(_, _), None) => Some(false),
        (Action::Gaps(limit, _), Some(before)) if is_soon(*limit, before, stamp.instant) => Some(
            false,
        ),
        _ => None,
    }
}

// Whether an instant is no earlier than another, and no more than the limit later.
#[inline(always)]
fn is_soon(limit: SignedDuration, before: UtcDateTime, at: UtcDateTime) -> bool
    ensures { result ≡ not (int_lt at before) && not (int_lt limit (at -ℤ before)) }
{
    if at.date() == before.date() {
        let (begun, ended) = (before.time(), at.time());
        return is_soon_in_a_day(limit, begun.nanosecond_of_day(), ended.nanosecond_of_day());
    }
    !(at < before) && !(limit < at - before)
}

// The same of two times of one day, in nanoseconds. Most lines of a log are of the day of the line before.
#[inline(always)]
fn is_soon_in_a_day(limit: SignedDuration, before: u64, at: u64) -> bool
    ensures { result ≡ not (nat_lt at before) && not (int_lt limit (pos at -ℤ pos before)) }
{
    !(at < before) && !(limit.whole_nanoseconds() < (at - before) as i128)
}

// Sends a line whole, or passes it over.
#[inline(always)]
fn begin_whole<W: Sink>(
    writer: &mut W,
    pending: &mut Pending,
    goes_on: bool,
    line: &[u8],
) -> Result<Progress, LineFault>
    ensures begins { (known : State) → Begins result (going_on goes_on) known
        (W.written writer.old) (W.written writer.new) pending.old pending.new line.now }
    ensures mark { W.is_marked writer.new ≡ mark_after result (W.is_marked writer.old) }
{
    if !goes_on {
        return Ok(Progress::Skipped);
    }
    send(writer, pending, line)?;
    Ok(Progress::Sent)
}

// Whether the task is to check a line with this stamp, and it is not earlier than the last one.
#[inline(always)]
fn is_in_order(action: &Action, last: Option<UtcDateTime>, stamp: &LineStamp) -> bool
    ensures skipped { result ≡ true → (latest : Option ℤ) (after : State)
        → decision_by action.now last latest after (Ok stamp.now) ≡ Skip }
    ensures check { (is_strict : Bool) → action.now ≡ Check is_strict
        → result ≡ not (is_earlier stamp.now.instant last) }
    ensures check_all { (is_strict : Bool) → action.now ≡ CheckAll is_strict
        → result ≡ not (is_earlier stamp.now.instant last) }
{
    match (action, last) {
        (Action::Check(_) | Action::CheckAll(_), Some(last)) => !(stamp.instant < last),
        (Action::Check(_) | Action::CheckAll(_), None) => true,
        _ => false,
    }
}

// Does so for every line.
fn begin_line<W: Sink>(
    task: &Task,
    writer: &mut W,
    pending: &mut Pending,
    state: &mut State,
    line: &[u8],
) -> Result<Progress, LineFault>
    ensures state { state.new ≡ state_after task.now state.old line.now }
    ensures begins { Begins result (decision_of task.now state.old line.now) state.new
        (W.written writer.old) (W.written writer.new) pending.old pending.new line.now }
    ensures mark { W.is_marked writer.new ≡ mark_after result (W.is_marked writer.old) }
{
    let (last, latest) = (state.last, state.latest);
    let stamp = read_stamp(task, state, line);
    // A text that replaces a stamp is sent from where it was written.
    if let Ok(stamp) = &stamp {
        if let Some(style) = style_of(&task.action, stamp) {
            if let Some(text) = &text_in(style, stamp.instant) {
                let (start, count) = (stamp.start, stamp.length);
                return keep_text(writer, pending, line, start, text.as_bytes(), count);
            }
        }
    }
    let decision = decision_by(&task.action, last, latest, state, &stamp);
    carry_out(writer, pending, decision, line)
}

// Sends what a decision keeps or tells of a line, or writes what is pending where the line ends the run.
#[inline(always)]
fn carry_out<W: Sink>(
    writer: &mut W,
    pending: &mut Pending,
    decision: Decision,
    line: &[u8],
) -> Result<Progress, LineFault>
    requires { (start count : ℕ) (text : List ℕ) → Keep start text count ≡ decision
        → start + count ≤ length line.now }
    ensures begins { (known : State) → Begins result decision known
        (W.written writer.old) (W.written writer.new) pending.old pending.new line.now }
    ensures mark { W.is_marked writer.new ≡ mark_after result (W.is_marked writer.old) }
{
    match decision {
        Decision::Keep(start, text, count) => {
            keep_text(writer, pending, line, start, text.as_bytes(), count)
        }
        Decision::Skip => Ok(Progress::Skipped),
        Decision::Tell(note) => tell(writer, pending, &note),
        Decision::Stop(found) => {
            flush(writer, pending)?;
            Err(LineFault::Found(found))
        }
    }
}

// A line without this number of bytes in front.
#[inline(always)]
fn rest_of(line: &[u8], count: usize) -> &[u8]
    requires { count ≤ length line.now }
    ensures { result.now ≡ drop count line.now }
{
    &line[count..]
}

// Sends a line with a text in place of a number of its bytes, after the first ones.
#[inline(always)]
fn keep_text<W: Sink>(
    writer: &mut W,
    pending: &mut Pending,
    line: &[u8],
    start: usize,
    text: &[u8],
    count: usize,
) -> Result<Progress, LineFault>
    requires { start + count ≤ length line.now }
    ensures kept { KeepsLine result (W.written writer.old) (W.written writer.new) pending.new
        (pending.old ++ (take start line.now ++ (text.now ++ drop (start + count) line.now))) }
    ensures mark { W.is_marked writer.new ≡ mark_after result (W.is_marked writer.old) }
{
    let behind = rest_of(line, start);
    let rest = rest_of(behind, count);
    keep_line(writer, pending, &line[..start], text, rest)
}

// Sends a line that is written: its first bytes, a text, and the rest of the line.
fn keep_line<W: Sink>(
    writer: &mut W,
    pending: &mut Pending,
    front: &[u8],
    text: &[u8],
    rest: &[u8],
) -> Result<Progress, LineFault>
    ensures kept { KeepsLine result (W.written writer.old) (W.written writer.new)
        pending.new (pending.old ++ (front.now ++ (text.now ++ rest.now))) }
    ensures mark { W.is_marked writer.new ≡ mark_after result (W.is_marked writer.old) }
{
    send_all(writer, pending, front, text, rest)?;
    Ok(Progress::Sent)
}

// Sends a note in place of a line.
fn tell<W: Sink>(writer: &mut W, pending: &mut Pending, note: &Note) -> Result<Progress, LineFault>
    ensures told { TellsNote result (W.written writer.old) (W.written writer.new)
        pending.new (pending.old ++ note_text note.now) }
    ensures mark { W.is_marked writer.new ≡ mark_after result (W.is_marked writer.old) }
{
    let (front, middle, end) = (front_of(note), middle_of(note), end_of(note));
    send_all(
        writer,
        pending,
        front.as_bytes(),
        middle.as_bytes(),
        end.as_bytes(),
    )?;
    Ok(Progress::Skipped)
}

// Sends the first bytes, a text, and another after it.
fn send_all<W: Sink>(
    writer: &mut W,
    pending: &mut Pending,
    front: &[u8],
    first: &[u8],
    second: &[u8],
) -> Result<(), DeviceFault>
    ensures sent { SendsAll result (W.written writer.old) (W.written writer.new)
        pending.new (pending.old ++ (front.now ++ (first.now ++ second.now))) }
    ensures mark { MarksFailure result (W.is_marked writer.old) (W.is_marked writer.new) }
{
    if front.is_empty() {
        return send_both(writer, pending, first, second);
    }
    send(writer, pending, front)?;
    send_both(writer, pending, first, second)
}

// Sends a text, and another after it.
fn send_both<W: Sink>(
    writer: &mut W,
    pending: &mut Pending,
    first: &[u8],
    second: &[u8],
) -> Result<(), DeviceFault>
    ensures sent { SendsAll result (W.written writer.old) (W.written writer.new)
        pending.new (pending.old ++ (first.now ++ second.now)) }
    ensures mark { MarksFailure result (W.is_marked writer.old) (W.is_marked writer.new) }
{
    send(writer, pending, first)?;
    send(writer, pending, second)
}

// Sends more bytes of a line that is decided.
fn pass<W: Sink>(
    writer: &mut W,
    pending: &mut Pending,
    progress: Progress,
    part: &[u8],
) -> Result<(), LineFault>
    ensures passed { Passes result (W.written writer.old) (W.written writer.new)
        pending.new (pending.old ++ to_send progress part.now) }
    ensures mark { W.is_marked writer.new ≡ mark_after result (W.is_marked writer.old) }
{
    if progress == Progress::Sent {
        send(writer, pending, part)?;
    }
    Ok(())
}

// Whether nothing of a line was read.
#[inline(always)]
fn is_fresh(work: &Work) -> bool
    ensures fresh { result ≡ true → (work.now.progress ≡ Kept) × (work.now.head ≡ []) }
    ensures begun { result ≡ false → work.now.progress ≡ Kept → work.now.head ≢ [] }
{
    match work.progress {
        Progress::Kept => work.head.is_empty(),
        Progress::Sent => false,
        Progress::Skipped => false,
    }
}

// Whether a line is kept, and nothing of it was sent.
#[inline(always)]
fn is_kept(progress: Progress) -> bool
    ensures { result ≡ is_kept progress }
{
    match progress {
        Progress::Kept => true,
        Progress::Sent => false,
        Progress::Skipped => false,
    }
}

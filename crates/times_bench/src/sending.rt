//! Bytes on their way to a sink.
ghost use Rattle.std.specs.Prelude.{◌≡◌, [], OnOk, MatchResult};
ghost use Rattle.times_bench.specs.Progress.{AtFault, HasRoom, SendsAnswer, WritesPending, mark_after};
ghost use Rattle.line_devices.specs.Writing.{AppendsBeginning, Sends};

use super::answers::put_answer;
use super::requests::Room;
use line_devices::devices::Sink;
pub use line_devices::sending::Pending;
use std::alloc::Global;

// More bytes than an answer has.
const ANSWER_ROOM: usize = 16_640;

/// The reason why the work ended before all lines had an answer.
#[derive(Clone, Copy, Debug, PartialEq, Eq)]
pub enum AnswerFault {
    /// A write failed.
    Write,
    /// There was no memory for the replies to a line.
    Memory,
}

/// Writes the pending bytes.
pub fn flush<W: Sink>(writer: &mut W, pending: &mut Pending) -> Result<(), AnswerFault>
    ensures written { WritesPending result
        (W.written writer.old) (W.written writer.new) pending.old }
    ensures empty { OnOk result (pending.new ≡ []) }
    ensures mark { W.is_marked writer.new ≡ mark_after result (W.is_marked writer.old) }
{
    let Ok(()) = line_devices::sending::flush(writer, pending) else {
        return Err(AnswerFault::Write);
    };
    Ok(())
}

/// Sends the answer to a line. Where there is no memory for its replies, all that is pending is
/// written, and nothing of the answer.
pub fn send_answer<W: Sink>(
    alloc: Global,
    writer: &mut W,
    pending: &mut Pending,
    room: &mut Room,
    line: &[u8],
) -> Result<(), AnswerFault>
    ensures sent { SendsAnswer result (W.written writer.old) (W.written writer.new)
        pending.old pending.new line.now }
    ensures mark { W.is_marked writer.new ≡ mark_after result (W.is_marked writer.old) }
{
    make_room(writer, pending)?;
    let Ok(()) = put_answer(alloc, pending, room, line) else {
        flush(writer, pending)?;
        return Err(AnswerFault::Memory);
    };
    Ok(())
}

// Writes what is pending where it leaves too little room for an answer.
fn make_room<W: Sink>(writer: &mut W, pending: &mut Pending) -> Result<(), AnswerFault>
    ensures sent { MatchResult result
        (λ _. Sends (W.written writer.old) (W.written writer.new) pending.new pending.old)
        (λ fault. AtFault fault
        (AppendsBeginning (W.written writer.old) (W.written writer.new) pending.old) ⊥) }
    ensures room { OnOk result (HasRoom pending.new) }
    ensures mark { W.is_marked writer.new ≡ mark_after result (W.is_marked writer.old) }
{
    if pending.room() < ANSWER_ROOM {
        return flush(writer, pending);
    }
    Ok(())
}

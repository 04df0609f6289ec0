//! Lines out of blocks of bytes.
ghost use Rattle.std.specs.Prelude.{◌≡◌, ℕ, List, [], ◌++◌, IsOk, OnOk};
ghost use Rattle.line_devices.specs.LineParts.{ended_from, rest_from};
ghost use Rattle.times_bench.specs.LineParts.{Holds};
ghost use Rattle.times_bench.specs.Progress.{SendsAnswer, WritesAnswers, mark_after};

use super::requests::Room;
use super::sending::{AnswerFault, Pending, flush, send_answer};
use line_devices::devices::Sink;
use line_devices::places::place_of;
use line_devices::table::Table;
use std::alloc::Global;

/// The most bytes of a line that asks for something.
pub const LONGEST_LINE: usize = 1024;

/// One byte more than a line may have, which tells that it is too long.
pub const MOST_KEPT: usize = LONGEST_LINE + 1;

/// The beginning of a line.
pub type Line = Table<u8, MOST_KEPT>;

/// Takes in a block, and writes the answer to each line that ends in it, up to one that finds no
/// memory.
pub fn feed<W: Sink>(
    alloc: Global,
    writer: &mut W,
    pending: &mut Pending,
    room: &mut Room,
    line: &mut Line,
    block: &[u8],
) -> Result<(), AnswerFault>
    requires { pending.old ≡ [] }
    ensures line { IsOk result → (piece : List ℕ) → Holds piece line.old
        → Holds (rest_from piece block.now) line.new }
    ensures written { (piece : List ℕ) → Holds piece line.old
        → WritesAnswers result (W.written writer.old) (W.written writer.new)
        (ended_from piece block.now) }
    ensures empty { OnOk result (pending.new ≡ []) }
    ensures mark { W.is_marked writer.new ≡ mark_after result (W.is_marked writer.old) }
{
    let mut place = 0;
    'lines: while place < block.len() {
        let end = place_of(b'\n', block, place);
        if end == block.len() {
            line.push_front_of(&block[place..end]);
            place = end;
        } else {
            end_line(alloc, writer, pending, room, line, &block[place..end])?;
            place = end + 1;
        }
    }
    flush(writer, pending)
}

// Sends the answer to the line that a part of a block ends, and begins the next line.
fn end_line<W: Sink>(
    alloc: Global,
    writer: &mut W,
    pending: &mut Pending,
    room: &mut Room,
    line: &mut Line,
    part: &[u8],
) -> Result<(), AnswerFault>
    ensures line { IsOk result → line.new ≡ [] }
    ensures sent { (piece : List ℕ) → Holds piece line.old
        → SendsAnswer result (W.written writer.old) (W.written writer.new)
        pending.old pending.new (piece ++ part.now) }
    ensures mark { W.is_marked writer.new ≡ mark_after result (W.is_marked writer.old) }
{
    if line.is_empty() {
        return send_answer(alloc, writer, pending, room, part);
    }
    line.push_front_of(part);
    let result = send_answer(alloc, writer, pending, room, line.items());
    line.clear();
    result
}

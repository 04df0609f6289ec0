//! Bytes on their way to a sink.
ghost use Rattle.std.specs.Prelude.{◌≡◌, ◌+◌, ◌≤◌, ◌<◌, [], ◌++◌, IsOk, OnErr, OnOk, length};
ghost use Rattle.line_devices.specs.Writing.{MarksFailure, SendsAll, StopsSending, WritesAll};

use crate::devices::{DeviceFault, Sink, write_whole};
use crate::table::Table;

/// The most bytes that wait for a write.
pub const MOST_PENDING: usize = 65_536;

/// Bytes that wait for a write.
pub type Pending = Table<u8, MOST_PENDING>;

/// Writes the pending bytes. After a failed write they stay pending.
pub fn flush<W: Sink>(writer: &mut W, pending: &mut Pending) -> Result<(), DeviceFault>
    ensures written { WritesAll result (W.written writer.old) (W.written writer.new) pending.old }
    ensures empty { OnOk result (pending.new ≡ []) }
    ensures kept { OnErr result (pending.new ≡ pending.old) }
    ensures mark { MarksFailure result (W.is_marked writer.old) (W.is_marked writer.new) }
{
    write_whole(writer, pending.items())?;
    pending.clear();
    Ok(())
}

/// Sends a text after the pending bytes. Where both have room, they wait, and nothing is written.
/// Otherwise it writes both, and nothing is pending.
///
/// After a failed write of the pending bytes they stay. After one of the text none is pending.
pub fn send<W: Sink>(writer: &mut W, pending: &mut Pending, text: &[u8]) -> Result<(), DeviceFault>
    ensures sent { SendsAll result (W.written writer.old) (W.written writer.new)
        pending.new (pending.old ++ text.now) }
    ensures waits { length pending.old + length text.now ≤ 65536 →
        IsOk result × (pending.new ≡ pending.old ++ text.now)
        × (W.written writer.new ≡ W.written writer.old) }
    ensures passes { 65536 < length pending.old + length text.now → OnOk result (pending.new ≡ []) }
    ensures kept { OnErr result (StopsSending (W.written writer.old) (W.written writer.new)
        pending.old pending.new text.now) }
    ensures mark { MarksFailure result (W.is_marked writer.old) (W.is_marked writer.new) }
{
    if text.len() <= pending.room() {
        pending.push_all(text);
        return Ok(());
    }
    flush(writer, pending)?;
    write_whole(writer, text)
}

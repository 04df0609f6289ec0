//! Lines that go to a device, and bytes that come from one.
ghost use Rattle.std.specs.Prelude.{◌≡◌, ◌≤◌, ◌<◌, ◌∷◌, ◌++◌, [], IfSome, OnOk, get_or, length, take};
ghost use Rattle.std.specs.Io.KnownBytes.{Appends, Consumes};
ghost use Rattle.line_devices.specs.LineParts.{HasNone};
ghost use Rattle.line_devices.specs.Writing.{MarksFailure, Sends};

use line_devices::devices::{DeviceFault, Sink, Source};
use line_devices::places::place_of;
use line_devices::sending::{Pending, flush, send};

/// Sends a line and its line feed after the bytes that wait.
pub fn send_line<W: Sink>(
    writer: &mut W,
    pending: &mut Pending,
    line: &[u8],
) -> Result<(), DeviceFault>
    ensures sent { OnOk result (Sends (W.written writer.old) (W.written writer.new) pending.new
        (pending.old ++ (line.now ++ 10 ∷ []))) }
    ensures mark { MarksFailure result (W.is_marked writer.old) (W.is_marked writer.new) }
{
    send(writer, pending, line)?;
    send(writer, pending, b"\n")
}

/// Writes two lines, each with its line feed.
pub fn write_both<W: Sink>(writer: &mut W, first: &[u8], second: &[u8]) -> Result<(), DeviceFault>
    ensures written { OnOk result (Appends (W.written writer.old) (W.written writer.new)
        ((first.now ++ 10 ∷ []) ++ (second.now ++ 10 ∷ []))) }
    ensures mark { MarksFailure result (W.is_marked writer.old) (W.is_marked writer.new) }
{
    let mut pending = Pending::new(0);
    send_line(writer, &mut pending, first)?;
    send_line(writer, &mut pending, second)?;
    flush(writer, &mut pending)
}

/// Reads bytes to the front of a room, and returns their number. None after a failed read.
pub fn read_bytes<R: Source>(reader: &mut R, room: &mut [u8]) -> Option<usize>
    ensures consumed { IfSome result (λ count.
        Consumes (R.left reader.old) (R.left reader.new) (take count room.new)) }
    ensures within { IfSome result (λ count. count ≤ length room.new) }
{
    match reader.read_some(room) {
        Ok(count) => Some(count),
        Err(_) => None,
    }
}

/// The bytes of a text before its first line feed, or the whole text.
pub fn first_line(text: &[u8]) -> &[u8]
    ensures front { result.now ≡ take (length result.now) text.now }
    ensures one { HasNone 10 text.now 0 (length result.now) }
    ensures whole { length result.now < length text.now →
        get_or text.now (length result.now) 0 ≡ 10 }
{
    &text[..place_of(b'\n', text, 0)]
}

//! The devices that bytes come from and go to.
ghost use Rattle.std.specs.Prelude.{◌≡◌, ℕ, ◌<◌, Bool, false, List, length, Option, Some, None, IfOk};
ghost use Rattle.std.specs.Io.{ReadsAtMost, WritesAtMost};
ghost use Rattle.std.specs.Io.KnownBytes.{ReadConsumes, WriteAppends};
ghost use Rattle.line_devices.specs.Writing.{MarksFailure, WritesAll};

use std::io::{ErrorKind, Read, Write};

/// A read or a write failed.
#[derive(Clone, Copy, Debug, PartialEq, Eq)]
pub struct DeviceFault;

/// A source of bytes, with a mark that says whether a call failed.
pub trait Source {
    /// The bytes left to read, if they are known.
    ghost left: { Self → Option (List ℕ) };

    /// The mark.
    ghost is_marked: { Self → Bool };

    /// Reads some bytes to the front of the buffer, and returns their number. 0 for a buffer that
    /// is not empty is the end of the bytes. A failed call reads no byte and sets the mark; no
    /// other call changes the mark.
    fn read_some(&mut self, buffer: &mut [u8]) -> Result<usize, DeviceFault>
        ensures bound { ReadsAtMost result buffer.new }
        ensures consumed { ReadConsumes (left self.old) (left self.new) result buffer.new }
        ensures mark { MarksFailure result (is_marked self.old) (is_marked self.new) };

    /// Whether the mark is set.
    fn failed(&self) -> bool
        ensures { result ≡ is_marked self.now };
}

/// A sink for bytes, with a mark that says whether a call failed.
pub trait Sink {
    /// The bytes written, if they are known.
    ghost written: { Self → Option (List ℕ) };

    /// The mark.
    ghost is_marked: { Self → Bool };

    /// Writes the first bytes of the text, and returns their number: at least 1, if the text is not
    /// empty. A failed call writes no byte and sets the mark; no other call changes the mark.
    fn write_some(&mut self, text: &[u8]) -> Result<usize, DeviceFault>
        ensures bound { WritesAtMost result text.now }
        ensures progress { IfOk result (λ count. 0 < length text.now → 0 < count) }
        ensures appended { WriteAppends (written self.old) (written self.new) result text.now }
        ensures mark { MarksFailure result (is_marked self.old) (is_marked self.new) };

    /// Whether the mark is set.
    fn failed(&self) -> bool
        ensures { result ≡ is_marked self.now };
}

/// A reader or a writer of `std::io` with a mark. A write that takes no byte of a text that is not
/// empty fails.
#[derive(Drop)]
pub struct Device<T> {
    inner: T,
    has_failed: bool,
    is_pipe_closed: bool,
    last: Option<u8>,
}

impl<T> Device<T> {
    ghost use Rattle.line_devices.specs.Device.{inner_of, has_failed, is_at_start, is_pipe_closed, last_of};
    ghost use Rattle.std.specs.Prelude.{is_some};

    /// The device over a reader or a writer. Its mark is not set.
    pub fn new(inner: T) -> Device<T>
        ensures inner { inner_of result ≡ inner }
        ensures unmarked { has_failed result ≡ false }
        ensures open { is_pipe_closed result ≡ false }
        ensures nothing_written { last_of result ≡ None }
    {
        Device {
            inner,
            has_failed: false,
            is_pipe_closed: false,
            last: None,
        }
    }

    /// The reader or the writer.
    pub fn inner(&self) -> &T
        ensures { result.now ≡ inner_of self.now }
    {
        &self.inner
    }

    /// Whether a line feed is the last byte that was written to it, or no byte was.
    pub fn is_at_line_start(&self) -> bool
        ensures { result ≡ is_at_start (last_of self.now) }
    {
        match self.last {
            Some(byte) => byte == b'\n',
            None => true,
        }
    }

    /// Whether a byte was written to it.
    pub fn has_written(&self) -> bool
        ensures { result ≡ is_some (last_of self.now) }
    {
        self.last.is_some()
    }

    /// Whether a write failed because nothing reads the pipe that it writes to.
    pub fn is_pipe_closed(&self) -> bool
        ensures { result ≡ is_pipe_closed self.now }
    {
        self.is_pipe_closed
    }
}

impl<T: Read> Source for Device<T> {
    ghost use Rattle.line_devices.specs.Device.{inner_of, has_failed, is_pipe_closed, last_of};

    ghost left = { λ device. T.remaining (inner_of device) };

    ghost is_marked = { has_failed };

    fn read_some(&mut self, buffer: &mut [u8]) -> Result<usize, DeviceFault>
        ensures bound { ReadsAtMost result buffer.new }
        ensures consumed { ReadConsumes (T.remaining (inner_of self.old))
            (T.remaining (inner_of self.new)) result buffer.new }
        ensures mark { MarksFailure result (has_failed self.old) (has_failed self.new) }
        ensures last { last_of self.new ≡ last_of self.old }
        ensures pipe { is_pipe_closed self.new ≡ is_pipe_closed self.old }
    {
        match self.inner.read(buffer) {
            Ok(count) => Ok(count),
            Err(_) => {
                self.has_failed = true;
                Err(DeviceFault)
            }
        }
    }

    fn failed(&self) -> bool {
        self.has_failed
    }
}

impl<T: Write> Sink for Device<T> {
    ghost use Rattle.line_devices.specs.Device.{inner_of, has_failed, is_pipe_closed, last_of, last_after};
    ghost use Rattle.std.specs.Prelude.{OnOk};

    ghost written = { λ device. T.contents (inner_of device) };

    ghost is_marked = { has_failed };

    fn write_some(&mut self, text: &[u8]) -> Result<usize, DeviceFault>
        ensures bound { WritesAtMost result text.now }
        ensures progress { IfOk result (λ count. 0 < length text.now → 0 < count) }
        ensures appended { WriteAppends (T.contents (inner_of self.old))
            (T.contents (inner_of self.new)) result text.now }
        ensures mark { MarksFailure result (has_failed self.old) (has_failed self.new) }
        ensures last { last_of self.new ≡ last_after result text.now (last_of self.old) }
        ensures pipe { OnOk result (is_pipe_closed self.new ≡ is_pipe_closed self.old) }
    {
        match self.inner.write(text) {
            Ok(count) if count > 0 => {
                self.last = Some(text[count - 1]);
                Ok(count)
            }
            Ok(count) if text.is_empty() => Ok(count),
            Ok(_) => {
                self.has_failed = true;
                Err(DeviceFault)
            }
            Err(error) => {
                self.has_failed = true;
                self.is_pipe_closed = error.kind() == ErrorKind::BrokenPipe;
                Err(DeviceFault)
            }
        }
    }

    fn failed(&self) -> bool {
        self.has_failed
    }
}

/// Writes all of the text.
pub(crate) fn write_whole<W: Sink>(writer: &mut W, text: &[u8]) -> Result<(), DeviceFault>
    ensures written { WritesAll result (W.written writer.old) (W.written writer.new) text.now }
    ensures mark { MarksFailure result (W.is_marked writer.old) (W.is_marked writer.new) }
{
    let mut place = 0;
    while place < text.len() {
        place += writer.write_some(&text[place..])?;
    }
    Ok(())
}

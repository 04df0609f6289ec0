//! A block of bytes between a reader and its lines.
ghost use Rattle.std.specs.Prelude.{◌≡◌, ◌≤◌, ◌<◌, ◌+◌, [], ◌++◌, drop, get_or, length};
ghost use Rattle.line_devices.specs.LineParts.{HasNone};
ghost use Rattle.line_merges.specs.Buffers.{ReadsMore};

use line_devices::devices::{DeviceFault, Source};
use line_devices::places::place_of;
use std::marker::Model;

/// The most bytes of a buffer.
pub const ROOM: usize = 65_536;

/// Bytes that were read and not used yet. A contract sees the list of them. The buffer keeps the
/// number of its first bytes that a search passed, which have no line feed.
#[derive(Drop)]
pub struct Buffer {
    block: [u8; ROOM],
    start: usize,
    end: usize,
    searched: usize,
}

impl Model for Buffer {
    ghost use Rattle.std.specs.Prelude.{◌≤◌, ◌-◌, ℕ, List, drop, take};
    ghost use Rattle.line_devices.specs.LineParts.{HasNone};

    ghost Value = { List ℕ };

    ghost view = { λ buffer. drop buffer.start (take buffer.end buffer.block) };

    ghost invariant = { λ buffer. (buffer.start ≤ buffer.end) × (buffer.end ≤ 65536)
        × (buffer.searched ≤ buffer.end - buffer.start)
        × HasNone 10 (drop buffer.start (take buffer.end buffer.block)) 0 buffer.searched };
}

impl Buffer {
    /// Returns a buffer without bytes.
    pub(crate) fn new() -> Buffer
        ensures { result ≡ [] }
    {
        Buffer {
            block: [0; ROOM],
            start: 0,
            end: 0,
            searched: 0,
        }
    }

    /// Returns the bytes.
    pub(crate) fn bytes(&self) -> &[u8]
        ensures value { result.now ≡ self.now }
        ensures length { length result.now ≤ 65536 }
    {
        &self.block[self.start..self.end]
    }

    /// Returns the number of bytes.
    pub(crate) fn len(&self) -> usize
        ensures { result ≡ length self.now }
    {
        self.end - self.start
    }

    /// Returns the place of the first line feed, or the number of bytes if there is none.
    pub(crate) fn line_end(&mut self) -> usize
        ensures same { self.new ≡ self.old }
        ensures bound { result ≤ length self.old }
        ensures before { HasNone 10 self.old 0 result }
        ensures byte_there { result < length self.old → get_or self.old result 0 ≡ 10 }
    {
        let bytes = self.bytes();
        if self.searched < bytes.len() && bytes[self.searched] == b'\n' {
            return self.searched;
        }
        let end = place_of(b'\n', bytes, self.searched);
        self.searched = end;
        end
    }

    /// Removes the first bytes, as many as the count.
    pub(crate) fn skip(&mut self, count: usize)
        requires { count ≤ length self.old }
        ensures { self.new ≡ drop count self.old }
    {
        self.start += count;
        self.searched = 0;
    }

    /// Reads more bytes after those that are there, and returns their number. 0 is the end of the
    /// bytes.
    pub(crate) fn read_more<R: Source>(&mut self, reader: &mut R) -> Result<usize, DeviceFault>
        requires { length self.old < 65536 }
        ensures { ReadsMore result self.old self.new (R.left reader.old) (R.left reader.new)
            (R.is_marked reader.old) (R.is_marked reader.new) }
    {
        let count = self.end - self.start;
        self.block.copy_within(self.start..self.end, 0);
        self.start = 0;
        self.end = count;
        self.searched = 0;
        let more = reader.read_some(&mut self.block[count..])?;
        self.end = count + more;
        Ok(more)
    }
}

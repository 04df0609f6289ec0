//! Why bytes are no file of a time zone, and where.
ghost use Rattle.std.specs.Prelude.{◌≡◌};
ghost use Rattle.zone_files.specs.Blocks.{file_stop};

use crate::faults::RuleFault;

/// The part of a file that is at fault.
#[derive(Clone, Copy, Debug, PartialEq, Eq)]
pub enum FilePart {
    /// The file ends here, before the end of a header, of a block or of its rule.
    Length,
    /// The header does not begin with `TZif`.
    Magic,
    /// The version is none of 1 to 4, or the second header has another one.
    Version,
    /// The header counts leap seconds, which Unix time has not, as files below `right/` do.
    LeapSeconds,
    /// The file has no kind of local time, or no abbreviation.
    Count,
    /// The offset of a kind of local time is out of range.
    Offset,
    /// The mark of daylight saving time is neither 0 nor 1.
    Daylight,
    /// The abbreviation of a kind of local time begins past the end of their list.
    Designation,
    /// The last abbreviation does not end with a zero byte.
    Names,
    /// The transition leads to a kind of local time that the file has not.
    Index,
    /// The rule does not begin with a new line.
    Footer,
    /// The text of the rule is at fault.
    Rule(RuleFault),
}

/// The error of bytes that are no file of a time zone.
#[derive(Clone, Copy, Debug, PartialEq, Eq)]
pub struct FileRefusal {
    /// The part at fault.
    pub part: FilePart,
    /// The index of the byte where it begins.
    pub place: usize,
}

// A fault, and how many bytes of the file are left where it is.
#[derive(Clone, Copy)]
pub(crate) struct FileStop {
    pub(crate) part: FilePart,
    pub(crate) left: usize,
}

// A fault at the beginning of what is left of the file.
pub(crate) fn stop_in_file(part: FilePart, bytes: &[u8]) -> FileStop
    ensures { result ≡ file_stop part bytes.now }
{
    FileStop {
        part,
        left: bytes.len(),
    }
}

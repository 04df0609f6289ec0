//! Tallies of lines by their stamps.
ghost use Rattle.std.specs.Prelude.{◌≡◌};
ghost use Rattle.line_devices.specs.StampTallies.{first_tally, is_continuation, is_due, is_empty_line, is_poor, kind_of, line_or, tally_after, with_missing};

/// The most bytes of a line in which a stamp ends.
pub const LONGEST_STAMP: usize = 65_500;

/// How a line counts.
#[derive(Clone, Copy, Debug, PartialEq, Eq)]
pub enum LineKind {
    /// It has a stamp.
    Stamped,
    /// It has text and no stamp, and begins with no blank and no tab.
    Bare,
    /// It has no stamp, and begins with a blank or a tab: it continues the line before.
    Continued,
    /// It has no text: no byte, or a carriage return alone.
    Empty,
    /// It has no stamp in its first 65,500 bytes, and more bytes than these.
    Long,
}

/// The kind of a line, by its bytes, or by the first 65,501 of them at least, and by whether it has
/// a stamp.
#[inline(always)]
pub fn kind_of(line: &[u8], has_stamp: bool) -> LineKind
    ensures { result ≡ kind_of line.now has_stamp }
{
    if has_stamp {
        LineKind::Stamped
    } else if is_empty_line(line) {
        LineKind::Empty
    } else if line.len() > LONGEST_STAMP {
        LineKind::Long
    } else if is_continuation(line) {
        LineKind::Continued
    } else {
        LineKind::Bare
    }
}

// Whether a line has no text.
fn is_empty_line(line: &[u8]) -> bool
    ensures { result ≡ is_empty_line line.now }
{
    match line {
        [] => true,
        [byte] => *byte == b'\r',
        _ => false,
    }
}

// Whether a line begins with a blank or a tab.
fn is_continuation(line: &[u8]) -> bool
    ensures { result ≡ is_continuation line.now }
{
    match line.first() {
        Some(byte) => *byte == b' ' || *byte == b'\t',
        None => false,
    }
}

/// The number of the lines of each kind, each at most 2^64 - 1.
#[derive(Clone, Copy, Debug, PartialEq, Eq)]
pub struct StampTally {
    /// The lines that have a stamp, and those that have text and continue no other. Long lines are
    /// among them.
    pub texts: u64,
    /// Those of them without a stamp.
    pub missing: u64,
    /// The number of the first of these.
    pub first: Option<u64>,
    /// The lines without a stamp that continue others.
    pub continued: u64,
    /// The long lines, which may have a stamp past their first 65,500 bytes.
    pub long: u64,
    /// The number of the first of these.
    pub first_long: Option<u64>,
}

impl StampTally {
    /// The tally before the first line.
    pub fn new() -> StampTally
        ensures { result ≡ first_tally }
    {
        StampTally {
            texts: 0,
            missing: 0,
            first: None,
            continued: 0,
            long: 0,
            first_long: None,
        }
    }

    /// The tally after one more line, which has this number and kind.
    #[inline(always)]
    pub fn after(self, number: u64, kind: LineKind) -> StampTally
        ensures { result ≡ tally_after self number kind }
    {
        match kind {
            LineKind::Stamped => StampTally {
                texts: self.texts.saturating_add(1),
                ..self
            },
            LineKind::Bare => self.with_missing(number),
            LineKind::Continued => StampTally {
                continued: self.continued.saturating_add(1),
                ..self
            },
            LineKind::Empty => self,
            LineKind::Long => StampTally {
                long: self.long.saturating_add(1),
                first_long: line_or(self.first_long, number),
                ..self.with_missing(number)
            },
        }
    }

    // The tally with one more line of text without a stamp, which has this number.
    #[inline(always)]
    fn with_missing(self, number: u64) -> StampTally
        ensures { result ≡ with_missing self number }
    {
        StampTally {
            texts: self.texts.saturating_add(1),
            missing: self.missing.saturating_add(1),
            first: line_or(self.first, number),
            ..self
        }
    }

    /// Whether to report lines without a stamp: there is one, or all lines continue others.
    pub fn is_due(&self) -> bool
        ensures { result ≡ is_due self.now }
    {
        self.missing > 0 || self.texts == 0 && self.continued > 0
    }

    /// Whether there are lines and none has a stamp, or more than half of them have none.
    pub fn is_poor(&self) -> bool
        ensures { result ≡ is_poor self.now }
    {
        self.texts.saturating_sub(self.missing) < self.missing
            || self.texts == 0 && self.continued > 0
    }
}

// A number of a line, or this one where there is none.
#[inline(always)]
fn line_or(first: Option<u64>, number: u64) -> Option<u64>
    ensures { result ≡ line_or first number }
{
    match first {
        Some(line) => Some(line),
        None => Some(number),
    }
}

//! The first lines with stamps at the front of an input.

ghost use Rattle.std.specs.Prelude.{◌≡◌, ◌+◌, ◌<◌, ◌≤◌, ◌∷◌, ◌++◌, [], ℕ, All, List, false, true, drop, get_or, length, map};
ghost use Rattle.std.specs.List.{between};
ghost use Rattle.line_devices.specs.LineParts.{HasNone};
ghost use Rattle.stamps.specs.Leading.{IsWithin, Looked, Stands, has_digit, has_last, is_bare, last_line, line_at, look_by, look_of, may_choose};
ghost use Rattle.stamps.specs.Leading.{suffice, until_told};
ghost use Rattle.stamps.specs.declared.readers.Reader.{Reader};

use crate::ahead::MOST_AHEAD;
use crate::choosing::both_read;
use crate::readers::{LineRefusal, Reader, line_stamp};
use line_devices::places::place_of;
use line_devices::table::Table;
use log_forms::{choose, is_read_by_any};

// The most lines that choose a form.
const MOST_LINES: usize = 16;

/// The stamps at the front of an input.
#[derive(Clone, Copy)]
pub enum Look {
    /// Stamps of the form and the place with this number.
    Chosen(usize),
    /// A stamp that the reader reads, or no line that ends.
    Readable,
    /// No stamp.
    Bare,
}

/// The first lines with stamps, as far as an input is looked at.
#[derive(Drop)]
pub struct Leading {
    chooses: bool,
    from: usize,
    has_text: bool,
    is_refused: bool,
    is_told: bool,
    found: Table<(usize, usize), MOST_LINES>,
}

impl Leading {
    /// None so far, after this many bytes. The lines choose a form, or one that a word names is
    /// looked for.
    pub fn new(chooses: bool, from: usize) -> Leading
        ensures chooses { result.chooses ≡ chooses }
        ensures stands { (reader : Reader) (head : List ℕ) → from ≤ length head
            → Stands reader from head result }
    {
        Leading {
            chooses,
            from,
            has_text: false,
            is_refused: false,
            is_told: false,
            found: Table::new((0, 0)),
        }
    }

    /// Looks at the lines of a head that end, after those that it has looked at. Returns whether
    /// more bytes change nothing: two lines have stamps that one reader reads, or sixteen have
    /// some; where a word names the form, one has.
    pub fn look_on(&mut self, reader: &Reader, head: &[u8]) -> bool
        ensures told { result ≡ self.new.is_told }
        ensures chooses { self.new.chooses ≡ self.old.chooses }
        ensures stands { (first : ℕ) (old more : List ℕ) → head.now ≡ old ++ more
            → Stands reader.now first old self.old → Stands reader.now first head.now self.new }
        ensures all { result ≡ false
            → HasNone 10 head.now self.new.from (length head.now) }
    {
        'lines: while !self.is_told && self.from < head.len() {
            let end = place_of(b'\n', head, self.from);
            if end == head.len() {
                return false;
            }
            self.pass(reader, head, end);
        }
        self.is_told
    }

    // Looks at the line up to this place, which a line feed ends.
    fn pass(&mut self, reader: &Reader, head: &[u8], end: usize)
        requires low { self.old.from ≤ end }
        requires within { end < length head.now }
        requires none { HasNone 10 head.now self.old.from end }
        requires feed { get_or head.now end 0 ≡ 10 }
        ensures from { self.new.from ≡ end + 1 }
        ensures chooses { self.new.chooses ≡ self.old.chooses }
        ensures stands { (first : ℕ) → self.old.is_told ≡ false
            → Stands reader.now first head.now self.old
            → Stands reader.now first head.now self.new }
    {
        if end == self.from {
            self.from = end + 1;
            return;
        }
        self.has_text = true;
        self.take(reader, head, end);
        self.from = end + 1;
    }

    /// Looks at the last line, which no line feed ends: at the end of the input, or where no other
    /// line ends and the first bytes are as many as they can be.
    pub fn end(&mut self, reader: &Reader, head: &[u8], is_at_end: bool)
        ensures chooses { self.new.chooses ≡ self.old.chooses }
        ensures has_text { self.new.has_text ≡ self.old.has_text }
        ensures told { self.old.is_told ≡ true → self.new ≡ self.old }
        ensures looked { (lines : List (List ℕ)) → self.old.is_told ≡ false
            → Looked reader.now head.now lines self.old
            → Looked reader.now head.now (lines
            ++ last_line (has_last is_at_end self.old.has_text head.now)
            (drop self.old.from head.now)) self.new }
    {
        if self.is_told || self.from >= head.len() {
            return;
        }
        if is_at_end || !self.has_text && head.len() >= MOST_AHEAD {
            self.take(reader, head, head.len());
        }
    }

    // Looks at the line up to this place.
    fn take(&mut self, reader: &Reader, head: &[u8], end: usize)
        requires low { self.old.from < end }
        requires within { end ≤ length head.now }
        ensures from { self.new.from ≡ self.old.from }
        ensures chooses { self.new.chooses ≡ self.old.chooses }
        ensures has_text { self.new.has_text ≡ self.old.has_text }
        ensures looked { (lines : List (List ℕ)) → self.old.is_told ≡ false
            → Looked reader.now head.now lines self.old
            → Looked reader.now head.now
            (lines ++ between self.old.from end head.now ∷ []) self.new }
    {
        let line = &head[self.from..end];
        if !self.chooses {
            self.is_refused = !is_bare(reader, line);
            self.is_told = self.is_refused;
            return;
        }
        if !may_choose(line) {
            self.is_refused |= !is_bare(reader, line);
            return;
        }
        if self.found.room() == 0 {
            return;
        }
        self.found.push((self.from, end));
        self.is_told = suffice(head, self.found.items());
    }

    /// The result of the lines of the head.
    pub fn look(&self, head: &[u8]) -> Look
        ensures { (reader : Reader) (lines more : List (List ℕ))
            → Looked reader head.now lines self.now → (self.now.is_told ≡ false → more ≡ [])
            → result ≡ look_of self.now.chooses reader self.now.has_text
            (until_told self.now.chooses reader [] (lines ++ more)) }
    {
        let mut lines: [&[u8]; MOST_LINES] = [&[]; MOST_LINES];
        let spans = self.found.items();
        'spans: for k in 0..spans.len() {
            lines[k] = line_at(head, spans[k]);
        }
        look_by(
            choose(&lines[..spans.len()]),
            self.has_text & !self.is_refused,
        )
    }
}

// The result by the reader that lines choose, or by whether all are bare.
fn look_by(choice: Option<usize>, are_bare: bool) -> Look
    ensures { result ≡ look_by choice are_bare }
{
    match choice {
        Some(number) => Look::Chosen(number),
        None => { if are_bare { Look::Bare } else { Look::Readable } }
    }
}

// Whether the lines at these places of a head choose a form, whatever follows.
fn suffice(head: &[u8], spans: &[(usize, usize)]) -> bool
    ensures { All (IsWithin head.now) spans.now
        → result ≡ suffice (map (line_at head.now) spans.now) }
{
    if spans.len() != 2 {
        return spans.len() == MOST_LINES;
    }
    both_read(line_at(head, spans[0]), line_at(head, spans[1]))
}

// The line between two places of a head.
fn line_at(head: &[u8], span: (usize, usize)) -> &[u8]
    ensures { IsWithin head.now span → result.now ≡ line_at head.now span }
{
    let (from, end) = span;
    if from < end && end <= head.len() {
        &head[from..end]
    } else {
        &[]
    }
}

// Whether a line may choose a form.
#[tactic(auto, unfolding(crate::specs::Leading::may_choose))]
fn may_choose(line: &[u8]) -> bool
    ensures { result ≡ may_choose line.now }
{
    has_digit(line) && is_read_by_any(line)
}

// Whether a line has a digit, as each stamp has.
fn has_digit(line: &[u8]) -> bool
    ensures { result ≡ has_digit line.now }
{
    line.iter().any(|byte| byte.is_ascii_digit())
}

// Whether a line has neither a stamp that the reader reads nor one that it refuses.
#[tactic(auto, unfolding(crate::specs::Leading::is_bare))]
fn is_bare(reader: &Reader, line: &[u8]) -> bool
    ensures { result ≡ is_bare reader.now line.now }
{
    match line_stamp(reader, None, false, line) {
        Err(LineRefusal::Absent) => true,
        Ok(_) | Err(LineRefusal::OutOfRange(_) | LineRefusal::Part(_)) => false,
    }
}

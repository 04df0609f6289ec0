//! The choice of a form anew, where the form of stamps changes within an input.
ghost use Rattle.std.specs.Prelude.{◌≡◌, ◌≤◌, length, take};
ghost use Rattle.stamps.specs.Changes.{after_choice, choice_after, first_choice, in_row, with_change, number_now, reader_by, tried, unless_over, with_one_more};

use crate::choosing::{chosen_by_two, chosen_with};
use crate::readers::Reader;
use crate::reading::ReadingMisuse;
use crate::zoned::with_zone;
use calendar_values::UtcOffset;
use line_devices::stamp_tallies::LineKind;
use line_devices::table::Table;
use log_forms::is_read_by_any;
use zones::OwnedZone;

/// The lines without a stamp, one after another, after which the next ones choose a form anew.
pub const ROW: u64 = 15;

/// The most bytes of a line that choose a form.
pub const MOST_FRONT: usize = 1_024;

/// The most changes that are kept.
pub const MOST_CHANGES: usize = 8;

/// How a form is chosen anew.
#[derive(Clone, Copy)]
pub struct Anew {
    /// The number of the first reader.
    pub number: usize,
    /// The offset of stamps that have none, if it is given: that of UTC where a zone is.
    pub offset: Option<UtcOffset>,
    /// The year of the first of those that have none, if it is given.
    pub year: Option<i32>,
    /// The time zone of stamps without an offset, if it is given.
    pub zone: Option<&'static OwnedZone>,
}

/// A copy of how a form is chosen anew, if it is.
pub fn copy_of(anew: &Option<Anew>) -> Option<Anew>
    ensures { result ≡ anew.now }
{
    match anew {
        Some(anew) => Some(Anew {
            number: anew.number,
            offset: anew.offset,
            year: anew.year,
            zone: anew.zone,
        }),
        None => None,
    }
}

/// A form that lines choose anew.
#[derive(Clone, Copy, Debug)]
pub struct Change {
    /// The number of the line that chooses it, counted from 1 on and at most 2^64 - 1. The next one
    /// is read by it.
    pub line: u64,
    /// The number of the reader before.
    pub from: usize,
    /// The number of the reader that they choose.
    pub to: usize,
    /// The option that it needs, if that is not given. Then the reader before stays.
    pub lacks: Option<ReadingMisuse>,
}

/// The choice after some lines.
#[derive(Drop)]
pub struct Choice {
    /// The reader that they chose anew, if they did.
    pub own: Option<Reader>,
    /// Its number.
    pub number: Option<usize>,
    /// How many lines with text have no stamp since the last one with a stamp or a change, at most
    /// 2^64 - 1.
    pub row: u64,
    /// How many of them come before those that choose a form.
    pub wait: u64,
    /// The last of them that a reader reads, if there is one.
    pub front: Table<u8, MOST_FRONT>,
    /// The first changes.
    pub changes: Table<Change, MOST_CHANGES>,
    /// The number of the other ones, at most 2^64 - 1.
    pub more: u64,
}

impl Choice {
    /// The choice before the first line.
    pub fn new() -> Choice
        ensures { result ≡ first_choice }
    {
        Choice {
            own: None,
            number: None,
            row: 0,
            wait: ROW,
            front: Table::new(0),
            changes: Table::new(Change {
                line: 0,
                from: 0,
                to: 0,
                lacks: None,
            }),
            more: 0,
        }
    }

    /// The reader of the next line: the one that lines chose anew, or else the first one.
    #[inline(always)]
    pub fn reader<'a>(&'a self, anew: &Option<Anew>, first: &'a Reader) -> &'a Reader
        ensures { result.now ≡ reader_by anew.now self.now.own first.now }
    {
        match (anew, &self.own) {
            (Some(_), Some(own)) => own,
            _ => first,
        }
    }

    /// Brings the choice up to a line of this number and kind.
    #[inline(always)]
    pub fn take(&mut self, anew: &Option<Anew>, number: u64, kind: LineKind, line: &[u8])
        ensures { self.new ≡ choice_after anew.now self.old number kind line.now }
    {
        match kind {
            LineKind::Stamped => self.row = 0,
            LineKind::Bare | LineKind::Long => self.take_bare(anew, number, line),
            LineKind::Continued | LineKind::Empty => {}
        }
    }

    // Brings it up to a line with text and without a stamp.
    #[inline(never)]
    fn take_bare(&mut self, anew: &Option<Anew>, number: u64, line: &[u8])
        ensures { self.new ≡ in_row anew.now (with_one_more self.old) number line.now }
    {
        self.count_line();
        self.try_in_row(anew, number, line);
    }

    // Counts a line with text and without a stamp.
    fn count_line(&mut self)
        ensures { self.new ≡ with_one_more self.old }
    {
        if self.row == 0 {
            self.front.clear();
        }
        self.row = self.row.saturating_add(1);
    }

    // Looks for a form by a line, if enough lines in a row have no stamp.
    fn try_in_row(&mut self, anew: &Option<Anew>, number: u64, line: &[u8])
        ensures { self.new ≡ in_row anew.now self.old number line.now }
    {
        if let Some(anew) = anew {
            if self.wait <= self.row {
                self.try_line(anew, number, beginning_of(line));
            }
        }
    }

    // Looks for a form that reads the beginning of a line and the last one that a reader reads.
    fn try_line(&mut self, anew: &Anew, number: u64, front: &[u8])
        requires { length front.now ≤ 1024 }
        ensures { self.new ≡ tried anew.now self.old number front.now }
    {
        if is_read_by_any(front) {
            if let Some(reader) = chosen_by_two(self.front.items(), front) {
                self.change(anew, number, reader);
                return;
            }
            self.front.clear();
            self.front.push_all(front);
        }
        self.end_row();
    }

    // Waits longer once 16 lines have chosen no reader.
    fn end_row(&mut self)
        ensures { self.new ≡ unless_over self.old }
    {
        if self.wait.saturating_add(ROW) <= self.row {
            self.wait = self.wait.saturating_mul(2);
        }
    }

    // Changes to the reader of a number, unless it is the one of now or lacks something.
    fn change(&mut self, anew: &Anew, number: u64, reader: usize)
        ensures { self.new ≡ after_choice anew.now self.old number reader }
    {
        let from = self.number_now(anew);
        if reader == from {
            self.wait = self.wait.saturating_mul(2);
            return;
        }
        let lacks = match chosen_with(reader, anew.offset, anew.year) {
            Ok(own) => {
                self.own = Some(with_zone(own, anew.zone));
                self.number = Some(reader);
                self.row = 0;
                self.wait = ROW;
                None
            }
            Err(misuse) => {
                self.wait = self.wait.saturating_mul(2);
                Some(misuse)
            }
        };
        self.note(Change {
            line: number,
            from,
            to: reader,
            lacks,
        });
    }

    // The number of the reader of now.
    fn number_now(&self, anew: &Anew) -> usize
        ensures { result ≡ number_now anew.now self.now }
    {
        match self.number {
            Some(number) => number,
            None => anew.number,
        }
    }

    // Keeps a change, or counts it.
    fn note(&mut self, change: Change)
        ensures { self.new ≡ with_change self.old change }
    {
        if self.changes.room() > 0 {
            self.changes.push(change);
        } else {
            self.more = self.more.saturating_add(1);
        }
    }
}

// As many bytes of a line as choose a form.
#[tactic(auto, using(crate::proofs::LongLineLemmas::beginnings))]
#[inline(always)]
fn beginning_of(line: &[u8]) -> &[u8]
    ensures { result.now ≡ take 1024 line.now }
{
    if line.len() <= MOST_FRONT {
        return line;
    }
    &line[..MOST_FRONT]
}

//! The tasks of the program.

use crate::changes::Anew;
use crate::readers::Reader;
use calendar_values::{SignedDuration, UtcOffset};
use utc_times::UtcDateTime;

/// The style of a written instant.
#[derive(Clone, Copy, Debug)]
pub enum Style {
    /// In UTC, at fixed width.
    Utc,
    /// At an offset, at fixed width.
    At(UtcOffset),
    /// As Unix seconds with nine digits of their fraction.
    Unix,
}

/// The work on lines.
#[derive(Clone, Copy, Debug)]
pub enum Action {
    /// Write the stamp of each in a style. A line that has no text there is written as it is, or,
    /// where the task is strict, ends the run.
    Write(Style, bool),
    /// Write nothing. The first line whose stamp is out of range or earlier than the one before
    /// ends the run, as does, where the task is strict, the first line without a stamp. The end of
    /// an input without any stamp ends it too.
    Check(bool),
    /// Write its fault in place of each line that would end `Check`, and read to the end.
    CheckAll(bool),
    /// Write, in place of each line whose instant is later than all before it by more than this
    /// duration, how much later it is than the latest of them. Where the task is strict, the first
    /// line without a stamp or with an earlier one ends the run.
    Gaps(SignedDuration, bool),
    /// Write those whose instant is not before this one.
    Since(UtcDateTime),
    /// Write those whose instant is before this one.
    Until(UtcDateTime),
    /// Write those whose instant is not before the first of these, and before the second one.
    Between(UtcDateTime, UtcDateTime),
}

/// The task: the work on lines, and how their stamps are read.
#[derive(Drop)]
pub struct Task {
    /// The work.
    pub action: Action,
    /// How stamps are read.
    pub reader: Reader,
    /// How their form is chosen anew where it changes, unless words name it.
    pub anew: Option<Anew>,
}

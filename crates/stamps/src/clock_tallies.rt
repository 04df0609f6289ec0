//! The lines whose wall clocks a time zone shows twice or never, and the notes on them.
ghost use Rattle.std.specs.Prelude.{◌≡◌};
ghost use Rattle.stamps.specs.ClockTallies.{clocks_after, first_of_several, first_or, lines_text, no_clocks, skip_or, skipped_after, twice_after};

use calendar_values::Text;
use log_zones::Showing;

/// A line whose wall clock the clocks of a zone skip.
#[derive(Clone, Copy, Debug, PartialEq, Eq)]
pub struct Skip {
    /// The number of the line.
    pub line: u64,
    /// The first wall clock that they skip, as the Unix second at which clocks in UTC show it.
    pub start: i64,
    /// The first one after it that they show.
    pub end: i64,
}

/// How many lines of an input have wall clocks that the clocks of a zone do not show once.
#[derive(Clone, Copy, Debug, PartialEq, Eq)]
pub struct ClockTally {
    /// The number of those that they show twice, at most 2^64 - 1.
    pub twice: u64,
    /// The number of the first of these lines.
    pub first_twice: Option<u64>,
    /// The number of those that they skip, at most 2^64 - 1.
    pub skipped: u64,
    /// The first of these lines.
    pub first_skipped: Option<Skip>,
}

impl ClockTally {
    /// No lines.
    pub fn new() -> ClockTally
        ensures { result ≡ no_clocks }
    {
        ClockTally {
            twice: 0,
            first_twice: None,
            skipped: 0,
            first_skipped: None,
        }
    }

    /// The tally after a line of this number, by how often clocks show its wall clock, if the zone
    /// gives it an instant.
    pub fn after(self, line: u64, showing: Option<Showing>) -> ClockTally
        ensures { result ≡ clocks_after self line showing }
    {
        match showing {
            Some(Showing::Twice) => self.twice_after(line),
            Some(Showing::Never(start, end)) => self.skipped_after(Skip { line, start, end }),
            Some(Showing::Once) | None => self,
        }
    }

    // The tally after a line whose wall clock is shown twice.
    fn twice_after(self, line: u64) -> ClockTally
        ensures { result ≡ twice_after self line }
    {
        ClockTally {
            twice: self.twice.saturating_add(1),
            first_twice: first_or(self.first_twice, line),
            ..self
        }
    }

    // The tally after a line whose wall clock is skipped.
    fn skipped_after(self, skip: Skip) -> ClockTally
        ensures { result ≡ skipped_after self skip }
    {
        ClockTally {
            skipped: self.skipped.saturating_add(1),
            first_skipped: skip_or(self.first_skipped, skip),
            ..self
        }
    }
}

// The first line, which is this one if there is none before.
fn first_or(first: Option<u64>, line: u64) -> Option<u64>
    ensures { result ≡ first_or first line }
{
    match first {
        Some(first) => Some(first),
        None => Some(line),
    }
}

// The first line that is skipped, which is this one if there is none before.
fn skip_or(first: Option<Skip>, skip: Skip) -> Option<Skip>
    ensures { result ≡ skip_or first skip }
{
    match first {
        Some(first) => Some(first),
        None => Some(skip),
    }
}

/// The only line with such a wall clock, or the number of several.
pub fn lines_text(count: u64, line: u64) -> Text
    ensures { result ≡ lines_text count line }
{
    let mut text = Text::new();
    if count == 1 {
        text.push_bytes(b"line ");
        text.push_decimal(line);
        text.push_bytes(b" has a time");
    } else {
        text.push_decimal(count);
        text.push_bytes(b" lines have times");
    }
    text
}

/// The first of several lines with such wall clocks.
pub fn first_of_several(count: u64, line: u64) -> Text
    ensures { result ≡ first_of_several count line }
{
    let mut text = Text::new();
    if count != 1 {
        text.push_bytes(b", the first is line ");
        text.push_decimal(line);
    }
    text
}

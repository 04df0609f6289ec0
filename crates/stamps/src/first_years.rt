//! The year of the first stamp of a log, by the last change of its file.
ghost use Rattle.std.specs.Prelude.{◌≡◌, ◌-ℤ◌, ◌≤ℤ◌, ◌+ℤ◌, ℕ, ℤ, pos, negsuc, MatchOption, true};
ghost use Rattle.calendar_values.specs.Calendar.{year_of};
ghost use Rattle.calendar_values.specs.WallClock.{wall_day};
ghost use Rattle.line_devices.specs.Lines.{pieces_of};
ghost use Rattle.plain_times.specs.Sums.{IsSaturatingSum};
ghost use Rattle.stamps.specs.FirstYears.{HasNoYear, IsFirstYear, IsLatestYear, SameInYears, in_year};

use crate::readers::Reader;
use crate::years::is_until;
use calendar_values::SignedDuration;
use line_devices::places::place_of;
use utc_times::UtcDateTime;

// In how many years the first stamp is looked for: each eight years in a row have a 29 February.
const MOST_YEARS: u32 = 10;

/// Sets the year that a reader assumes of the first stamp.
pub fn set_year(reader: &mut Reader, year: i32)
    ensures { reader.new ≡ in_year reader.old year }
{
    if let Reader::Formed(reader) = reader {
        reader.assumed.year = Some(year);
    }
}

/// The year of the first stamp of a log, by the lines of its first bytes and the last change of its
/// file: the latest of ten in which that stamp is at most a day after the change. A file spans less
/// than a year. A line without such a stamp is passed over. If no line has one, it is the year of
/// the change.
pub fn first_year(reader: &mut Reader, head: &[u8], changed: UtcDateTime) -> i32
    ensures year { (bound : ℤ) → IsSaturatingSum changed (pos 86400000000000) bound
        → IsFirstYear reader.old true (pieces_of head.now) bound
        (year_of (wall_day bound) +ℤ pos 1) (year_of (wall_day changed)) result }
    ensures same { SameInYears reader.old reader.new }
{
    let bound = changed.saturating_add(SignedDuration::days(1));
    let top = bound.year() + 1;
    let mut from = 0;
    'lines: while from <= head.len() {
        let end = place_of(b'\n', head, from);
        let line = &head[from..end];
        if let Some(year) = latest_year(reader, from == 0, line, bound, top, MOST_YEARS) {
            return year;
        }
        from = end + 1;
    }
    changed.year()
}

// The latest of so many years up to one in which the stamp of a line is at or before an instant.
fn latest_year(
    reader: &mut Reader,
    is_first: bool,
    line: &[u8],
    bound: UtcDateTime,
    top: i32,
    years: u32,
) -> Option<i32>
    requires { negsuc 1999999 ≤ℤ (top -ℤ pos years) }
    ensures year { MatchOption result (HasNoYear reader.old is_first line.now bound top years)
        (λ year. IsLatestYear reader.old is_first line.now bound top years year) }
    ensures same { SameInYears reader.old reader.new }
{
    if years == 0 {
        return None;
    }
    set_year(reader, top);
    if is_until(reader, is_first, line, bound) {
        return Some(top);
    }
    latest_year(reader, is_first, line, bound, top - 1, years - 1)
}

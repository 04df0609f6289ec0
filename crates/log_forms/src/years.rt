//! The assumption for the next stamp.
ghost use Rattle.std.specs.Prelude.{◌≡◌, pos, unwrap_or};
ghost use Rattle.log_forms.specs.Years.{assumed_after, assumed_by, shown_if_any};
ghost use Rattle.offset_times.specs.Local.{local_at};

use crate::instants::Assumed;
use calendar_values::UtcOffset;
use offset_times::{OffsetDateTime, ToOffset};
use utc_times::UtcDateTime;

/// The assumption after a stamp of this instant: its year and its month, as clocks at the assumed
/// offset show them. Without an assumed year, and before the first stamp, it stays as it is.
pub fn assumed_after(assumed: &Assumed, last: Option<UtcDateTime>) -> Assumed
    ensures { result ≡ assumed_after assumed.now last }
{
    let (Some(_), Some(last)) = (assumed.year, last) else {
        return *assumed;
    };
    assumed_by(assumed, shown_at(last, offset_or_utc(assumed)))
}

// An instant at an offset, if its wall clock there is in range.
fn shown_at(instant: UtcDateTime, offset: UtcOffset) -> Option<OffsetDateTime>
    ensures { result ≡ shown_if_any (local_at instant offset) }
{
    instant.checked_to_offset(offset)
}

// The assumed offset, or that of UTC.
fn offset_or_utc(assumed: &Assumed) -> UtcOffset
    ensures { result ≡ unwrap_or assumed.now.offset (pos 0) }
{
    match assumed.offset {
        Some(offset) => offset,
        None => UtcOffset::UTC,
    }
}

// The same with the year and the month of a date-time, if it is in range.
fn assumed_by(assumed: &Assumed, shown: Option<OffsetDateTime>) -> Assumed
    ensures { result ≡ assumed_by assumed.now shown }
{
    match shown {
        Some(shown) => Assumed {
            offset: assumed.offset,
            year: Some(shown.year()),
            month: u8::from(shown.month()) as u32,
        },
        None => *assumed,
    }
}

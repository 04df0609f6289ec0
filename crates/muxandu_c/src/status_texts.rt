//! The names of statuses, and their meanings.
ghost use Rattle.std.specs.Prelude.{◌≡◌, ◌≤◌, ◌<◌, ◌⊎◌, ℕ, true, length};
ghost use Rattle.muxandu_c.specs.Answers.{status_of, bytes_if_room, written_over};
ghost use Rattle.muxandu_c.specs.StatusTexts.{refused_numbered, refused_name, refused_words};
ghost use Rattle.muxandu_c.specs.StatusTexts.{is_plain, status_name, status_words};

use crate::refused::{MuxanduStatus, Refused};
use crate::texts::put_bytes;

/// The bytes of the longest text that muxandu_status_text writes. Use it as the size of a buffer.
pub const MUXANDU_STATUS_ROOM: usize = 128;

// The refusal of a status.
fn refused_numbered(number: u32) -> Option<Refused>
    ensures { result ≡ refused_numbered number }
{
    match number {
        1 => Some(Refused::Year),
        2 => Some(Refused::Month),
        3 => Some(Refused::Day),
        4 => Some(Refused::DayOfMonth),
        5 => Some(Refused::Ordinal),
        6 => Some(Refused::OrdinalOfYear),
        7 => Some(Refused::Week),
        8 => Some(Refused::WeekOfYear),
        9 => Some(Refused::Weekday),
        10 => Some(Refused::Hour),
        11 => Some(Refused::Minute),
        12 => Some(Refused::Second),
        13 => Some(Refused::Nanosecond),
        14 => Some(Refused::OffsetSeconds),
        15 => Some(Refused::Timestamp),
        16 => Some(Refused::DayNumber),
        17 => Some(Refused::Duration),
        18 => Some(Refused::Unit),
        19 => Some(Refused::Result),
        20 => Some(Refused::Buffer),
        21 => Some(Refused::Span),
        22 => Some(Refused::Syntax),
        23 => Some(Refused::OffsetHour),
        24 => Some(Refused::OffsetMinute),
        25 => Some(Refused::NoText),
        26 => Some(Refused::Zone),
        27 => Some(Refused::Gap),
        28 => Some(Refused::Fold),
        _ => None,
    }
}

// The name of a refusal.
fn refused_name(refused: Refused) -> &'static str
    ensures { result.now ≡ refused_name refused }
{
    match refused {
        Refused::Year => "YEAR",
        Refused::Month => "MONTH",
        Refused::Day => "DAY",
        Refused::DayOfMonth => "DAY_OF_MONTH",
        Refused::Ordinal => "ORDINAL",
        Refused::OrdinalOfYear => "ORDINAL_OF_YEAR",
        Refused::Week => "WEEK",
        Refused::WeekOfYear => "WEEK_OF_YEAR",
        Refused::Weekday => "WEEKDAY",
        Refused::Hour => "HOUR",
        Refused::Minute => "MINUTE",
        Refused::Second => "SECOND",
        Refused::Nanosecond => "NANOSECOND",
        Refused::OffsetSeconds => "OFFSET_SECONDS",
        Refused::Timestamp => "TIMESTAMP",
        Refused::DayNumber => "DAY_NUMBER",
        Refused::Duration => "DURATION",
        Refused::Unit => "UNIT",
        Refused::Result => "RESULT",
        Refused::Buffer => "BUFFER",
        Refused::Span => "SPAN",
        Refused::Syntax => "SYNTAX",
        Refused::OffsetHour => "OFFSET_HOUR",
        Refused::OffsetMinute => "OFFSET_MINUTE",
        Refused::NoText => "NO_TEXT",
        Refused::Zone => "ZONE",
        Refused::Gap => "GAP",
        Refused::Fold => "FOLD",
    }
}

// The meaning of an error: the comment of the variant.
fn refused_words(refused: Refused) -> &'static str
    ensures { result.now ≡ refused_words refused }
{
    match refused {
        Refused::Year => "A year before -999999 or after 999999.",
        Refused::Month => "A month that is not 1 to 12.",
        Refused::Day => "A day that is not 1 to 31.",
        Refused::DayOfMonth => "A day of 1 to 31 that its month does not have in its year.",
        Refused::Ordinal => "A day of the year that is not 1 to 366.",
        Refused::OrdinalOfYear => "Day 366 of a year that has 365.",
        Refused::Week => "An ISO week that is not 1 to 53.",
        Refused::WeekOfYear => "Week 53 of an ISO year that has 52.",
        Refused::Weekday => "A number that is not a day of the week.",
        Refused::Hour => "An hour that is not 0 to 23.",
        Refused::Minute => "A minute that is not 0 to 59.",
        Refused::Second => "A second that is not 0 to 59.",
        Refused::Nanosecond => "A nanosecond that is not 0 to 999999999.",
        Refused::OffsetSeconds =>
            "An offset that is not -93599 to 93599 seconds, or whose part in seconds is not -59 to 59.",
        Refused::Timestamp =>
            "A Unix second, or a count of another unit from 1970-01-01, outside the range of timestamps.",
        Refused::DayNumber =>
            "A day number that is not -365961662 to 364522971, or a Julian day outside the range of dates.",
        Refused::Duration => "A duration whose whole seconds do not fit in 64 bits.",
        Refused::Unit =>
            "A number that is not a unit, not a part of a date-time, or not a kind, a version or an item of a format description.",
        Refused::Result => "A result that is outside the range, or that its type cannot hold.",
        Refused::Buffer => "A buffer that is too short for what the call writes.",
        Refused::Span => "A span that does not lie in the block of texts.",
        Refused::Syntax =>
            "A text that does not have the form that the call reads, such as a date-time of RFC 3339.",
        Refused::OffsetHour =>
            "Hours of an offset that are out of range: above 23 in a text of RFC 3339, not -25 to 25 elsewhere.",
        Refused::OffsetMinute => "Minutes of an offset that are not -59 to 59.",
        Refused::NoText =>
            "A value that has no such text, as in RFC 3339 a year outside 0 to 9999, or an offset with seconds or beyond 23:59.",
        Refused::Zone =>
            "Numbers that are no time zone: a part is out of range, or a transition or the rule does not follow.",
        Refused::Gap =>
            "A wall clock that no instant has, since a time zone puts its clocks forward past it.",
        Refused::Fold =>
            "A wall clock that two instants have, since a time zone puts its clocks back over it.",
    }
}

fn status_name(status: u32) -> &'static str
    ensures { result.now ≡ status_name status }
{
    if status == 0 {
        return "OK";
    }
    match refused_numbered(status) {
        Some(refused) => refused_name(refused),
        None => "UNKNOWN",
    }
}

/// Writes the name of a status, such as `OK` or `DAY_OF_MONTH`, to the front of `buffer`, and its
/// length to `size`. The name has at most 15 bytes, all ASCII and none 0. A number that is no
/// status of this version has the name `UNKNOWN`. Errors: BUFFER if the name is longer than
/// `buffer`; `size` is then the length of the name, and `buffer` is unchanged.
#[unsafe(no_mangle)]
pub extern "C" fn muxandu_status_name(
    status: MuxanduStatus,
    buffer: &mut [u8],
    size: &mut usize,
) -> MuxanduStatus
    ensures status { result ≡ status_of (bytes_if_room buffer.old (status_name status)) }
    ensures written { buffer.new ≡
        written_over (bytes_if_room buffer.old (status_name status)) buffer.old }
    ensures size { size.new ≡ length (status_name status) }
    ensures ascii { is_plain (status_name status) ≡ true }
    ensures room { length (status_name status) ≤ 15 }
    // No other status has its name; only numbers that are no status share one.
    ensures own { (other : ℕ) → status_name other ≡ status_name status
        → (other ≡ status) ⊎ ((28 < other) × (28 < status)) }
{
    let name = status_name(status).as_bytes();
    *size = name.len();
    put_bytes(name, buffer)
}

fn status_words(status: u32) -> &'static str
    ensures { result.now ≡ status_words status }
{
    if status == 0 {
        return "Nothing is refused.";
    }
    match refused_numbered(status) {
        Some(refused) => refused_words(refused),
        None => "A number that is no status of this version.",
    }
}

/// Writes the meaning of a status, a sentence of at most 128 bytes, as muxandu_status_name does.
#[unsafe(no_mangle)]
pub extern "C" fn muxandu_status_text(
    status: MuxanduStatus,
    buffer: &mut [u8],
    size: &mut usize,
) -> MuxanduStatus
    ensures status { result ≡ status_of (bytes_if_room buffer.old (status_words status)) }
    ensures written { buffer.new ≡
        written_over (bytes_if_room buffer.old (status_words status)) buffer.old }
    ensures size { size.new ≡ length (status_words status) }
    ensures ascii { is_plain (status_words status) ≡ true }
    ensures room { length (status_words status) ≤ 128 }
    ensures own { (other : ℕ) → status_words other ≡ status_words status
        → (other ≡ status) ⊎ ((28 < other) × (28 < status)) }
{
    let words = status_words(status).as_bytes();
    *size = words.len();
    put_bytes(words, buffer)
}

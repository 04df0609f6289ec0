//! The values that cross: plain numbers, which each call tests.
use crate::refused::MuxanduStatus;

/// The bytes of the longest text of a value that a call writes. Use it as the size of a buffer.
pub const MUXANDU_TEXT_ROOM: usize = 42;

/// An instant: a Unix second and a nanosecond of that second, before 1970 too.
#[repr(C)]
#[derive(Clone, Copy)]
pub struct MuxanduTimestamp {
    /// The seconds from 1970-01-01 0:00 UTC, rounded down: -31619087596800 to 31494784780799.
    pub seconds: i64,
    /// The nanoseconds past that second, 0 to 999999999.
    pub nanoseconds: u32,
}

/// A duration: the sum of its seconds and its nanoseconds. A call writes both with one sign, and
/// less than a second of nanoseconds. It takes any whose sum is at least -2^63 seconds - 999999999
/// ns and at most 2^63 - 1 seconds + 999999999 ns.
#[repr(C)]
#[derive(Clone, Copy)]
pub struct MuxanduDuration {
    /// The seconds.
    pub seconds: i64,
    /// The nanoseconds to add to the seconds.
    pub nanoseconds: i32,
}

/// A date and a time of day in the proleptic Gregorian calendar, and their offset from UTC.
#[repr(C)]
#[derive(Clone, Copy)]
pub struct MuxanduDateTime {
    /// The year, -999999 to 999999; year 0 comes before year 1.
    pub year: i32,
    /// The month, 1 to 12.
    pub month: u8,
    /// The day of the month, 1 to 31 and no more than the month has.
    pub day: u8,
    /// The hour, 0 to 23.
    pub hour: u8,
    /// The minute, 0 to 59.
    pub minute: u8,
    /// The second, 0 to 59: there are no leap seconds.
    pub second: u8,
    /// The nanosecond of the second, 0 to 999999999.
    pub nanosecond: u32,
    /// The offset: the seconds by which local clocks are ahead of UTC, -93599 to 93599.
    pub offset_seconds: i32,
}

/// A date: a year, a month and a day of the month.
#[repr(C)]
#[derive(Clone, Copy)]
pub struct MuxanduDate {
    /// The year, -999999 to 999999.
    pub year: i32,
    /// The month, 1 to 12.
    pub month: u8,
    /// The day of the month, 1 to 31 and no more than the month has.
    pub day: u8,
}

/// A date as a year and a day of the year.
#[repr(C)]
#[derive(Clone, Copy)]
pub struct MuxanduOrdinalDate {
    /// The year, -999999 to 999999.
    pub year: i32,
    /// The day of the year, 1 to 365, or 366 in a leap year.
    pub ordinal: u16,
}

/// A date as an ISO year, an ISO week and a day of the week (ISO 8601). The week belongs to the
/// year of its Thursday.
#[repr(C)]
#[derive(Clone, Copy)]
pub struct MuxanduWeekDate {
    /// The ISO year, -999999 to 999999.
    pub year: i32,
    /// The ISO week, 1 to 52, or 53 in a year of 53 weeks.
    pub week: u8,
    /// The day of the week, 0 for Monday to 6 for Sunday.
    pub weekday: u8,
}

/// The place of a text in a block of texts.
#[repr(C)]
#[derive(Clone, Copy)]
pub struct MuxanduSpan {
    /// The index of its first byte in the block.
    pub start: usize,
    /// The number of its bytes.
    pub length: usize,
}

/// The result of a call with many items. It converts them in their order, up to the first that it
/// rejects.
#[repr(C)]
#[derive(Clone, Copy)]
pub struct MuxanduBatch {
    /// The number of items that it converted and wrote.
    pub count: usize,
    /// 0 if these are all items, else the error of the next.
    pub status: MuxanduStatus,
}

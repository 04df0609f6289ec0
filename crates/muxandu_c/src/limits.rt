//! The ends of the ranges.

/// The first year.
pub const MUXANDU_YEAR_MIN: i32 = -999_999;

/// The last year.
pub const MUXANDU_YEAR_MAX: i32 = 999_999;

/// The first day number, of 1 January of the first year.
pub const MUXANDU_DAY_MIN: i32 = -365_961_662;

/// The last day number, of 31 December of the last year.
pub const MUXANDU_DAY_MAX: i32 = 364_522_971;

/// The first Unix second of a timestamp, of the first day at 0:00:00.
pub const MUXANDU_SECONDS_MIN: i64 = -31_619_087_596_800;

/// The last Unix second of a timestamp, of the last day at 23:59:59.
pub const MUXANDU_SECONDS_MAX: i64 = 31_494_784_780_799;

/// The first millisecond of a timestamp.
pub const MUXANDU_MILLISECONDS_MIN: i64 = -31_619_087_596_800_000;

/// The last millisecond of a timestamp.
pub const MUXANDU_MILLISECONDS_MAX: i64 = 31_494_784_780_799_999;

/// The last nanosecond of a second.
pub const MUXANDU_NANOSECOND_MAX: i32 = 999_999_999;

/// The lowest offset, in seconds.
pub const MUXANDU_OFFSET_MIN: i32 = -93_599;

/// The highest offset, in seconds.
pub const MUXANDU_OFFSET_MAX: i32 = 93_599;

//! Every reading of a date at once, and the date of a Julian day.
ghost use Rattle.std.specs.Prelude.{◌≡◌};
ghost use Rattle.muxandu_c.specs.Answers.{Answers};
ghost use Rattle.muxandu_c.specs.Reads.{date_reads, date_from_julian_day};

use crate::parts::{date_of, day_of, read_date};
use crate::refused::{MuxanduStatus, Refused, answer};
use crate::values::MuxanduDate;
use calendar_values::Date;

/// Every reading of a date: its day numbers, its day of the year and of the week, and its weeks.
#[repr(C)]
#[derive(Clone, Copy)]
pub struct MuxanduDateReads {
    /// The day number, 0 on 1970-01-01.
    pub day: i32,
    /// The Julian day, 2440588 on 1970-01-01.
    pub julian_day: i32,
    /// The year of the ISO week, which is the year of its Thursday.
    pub iso_year: i32,
    /// The day of the year, 1 to 366.
    pub ordinal: u16,
    /// The ISO week, 1 to 53.
    pub iso_week: u8,
    /// The day of the week, 0 for Monday to 6 for Sunday.
    pub weekday: u8,
    /// The number of Sundays in the year up to and including the date, 0 to 53.
    pub sunday_based_week: u8,
    /// The number of Mondays in the year up to and including the date, 0 to 53.
    pub monday_based_week: u8,
}

fn date_reads(date: MuxanduDate) -> Result<MuxanduDateReads, Refused>
    ensures { result ≡ date_reads date }
{
    let date = read_date(date.year, date.month, date.day)?;
    let (iso_year, iso_week, weekday) = date.to_iso_week_date();
    Ok(MuxanduDateReads {
        day: day_of(date),
        julian_day: date.to_julian_day(),
        iso_year,
        ordinal: date.ordinal(),
        iso_week,
        weekday: weekday.number_days_from_monday(),
        sunday_based_week: date.sunday_based_week(),
        monday_based_week: date.monday_based_week(),
    })
}

/// Every reading of a date: its day number and Julian day, its day of the year and of the week, and
/// its weeks by ISO 8601, by Sundays and by Mondays. Errors, in this order: MONTH, YEAR, DAY,
/// DAY_OF_MONTH.
#[unsafe(no_mangle)]
pub extern "C" fn muxandu_date_reads(date: MuxanduDate, out: &mut MuxanduDateReads) -> MuxanduStatus
    ensures { Answers result out.old out.new (date_reads date) }
{
    answer(date_reads(date), out)
}

fn date_from_julian_day(julian_day: i32) -> Result<MuxanduDate, Refused>
    ensures { result ≡ date_from_julian_day julian_day }
{
    Date::from_julian_day(julian_day)?;
    Ok(date_of(julian_day - 2_440_588))
}

/// The date of a Julian day, which is 2440588 on 1970-01-01. Errors: DAY_NUMBER if out of range.
#[unsafe(no_mangle)]
pub extern "C" fn muxandu_date_from_julian_day(
    julian_day: i32,
    out: &mut MuxanduDate,
) -> MuxanduStatus
    ensures { Answers result out.old out.new (date_from_julian_day julian_day) }
{
    answer(date_from_julian_day(julian_day), out)
}

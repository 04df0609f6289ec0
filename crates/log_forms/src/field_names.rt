//! The names of parts.
ghost use Rattle.std.specs.Prelude.{◌≡◌, ◌≤◌, IsAscii, length};
ghost use Rattle.log_forms.specs.FieldNames.{field_name};

use format_descriptions::Field;

/// The name of a part, in ASCII, at most 20 bytes.
pub fn field_name(field: Field) -> &'static str
    ensures value { result.now ≡ field_name field }
    ensures ascii { IsAscii result.now }
    ensures length { length result.now ≤ 20 }
{
    match field {
        Field::Year => "year",
        Field::YearCentury => "century",
        Field::YearLastTwo => "digits of the year",
        Field::IsoYear => "year of the week",
        Field::IsoYearCentury => "century of the week",
        Field::IsoYearLastTwo => "digits of the year",
        Field::Month => "month",
        Field::Day => "day",
        Field::Ordinal => "day of the year",
        Field::Weekday => "day of the week",
        Field::IsoWeek => "week",
        Field::SundayWeek => "week by Sundays",
        Field::MondayWeek => "week by Mondays",
        Field::Hour => "hour",
        Field::Hour12 => "hour of 12",
        Field::Period => "half of the day",
        Field::Minute => "minute",
        Field::Second => "second",
        Field::Subsecond => "fraction",
        Field::OffsetHour => "offset hour",
        Field::OffsetMinute => "offset minute",
        Field::OffsetSecond => "offset second",
        Field::UnixSecond => "Unix time",
        Field::UnixMillisecond => "Unix time",
        Field::UnixMicrosecond => "Unix time",
        Field::UnixNanosecond => "Unix time",
    }
}

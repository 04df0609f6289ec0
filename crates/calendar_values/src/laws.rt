//! Laws of the definitions that the contracts cite: each function here proves one, for every year,
//! day and clock, and does nothing when it is called.
ghost use Rattle.calendar_values.specs.Laws.{YearsFollow, YearIsUnique, CalendarDatesAreDays, OrdinalDatesAreDays, RangeIsWholeYears};
ghost use Rattle.calendar_values.specs.Laws.{ReplacementsKeepTheRest, ClockReplacementsKeepTheRest, TruncationIsGreatestMultiple, OutcomesAreAnswers};
ghost use Rattle.calendar_values.specs.Laws.{IsoWeekDatesAreDays, WeekdaysRepeat};
ghost use Rattle.calendar_values.specs.OnlyCalendar.{IsOnlyCalendar};
ghost use Rattle.calendar_values.specs.OnlyWeeks.{IsOnlyWeekday, IsOnlyIsoWeek};

/// 1970 begins on day 0, and each year begins after the days of the year before.
pub fn years_follow()
    ensures { YearsFollow }
{}

/// Each day lies in its year, and in no other.
pub fn year_is_unique()
    ensures { YearIsUnique }
{}

/// Each day shows one year, month and day of the month, and they have that day number.
pub fn calendar_dates_are_days()
    ensures { CalendarDatesAreDays }
{}

/// Each day shows one year and day of the year, and they have that day number.
pub fn ordinal_dates_are_days()
    ensures { OrdinalDatesAreDays }
{}

/// The ISO year, the ISO week and the day of the week that a day of the range shows give that day,
/// and a day that such three give shows them.
pub fn iso_week_dates_are_days()
    ensures { IsoWeekDatesAreDays }
{}

/// The range begins on a Monday, 1 January of its first year, and ends on a Friday, 31 December of
/// its last.
pub fn range_is_whole_years()
    ensures { RangeIsWholeYears }
{}

/// An accepted replacement gives the only day whose named part is as given and whose other parts
/// are as before.
pub fn replacements_keep_the_rest()
    ensures { ReplacementsKeepTheRest }
{}

/// A replacement of a part of a time is accepted exactly where a time of day has that part and the
/// kept parts, and gives the only one.
pub fn clock_replacements_keep_the_rest()
    ensures { ClockReplacementsKeepTheRest }
{}

/// A truncation of a time gives the greatest multiple of the unit that is not above it.
pub fn truncation_is_greatest_multiple()
    ensures { TruncationIsGreatestMultiple }
{}

/// A constructor or a replacement has one outcome: its value if the arguments fit, and its error if
/// they do not.
pub fn outcomes_are_answers()
    ensures { OutcomesAreAnswers }
{}

/// Whole weeks later it is the same day of the week.
pub fn weekdays_repeat()
    ensures { WeekdaysRepeat }
{}

/// The calendar is the only one that begins at 1 January 1970 on day 0 and goes from each date to
/// the next: any three functions of the day number that do so show the same dates.
pub fn is_only_calendar()
    ensures { IsOnlyCalendar }
{}

/// The weekday is the only one that is a Thursday on day 0 and the next weekday on each next day.
pub fn is_only_weekday()
    ensures { IsOnlyWeekday }
{}

/// The ISO year and week are the only ones with these steps. A Monday begins the next week of its
/// year, or week 1 of the next year. Each other day lies in the week of the day before. 4 January
/// lies in week 1 of its year.
pub fn is_only_iso_week()
    ensures { IsOnlyIsoWeek }
{}

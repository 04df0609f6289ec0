//! Laws of the calls. Each function here proves a law, and does nothing when it is called.
ghost use Rattle.muxandu_c.specs.DescriptionLaws.{ItemsAsNumbersReadBack};
ghost use Rattle.muxandu_c.specs.GapLaws.{GapsHaveNoValues};
ghost use Rattle.muxandu_c.specs.PartLaws.{DigitsAreUnits, ReplacementsAreThoseOfUtc, DaysAreAdded, LengthsOfMonths, MonthsAreAdded};
ghost use Rattle.muxandu_c.specs.PartLaws.{TruncationsClearParts, TruncationsAreThoseOfClocks, ReplacementsKeepOtherParts};
ghost use Rattle.muxandu_c.specs.ReadBackLaws.{TimesReadBack, CountsReadBack, CountsRoundDown, ShownTimestampsReadBack, MomentsReadBack};
ghost use Rattle.muxandu_c.specs.ReadBackLaws.{DatesReadBack, OrdinalDatesReadBack, WeekDatesReadBack, JulianDaysReadBack};
ghost use Rattle.muxandu_c.specs.ReadBackLaws.{TimestampsReadBack, DateTimesReadBack, DurationsReadBack, OffsetsReadBack};
ghost use Rattle.muxandu_c.specs.StatusLaws.{DateErrors, OrdinalDateErrors, WeekDateErrors, TimeErrors, OffsetErrors};
ghost use Rattle.muxandu_c.specs.StatusLaws.{StatusesTell, TimestampErrors, DateTimeErrors, NumberErrors, ErrorsHaveNumbers};
ghost use Rattle.muxandu_c.specs.SumLaws.{ConversionsKeepTheInstant, TimestampSumsAreUndone, OrderIsThatOfSeconds, OrdersAreThoseOfTimestamps};
ghost use Rattle.muxandu_c.specs.SumLaws.{DateTimeSumsAreThoseOfTimestamps, MomentSumsAreThoseOfTimestamps};
ghost use Rattle.muxandu_c.specs.SumLaws.{SaturatingSumsEndInRange, SaturatingDateTimesEndInRange};
ghost use Rattle.muxandu_c.specs.TextLaws.{TextsReadBack, TextsOfRange};
ghost use Rattle.muxandu_c.specs.declared.values.MuxanduDate.{MuxanduDate};
ghost use Rattle.muxandu_c.specs.declared.values.MuxanduDateTime.{MuxanduDateTime};
ghost use Rattle.muxandu_c.specs.declared.values.MuxanduDuration.{MuxanduDuration};
ghost use Rattle.muxandu_c.specs.declared.values.MuxanduTimestamp.{MuxanduTimestamp};

/// The items of a description read back from their numbers. Numbers of another kind are no item,
/// and a call with such numbers fails with `Unit`.
pub(crate) fn items_as_numbers_read_back()
    ensures { ItemsAsNumbersReadBack }
{}

/// The date of a day has that day, and the day of a date has that date.
pub(crate) fn dates_read_back()
    ensures { DatesReadBack }
{}

/// The same for a year and a day of the year.
pub(crate) fn ordinal_dates_read_back()
    ensures { OrdinalDatesReadBack }
{}

/// The same for an ISO year, an ISO week and a day of the week.
pub(crate) fn week_dates_read_back()
    ensures { WeekDatesReadBack }
{}

/// The date of a Julian day has that Julian day, and the reads of a date agree with the calls of
/// one of them.
pub(crate) fn julian_days_read_back()
    ensures { JulianDaysReadBack }
{}

/// A timestamp that a call writes is read as its instant, and no other timestamp is.
pub(crate) fn timestamps_read_back()
    ensures { TimestampsReadBack }
{}

/// The same for a date-time; its day is the day of its date.
pub(crate) fn date_times_read_back()
    ensures { DateTimesReadBack }
{}

/// The same for a duration; of parts of one sign no other are read so.
pub(crate) fn durations_read_back()
    ensures { DurationsReadBack }
{}

/// The parts of an offset have its seconds, and the seconds of parts of one sign have these parts.
pub(crate) fn offsets_read_back()
    ensures { OffsetsReadBack }
{}

/// The timestamp of a count has this count.
pub(crate) fn counts_read_back()
    ensures { CountsReadBack }
{}

/// The count of a timestamp gives the timestamp, rounded down to the unit of the count.
pub(crate) fn counts_round_down()
    ensures { CountsRoundDown }
{}

/// A timestamp that clocks at an offset show is that of the date-time, and the other way round.
pub(crate) fn shown_timestamps_read_back()
    ensures { ShownTimestampsReadBack }
{}

/// The same for a moment.
pub(crate) fn moments_read_back()
    ensures { MomentsReadBack }
{}

/// No call reads the mark of a gap as a moment, a date-time, an order or a duration of the range.
pub(crate) fn gaps_have_no_values()
    ensures { GapsHaveNoValues }
{}

/// A timestamp plus a duration, and then minus it, is the timestamp, and the other way round. The
/// duration from one timestamp to another leads there, and back.
pub(crate) fn timestamp_sums_are_undone()
    ensures { TimestampSumsAreUndone }
{}

/// A date-time and a moment at another offset have the same timestamp, and their own offset gives
/// them back.
pub(crate) fn conversions_keep_the_instant()
    ensures { ConversionsKeepTheInstant }
{}

/// Timestamps are in the order of their seconds, and then of their nanoseconds. The duration from
/// one to another has the sign of their order.
pub(crate) fn order_is_that_of_seconds()
    ensures { OrderIsThatOfSeconds }
{}

/// Date-times and moments are in the order of their timestamps.
pub(crate) fn orders_are_those_of_timestamps()
    ensures { OrdersAreThoseOfTimestamps }
{}

/// The timestamp of a sum or a difference of a date-time is that of its timestamp, and the offset
/// stays. The duration between two date-times is that between their timestamps.
pub(crate) fn date_time_sums_are_those_of_timestamps()
    ensures { DateTimeSumsAreThoseOfTimestamps }
{}

/// The same for moments.
pub(crate) fn moment_sums_are_those_of_timestamps()
    ensures { MomentSumsAreThoseOfTimestamps }
{}

/// A saturating sum or difference of a timestamp is the sum or the difference where the range has
/// it, and else the end of the range that it passes.
pub(crate) fn saturating_sums_end_in_range()
    ensures { SaturatingSumsEndInRange }
{}

/// The same for date-times, whose ends are those of the clocks at their offset.
pub(crate) fn saturating_date_times_end_in_range()
    ensures { SaturatingDateTimesEndInRange }
{}

/// A date-time truncated to a unit has 0 for each smaller part, and keeps all others.
pub(crate) fn truncations_clear_parts()
    ensures { TruncationsClearParts }
{}

/// A timestamp truncated to a unit is what clocks in UTC show, truncated. A moment is what its own
/// clocks show, truncated.
pub(crate) fn truncations_are_those_of_clocks()
    ensures { TruncationsAreThoseOfClocks }
{}

/// A date-time with a part replaced has this part, and keeps all others.
pub(crate) fn replacements_keep_other_parts()
    ensures { ReplacementsKeepOtherParts }
{}

/// A timestamp with a part replaced is what clocks in UTC show, with this part replaced.
pub(crate) fn replacements_are_those_of_utc()
    ensures { ReplacementsAreThoseOfUtc }
{}

/// A date some days later has a day number that is greater by the days.
pub(crate) fn days_are_added()
    ensures { DaysAreAdded }
{}

/// A month has each day from 1 to its length, and no other.
pub(crate) fn lengths_of_months()
    ensures { LengthsOfMonths }
{}

/// A date some months later has the month that many months later and the same day, or the last of
/// a shorter month. A moment some months later shows that date at the same time of day.
pub(crate) fn months_are_added()
    ensures { MonthsAreAdded }
{}

/// The errors of a date: the month is tested first, then the year, the day, and whether the month
/// has the day.
pub(crate) fn date_errors()
    ensures { DateErrors }
{}

/// The errors of a year and a day of the year.
pub(crate) fn ordinal_date_errors()
    ensures { OrdinalDateErrors }
{}

/// The errors of an ISO week date: a year or a week that no day of the week helps comes first.
pub(crate) fn week_date_errors()
    ensures { WeekDateErrors }
{}

/// The errors of a time of day, in the order of its parts.
pub(crate) fn time_errors()
    ensures { TimeErrors }
{}

/// The errors of an offset in seconds, and of its parts in their order.
pub(crate) fn offset_errors()
    ensures { OffsetErrors }
{}

/// The errors of a timestamp, of a count of milliseconds, and of a duration.
pub(crate) fn timestamp_errors()
    ensures { TimestampErrors }
{}

/// The errors of a date-time: those of its date, then of its time of day, and then of its offset.
pub(crate) fn date_time_errors()
    ensures { DateTimeErrors }
{}

/// The errors of a day number, a Julian day, and the numbers of units and parts.
pub(crate) fn number_errors()
    ensures { NumberErrors }
{}

/// The number of an error is that of no other.
pub(crate) fn errors_have_numbers()
    ensures { ErrorsHaveNumbers }
{}

/// The text of a date-time, of a timestamp and of a date is read as the value that was written.
pub(crate) fn texts_read_back()
    ensures { TextsReadBack }
{}

/// A value has a text of RFC 3339 exactly if its year has four digits, and its offset is one of
/// whole minutes below a day.
pub(crate) fn texts_of_range()
    ensures { TextsOfRange }
{}

/// The digits of the fraction that a timestamp keeps are those of a unit.
pub(crate) fn digits_are_units()
    ensures { DigitsAreUnits }
{}

/// The status is 0 exactly if there is a value, which is then in its place. After an error the
/// place is unchanged.
pub(crate) fn statuses_tell()
    ensures timestamps { StatusesTell MuxanduTimestamp }
    ensures date_times { StatusesTell MuxanduDateTime }
    ensures durations { StatusesTell MuxanduDuration }
    ensures dates { StatusesTell MuxanduDate }
{}

/// The parts of a time of day read back, also those of a date-time. Clocks at another offset are
/// the same clocks.
pub(crate) fn times_read_back()
    ensures { TimesReadBack }
{}

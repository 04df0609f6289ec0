//! Values of the definitions, from Python's `datetime`, ISO 8601 and RFC 3339: a wrong definition
//! would not have them. The functions are there for their contracts.
#![tactic(auto, using(std::proofs::lemmas::Fmt::decimal_digit), unfolding(
// the first days of years
calendar_values::specs::Calendar::days_from_1970, calendar_values::specs::Calendar::days_until_1970, calendar_values::specs::Calendar::days_of_years, calendar_values::specs::Calendar::year_start,
// months and their days
calendar_values::specs::Calendar::days_in_months, calendar_values::specs::Calendar::last_month_begun,
// of a day of the year
calendar_values::specs::Calendar::month_of_ordinal, calendar_values::specs::Calendar::day_of_ordinal,
// the year of a day
calendar_values::specs::Calendar::year_after_1970, calendar_values::specs::Calendar::year_before_1970, calendar_values::specs::Calendar::year_of, calendar_values::specs::Calendar::ordinal_of,
// weeks, and what has a number
calendar_values::specs::Weeks::weekday_of, calendar_values::specs::Weeks::count_weekday, stamp_times::specs::Numbered::month_numbered, stamp_times::specs::Numbered::weekday_numbered,
// parts that make a date or a time of day
calendar_values::specs::Constructors::calendar_date, calendar_values::specs::Constructors::ordinal_date, calendar_values::specs::Constructors::clock_with,
// wall clocks
calendar_values::specs::WallClock::wall_day, calendar_values::specs::WallClock::wall_time, plain_times::specs::Replacements::with_date, plain_times::specs::Replacements::with_time,
// sums and instants
plain_times::specs::Sums::wall_clock_if_any, plain_times::specs::Sums::nearest_wall_clock, offset_times::specs::Local::instant_of, utc_times::specs::UnixTime::instant_or_refusal,
// timestamps
stamp_times::specs::Refusals::timestamp_of_parts, stamp_times::specs::Texts::fraction_text, stamp_times::specs::Texts::seconds_text, stamp_times::specs::Texts::timestamp_text,
// digits
calendar_values::specs::Digits::last_digits, calendar_values::specs::Digits::fraction_digits, rfc3339::specs::Form::fraction_value, calendar_values::specs::Texts::year_digits,
// texts of dates, times of day and offsets
calendar_values::specs::Texts::date_text, calendar_values::specs::Texts::time_text, calendar_values::specs::Texts::offset_text,
// texts of RFC 3339
rfc3339::specs::Texts::time_offset_text, rfc3339::specs::Texts::rfc3339_text, rfc3339::specs::Texts::fixed_text, rfc3339::specs::Meaning::meaning))]

ghost use Rattle.std.specs.Prelude.{◌≡◌, pos, neg_ℤ, true, false, codes, Some, None, Ok, Err, [], ◌∷◌};
ghost use Rattle.calendar_values.specs.Calendar.{divides, is_leap_year, year_length, days_in_year, days_from_1970, days_until_1970, year_start};
ghost use Rattle.calendar_values.specs.Calendar.{days_in_month, days_in_months, days_before_month, day_of_calendar_date, day_of_ordinal_date};
ghost use Rattle.calendar_values.specs.Calendar.{year_of, ordinal_of, month_of, day_of_month_of, month_of_ordinal, day_of_ordinal, julian_day_of};
ghost use Rattle.calendar_values.specs.Clock.{clock_of_parts, hour_of, minute_of, second_of, nanosecond_of, microsecond_of, millisecond_of};
ghost use Rattle.calendar_values.specs.Digits.{last_digits, fraction_digits};
ghost use Rattle.calendar_values.specs.Durations.{duration_of_parts};
ghost use Rattle.calendar_values.specs.Month.{month_number};
ghost use Rattle.calendar_values.specs.Offsets.{seconds_of_parts};
ghost use Rattle.calendar_values.specs.Constructors.{calendar_date, ordinal_date, clock_time_nano};
ghost use Rattle.calendar_values.specs.Refusals.{conditional_refusal, outright_refusal};
ghost use Rattle.calendar_values.specs.Replacements.{year_outcome, month_outcome, day_outcome, ordinal_outcome, hour_outcome, minute_outcome};
ghost use Rattle.calendar_values.specs.Replacements.{second_outcome, millisecond_outcome, microsecond_outcome, nanosecond_outcome};
ghost use Rattle.calendar_values.specs.Texts.{year_text, date_text, time_text, offset_text};
ghost use Rattle.calendar_values.specs.WallClock.{wall_clock, wall_day, wall_time, last_wall_clock, first_wall_clock};
ghost use Rattle.calendar_values.specs.Weeks.{weekday_of, thursday_of, iso_year_of, iso_week_of, count_weekday, sunday_week_of, monday_week_of};
ghost use Rattle.calendar_values.specs.declared.month.Month.TheVariants.{February, June};
ghost use Rattle.calendar_values.specs.declared.weekday.Weekday.TheVariants.{Sunday};
ghost use Rattle.plain_times.specs.Replacements.{with_date, with_time};
ghost use Rattle.plain_times.specs.Sums.{wall_clock_if_any, nearest_wall_clock};
ghost use Rattle.utc_times.specs.UnixTime.{unix_instant};
ghost use Rattle.offset_times.specs.Local.{wall_at, local_at, instant_of, shown_at};
ghost use Rattle.stamp_times.specs.Numbered.{month_numbered, weekday_numbered};
ghost use Rattle.stamp_times.specs.Refusals.{timestamp_of_parts};
ghost use Rattle.stamp_times.specs.Texts.{timestamp_text};
ghost use Rattle.stamp_times.specs.Counter.{instant_after, last_instant};
ghost use Rattle.stamp_times.specs.Travel.{stop_index};
ghost use Rattle.stamp_times.specs.declared.runs.calls.Call.TheVariants.{Shift};
ghost use Rattle.stamp_times.specs.declared.runs.calls.Shift.TheVariants.{CheckedAdd, CheckedSub};
ghost use Rattle.stamp_times.specs.declared.chains.steps.Step.TheVariants.{ToStamp, ToUtc, ToOffset};
ghost use Rattle.rfc3339.specs.Form.{fraction_value};
ghost use Rattle.rfc3339.specs.Meaning.{offset_of, value_of, meaning};
ghost use Rattle.rfc3339.specs.Reading.{parts_read};
ghost use Rattle.rfc3339.specs.declared.refusal.Component.TheVariants.{Month};
ghost use Rattle.rfc3339.specs.declared.refusal.TextRefusal.TheVariants.{OutOfRange};
ghost use Rattle.rfc3339.specs.Texts.{rfc3339_text, fixed_text};

/// Leap years, and the days of years.
pub fn years()
    ensures fourth { divides 4 (neg_ℤ (pos 4)) ≡ true }
    ensures century { is_leap_year (pos 1900) ≡ false }
    ensures four_centuries { is_leap_year (pos 2000) ≡ true }
    ensures before_0 { is_leap_year (neg_ℤ (pos 4)) ≡ true }
    ensures leap_year { year_length true ≡ 366 }
    ensures common_year { days_in_year (pos 2023) ≡ 365 }
    ensures three_years { days_from_1970 3 ≡ 1096 }
    ensures two_years { days_until_1970 2 ≡ 731 }
    ensures start { year_start (pos 1973) ≡ pos 1096 }
    ensures start_before { year_start (pos 1968) ≡ neg_ℤ (pos 731) }
{}

/// Months and their days.
pub fn months()
    ensures february { days_in_month true 2 ≡ 29 }
    ensures first_three { days_in_months false 3 ≡ 90 }
    ensures before_march { days_before_month true 3 ≡ 60 }
    ensures leap_day { day_of_calendar_date (pos 1972) 2 29 ≡ pos 789 }
    ensures ordinal { day_of_ordinal_date (pos 1972) 60 ≡ pos 789 }
    ensures month { month_of_ordinal true 60 ≡ 2 }
    ensures day { day_of_ordinal true 60 ≡ 29 }
    ensures number { month_number June ≡ 6 }
    ensures numbered { month_numbered 2 ≡ February }
{}

/// The date of a day: 1970-03-01, and 1969-12-31.
pub fn days()
    ensures year { year_of (pos 59) ≡ pos 1970 }
    ensures ordinal { ordinal_of (pos 59) ≡ 60 }
    ensures month { month_of (pos 59) ≡ 3 }
    ensures day { day_of_month_of (pos 59) ≡ 1 }
    ensures year_before { year_of (neg_ℤ (pos 1)) ≡ pos 1969 }
    ensures ordinal_before { ordinal_of (neg_ℤ (pos 1)) ≡ 365 }
    ensures julian_day { julian_day_of (pos 0) ≡ pos 2_440_588 }
{}

/// Weeks: 1970-01-01 was a Thursday, and 1969-12-29 the Monday of the first ISO week of 1970.
pub fn weeks()
    ensures weekday { weekday_of (pos 0) ≡ 3 }
    ensures thursday { thursday_of (pos 4) ≡ pos 7 }
    ensures thursdays { count_weekday 3 (pos 0) 8 ≡ 2 }
    ensures iso_year { iso_year_of (neg_ℤ (pos 3)) ≡ pos 1970 }
    ensures iso_week { iso_week_of (neg_ℤ (pos 3)) ≡ 1 }
    ensures second_iso_week { iso_week_of (pos 4) ≡ 2 }
    ensures by_sundays { sunday_week_of (pos 3) ≡ 1 }
    ensures by_mondays { monday_week_of (pos 3) ≡ 0 }
    ensures numbered { weekday_numbered 6 ≡ Sunday }
{}

/// The parts of 12:34:56.123456789.
pub fn clocks()
    ensures clock { clock_of_parts 12 34 56 123_456_789 ≡ 45_296_123_456_789 }
    ensures hour { hour_of 45_296_123_456_789 ≡ 12 }
    ensures minute { minute_of 45_296_123_456_789 ≡ 34 }
    ensures second { second_of 45_296_123_456_789 ≡ 56 }
    ensures millisecond { millisecond_of 45_296_123_456_789 ≡ 123 }
    ensures microsecond { microsecond_of 45_296_123_456_789 ≡ 123_456 }
    ensures nanosecond { nanosecond_of 45_296_123_456_789 ≡ 123_456_789 }
    ensures duration { duration_of_parts (neg_ℤ (pos 1)) (neg_ℤ (pos 5))
        ≡ neg_ℤ (pos 1_000_000_005) }
    ensures offset { seconds_of_parts (neg_ℤ (pos 3)) (neg_ℤ (pos 30)) (pos 0)
        ≡ neg_ℤ (pos 12_600) }
{}

/// Refusals: 29 February in a common year, the day 366 of one, hour 24.
pub fn refused_dates()
    ensures date { calendar_date (pos 2023) 2 29 ≡ Err (conditional_refusal (codes "day")) }
    ensures ordinal { ordinal_date (pos 2023) 366 ≡ Err (conditional_refusal (codes "ordinal")) }
    ensures hour { clock_time_nano 24 0 0 0 ≡ Err (outright_refusal (codes "hour")) }
{}

/// Replacements of 1970-03-01, and of 31 January.
pub fn replaced_dates()
    ensures year { (year_outcome (pos 59) (pos 1971)).answer ≡ Ok (pos 424) }
    ensures day { (day_outcome (pos 59) 31).answer ≡ Ok (pos 89) }
    ensures ordinal { (ordinal_outcome (pos 59) 1).answer ≡ Ok (pos 0) }
    ensures month { (month_outcome (pos 30) 2).answer ≡ Err (conditional_refusal (codes "day")) }
{}

/// Replacements of parts of 0:00:01.000000001.
pub fn replaced_clocks()
    ensures hour { (hour_outcome 1_000_000_001 1).answer ≡ Ok 3_601_000_000_001 }
    ensures minute { (minute_outcome 1_000_000_001 1).answer ≡ Ok 61_000_000_001 }
    ensures second { (second_outcome 1_000_000_001 0).answer ≡ Ok 1 }
    ensures millisecond { (millisecond_outcome 1_000_000_001 7).answer ≡ Ok 1_007_000_000 }
    ensures microsecond { (microsecond_outcome 1_000_000_001 7).answer ≡ Ok 1_000_007_000 }
    ensures nanosecond { (nanosecond_outcome 1_000_000_001 7).answer ≡ Ok 1_000_000_007 }
{}

/// The nanosecond before 1970.
pub fn wall_clocks()
    ensures wall_clock { wall_clock (neg_ℤ (pos 1)) 86_399_999_999_999 ≡ neg_ℤ (pos 1) }
    ensures day { wall_day (neg_ℤ (pos 1)) ≡ neg_ℤ (pos 1) }
    ensures clock { wall_time (neg_ℤ (pos 1)) ≡ 86_399_999_999_999 }
    ensures date { with_date (neg_ℤ (pos 1)) (pos 0) ≡ pos 86_399_999_999_999 }
    ensures time { with_time (neg_ℤ (pos 1)) 0 ≡ neg_ℤ (pos 86_400_000_000_000) }
    ensures second { unix_instant (neg_ℤ (pos 1)) ≡ Ok (neg_ℤ (pos 1_000_000_000)) }
{}

/// Sums past the last wall clock.
pub fn sums()
    ensures checked_here { wall_clock_if_any (pos 0) ≡ Some (pos 0) }
    ensures checked_past { wall_clock_if_any (pos 31_494_784_780_800_000_000_000) ≡ None }
    ensures clamped_past { nearest_wall_clock (pos 31_494_784_780_800_000_000_000)
        ≡ pos 31_494_784_780_799_999_999_999 }
    ensures first { first_wall_clock ≡ neg_ℤ (pos 31_619_087_596_800_000_000_000) }
    ensures last { last_wall_clock ≡ pos 31_494_784_780_799_999_999_999 }
{}

/// Clocks an hour ahead of UTC.
pub fn offsets()
    ensures instant { instant_of (wall_at (pos 0) (pos 3_600)) ≡ neg_ℤ (pos 3_600_000_000_000) }
    ensures shown { shown_at (pos 0) (pos 3_600) ≡ pos 3_600_000_000_000 }
    ensures local { local_at (pos 0) (pos 3_600) ≡ wall_at (pos 3_600_000_000_000) (pos 3_600) }
    ensures timestamp { timestamp_of_parts (neg_ℤ (pos 1)) 500_000_000
        ≡ Ok (neg_ℤ (pos 500_000_000)) }
    ensures west { offset_of true 8 0 ≡ neg_ℤ (pos 28_800) }
{}

/// Digits, and fractions of a second.
pub fn digits()
    ensures two { last_digits 2 5 ≡ codes "05" }
    ensures fraction { fraction_digits 9 520_000_000 ≡ codes "52" }
    ensures value { fraction_value 100_000_000 (codes "52") ≡ 520_000_000 }
{}

/// Texts of years, dates and offsets.
pub fn date_texts()
    ensures before_0 { year_text (neg_ℤ (pos 44)) ≡ codes "-0044" }
    ensures first { date_text (pos 0) ≡ codes "1970-01-01" }
    ensures before { date_text (neg_ℤ (pos 1)) ≡ codes "1969-12-31" }
    ensures offset { offset_text (neg_ℤ (pos 12_600)) ≡ codes "-03:30:00" }
{}

/// The text of midnight.
pub fn text_of_midnight()
    ensures midnight { time_text 0 ≡ codes "0:00:00.0" }
{}

/// The text of half a second before 1970.
pub fn text_before_1970()
    ensures half { timestamp_text (neg_ℤ (pos 500_000_000)) ≡ codes "-0.5" }
{}

/// Texts of RFC 3339.
pub fn texts_of_exchange()
    ensures shortest { rfc3339_text (wall_at (pos 0) (pos 0)) ≡ codes "1970-01-01T00:00:00Z" }
    ensures fixed { fixed_text (neg_ℤ (pos 1)) ≡ codes "1969-12-31T23:59:59.999999999Z" }
{}

/// The meaning of the numbers of RFC 3339's first example; month 13 is refused.
pub fn meanings()
    ensures value { value_of (parts_read 1985 4 12 23 20 50 520_000_000 (false, 0, 0))
        ≡ wall_at (pos 482_196_050_520_000_000) (pos 0) }
    ensures month { meaning (parts_read 1985 13 12 23 20 50 520_000_000 (false, 0, 0))
        ≡ Err (OutOfRange Month) }
{}

/// A run of sums, and one past the last instant.
pub fn runs()
    ensures next { instant_after (pos 0) (Shift (CheckedAdd (pos 5))) ≡ pos 5 }
    ensures refused { let i = last_wall_clock in instant_after i (Shift (CheckedAdd (pos 1))) ≡ i }
    ensures last { let calls = Shift (CheckedAdd (pos 5)) ∷ Shift (CheckedSub (pos 7)) ∷ [] in
        last_instant (pos 0) calls ≡ neg_ℤ (pos 2) }
{}

/// Chains of conversions: at the last instant, clocks ahead of UTC show no date of the range.
pub fn chains()
    ensures arrives { stop_index (pos 0) (ToStamp ∷ ToOffset (neg_ℤ (pos 1)) ∷ []) ≡ None }
    ensures stops { stop_index last_wall_clock (ToUtc ∷ ToOffset (pos 1) ∷ []) ≡ Some 1 }
{}

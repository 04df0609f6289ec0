//! The dates that the parts of a text name.
ghost use Rattle.std.specs.Prelude.{◌≡◌, ℤ, ◌<◌, ◌≤◌, ◌==◌, ◌||◌, if◌then◌else◌, nat_lt, is_some, IfOk, IsTrue, Ok, Err};
ghost use Rattle.calendar_values.specs.Calendar.{year_start, is_leap_year, days_in_month, day_of_calendar_date};
ghost use Rattle.calendar_values.specs.Range.{IsDay, IsYear, first_year, is_outside, last_year};
ghost use Rattle.calendar_values.specs.Weeks.{weekday_of};
ghost use Rattle.format_descriptions.specs.Values.{year_known, calendar_year, iso_year, wrong_year};
ghost use Rattle.format_descriptions.specs.Values.{wrong_day, wrong_week, wrong_date, day_with};
ghost use Rattle.format_descriptions.specs.Values.{month_day, year_day, week_ordinal, week_day, iso_day};
ghost use Rattle.format_descriptions.specs.Values.{day_in_iso_year, day_in_year, date_of_parts};
ghost use Rattle.format_descriptions.specs.Values.{tells_date, HasDateParts};
ghost use Rattle.format_descriptions.specs.declared.value_refusal.Field.TheVariants.{Year, YearCentury, YearLastTwo};
ghost use Rattle.format_descriptions.specs.declared.value_refusal.Field.TheVariants.{IsoYear, IsoYearCentury, IsoYearLastTwo};
ghost use Rattle.format_descriptions.specs.declared.value_refusal.ValueRefusal.TheVariants.{Wrong};

use crate::clock_values::or_zero;
use crate::parts::{fits, fits_choice, fits_signed, signed};
use crate::{Field, Parts, ValueRefusal};
use calendar_values::{Date, Month, Weekday};

impl Parts {
    /// The date of these parts: its year, with its month and day, its day of the year, or its week
    /// by Sundays or Mondays and its day of the week; or its ISO year, its ISO week and its day of
    /// the week. Each other part of a date that the text gives has to be that of the date. Fails
    /// with `Missing` if there are too few parts. Fails with `Wrong` for the first part out of
    /// range, or other than that of the date.
    ///
    /// ```
    /// use format_descriptions::{Component, Item, Padding};
    /// let items = [Item::Part(Component::Day(Padding::Zero)), Item::Byte(b'!')];
    /// let parts = format_descriptions::parse(&items, b"29!");
    /// assert_eq!(rt; parts.map(|parts| parts.date().is_err()), Ok(true));
    /// ```
    pub fn date(&self) -> Result<Date, ValueRefusal>
        ensures equation { result ≡ date_of_parts self.now }
        ensures value { IfOk result (λ day. HasDateParts self.now day) }
        ensures only { (day : ℤ) → IsDay day → IsTrue (tells_date self.now) →
            HasDateParts self.now day → result ≡ Ok day }
    {
        named_date(self)
    }
}

// The same. Most parts are a year, a month and a day alone: these contradict no other.
#[tactic(auto, using(crate::proofs::PlainDateLemmas::plain_date_of))]
fn named_date(parts: &Parts) -> Result<Date, ValueRefusal>
    ensures { result ≡ date_of_parts parts.now }
{
    match (parts.year, parts.month, parts.day) {
        (Some(year), Some(month), Some(day)) if !has_other_parts(parts) => {
            plain_date(year, month, day)
        }
        _ => date_of_all(*parts),
    }
}

// Whether a part of a date is known other than the year, the month and the day.
fn has_other_parts(parts: &Parts) -> bool
    ensures { let p = parts.now in result ≡ (((((((((((is_some p.ordinal || is_some p.weekday)
        || is_some p.iso_week) || is_some p.sunday_week) || is_some p.monday_week)
        || is_some p.year_century) || is_some p.is_before_zero) || is_some p.year_last_two)
        || is_some p.iso_year) || is_some p.iso_year_century) || is_some p.is_iso_before_zero)
        || is_some p.iso_year_last_two) }
{
    parts.ordinal.is_some()
        | parts.weekday.is_some()
        | parts.iso_week.is_some()
        | parts.sunday_week.is_some()
        | parts.monday_week.is_some()
        | parts.year_century.is_some()
        | parts.is_before_zero.is_some()
        | parts.year_last_two.is_some()
        | parts.iso_year.is_some()
        | parts.iso_year_century.is_some()
        | parts.is_iso_before_zero.is_some()
        | parts.iso_year_last_two.is_some()
}

// The date of a year, a month and a day.
fn plain_date(year: i32, month: u32, day: u32) -> Result<Date, ValueRefusal>
    ensures { result ≡ (if is_outside first_year last_year year then Err (Wrong Year)
        else (if month == 0 || nat_lt 12 month then Err (Wrong Field.Month)
        else (if day == 0 || nat_lt (days_in_month (is_leap_year year) month) day
        then Err (Wrong Field.Day) else Ok (day_of_calendar_date year month day)))) }
{
    if year < -999_999 || year > 999_999 {
        return Err(ValueRefusal::Wrong(Field::Year));
    }
    calendar_date(year, month, day)
}

// The date of the parts.
#[tactic(auto, unfolding(crate::specs::Values::date_of_parts))]
fn date_of_all(parts: Parts) -> Result<Date, ValueRefusal>
    ensures { result ≡ date_of_parts parts }
{
    let Some(year) = calendar_year(parts) else {
        return day_in_iso_year(parts, Field::Year);
    };
    if year < -999_999 || year > 999_999 {
        return Err(ValueRefusal::Wrong(Field::Year));
    }
    day_in_year(parts, year)
}

// The year of the calendar that is known.
fn calendar_year(parts: Parts) -> Option<i32>
    ensures { result ≡ calendar_year parts }
{
    year_known(
        parts.year,
        parts.year_century,
        parts.is_before_zero,
        parts.year_last_two,
    )
}

// The year of the ISO week that is known.
fn iso_year(parts: Parts) -> Option<i32>
    ensures { result ≡ iso_year parts }
{
    year_known(
        parts.iso_year,
        parts.iso_year_century,
        parts.is_iso_before_zero,
        parts.iso_year_last_two,
    )
}

// The year that is known, whole or by its digits.
fn year_known(
    year: Option<i32>,
    century: Option<u32>,
    is_before_zero: Option<bool>,
    last_two: Option<u32>,
) -> Option<i32>
    ensures { result ≡ year_known year century is_before_zero last_two }
{
    if let Some(year) = year {
        return Some(year);
    }
    let Some(century) = century else {
        return None;
    };
    let Some(is_negative) = is_before_zero else {
        return None;
    };
    let Some(last_two) = last_two else {
        return None;
    };
    if century > 9_999 || last_two > 99 {
        return None;
    }
    Some(signed(is_negative, century * 100 + last_two))
}

// The day of a year, by the first of the ways whose parts are known.
#[tactic(auto, unfolding(crate::specs::Values::day_in_year))]
fn day_in_year(parts: Parts, year: i32) -> Result<Date, ValueRefusal>
    requires { IsYear year }
    ensures { result ≡ day_in_year parts year }
{
    if parts.month.is_some() & parts.day.is_some() {
        return month_day(parts, year, or_zero(parts.month), or_zero(parts.day));
    }
    if parts.ordinal.is_some() {
        return year_day(parts, year, or_zero(parts.ordinal), Field::Ordinal);
    }
    if parts.weekday.is_some() & parts.sunday_week.is_some() {
        let week = or_zero(parts.sunday_week);
        return week_day(
            6,
            parts,
            year,
            week,
            or_zero(parts.weekday),
            Field::SundayWeek,
        );
    }
    if parts.weekday.is_some() & parts.monday_week.is_some() {
        let week = or_zero(parts.monday_week);
        return week_day(
            0,
            parts,
            year,
            week,
            or_zero(parts.weekday),
            Field::MondayWeek,
        );
    }
    let missing = if parts.month.is_some() {
        Field::Day
    } else {
        Field::Month
    };
    day_in_iso_year(parts, missing)
}

// The day by an ISO year, if that is known, or else what is missing.
fn day_in_iso_year(parts: Parts, missing: Field) -> Result<Date, ValueRefusal>
    ensures { result ≡ day_in_iso_year parts missing (iso_year parts) }
{
    let Some(year) = iso_year(parts) else {
        return Err(ValueRefusal::Missing(missing));
    };
    if parts.iso_week.is_some() & parts.weekday.is_some() {
        iso_day(parts, year, or_zero(parts.iso_week), or_zero(parts.weekday))
    } else {
        Err(ValueRefusal::Missing(missing))
    }
}

// The date of a month and a day of it.
#[tactic(auto, using(crate::proofs::PlainDateLemmas::month_days))]
fn month_day(parts: Parts, year: i32, month: u32, day: u32) -> Result<Date, ValueRefusal>
    requires { IsYear year }
    ensures { result ≡ month_day parts year month day }
{
    match calendar_date(year, month, day) {
        Ok(date) => date_with(parts, date),
        Err(refusal) => Err(refusal),
    }
}

// The date of a year, a month and a day.
#[tactic(auto, using(crate::proofs::DateLemmas::most_of_month))]
fn calendar_date(year: i32, month: u32, day: u32) -> Result<Date, ValueRefusal>
    requires { IsYear year }
    ensures { result ≡ (if month == 0 || nat_lt 12 month then Err (Wrong Field.Month)
        else (if day == 0 || nat_lt (days_in_month (is_leap_year year) month) day
        then Err (Wrong Field.Day) else Ok (day_of_calendar_date year month day))) }
{
    if month == 0 || month > 12 {
        return Err(ValueRefusal::Wrong(Field::Month));
    }
    let Ok(name) = Month::from_number(month as u8) else {
        return Err(ValueRefusal::Wrong(Field::Month));
    };
    if day > 31 {
        return Err(ValueRefusal::Wrong(Field::Day));
    }
    match Date::from_calendar_date(year, name, day as u8) {
        Ok(date) => Ok(date),
        Err(_) => Err(ValueRefusal::Wrong(Field::Day)),
    }
}

// The date of a day of the year.
#[tactic(auto, unfolding(crate::specs::Values::year_day), using(crate::proofs::DateLemmas::most_of_year))]
fn year_day(parts: Parts, year: i32, ordinal: u32, wrong: Field) -> Result<Date, ValueRefusal>
    requires { IsYear year }
    ensures { result ≡ year_day parts year ordinal wrong }
{
    if ordinal > 366 {
        return Err(ValueRefusal::Wrong(wrong));
    }
    match Date::from_ordinal_date(year, ordinal as u16) {
        Ok(date) => date_with(parts, date),
        Err(_) => Err(ValueRefusal::Wrong(wrong)),
    }
}

// The date of a day of a week that begins on a day of the week.
#[tactic(auto, unfolding(crate::specs::Values::week_day))]
fn week_day(
    first: u8,
    parts: Parts,
    year: i32,
    week: u32,
    weekday: u32,
    wrong: Field,
) -> Result<Date, ValueRefusal>
    requires year { IsYear year }
    requires first { first < 7 }
    ensures { result ≡ week_day first parts year week weekday wrong }
{
    if week > 53 {
        return Err(ValueRefusal::Wrong(wrong));
    }
    if weekday > 6 {
        return Err(ValueRefusal::Wrong(Field::Weekday));
    }
    year_day(parts, year, week_ordinal(first, year, week, weekday), wrong)
}

// The day of the year of such a day, and 0 before the year.
#[tactic(auto, unfolding(crate::specs::Values::week_ordinal))]
fn week_ordinal(first: u8, year: i32, week: u32, weekday: u32) -> u32
    requires year { IsYear year }
    requires first { first < 7 }
    requires week { week ≤ 53 }
    requires weekday { weekday < 7 }
    ensures { result ≡ week_ordinal first year week weekday }
{
    let start = first_weekday(year) as u32;
    let ordinal = (7 + first as u32 - start) % 7 + 1 + 7 * week + (weekday + 7 - first as u32) % 7;
    ordinal.saturating_sub(7)
}

// The day of the week of 1 January.
fn first_weekday(year: i32) -> u8
    requires { IsYear year }
    ensures value { result ≡ weekday_of (year_start year) }
    ensures below { result < 7 }
{
    Date::at_ordinal_date(year, 1)
        .weekday()
        .number_days_from_monday()
}

// The date of an ISO week date.
#[tactic(auto, unfolding(crate::specs::Values::iso_day))]
fn iso_day(parts: Parts, year: i32, week: u32, weekday: u32) -> Result<Date, ValueRefusal>
    ensures { result ≡ iso_day parts year week weekday }
{
    if week > 53 {
        return Err(ValueRefusal::Wrong(Field::IsoWeek));
    }
    if weekday > 6 {
        return Err(ValueRefusal::Wrong(Field::Weekday));
    }
    match Date::from_iso_week_date(year, week as u8, Weekday::of_number(weekday as u8)) {
        Ok(date) => date_with(parts, date),
        Err(_) => Err(ValueRefusal::Wrong(Field::IsoWeek)),
    }
}

// The date, if each part is that of it.
fn date_with(parts: Parts, date: Date) -> Result<Date, ValueRefusal>
    ensures { result ≡ day_with parts date }
{
    match wrong_date(parts, date) {
        None => Ok(date),
        Some(field) => Err(ValueRefusal::Wrong(field)),
    }
}

// The first part of a date that is not that of this one.
#[tactic(auto, unfolding(crate::specs::Values::wrong_date))]
fn wrong_date(parts: Parts, date: Date) -> Option<Field>
    ensures { result ≡ wrong_date parts date }
{
    if let Some(field) = wrong_day(parts, date) {
        return Some(field);
    }
    if let Some(field) = wrong_week(parts, date) {
        return Some(field);
    }
    if let Some(field) = wrong_calendar_year(parts, date.year()) {
        return Some(field);
    }
    wrong_iso_year(parts, date.to_iso_week_date().0)
}

// The first part of the year of the calendar that is not that of this one.
fn wrong_calendar_year(parts: Parts, year: i32) -> Option<Field>
    requires { IsYear year }
    ensures { result ≡ wrong_year parts.year parts.year_century parts.is_before_zero
        parts.year_last_two year Year YearCentury YearLastTwo }
{
    wrong_year(
        (
            parts.year,
            parts.year_century,
            parts.is_before_zero,
            parts.year_last_two,
        ),
        year,
        (Field::Year, Field::YearCentury, Field::YearLastTwo),
    )
}

// The first part of the year of the ISO week that is not that of this one.
fn wrong_iso_year(parts: Parts, year: i32) -> Option<Field>
    requires { IsYear year }
    ensures { result ≡ wrong_year parts.iso_year parts.iso_year_century parts.is_iso_before_zero
        parts.iso_year_last_two year IsoYear IsoYearCentury IsoYearLastTwo }
{
    wrong_year(
        (
            parts.iso_year,
            parts.iso_year_century,
            parts.is_iso_before_zero,
            parts.iso_year_last_two,
        ),
        year,
        (Field::IsoYear, Field::IsoYearCentury, Field::IsoYearLastTwo),
    )
}

// The first part of a year that is not that of this one.
#[tactic(auto, unfolding(crate::specs::Values::wrong_year))]
fn wrong_year(
    known: (Option<i32>, Option<u32>, Option<bool>, Option<u32>),
    year: i32,
    names: (Field, Field, Field),
) -> Option<Field>
    requires { IsYear year }
    ensures { result ≡ wrong_year known.0 known.1 known.2 known.3 year names.0 names.1 names.2 }
{
    if !fits_signed(known.0, year) {
        return Some(names.0);
    }
    if !fits(known.1, year.unsigned_abs() / 100) {
        return Some(names.1);
    }
    if !fits_choice(known.2, year < 0) {
        return Some(names.1);
    }
    if !fits(known.3, year.unsigned_abs() % 100) {
        return Some(names.2);
    }
    None
}

// The first of the other parts that is not that of this date.
#[tactic(auto, unfolding(crate::specs::Values::wrong_day))]
fn wrong_day(parts: Parts, date: Date) -> Option<Field>
    ensures { result ≡ wrong_day parts date }
{
    if !fits(parts.month, u8::from(date.month()) as u32) {
        return Some(Field::Month);
    }
    if !fits(parts.day, date.day() as u32) {
        return Some(Field::Day);
    }
    if !fits(parts.ordinal, date.ordinal() as u32) {
        return Some(Field::Ordinal);
    }
    if !fits(
        parts.weekday,
        date.weekday().number_days_from_monday() as u32,
    ) {
        return Some(Field::Weekday);
    }
    None
}

// The first week that is not that of this date.
#[tactic(auto, unfolding(crate::specs::Values::wrong_week))]
fn wrong_week(parts: Parts, date: Date) -> Option<Field>
    ensures { result ≡ wrong_week parts date }
{
    if !fits(parts.iso_week, date.iso_week() as u32) {
        return Some(Field::IsoWeek);
    }
    if !fits(parts.sunday_week, date.sunday_based_week() as u32) {
        return Some(Field::SundayWeek);
    }
    if !fits(parts.monday_week, date.monday_based_week() as u32) {
        return Some(Field::MondayWeek);
    }
    None
}

//! The dates of a day of the week before and after a date.
ghost use Rattle.std.specs.Prelude.{◌≡◌, ◌<◌, ◌≤◌, ◌+◌, ◌*◌, ◌%◌, ◌-◌, ◌+ℤ◌, ◌-ℤ◌, ◌≤ℤ◌, ◌<ℤ◌, pos, None, IfSome};
ghost use Rattle.calendar_values.specs.Occurrences.{days_to_weekday, next_occurrence, prev_occurrence, nth_next_occurrence, nth_prev_occurrence};
ghost use Rattle.calendar_values.specs.Range.{IsDay, SomeDay};
ghost use Rattle.calendar_values.specs.Weekday.{weekday_number};
ghost use Rattle.calendar_values.specs.Weeks.{weekday_of};

use crate::{Date, Weekday};

impl Date {
    /// The first date after this one on a day of the week. None if out of range.
    ///
    /// ```
    /// let wednesday = Date::from_calendar_date(2023, Month::June, 28)?;
    /// assert_eq!(rt;
    ///     wednesday.checked_next_occurrence(Weekday::Monday),
    ///     Some(Date::from_calendar_date(2023, Month::July, 3)?)
    /// );
    /// assert_eq!(rt; Date::MAX.checked_next_occurrence(Weekday::Monday), None);
    /// ```
    #[tactic(auto, using(crate::proofs::OccurrenceLemmas::occurrences))]
    pub fn checked_next_occurrence(self, weekday: Weekday) -> Option<Date>
        ensures value { SomeDay result (next_occurrence self (weekday_number weekday)) }
        ensures later { IfSome result (λ next. self <ℤ next) }
        ensures soon { IfSome result (λ next. next ≤ℤ (self +ℤ pos 7)) }
        ensures weekday { IfSome result (λ next. weekday_of next ≡ weekday_number weekday) }
    {
        self.days_later(days_to_weekday(self.weekday(), weekday) as u16)
    }

    /// The last date before this one on a day of the week. None if out of range.
    ///
    /// ```
    /// let wednesday = Date::from_calendar_date(2023, Month::June, 28)?;
    /// assert_eq!(rt;
    ///     wednesday.checked_prev_occurrence(Weekday::Monday),
    ///     Some(Date::from_calendar_date(2023, Month::June, 26)?)
    /// );
    /// assert_eq!(rt; Date::MIN.checked_prev_occurrence(Weekday::Monday), None);
    /// ```
    #[tactic(auto, using(crate::proofs::OccurrenceLemmas::occurrences))]
    pub fn checked_prev_occurrence(self, weekday: Weekday) -> Option<Date>
        ensures value { SomeDay result (prev_occurrence self (weekday_number weekday)) }
        ensures earlier { IfSome result (λ previous. previous <ℤ self) }
        ensures near { IfSome result (λ previous. self ≤ℤ (previous +ℤ pos 7)) }
        ensures weekday { IfSome result (λ previous. weekday_of previous ≡ weekday_number weekday) }
    {
        self.days_earlier(days_to_weekday(weekday, self.weekday()) as u16)
    }

    /// The date of the nth day of the week after this one, counted from 1. None if out of range,
    /// and for 0.
    ///
    /// ```
    /// let wednesday = Date::from_calendar_date(2023, Month::June, 28)?;
    /// assert_eq!(rt;
    ///     wednesday.checked_nth_next_occurrence(Weekday::Monday, 2),
    ///     Some(Date::from_calendar_date(2023, Month::July, 10)?)
    /// );
    /// assert_eq!(rt; wednesday.checked_nth_next_occurrence(Weekday::Monday, 0), None);
    /// ```
    #[tactic(auto, using(crate::proofs::OccurrenceLemmas::occurrences))]
    pub fn checked_nth_next_occurrence(self, weekday: Weekday, n: u8) -> Option<Date>
        ensures zero { n ≡ 0 → result ≡ None }
        ensures value { 1 ≤ n → SomeDay result
            (nth_next_occurrence self (weekday_number weekday) n) }
        ensures after_the_one_before { IfSome result (λ next. (self +ℤ pos (7 * (n - 1))) <ℤ next) }
        ensures within { IfSome result (λ next. next ≤ℤ (self +ℤ pos (7 * n))) }
        ensures weekday { IfSome result (λ next. weekday_of next ≡ weekday_number weekday) }
    {
        if n == 0 {
            return None;
        }
        self.days_later(days_to_nth(self.weekday(), weekday, n))
    }

    /// The date of the nth day of the week before this one, counted from 1. None if out of range,
    /// and for 0.
    ///
    /// ```
    /// let wednesday = Date::from_calendar_date(2023, Month::June, 28)?;
    /// assert_eq!(rt;
    ///     wednesday.checked_nth_prev_occurrence(Weekday::Monday, 2),
    ///     Some(Date::from_calendar_date(2023, Month::June, 19)?)
    /// );
    /// assert_eq!(rt; wednesday.checked_nth_prev_occurrence(Weekday::Monday, 0), None);
    /// ```
    #[tactic(auto, using(crate::proofs::OccurrenceLemmas::occurrences))]
    pub fn checked_nth_prev_occurrence(self, weekday: Weekday, n: u8) -> Option<Date>
        ensures zero { n ≡ 0 → result ≡ None }
        ensures value { 1 ≤ n → SomeDay result
            (nth_prev_occurrence self (weekday_number weekday) n) }
        ensures before_the_one_after { IfSome result (λ previous.
            (previous +ℤ pos (7 * (n - 1))) <ℤ self) }
        ensures within { IfSome result (λ previous. self ≤ℤ (previous +ℤ pos (7 * n))) }
        ensures weekday { IfSome result (λ previous. weekday_of previous ≡ weekday_number weekday) }
    {
        if n == 0 {
            return None;
        }
        self.days_earlier(days_to_nth(weekday, self.weekday(), n))
    }

    /// As [`Date::checked_next_occurrence`], of a date that is in range. The caller proves that it
    /// is.
    ///
    /// ```
    /// let wednesday = Date::from_calendar_date(2023, Month::June, 28)?;
    /// assert_eq!(rt;
    ///     wednesday.next_occurrence(Weekday::Monday),
    ///     Date::from_calendar_date(2023, Month::July, 3)?
    /// );
    /// ```
    pub fn next_occurrence(self, weekday: Weekday) -> Date
        requires { IsDay (next_occurrence self (weekday_number weekday)) }
        ensures value { result ≡ next_occurrence self (weekday_number weekday) }
        ensures later { self <ℤ result }
        ensures soon { result ≤ℤ (self +ℤ pos 7) }
        ensures weekday { weekday_of result ≡ weekday_number weekday }
    {
        self.checked_next_occurrence(weekday).unwrap()
    }

    /// As [`Date::checked_prev_occurrence`], of a date that is in range. The caller proves that it
    /// is.
    ///
    /// ```
    /// let wednesday = Date::from_calendar_date(2023, Month::June, 28)?;
    /// assert_eq!(rt;
    ///     wednesday.prev_occurrence(Weekday::Monday),
    ///     Date::from_calendar_date(2023, Month::June, 26)?
    /// );
    /// ```
    pub fn prev_occurrence(self, weekday: Weekday) -> Date
        requires { IsDay (prev_occurrence self (weekday_number weekday)) }
        ensures value { result ≡ prev_occurrence self (weekday_number weekday) }
        ensures earlier { result <ℤ self }
        ensures near { self ≤ℤ (result +ℤ pos 7) }
        ensures weekday { weekday_of result ≡ weekday_number weekday }
    {
        self.checked_prev_occurrence(weekday).unwrap()
    }

    /// As [`Date::checked_nth_next_occurrence`], of a number above 0 and a date that is in range.
    /// The caller proves both.
    ///
    /// ```
    /// let wednesday = Date::from_calendar_date(2023, Month::June, 28)?;
    /// assert_eq!(rt;
    ///     wednesday.nth_next_occurrence(Weekday::Monday, 2),
    ///     Date::from_calendar_date(2023, Month::July, 10)?
    /// );
    /// ```
    pub fn nth_next_occurrence(self, weekday: Weekday, n: u8) -> Date
        requires counted { 1 ≤ n }
        requires in_range { IsDay (nth_next_occurrence self (weekday_number weekday) n) }
        ensures value { result ≡ nth_next_occurrence self (weekday_number weekday) n }
        ensures weekday { weekday_of result ≡ weekday_number weekday }
    {
        self.checked_nth_next_occurrence(weekday, n).unwrap()
    }

    /// As [`Date::checked_nth_prev_occurrence`], of a number above 0 and a date that is in range.
    /// The caller proves both.
    ///
    /// ```
    /// let wednesday = Date::from_calendar_date(2023, Month::June, 28)?;
    /// assert_eq!(rt;
    ///     wednesday.nth_prev_occurrence(Weekday::Monday, 2),
    ///     Date::from_calendar_date(2023, Month::June, 19)?
    /// );
    /// ```
    pub fn nth_prev_occurrence(self, weekday: Weekday, n: u8) -> Date
        requires counted { 1 ≤ n }
        requires in_range { IsDay (nth_prev_occurrence self (weekday_number weekday) n) }
        ensures value { result ≡ nth_prev_occurrence self (weekday_number weekday) n }
        ensures weekday { weekday_of result ≡ weekday_number weekday }
    {
        self.checked_nth_prev_occurrence(weekday, n).unwrap()
    }

    fn days_later(self, days: u16) -> Option<Date>
        ensures { SomeDay result (self +ℤ pos days) }
    {
        self.checked_add_days(days as i64)
    }

    #[tactic(auto, using(crate::specs::SignedArith::signed_casts))]
    fn days_earlier(self, days: u16) -> Option<Date>
        ensures { SomeDay result (self -ℤ pos days) }
    {
        self.checked_add_days(-(days as i64))
    }
}

// How many days it is from a day of the week to the next of another, or to the next of its own.
#[tactic(auto, unfolding(crate::specs::Occurrences::days_to_weekday))]
fn days_to_weekday(from: Weekday, to: Weekday) -> u8
    ensures value { result ≡ days_to_weekday (weekday_number from) (weekday_number to) }
    ensures some { 1 ≤ result }
    ensures few { result ≤ 7 }
    ensures there { (weekday_number from + result) % 7 ≡ weekday_number to }
{
    let from = from.number_days_from_monday();
    let to = to.number_days_from_monday();
    if from < to { to - from } else { to + 7 - from }
}

// The same to the nth such day.
fn days_to_nth(from: Weekday, to: Weekday, n: u8) -> u16
    requires { 1 ≤ n }
    ensures value { result ≡
        days_to_weekday (weekday_number from) (weekday_number to) + 7 * (n - 1) }
    ensures some { 7 * (n - 1) < result }
    ensures few { result ≤ 7 * n }
    ensures there { (weekday_number from + result) % 7 ≡ weekday_number to }
{
    days_to_weekday(from, to) as u16 + 7 * (n as u16 - 1)
}

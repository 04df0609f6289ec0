//! Shares of a price by the days of a period.
ghost use Rattle.std.specs.Prelude.{◌≡◌, ◌*◌, ◌/◌, ◌-◌, ◌<◌, ◌≤◌};
ghost use Rattle.calendar_values.specs.Calendar.{days_in_month, is_leap_year, year_of, month_of, day_of_month_of};

use calendar_values::{Date, days_in_month};

/// The share of a price, in cents, for some days of a period, rounded down.
pub fn share(price: u64, days: u16, length: u16) -> u64
    requires some { 0 < length }
    requires within { days ≤ length }
    ensures value { result ≡ price * days / length }
    ensures at_most { result ≤ price }
{
    (u128::from(price) * u128::from(days) / u128::from(length)) as u64
}

/// The price without that share.
pub fn rest(price: u64, days: u16, length: u16) -> u64
    requires some { 0 < length }
    requires within { days ≤ length }
    ensures { result ≡ price - price * days / length }
{
    price - share(price, days, length)
}

/// The share of a month's price for its days up to the date.
pub fn share_of_month(price: u64, date: Date) -> u64
    ensures value { result ≡ price * day_of_month_of date /
        days_in_month (is_leap_year (year_of date)) (month_of date) }
    ensures at_most { result ≤ price }
{
    let length = days_in_month(date.year(), date.month());
    share(price, u16::from(date.day()), u16::from(length))
}

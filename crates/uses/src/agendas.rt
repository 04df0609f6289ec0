//! Pages of an agenda.
#![tactic(auto, using(local_texts::specs::Callers::callers))]

ghost use Rattle.std.specs.Prelude.{◌≡◌, ◌≤ℤ◌};
ghost use Rattle.local_texts.specs.Words.{day_of_month_of, month_of, year_of};

use calendar_values::Date;

/// The day that the page of a date begins with: the first of its month.
pub fn first_of_page(date: Date) -> Date
    ensures day { day_of_month_of result ≡ 1 }
    ensures month { month_of result ≡ month_of date }
    ensures year { year_of result ≡ year_of date }
    ensures not_later { result ≤ℤ date }
{
    date.replace_day(1).unwrap()
}

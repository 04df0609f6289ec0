//! Names of months, of days of the week and of halves of the day.
ghost use Rattle.std.specs.Prelude.{◌≡◌, ◌≤◌, ◌<◌, length, IsAscii};
ghost use Rattle.format_descriptions.specs.Names.{name_of_month, name_of_weekday};
ghost use Rattle.format_descriptions.specs.Written.{name_in_form, period_text};

use crate::{Case, NameForm};

// The letters of the name of a month, by its number.
#[tactic(auto, unfolding(crate::specs::Names::month_of_number))]
pub(crate) fn month_word(form: NameForm, month: u8) -> &'static [u8]
    requires { (1 ≤ month) × (month ≤ 12) }
    ensures text { result.now ≡ name_in_form form (name_of_month month) }
    ensures ascii { IsAscii result.now }
    ensures length { length result.now ≤ 9 }
{
    let name: &'static [u8] = match month {
        1 => b"January",
        2 => b"February",
        3 => b"March",
        4 => b"April",
        5 => b"May",
        6 => b"June",
        7 => b"July",
        8 => b"August",
        9 => b"September",
        10 => b"October",
        11 => b"November",
        _ => b"December",
    };
    name_in_form(form, name)
}

// The letters of the name of a day of the week, by its number, 0 for Monday.
#[tactic(auto, unfolding(crate::specs::Names::weekday_of_number))]
pub(crate) fn weekday_word(form: NameForm, weekday: u8) -> &'static [u8]
    requires { weekday < 7 }
    ensures text { result.now ≡ name_in_form form (name_of_weekday weekday) }
    ensures ascii { IsAscii result.now }
    ensures length { length result.now ≤ 9 }
{
    let name: &'static [u8] = match weekday {
        0 => b"Monday",
        1 => b"Tuesday",
        2 => b"Wednesday",
        3 => b"Thursday",
        4 => b"Friday",
        5 => b"Saturday",
        _ => b"Sunday",
    };
    name_in_form(form, name)
}

// A name, or its first three letters.
fn name_in_form(form: NameForm, name: &'static [u8]) -> &'static [u8]
    requires ascii { IsAscii name.now }
    requires length { length name.now ≤ 9 }
    ensures text { result.now ≡ name_in_form form name.now }
    ensures ascii { IsAscii result.now }
    ensures length { length result.now ≤ 9 }
{
    match form {
        NameForm::Long => name,
        NameForm::Short => &name[..name.len().min(3)],
    }
}

// The word for the half of the day.
#[tactic(auto, unfolding(crate::specs::Written::period_text))]
pub(crate) fn period_word(case: Case, hour: u8) -> &'static [u8]
    ensures text { result.now ≡ period_text case hour }
    ensures ascii { IsAscii result.now }
    ensures length { length result.now ≤ 2 }
{
    match (case, hour < 12) {
        (Case::Upper, true) => b"AM",
        (Case::Upper, false) => b"PM",
        (Case::Lower, true) => b"am",
        (Case::Lower, false) => b"pm",
    }
}

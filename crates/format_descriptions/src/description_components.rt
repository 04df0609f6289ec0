//! The components that descriptions name.
ghost use Rattle.std.specs.Prelude.{◌≡◌};
ghost use Rattle.format_descriptions.specs.DescriptionComponents.{component_of, year_of, month_of};
ghost use Rattle.format_descriptions.specs.DescriptionComponents.{weekday_of, week_of, hour_of};

use crate::Component;
use crate::description_modifiers::Modifiers;
use crate::description_names::Name;
use crate::description_values::Repr;
use crate::modifiers::{NameForm, WeekRule, WeekStart};

// The component of a name and its modifiers. None where it lacks one that it needs.
#[tactic(auto, unfolding(crate::specs::DescriptionComponents::component_of))]
pub(crate) fn component_of(name: Name, modifiers: Modifiers) -> Option<Component>
    ensures { result ≡ component_of name modifiers }
{
    match name {
        Name::Year => Some(year_of(modifiers)),
        Name::Month => Some(month_of(modifiers)),
        Name::Day => Some(Component::Day(modifiers.padding)),
        Name::Ordinal => Some(Component::Ordinal(modifiers.padding)),
        Name::Weekday => Some(weekday_of(modifiers)),
        Name::WeekNumber => Some(week_of(modifiers)),
        Name::Hour => Some(hour_of(modifiers)),
        Name::Minute => Some(Component::Minute(modifiers.padding)),
        Name::Period => Some(Component::Period(modifiers.case, modifiers.read_case)),
        Name::Second => Some(Component::Second(modifiers.padding)),
        Name::Subsecond => Some(Component::Subsecond(modifiers.digits)),
        Name::OffsetHour => Some(Component::OffsetHour(modifiers.sign, modifiers.padding)),
        Name::OffsetMinute => Some(Component::OffsetMinute(modifiers.padding)),
        Name::OffsetSecond => Some(Component::OffsetSecond(modifiers.padding)),
        Name::UnixTimestamp => Some(Component::UnixTimestamp(modifiers.precision, modifiers.sign)),
        Name::Ignore => match modifiers.count {
            Some(count) => Some(Component::Ignore(count)),
            None => None,
        },
        Name::End => Some(Component::End),
    }
}

// A year, in its form.
fn year_of(modifiers: Modifiers) -> Component
    ensures { result ≡ year_of modifiers modifiers.repr }
{
    let Modifiers {
        base,
        sign,
        padding,
        range,
        ..
    } = modifiers;
    match modifiers.repr {
        Some(Repr::Century) => Component::YearCentury(base, sign, padding, range),
        Some(Repr::LastTwo) => Component::YearLastTwo(base, padding),
        _ => Component::Year(base, sign, padding, range),
    }
}

// A month, in its form.
fn month_of(modifiers: Modifiers) -> Component
    ensures { result ≡ month_of modifiers modifiers.repr }
{
    match modifiers.repr {
        Some(Repr::Long) => Component::MonthName(NameForm::Long, modifiers.read_case),
        Some(Repr::Short) => Component::MonthName(NameForm::Short, modifiers.read_case),
        _ => Component::Month(modifiers.padding),
    }
}

// A day of the week, in its form.
fn weekday_of(modifiers: Modifiers) -> Component
    ensures { result ≡ weekday_of modifiers modifiers.repr }
{
    match modifiers.repr {
        Some(Repr::Short) => Component::WeekdayName(NameForm::Short, modifiers.read_case),
        Some(Repr::Sunday) => Component::WeekdayNumber(WeekStart::Sunday, modifiers.first_number),
        Some(Repr::Monday) => Component::WeekdayNumber(WeekStart::Monday, modifiers.first_number),
        _ => Component::WeekdayName(NameForm::Long, modifiers.read_case),
    }
}

// A week of the year, by its rule.
fn week_of(modifiers: Modifiers) -> Component
    ensures { result ≡ week_of modifiers modifiers.repr }
{
    match modifiers.repr {
        Some(Repr::Sunday) => Component::WeekNumber(WeekRule::Sunday, modifiers.padding),
        Some(Repr::Monday) => Component::WeekNumber(WeekRule::Monday, modifiers.padding),
        _ => Component::WeekNumber(WeekRule::Iso, modifiers.padding),
    }
}

// An hour, by its clock.
fn hour_of(modifiers: Modifiers) -> Component
    ensures { result ≡ hour_of modifiers modifiers.repr }
{
    match modifiers.repr {
        Some(Repr::Twelve) => Component::Hour12(modifiers.padding),
        _ => Component::Hour(modifiers.padding),
    }
}

//! The parts that a form lacks.
ghost use Rattle.std.specs.Prelude.{◌≡◌};
ghost use Rattle.log_forms.specs.Lacking.{any_offset, any_year, gives_offset, gives_year, lacks_offset, lacks_year};

use crate::form::Form;
use format_descriptions::{Component, Item};

/// Whether no item of a form gives an offset or a Unix timestamp.
pub fn lacks_offset(form: &Form) -> bool
    ensures { result ≡ lacks_offset form.now.items }
{
    !any_offset(form.items.items())
}

/// Whether no item of a form gives a whole year or a Unix timestamp.
pub fn lacks_year(form: &Form) -> bool
    ensures { result ≡ lacks_year form.now.items }
{
    !any_year(form.items.items())
}

// Whether one of the items gives an offset or a Unix timestamp.
#[tactic(auto, unfolding(crate::specs::Lacking::any_offset))]
fn any_offset(items: &[Item]) -> bool
    ensures { result ≡ any_offset items.now }
{
    match items.split_first() {
        Some((item, items)) => gives_offset(*item) || any_offset(items),
        None => false,
    }
}

// Whether one of the items gives a whole year or a Unix timestamp.
#[tactic(auto, unfolding(crate::specs::Lacking::any_year))]
fn any_year(items: &[Item]) -> bool
    ensures { result ≡ any_year items.now }
{
    match items.split_first() {
        Some((item, items)) => gives_year(*item) || any_year(items),
        None => false,
    }
}

// Whether an item gives an offset or a Unix timestamp.
fn gives_offset(item: Item) -> bool
    ensures { result ≡ gives_offset item }
{
    matches!(
        item,
        Item::Part(
            Component::OffsetHour(_, _)
                | Component::OffsetWord(_, _)
                | Component::UnixTimestamp(_, _)
        )
    )
}

// Whether an item gives a whole year or a Unix timestamp.
fn gives_year(item: Item) -> bool
    ensures { result ≡ gives_year item }
{
    matches!(
        item,
        Item::Part(
            Component::Year(_, _, _, _)
                | Component::YearCentury(_, _, _, _)
                | Component::YearSince(_)
                | Component::YearSix(_)
                | Component::UnixTimestamp(_, _)
        )
    )
}

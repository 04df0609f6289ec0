//! A form: the items of a stamp, and what is before it.
ghost use Rattle.std.specs.Prelude.{◌≡◌, ◌≤◌, length};
ghost use Rattle.log_forms.specs.Forms.{form_named, form_of};

use crate::names::{FormName, ahead_of, digits_of, items_of, lead_of};
use format_descriptions::Item;
use line_devices::table::Table;

/// The most items of a form.
pub const MOST_ITEMS: usize = 64;

// The most items before a stamp.
const MOST_LEAD: usize = 8;

/// The items of a form.
pub type Items = Table<Item, MOST_ITEMS>;

/// A form of stamps.
#[derive(Drop)]
pub struct Form {
    /// The items before a stamp, which are no part of it.
    pub lead: Table<Item, MOST_LEAD>,
    /// The items of a stamp.
    pub items: Items,
    /// How many of these items are before the digits that are counted.
    pub ahead: usize,
    /// The number of digits that a text must have there, if they are counted.
    pub digits: Option<usize>,
}

/// The form of a name.
pub fn named_form(name: FormName) -> Form
    ensures { result ≡ form_named name }
{
    Form {
        lead: table_of(lead_of(name)),
        items: items_table(items_of(name)),
        ahead: ahead_of(name),
        digits: digits_of(name),
    }
}

/// The form of these items, with nothing before a stamp. No digits are counted.
pub fn own_form(items: &[Item]) -> Form
    requires { length items.now ≤ 64 }
    ensures { result ≡ form_of items.now }
{
    Form {
        lead: table_of(&[]),
        items: items_table(items),
        ahead: 0,
        digits: None,
    }
}

// A table of the items before a stamp.
fn table_of(items: &[Item]) -> Table<Item, MOST_LEAD>
    requires { length items.now ≤ 8 }
    ensures { result ≡ items.now }
{
    let mut table = Table::new(Item::Byte(0));
    table.push_all(items);
    table
}

// A table of the items of a stamp.
fn items_table(items: &[Item]) -> Items
    requires { length items.now ≤ 64 }
    ensures { result ≡ items.now }
{
    let mut table = Table::new(Item::Byte(0));
    table.push_all(items);
    table
}

//! Descriptions that are put together, in a table of fixed size.
ghost use Rattle.std.specs.Prelude.{◌≡◌, ◌+◌, ◌≤◌, take, List, [], ◌++◌, length};
ghost use Rattle.format_descriptions.specs.declared.item.Item.{Item};

use crate::Item;
use std::marker::Model;

// The most items that a description has.
const CAPACITY: usize = 20;

/// A description of at most 20 items. A contract sees the list of its items.
#[derive(Clone, Drop)]
pub struct Description {
    items: [Item; CAPACITY],
    len: usize,
}

impl Model for Description {
    ghost use Rattle.std.specs.Prelude.{◌≤◌, List, take};
    ghost use Rattle.format_descriptions.specs.declared.item.Item.{Item};

    ghost Value = { List Item };

    ghost view = { λ d. take d.len d.items };

    ghost invariant = { λ d. d.len ≤ 20 };
}

impl Description {
    // No items.
    pub(crate) fn new() -> Description
        ensures { result ≡ [] }
    {
        Description {
            items: [Item::Byte(0); CAPACITY],
            len: 0,
        }
    }

    // Adds items.
    pub(crate) fn push(&mut self, items: &[Item])
        requires room { length self.old + length items.now ≤ 20 }
        ensures value { self.new ≡ self.old ++ items.now }
        ensures length { length self.new ≡ length self.old + length items.now }
    {
        let end = self.len + items.len();
        self.items[self.len..end].copy_from_slice(items);
        self.len = end;
    }

    /// The items.
    ///
    /// ```
    /// use format_descriptions::Iso8601;
    /// assert_eq!(rt; Iso8601::DEFAULT.description(false).items().len(), 16);
    /// ```
    pub fn items(&self) -> &[Item]
        ensures items { result.now ≡ self.now }
        ensures at_most { length result.now ≤ 20 }
    {
        &self.items[..self.len]
    }
}

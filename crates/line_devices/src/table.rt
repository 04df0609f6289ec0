//! Items in a table of fixed size.
ghost use Rattle.std.specs.Prelude.{◌≡◌, ◌+◌, ◌≤◌, ◌<◌, ◌↔◌, IsTrue, [], ◌∷◌, ◌++◌, length, take};

use std::marker::Model;

/// At most `ROOM` items. A contract sees the list of them.
#[derive(Drop)]
pub struct Table<T: Copy, const ROOM: usize> {
    items: [T; ROOM],
    len: usize,
}

impl<T: Copy, const ROOM: usize> Model for Table<T, ROOM> {
    ghost use Rattle.std.specs.Prelude.{◌≤◌, List, take};

    ghost Value = { List T };

    ghost view = { λ table. take table.len table.items };

    ghost invariant = { λ table. table.len ≤ ROOM };
}

impl<T: Copy, const ROOM: usize> Table<T, ROOM> {
    /// No items. The argument fills the room of later items.
    pub fn new(fill: T) -> Self
        ensures { result ≡ [] }
    {
        Table {
            items: [fill; ROOM],
            len: 0,
        }
    }

    /// Whether it has no items.
    pub fn is_empty(&self) -> bool
        ensures { IsTrue result ↔ (self.now ≡ []) }
    {
        self.len == 0
    }

    /// The number of items that it has room for, without those that it has.
    pub fn room(&self) -> usize
        ensures { length self.now + result ≡ ROOM }
    {
        ROOM - self.len
    }

    /// The items.
    pub fn items(&self) -> &[T]
        ensures value { result.now ≡ self.now }
        ensures length { length result.now ≤ ROOM }
    {
        &self.items[..self.len]
    }

    /// Forgets all items.
    pub fn clear(&mut self)
        ensures { self.new ≡ [] }
    {
        self.len = 0;
    }

    /// Adds an item.
    pub fn push(&mut self, item: T)
        requires { length self.old < ROOM }
        ensures { self.new ≡ self.old ++ item ∷ [] }
    {
        self.items[self.len] = item;
        self.len += 1;
    }

    /// Adds items.
    pub fn push_all(&mut self, items: &[T])
        requires { length self.old + length items.now ≤ ROOM }
        ensures { self.new ≡ self.old ++ items.now }
    {
        let end = self.len + items.len();
        let table = &mut self.items[..];
        table[self.len..end].copy_from_slice(items);
        self.len = end;
    }

    /// Adds items as far as there is room.
    pub fn push_front_of(&mut self, items: &[T])
        ensures { self.new ≡ take ROOM (self.old ++ items.now) }
    {
        let room = self.room();
        if items.len() <= room {
            self.push_all(items);
        } else {
            self.push_all(&items[..room]);
        }
    }
}

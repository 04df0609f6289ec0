//! The items of a description.
ghost use Rattle.std.specs.Prelude.{◌≡◌, ◌≤◌, length, drop};
ghost use Rattle.format_descriptions.specs.Groups.{size_of, is_other, fault_after};

use crate::Component;

/// An item of a description. A description is a slice of items.
///
/// `Optional`, `First` and `Or` are heads of groups: each counts the items after it that belong to
/// its group. A count that goes past the end counts up to the end. The count of a group in a group
/// goes up to the end of the outer one.
#[derive(Clone, Copy, Debug, PartialEq, Eq)]
pub enum Item {
    /// A byte that is written as it is.
    Byte(u8),
    /// A part of the value.
    Part(Component),
    /// A group that a text need not have. It is always written. Where a text does not have all its
    /// items, none of them is read.
    Optional(usize),
    /// A group, in place of which a text can have one of the `Or` groups directly after it. It is
    /// written, and those are not. The first of all these groups that a text has is read.
    First(usize),
    /// Another group in place of the `First` before it.
    Or(usize),
}

// How many items belong to the group of this head. None of an item that is no head.
pub(crate) fn size_of(item: Item) -> Option<usize>
    ensures { result ≡ size_of item }
{
    match item {
        Item::Byte(_) | Item::Part(_) => None,
        Item::Optional(size) | Item::First(size) | Item::Or(size) => Some(size),
    }
}

// Whether this is the head of a group in place of another.
pub(crate) fn is_other(item: Item) -> bool
    ensures { result ≡ is_other item }
{
    match item {
        Item::Or(_) => true,
        Item::Byte(_) | Item::Part(_) | Item::Optional(_) | Item::First(_) => false,
    }
}

// The fault that waits for another group, after one that could not be read.
pub(crate) fn fault_after(item: Item, earlier: Option<usize>, left: usize) -> Option<usize>
    ensures { result ≡ fault_after item earlier left }
{
    match item {
        Item::First(_) => Some(left),
        Item::Byte(_) | Item::Part(_) | Item::Optional(_) | Item::Or(_) => earlier,
    }
}

// The items after this number of them.
pub(crate) fn behind(count: usize, items: &[Item]) -> &[Item]
    ensures items { result.now ≡ drop count items.now }
    ensures shorter { length result.now ≤ length items.now }
{
    if count < items.len() {
        &items[count..]
    } else {
        &[]
    }
}

//! Descriptions that are stored as texts, and read back.
ghost use Rattle.std.specs.Prelude.{◌≡◌, ◌≤◌, ◌++◌, ℕ, List, Ok, Some, IfNone, IfSome, drop, length};
ghost use Rattle.format_descriptions.specs.DescriptionTexts.{description_source};
ghost use Rattle.format_descriptions.specs.declared.description_steps.DescriptionVersion.TheVariants.{Two};
ghost use Rattle.format_descriptions.specs.declared.item.Item.{Item};

use format_descriptions::laws::written_descriptions_read_back;
use format_descriptions::{DescriptionVersion, Item, parse_description, write_description};

/// The number of bytes of the text of the items, which the room has then at its front. None where
/// the items have no text, or the room is too short: then the room is as before.
pub fn store(items: &[Item], room: &mut [u8]) -> Option<usize>
    ensures stored { IfSome result (λ count. (text : List ℕ) ×
        (description_source Two (length room.old) items.now ≡ Ok text) ×
        (length text ≡ count) × (room.new ≡ text ++ drop count room.old)) }
    ensures kept { IfNone result (room.new ≡ room.old) }
{
    match write_description(DescriptionVersion::Two, items, room) {
        Ok(count) => Some(count),
        Err(_) => None,
    }
}

/// The number of the items of a text: where it was stored, those that were stored, and the places
/// have them at their front.
pub fn restore(text: &[u8], places: &mut [Item]) -> Option<usize>
    ensures count { (items : List Item) (room : ℕ) →
        description_source Two room items ≡ Ok text.now → length items ≤ length places.old →
        result ≡ Some (length items) }
    ensures items { (items : List Item) (room : ℕ) →
        description_source Two room items ≡ Ok text.now → length items ≤ length places.old →
        places.new ≡ items ++ drop (length items) places.old }
{
    written_descriptions_read_back();
    match parse_description(DescriptionVersion::Two, text, places) {
        Ok(count) => Some(count),
        Err(_) => None,
    }
}

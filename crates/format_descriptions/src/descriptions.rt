//! Descriptions that texts give.
ghost use Rattle.std.specs.Prelude.{◌≡◌, ◌++◌, ◌-◌, ℕ, List, Ok, Err, length, drop, IfOk, IfErr};
ghost use Rattle.std.specs.Result.{result_map_both};
ghost use Rattle.format_descriptions.specs.Descriptions.{items_of_description, first_items, refusal_of};
ghost use Rattle.format_descriptions.specs.declared.item.Item.{Item};

use crate::description_groups::{at_front, group_fault_at_end, group_step};
use crate::description_steps::DescriptionVersion;
use crate::{DescriptionFault, DescriptionRefusal, Item};

/// How many items a text has as a description. They are put at the front of `room`, whose others do
/// not change. Else why the text is no description, and where: its first fault, which `NoRoom` is
/// too. Then the front of `room` has the items before the fault.
///
/// ```
/// use format_descriptions::{DescriptionVersion, Item, parse_description};
/// let mut room = [Item::Byte(0); 4];
/// assert_eq!(rt; parse_description(DescriptionVersion::Two, b"[hour]h", &mut room), Ok(2));
/// assert_eq!(rt; room[1], Item::Byte(b'h'));
/// let wrong = parse_description(DescriptionVersion::Two, b"[hours]", &mut room);
/// assert_eq!(rt; wrong.is_err(), true);
/// ```
pub fn parse_description(
    version: DescriptionVersion,
    text: &[u8],
    room: &mut [Item],
) -> Result<usize, DescriptionRefusal>
    ensures count { result ≡ result_map_both (λ items. length items) (refusal_of text.now)
        (items_of_description version (length room.old) text.now) }
    ensures items { IfOk (items_of_description version (length room.old) text.now)
        (λ items. room.new ≡ items ++ drop (length items) room.old) }
    ensures room { let first = first_items version (length room.old) text.now in
        room.new ≡ first ++ drop (length first) room.old }
    // What the text says, by the result.
    ensures read { IfOk result (λ count. (items : List Item) ×
        (items_of_description version (length room.old) text.now ≡ Ok items) ×
        (length items ≡ count) × (room.new ≡ items ++ drop count room.old)) }
    ensures refused { IfErr result (λ refusal. (left : ℕ) ×
        (items_of_description version (length room.old) text.now ≡ Err (refusal.fault, left)) ×
        (refusal.place ≡ length text.now - left)) }
{
    let mut state = at_front();
    let mut rest = text;
    let mut count = 0;
    while let Some((first, more)) = rest.split_first() {
        let (next, item) = match group_step(version, state, *first, rest, more) {
            Ok(read) => read,
            Err(fault) => return Err(refusal(text, fault)),
        };
        if let Some(item) = item {
            if count >= room.len() {
                return Err(refusal(text, (DescriptionFault::NoRoom, rest.len())));
            }
            room[count] = item;
            count += 1;
        }
        state = next;
        rest = more;
    }
    match group_fault_at_end(state) {
        Some(fault) => Err(refusal(text, fault)),
        None => Ok(count),
    }
}

// A fault by its place from the front.
fn refusal(text: &[u8], fault: (DescriptionFault, usize)) -> DescriptionRefusal
    ensures { result ≡ refusal_of text.now fault }
{
    let (fault, left) = fault;
    DescriptionRefusal {
        place: text.len().saturating_sub(left),
        fault,
    }
}

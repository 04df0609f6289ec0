//! Forms of a user's own, by descriptions.
ghost use Rattle.std.specs.Prelude.{◌≡◌};
ghost use Rattle.std.specs.Result.{result_map_both};
ghost use Rattle.format_descriptions.specs.Descriptions.{items_of_description, refusal_of};
ghost use Rattle.format_descriptions.specs.declared.description_steps.DescriptionVersion.TheVariants.{Two};
ghost use Rattle.log_forms.specs.Forms.{form_of};

use crate::form::{Form, MOST_ITEMS, own_form};
use format_descriptions::{DescriptionRefusal, DescriptionVersion, Item, parse_description};

/// The form of a description, as `[day]/[month repr:short]/[year]`. Fails with the first fault of a
/// text that is no description. `NoRoom` is that of one with more than 64 items.
pub fn described_form(text: &[u8]) -> Result<Form, DescriptionRefusal>
    ensures { result ≡ result_map_both form_of (refusal_of text.now)
        (items_of_description Two 64 text.now) }
{
    let mut room = [Item::Byte(0); MOST_ITEMS];
    match parse_description(DescriptionVersion::Two, text, &mut room) {
        Ok(count) => Ok(own_form(&room[..count])),
        Err(refusal) => Err(refusal),
    }
}

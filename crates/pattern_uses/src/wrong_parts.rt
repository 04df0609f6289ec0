//! Texts by a pattern of the program's own whose parts are no value.
ghost use Rattle.std.specs.Prelude.{◌≡◌, Ok, Err, Some, IfSome, drop, take};
ghost use Rattle.format_descriptions.specs.PartPlaces.{part_place};
ghost use Rattle.format_descriptions.specs.Read.{items_at, no_parts};
ghost use Rattle.format_descriptions.specs.Values.{date_of_parts};
ghost use Rattle.format_descriptions.specs.declared.part_places.PartPlace.{PartPlace};
ghost use Rattle.format_descriptions.specs.declared.parts.Parts.{Parts};
ghost use Rattle.format_descriptions.specs.declared.value_refusal.Field.{Field};
ghost use Rattle.format_descriptions.specs.declared.value_refusal.ValueRefusal.TheVariants.{Wrong};

use format_descriptions::{Item, ValueRefusal, parse, part_place};

/// The bytes of the part that is wrong in a date, such as the `31` of `31.04.2024`. None if the
/// text is a date, or is not written by the pattern.
pub fn wrong_part<'a>(pattern: &[Item], date: &'a [u8]) -> Option<&'a [u8]>
    ensures { IfSome result (λ bytes. (parts : Parts) × (field : Field) × (at : PartPlace) ×
        (items_at pattern.now date.now no_parts ≡ Ok parts) ×
        (date_of_parts parts ≡ Err (Wrong field)) ×
        (part_place pattern.now date.now field ≡ Some at) ×
        (bytes.now ≡ take at.length (drop at.place date.now))) }
{
    let parts = parse(pattern, date).ok()?;
    let Err(ValueRefusal::Wrong(field)) = parts.date() else {
        return None;
    };
    let at = part_place(pattern, date, field)?;
    Some(&date[at.place..at.place + at.length])
}

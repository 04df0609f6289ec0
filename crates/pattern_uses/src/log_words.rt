//! Forms and places as the words of a user name them, and what a program says of them.
ghost use Rattle.std.specs.Prelude.{◌≡◌, if◌then◌else◌, Some, None, IfSome, IfNone, IfOk, IfErr, option_map};
ghost use Rattle.format_descriptions.specs.Descriptions.{items_of_description};
ghost use Rattle.format_descriptions.specs.declared.description_steps.DescriptionVersion.TheVariants.{Two};
ghost use Rattle.format_descriptions.specs.declared.value_refusal.Field.{Field};
ghost use Rattle.format_descriptions.specs.declared.value_refusal.ValueRefusal.TheVariants.{Wrong};
ghost use Rattle.log_forms.specs.FieldNames.{field_name};
ghost use Rattle.log_forms.specs.Forms.{form_named, form_of, name_in, sample_of};
ghost use Rattle.log_forms.specs.Lacking.{lacks_year};
ghost use Rattle.log_forms.specs.ReadLaws.{place_named};
ghost use Rattle.log_forms.specs.declared.names.TheConstants.{FORMS};
ghost use Rattle.log_forms.specs.declared.stamps.StampRefusal.TheVariants.{Part};

use format_descriptions::ValueRefusal;
use log_forms::{
    Form, FormName, Place, StampRefusal, described_form, field_name, lacks_year, name_of,
    named_form, place_of, sample_of,
};

/// The form that a word names, or that a description spells. None if it is neither.
pub fn form_of_word(word: &[u8]) -> Option<Form>
    ensures named { IfSome (name_in FORMS word.now) (λ name. result ≡ Some (form_named name)) }
    ensures own { IfNone (name_in FORMS word.now)
        (IfOk (items_of_description Two 64 word.now) (λ items. result ≡ Some (form_of items))) }
    ensures neither { IfNone (name_in FORMS word.now)
        (IfErr (items_of_description Two 64 word.now) (λ fault. result ≡ None)) }
{
    match name_of(word) {
        Some(name) => Some(named_form(name)),
        None => described_form(word).ok(),
    }
}

/// The place that a word such as `json:time` names, and its text or its name. None if it names no
/// place.
pub fn place_of_word(word: &[u8]) -> Option<(Place, &[u8])>
    ensures { option_map (λ found. (found.0, found.1.now)) result ≡ place_named word.now }
{
    match place_of(word) {
        Some((place, length)) => Some((place, word.get(length..).unwrap_or(&[]))),
        None => None,
    }
}

/// The sample of a form whose stamps have no year. None if they have one.
pub fn sample_without_year(name: FormName) -> Option<&'static str>
    ensures { option_map (λ sample. sample.now) result ≡
        if lacks_year (form_named name).items then Some (sample_of name) else None }
{
    if lacks_year(&named_form(name)) {
        Some(sample_of(name))
    } else {
        None
    }
}

/// The name of the part that is out of its range in a stamp. None if the stamp fails otherwise.
pub fn wrong_part_name(refusal: StampRefusal) -> Option<&'static str>
    ensures { IfSome result (λ name. (field : Field) ×
        (refusal ≡ Part (Wrong field)) × (name.now ≡ field_name field)) }
{
    match refusal {
        StampRefusal::Part(ValueRefusal::Wrong(field)) => Some(field_name(field)),
        _ => None,
    }
}

//! Format descriptions: date-times written and read by a list of items.
#![tactic(auto, using(calendar_values::specs::Constants::constants))]

mod clock_fractions;
mod clock_values;
mod component;
mod component_texts;
mod date_time_values;
mod description;
mod description_components;
mod description_groups;
mod description_lengths;
mod description_modifiers;
mod description_names;
mod description_refusal;
mod description_steps;
mod description_texts;
mod description_values;
mod description_words;
mod descriptions;
mod fields;
mod format_refusal;
mod fractions;
mod instant_values;
mod iso8601;
mod iso8601_forms;
mod item;
mod item_refusal;
mod kept_parts;
mod kinds;
pub mod laws;
mod modifier_texts;
mod modifiers;
mod names;
mod numbers;
mod offset_values;
mod part_places;
mod parts;
mod pieces;
mod read;
mod reading;
mod rfc2822;
mod unix;
mod usual;
mod value_refusal;
mod values;
mod words;
mod write;

pub use component::Component;
pub use description::Description;
pub use description_refusal::{DescriptionFault, DescriptionRefusal};
pub use description_steps::DescriptionVersion;
pub use description_texts::write_description;
pub use descriptions::parse_description;
pub use format_refusal::FormatRefusal;
pub use iso8601::{parse_iso8601, parse_iso8601_date, parse_iso8601_time};
pub use iso8601_forms::{Iso8601, Iso8601Date, Iso8601Offset, Iso8601Time, format_iso8601};
pub use item::Item;
pub use item_refusal::{ItemFault, ItemRefusal};
pub use kinds::{format_date, format_offset, format_plain, format_time};
pub use modifiers::{
    Case, NameForm, Padding, ReadCase, Sign, SubsecondDigits, UnixPrecision, UtcWord, WeekRule,
    WeekStart, WeekdayCount, YearBase, YearRange,
};
pub use part_places::{PartPlace, part_place};
pub use parts::Parts;
pub use read::{
    parse, parse_component, parse_component_into, parse_front, parse_front_into, parse_into,
};
pub use rfc2822::{MailRefusal, format_rfc2822, parse_rfc2822, parse_rfc2822_front_into};
pub use value_refusal::{Field, ValueRefusal};
pub use write::{format, format_component, format_component_into, format_date_time};

//! Forms of stamps in logs, and where in a line a stamp is.
#![tactic(auto, using(calendar_values::specs::Constants::constants))]

mod choice;
mod ends;
mod field_names;
mod form;
mod form_items;
mod fronts;
mod instants;
mod json;
mod lacking;
pub mod laws;
mod local_forms;
mod names;
mod offset_forms;
mod own;
mod place_words;
mod places;
mod short_forms;
mod stamps;
mod years;
mod zone_words;

pub use choice::{READERS, choose, is_read_by_any, reader_form, reader_key, reader_place};
pub use ends::{opens_bracket, runs_on};
pub use field_names::field_name;
pub use form::{Form, Items, MOST_ITEMS, named_form, own_form};
pub use instants::Assumed;
pub use lacking::{lacks_offset, lacks_year};
pub use names::{CHOSEN, FORMS, FormName, form_name, name_of, sample_of};
pub use own::described_form;
pub use place_words::place_of;
pub use places::Place;
pub use stamps::{LONGEST_FRONT, Stamp, StampRefusal, stamp_at};
pub use years::assumed_after;

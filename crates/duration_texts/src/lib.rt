//! The texts of durations: one grammar, its reader, and the writers of three of its forms.
#![tactic(auto)]

mod faults;
mod iso_forms;
mod numbers;
mod pieces;
mod readings;
mod short_texts;
mod terms;
mod texts;
mod units;

pub use faults::{DurationFault, DurationRefusal};
pub use readings::parse_duration;
pub use short_texts::short_text;
pub use texts::seconds_text;

//! Texts of ISO 8601 for every date-time: a year that has no four digits has a sign and six digits,
//! and an offset can have seconds. A date-time that has a text of RFC 3339 has that text here too.
//!
//! Its grammar is that of `rfc3339` with a longer year and a longer offset. An error has the byte
//! up to which the text begins one that can be read, as there.
#![tactic(auto, using(calendar_values::specs::Constants::constants))]

mod fault;
pub mod laws;
mod parse;
mod parts;
mod reading;
mod write;

pub use fault::iso_fault;
pub use parse::{date_time_from_iso, iso_parts};
pub use parts::IsoParts;
pub use write::date_time_to_iso;

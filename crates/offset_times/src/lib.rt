//! Dates with a time of day at an offset from UTC.
#![tactic(auto)]

mod assume;
pub mod carries;
pub mod constants;
pub mod laws;
mod offset_date_time;
mod to_offset;

pub use assume::Assume;
pub use offset_date_time::OffsetDateTime;
pub use to_offset::ToOffset;

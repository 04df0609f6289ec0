//! The texts of rules and the files of time zones, read to the byte, and rules written.
//!
//! A rule has the form of the environment variable `TZ` of POSIX, such as
//! `CET-1CEST,M3.5.0,M10.5.0/3`, with the hours from -167 to 167 of RFC 9636. A text with
//! daylight saving time must have its moments too.
#![tactic(auto)]

mod abbreviated;
mod blocks;
mod clocks;
mod counts;
mod days;
mod endings;
mod faults;
mod file_faults;
mod files;
mod kinds;
mod names;
mod numbers;
mod pieces;
mod rule_zones;
mod rules;
mod texts;
mod tz_rule;
mod zone_file;
mod zone_names;

pub use abbreviated::Abbreviated;
pub use faults::{RuleFault, RuleRefusal};
pub use file_faults::{FilePart, FileRefusal};
pub use rule_zones::rule_zone;
pub use rules::parse_rule;
pub use texts::rule_text;
pub use tz_rule::{Daylight, TzRule};
pub use zone_file::ZoneFile;
pub use zone_names::is_zone_name;

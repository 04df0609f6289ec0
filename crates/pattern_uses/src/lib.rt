//! Callers of `format_descriptions` and of the crates of logs, as their readers would write them:
//! each with a contract in the words of the definitions, and no proof file.
#![tactic(auto, using(log_forms::specs::Callers::callers))]

pub mod device_lines;
pub mod line_tallies;
pub mod log_lines;
pub mod log_stamps;
pub mod log_words;
pub mod patterns;
pub mod reused_parts;
pub mod sorted_logs;
pub mod whole_logs;
pub mod written_patterns;
pub mod wrong_parts;

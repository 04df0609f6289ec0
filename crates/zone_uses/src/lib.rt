//! Callers of `zones`, `zone_files` and `zoned_times`, as their readers would write them: each with
//! a contract in the words of the definitions, and no proof file.
#![tactic(auto, using(zoned_times::specs::Callers::callers))]

pub mod file_zones;
pub mod zone_changes;
pub mod zone_meetings;

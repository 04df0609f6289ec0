//! Logs merged by the instants of their lines.
#![tactic(auto)]

pub mod buffers;
mod choice;
pub mod instants;
pub mod laws;
pub mod logs;
pub mod merges;
pub mod sorts;

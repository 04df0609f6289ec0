//! Lines counted by the buckets of time that they are in.
#![tactic(auto)]

pub mod buckets;
pub mod counts;
pub mod laws;
mod lines;
pub mod tallies;

//! Bytes in and out: their devices, the lines that they make, and those that are pending.
#![tactic(auto)]

pub mod devices;
pub mod places;
pub mod sending;
pub mod stamp_tallies;
pub mod table;

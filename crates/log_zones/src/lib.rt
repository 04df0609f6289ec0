//! The instants of a log whose stamps have no offset: each stamp is a wall clock of a time zone.
#![tactic(auto)]

mod earliest;
mod instants;
pub mod laws;
mod showings;

pub use earliest::earliest_second;
pub use instants::{NoInstant, instant_in};
pub use showings::{Showing, showing_in};

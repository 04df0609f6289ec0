//! Time zones with rules: transitions in a table, and the rule of each year that follows them.
//!
//! Seconds are whole Unix seconds, and a wall clock is the second at which clocks in UTC show it. A
//! [`Zone`] borrows its table and allocates nothing, and an [`OwnedZone`] keeps its own. A rule
//! whose moments leave their year counts them where they fall: `AAA0BBB,J1/-24,J180` begins on 31
//! December. A rule that overlaps itself in some year is no zone. A rule that keeps daylight saving
//! time all year has one kind of local time ([`Cycle::one_type`]).
#![tactic(auto)]

mod cycle;
mod interval;
mod joined;
pub mod laws;
mod local_instants;
mod moment;
mod rule_day;
mod slot;
mod tables;
mod tail;
mod time_type;
mod transition;
mod zone;
mod zone_error;

pub use cycle::Cycle;
pub use interval::Interval;
pub use local_instants::LocalInstants;
pub use moment::Moment;
pub use rule_day::RuleDay;
pub use tail::Tail;
pub use time_type::TimeType;
pub use transition::Transition;
pub use zone::{OwnedZone, Zone};
pub use zone_error::ZoneError;

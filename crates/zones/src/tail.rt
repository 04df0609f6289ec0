//! The part of a cycle that follows a table.
ghost use Rattle.zones.specs.Ranges.{IsTailMoment, IsTailSecond};

use crate::Cycle;

/// A cycle that follows a table.
#[derive(Clone, Copy)]
pub struct Tail {
    pub cycle: Cycle,
    /// Its first moment after the table.
    pub moment: i64,
    /// The Unix second of that moment.
    pub from: i64,
    /// The wall clock at which the gap or the fold of that moment starts.
    pub from_local: i64,
    pub ghost moment_in: { IsTailMoment moment },
    pub ghost from_in: { IsTailSecond from },
    pub ghost from_local_in: { IsTailSecond from_local },
}

//! Many timestamps at once.
ghost use Rattle.std.specs.Prelude.{◌≡◌, ◌<◌, IfNone, IfOk, IfSome, [], length, map, take, IsOk};
ghost use Rattle.std.specs.List.{HoldsAt};
ghost use Rattle.calendar_values.specs.WallClock.{IsInstant};
ghost use Rattle.utc_times.specs.UnixTime.{instant_of_second};

use crate::Timestamp;
use crate::runs::put_in_room;
use std::alloc::{AllocError, Global};

/// Timestamps, and the place of the count that was out of range, if one was.
#[derive(Drop)]
pub struct Batch {
    pub stamps: Vec<Timestamp>,
    pub refused: Option<usize>,
}

impl Timestamp {
    /// The beginnings of Unix seconds in their order, up to the first that
    /// [`Timestamp::from_seconds`] rejects, with the index of that one. `AllocError` if there is no
    /// memory for them. The call takes all memory first, and none for no seconds.
    pub fn from_seconds_slice(alloc: Global, seconds: &[i64]) -> Result<Batch, AllocError>
        ensures all { IfOk result (λ batch. IfNone batch.refused
            (batch.stamps.items ≡ map instant_of_second seconds.now)) }
        ensures before { IfOk result (λ batch. IfSome batch.refused (λ place.
            batch.stamps.items ≡ map instant_of_second (take place seconds.now))) }
        ensures refused { IfOk result (λ batch.
            IfSome batch.refused (λ place. (place < length seconds.now)
            × HoldsAt (λ second. ¬ IsInstant (instant_of_second second)) seconds.now place)) }
        ensures none { seconds.now ≡ [] → IsOk result }
    {
        let mut stamps = Vec::with_capacity(alloc, seconds.len())?;
        for (place, second) in seconds.iter().enumerate() {
            match Timestamp::from_seconds(*second) {
                Ok(stamp) => put_in_room(&mut stamps, stamp),
                Err(_) => {
                    return Ok(Batch {
                        stamps,
                        refused: Some(place),
                    });
                }
            }
        }
        Ok(Batch {
            stamps,
            refused: None,
        })
    }
}

//! Counts from elsewhere, a whole list at once.
ghost use Rattle.std.specs.Prelude.{◌≡◌, ◌<◌, IfErr, IfOk, length, map};
ghost use Rattle.utc_times.specs.UnixTime.{instant_of_second};

use stamp_times::Timestamp;
use std::alloc::{AllocError, Global};

/// The timestamps of Unix seconds, or the place of the first that no timestamp has.
pub fn import(alloc: Global, seconds: &[i64]) -> Result<Result<Vec<Timestamp>, usize>, AllocError>
    ensures all { IfOk result (λ made. IfOk made (λ stamps.
        stamps.items ≡ map instant_of_second seconds.now)) }
    ensures place { IfOk result (λ made. IfErr made (λ place. place < length seconds.now)) }
{
    let batch = Timestamp::from_seconds_slice(alloc, seconds)?;
    match batch.refused {
        Some(place) => Ok(Err(place)),
        None => Ok(Ok(batch.stamps)),
    }
}

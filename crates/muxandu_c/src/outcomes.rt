//! The results of calls with descriptions.
ghost use Rattle.std.specs.Prelude.{◌≡◌, ℕ, Result};
ghost use Rattle.muxandu_c.specs.Outcomes.{outcome_of};

use crate::reasons::MuxanduReason;
use crate::refused::{MuxanduStatus, Refused, status};

/// The result of a call with a description.
#[repr(C)]
#[derive(Clone, Copy)]
pub struct MuxanduOutcome {
    /// The number of items or of bytes that the call wrote or, with BUFFER, has to write. After
    /// another error it is the index of the byte or of the item with the fault, or 0.
    pub size: usize,
    /// 0, or the error.
    pub status: MuxanduStatus,
    /// The reason of the error, the part that is at fault, or 0.
    pub reason: MuxanduReason,
}

// An error of a call with a description: its place, and its reason.
#[derive(Clone, Copy)]
pub(crate) struct Fault {
    pub(crate) place: usize,
    pub(crate) refused: Refused,
    pub(crate) reason: u32,
}

// An error that has neither a place nor a reason.
pub(crate) fn plain_fault(refused: Refused) -> Fault
    ensures place { result.place ≡ 0 }
    ensures refused { result.refused ≡ refused }
    ensures reason { result.reason ≡ 0 }
{
    Fault {
        place: 0,
        refused,
        reason: 0,
    }
}

// The result of a call that writes this number of items or bytes.
pub(crate) fn outcome_of(answer: Result<usize, Fault>) -> MuxanduOutcome
    ensures { result ≡ outcome_of answer }
{
    match answer {
        Ok(size) => MuxanduOutcome {
            size,
            status: 0,
            reason: 0,
        },
        Err(fault) => MuxanduOutcome {
            size: fault.place,
            status: status(fault.refused),
            reason: fault.reason,
        },
    }
}

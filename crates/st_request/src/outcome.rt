ghost use Rattle.std.specs.Prelude.{◌≡◌, [], ◌∷◌, IfOk};

use st_base::{Errno, Sequence};
use st_trace::{CallResult, Change};
use std::alloc::{AllocError, Global};

/// What a call returns to its thread, and what it changed.
#[derive(Debug, Drop)]
pub struct Outcome {
    pub result: CallResult,
    /// In the order in which they were made.
    pub changes: Sequence<Change>,
}

impl Outcome {
    /// The outcome of a call that fails, which changes nothing.
    pub fn failure(alloc: Global, errno: Errno) -> Self
        ensures result { result.result ≡ CallResult.Failed errno }
        ensures changes { result.changes ≡ [] }
    {
        Outcome {
            result: CallResult::Failed(errno),
            changes: Sequence::new(alloc),
        }
    }

    /// The outcome of a call that returns a number, and changes nothing.
    pub fn value(alloc: Global, value: u64) -> Self
        ensures result { result.result ≡ CallResult.Value value }
        ensures changes { result.changes ≡ [] }
    {
        Outcome {
            result: CallResult::Value(value),
            changes: Sequence::new(alloc),
        }
    }

    /// The outcome of a call that returns a number, and makes one change. Its only error is out of memory.
    pub fn change(alloc: Global, value: u64, change: Change) -> Result<Self, AllocError>
        ensures result { IfOk result (λ outcome. outcome.result ≡ CallResult.Value value) }
        ensures changes { IfOk result (λ outcome. outcome.changes ≡ change ∷ []) }
    {
        let mut changes = Sequence::new(alloc);
        changes.push(change)?;
        Ok(Outcome {
            result: CallResult::Value(value),
            changes,
        })
    }
}

// What calls put into memory.
ghost use Rattle.std.specs.Prelude.{◌≡◌, ◌+◌, ◌≤◌, ℕ, [], ◌∷◌, length, true, IfOk, OnOk, OnErr};
ghost use Rattle.st_memory.specs.Memory.{byte_in, is_space_live, KeepsSpaces};
ghost use Rattle.st_model.specs.Memory.{memory_after_put};
ghost use Rattle.st_trace.specs.declared.entry.CallResult.TheVariants.{Value};
ghost use Rattle.st_model.specs.declared.limits.TheConstants.{SPACE_BYTES};

use crate::outcome::Outcome;
use st_base::{Space, Text};
use st_memory::{MemFault, Spaces};
use st_trace::Change;
use std::alloc::{AllocError, Global};

/// Puts bytes into a space at an offset, and returns the outcome of a call whose result is this number. If memory runs out, nothing
/// changes.
pub fn put_bytes(
    spaces: &mut Spaces,
    alloc: Global,
    space: Space,
    at: u64,
    bytes: &[u8],
    value: u64,
) -> Result<Outcome, AllocError>
    requires live { is_space_live spaces.old space ≡ true }
    requires inside { at + length bytes.now ≤ SPACE_BYTES }
    ensures result { IfOk result (λ outcome. outcome.result ≡ Value value) }
    ensures changes { IfOk result (λ outcome. outcome.changes ≡ Change.Put space at bytes.now ∷ []) }
    ensures memory { OnOk result ((s b : ℕ) → byte_in spaces.new s b ≡ memory_after_put (byte_in spaces.old) space at bytes.now s b) }
    ensures spaces { KeepsSpaces spaces.old spaces.new }
    ensures err { OnErr result (spaces.new ≡ spaces.old) }
{
    let change = Change::Put {
        space,
        at,
        bytes: Text::of(alloc, bytes)?,
    };
    let outcome = Outcome::change(alloc, value, change)?;
    match spaces.put_bytes(alloc, space, at, bytes) {
        Ok(()) => Ok(outcome),
        Err(MemFault::NoMemory) => Err(AllocError),
        Err(MemFault::Outside) => unreachable!(),
    }
}

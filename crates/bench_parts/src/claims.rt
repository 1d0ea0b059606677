ghost use Rattle.std.specs.Prelude.{◌≡◌, ◌≤◌, IfOk};

use st_messages::Messages;
use std::alloc::{AllocError, Global};

// This many waiting messages, each of its own thread.
fn waiting(alloc: Global, count: u32) -> Result<Messages, AllocError>
    requires { count ≤ 72 }
    ensures { IfOk result (λ messages. messages.workers ≡ 1) }
{
    let mut messages = Messages::new(alloc, 1)?;
    for tid in 0..count {
        messages.post(tid)?;
    }
    Ok(messages)
}

// The sum of the drawings of 64 messages, each of which is claimed.
fn claim_all(mut messages: Messages) -> u64
    requires { messages.workers ≡ 1 }
{
    let mut sum: u64 = 0;
    for _ in 0..64 {
        if let Some(drawing) = messages.claim(1) {
            sum = sum.wrapping_add(drawing);
        }
    }
    sum
}

/// The sum of the drawings of 64 messages that a worker claims, this many times.
pub fn claims(alloc: Global, count: u64) -> Result<u64, AllocError> {
    let mut sum: u64 = 0;
    for _ in 0..count {
        sum = sum.wrapping_add(claim_all(waiting(alloc, 64)?));
    }
    Ok(sum)
}

ghost use Rattle.std.specs.Prelude.{◌≡◌, IfOk};
ghost use Rattle.st_reached.specs.Runnable.{CanRun};
ghost use Rattle.st_replay.specs.Replays.{IsReplayed};

use crate::entries::{Mismatch, Replay, ReplayFault};
use st_law::Input;
use st_trace::Entry;
use std::alloc::{AllocError, Global};

/// What replaying a whole trace found.
#[derive(Debug, Drop)]
pub enum Replayed {
    /// The trace is lawful.
    Lawful,
    /// This many entries of it are lawful. The next one isn't lawful after them, and differs so from what the machine does.
    Broken(usize, Mismatch),
}

/// Replays a whole trace of a run of this input, up to the first entry that isn't lawful after those before it.
pub fn replay_trace(alloc: Global, input: &Input, entries: &[Entry]) -> Result<Replayed, AllocError>
    requires { CanRun input.now }
    ensures { IfOk result (λ replayed. IsReplayed input.now entries.now replayed) }
{
    let mut replay = Replay::start(alloc, input)?;
    for (at, entry) in entries.iter().enumerate() {
        match replay.entry(alloc, entry) {
            Ok(()) => {}
            Err(ReplayFault::NotLawful(mismatch)) => return Ok(Replayed::Broken(at, mismatch)),
            Err(ReplayFault::NoMemory) => return Err(AllocError),
        }
    }
    Ok(Replayed::Lawful)
}

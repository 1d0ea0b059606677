ghost use Rattle.std.specs.Prelude.{◌≡◌};
ghost use Rattle.st_replay.specs.Told.{mover_of};

use st_base::{Seq, Tid, Worker};
use st_trace::Entry;

/// Who moved, as an entry tells it.
#[derive(Clone, Copy, Debug, PartialEq, Eq)]
pub enum Mover {
    Thread(Tid),
    Worker(Worker),
    /// The worker that is at the message with this number.
    Number(Seq),
    Operator,
}

/// Who moved by an entry: its thread, the worker that it names or that is at its number, or the operator.
pub fn mover_of(entry: &Entry) -> Mover
    ensures { result ≡ mover_of entry.now }
{
    match entry {
        Entry::Stored { tid, .. }
        | Entry::Entered { tid, .. }
        | Entry::Used { tid, .. }
        | Entry::Denied { tid, .. }
        | Entry::Ended { tid }
        | Entry::Reloaded { tid, .. } => Mover::Thread(*tid),
        Entry::Claimed { worker, .. } | Entry::Answered { worker, .. } => Mover::Worker(*worker),
        Entry::Copied { seq, .. } | Entry::Looked { seq, .. } | Entry::Faulted { seq, .. } => {
            Mover::Number(*seq)
        }
        Entry::Replied { .. } | Entry::Learned { .. } => Mover::Operator,
    }
}

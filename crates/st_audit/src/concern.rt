ghost use Rattle.std.specs.Prelude.{◌≡◌};
ghost use Rattle.st_audit.specs.FromHistory.{concerns_call};

use st_trace::Entry;

/// Whether an entry says how a call goes on: that it is entered, answered, made or denied, that a filter for it is replied or learnt,
/// or that its policy is reloaded. The others are steps in between. Most entries are such: the words that workers copy and the names that they look at.
pub fn concerns_call(entry: &Entry) -> bool
    ensures { result ≡ concerns_call entry.now }
{
    match entry {
        Entry::Entered { .. }
        | Entry::Answered { .. }
        | Entry::Replied { .. }
        | Entry::Learned { .. }
        | Entry::Used { .. }
        | Entry::Denied { .. }
        | Entry::Reloaded { .. } => true,
        Entry::Stored { .. }
        | Entry::Claimed { .. }
        | Entry::Copied { .. }
        | Entry::Looked { .. }
        | Entry::Faulted { .. }
        | Entry::Ended { .. } => false,
    }
}

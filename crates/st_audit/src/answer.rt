ghost use Rattle.std.specs.Prelude.{◌≡◌, ℕ, cond, None, OnOk};
ghost use Rattle.std.specs.List.{fold};
ghost use Rattle.st_model.specs.Tree.{is_number};
ghost use Rattle.st_audit.specs.Ledger.{recorded_answer};
ghost use Rattle.st_audit.specs.FromHistory.{answer_after, answer_after_change};

use st_base::{Seq, Shared};
use st_calls::{Snapshot, Verdict};
use st_trace::{Change, Entry, Way};
use std::alloc::{AllocError, Global};
use std::collections::BTreeMap;
use std::marker::Model;

/// An applied answer to a held call, as the trace records it.
#[derive(Drop)]
pub struct Answer {
    copies: Shared<Snapshot>,
    verdict: Verdict,
}

impl Model for Answer {
    ghost use Rattle.st_audit.specs.FromHistory.{Answer, answer_with};

    ghost Value = { Answer };

    ghost view = { λ a. answer_with a.copies a.verdict };
}

impl Answer {
    /// The copies that were judged.
    pub fn copies(&self) -> &Snapshot
        ensures { result.now ≡ self.now.snapshot }
    {
        self.copies.get()
    }

    /// What the filters in force say of the copies.
    pub fn verdict(&self) -> Verdict
        ensures { result ≡ self.now.verdict }
    {
        self.verdict
    }
}

// Removes the answer to a call with this number, if it has one.
fn forget(answers: &mut BTreeMap<Seq, Answer>, seq: Option<Seq>)
    ensures { (n : ℕ) → recorded_answer answers.new n ≡ cond (is_number n seq) None (recorded_answer answers.old n) }
{
    if let Some(seq) = seq {
        answers.remove(&seq);
    }
}

// Removes the answer to a number that a change draws again.
fn forget_renewed(answers: &mut BTreeMap<Seq, Answer>, change: &Change)
    ensures { (n : ℕ) → recorded_answer answers.new n ≡ answer_after_change n (recorded_answer answers.old n) change.now }
{
    if let Change::Renewed { new, .. } = change {
        answers.remove(new);
    }
}

// Removes the answers to the numbers that changes draw again.
fn forget_drawn(answers: &mut BTreeMap<Seq, Answer>, changes: &[Change])
    ensures { (n : ℕ) → recorded_answer answers.new n ≡ fold (answer_after_change n) (recorded_answer answers.old n) changes.now }
{
    for change in changes {
        forget_renewed(answers, change);
    }
}

/// Updates the map of applied answers by an entry. The answer to a call is removed when the call is made or denied, so the map
/// stays small however long the run is. It is also removed when its number is drawn again: from then on the number means another call.
pub fn note_answer(
    alloc: Global,
    answers: &mut BTreeMap<Seq, Answer>,
    entry: &Entry,
) -> Result<(), AllocError>
    ensures { OnOk result ((n : ℕ) → recorded_answer answers.new n ≡ answer_after entry.now n (recorded_answer answers.old n)) }
{
    match entry {
        Entry::Entered {
            way: Way::Held(seq),
            ..
        } => {
            answers.remove(seq);
        }
        Entry::Answered {
            snapshot,
            verdict,
            applied: true,
            ..
        } => {
            let answer = Answer {
                copies: snapshot.share()?,
                verdict: *verdict,
            };
            answers.insert(snapshot.get().seq, answer)?;
        }
        Entry::Used { seq, changes, .. } => {
            forget(answers, *seq);
            forget_drawn(answers, changes.as_slice());
        }
        Entry::Denied { seq, .. } => forget(answers, *seq),
        Entry::Reloaded { changes, .. } => forget_drawn(answers, changes.as_slice()),
        _ => {}
    }
    Ok(())
}

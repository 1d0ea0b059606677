ghost use Rattle.std.specs.Prelude.{◌≡◌, ℕ, [], ◌∷◌, OnOk};
ghost use Rattle.st_effects.specs.Changes.{owner_after};
ghost use Rattle.st_law.specs.Threads.{History, changes_of, thread_of};
ghost use Rattle.st_law.specs.declared.input.Input.{Input};
ghost use Rattle.st_audit.specs.How.{decided_on};
ghost use Rattle.st_audit.specs.Ledger.{IsLedger, recorded_answer, owner_in, row_in};
ghost use Rattle.st_audit.specs.Rows.{row_after};
ghost use Rattle.st_audit.specs.FromHistory.{decided_from_history};

use crate::answer::{Answer, note_answer};
use crate::decided::{Decided, RunFilters, decided_after};
use crate::entered::{EnteredCall, note_entered};
use crate::process::{KeptRow, note_owners, note_rows, owner_of};
use st_base::{Pid, Seq, Tid};
use st_law::Input;
use st_trace::Entry;
use std::alloc::{AllocError, Global};
use std::collections::BTreeMap;

/// What is kept of a run to print its audit.
#[derive(Drop)]
pub struct Ledger {
    /// The processes of the threads that forks have started.
    pub owners: BTreeMap<Tid, Pid>,
    /// The processes whose rows were changed.
    pub rows: BTreeMap<Pid, KeptRow>,
    /// The calls that threads have entered.
    pub entered: BTreeMap<Tid, EnteredCall>,
    /// The applied answers to held calls that are neither made nor denied yet.
    pub answers: BTreeMap<Seq, Answer>,
}

// Updates the maps of threads and processes by an entry.
fn note_processes(
    alloc: Global,
    input: &Input,
    owners: &mut BTreeMap<Tid, Pid>,
    rows: &mut BTreeMap<Pid, KeptRow>,
    entry: &Entry,
) -> Result<(), AllocError>
    ensures owners { OnOk result ((t : ℕ) → owner_in input.now owners.new t ≡ owner_after t (owner_in input.now owners.old t) (changes_of entry.now)) }
    ensures rows { OnOk result ((p : ℕ) → row_in input.now rows.new p ≡ row_after (row_in input.now rows.old (owner_in input.now owners.old (thread_of entry.now))) (owner_in input.now owners.old (thread_of entry.now)) p (row_in input.now rows.old p) (changes_of entry.now)) }
{
    match entry {
        Entry::Used { tid, changes, .. } | Entry::Reloaded { tid, changes, .. } => {
            let pid = owner_of(input, owners, *tid);
            note_rows(alloc, input, rows, pid, changes.as_slice())?;
            note_owners(input, owners, changes.as_slice())
        }
        _ => Ok(()),
    }
}

impl Ledger {
    /// The ledger before the first entry.
    pub fn new(alloc: Global) -> Self
        ensures { (i : Input) → IsLedger i result [] }
    {
        Ledger {
            owners: BTreeMap::new(alloc),
            rows: BTreeMap::new(alloc),
            entered: BTreeMap::new(alloc),
            answers: BTreeMap::new(alloc),
        }
    }

    /// What an audit says of a held call under the filters of a run, if the call has this number and was answered.
    pub fn decided(&self, filters: &RunFilters<'_, '_, '_>, seq: Option<Seq>) -> Option<Decided<'_>>
        ensures { result ≡ decided_on (λ q. decided_from_history filters.now.policies.now filters.now.session.now.filters (recorded_answer self.now.answers q)) seq }
    {
        let answer = self.answers.get(&seq?)?;
        Some(decided_after(filters, answer.copies(), answer.verdict()))
    }

    /// Updates the ledger by an entry.
    pub fn note(&mut self, alloc: Global, input: &Input, entry: &Entry) -> Result<(), AllocError>
        ensures { OnOk result ((h : History) → IsLedger input.now self.old h → IsLedger input.now self.new (entry.now ∷ h)) }
    {
        note_processes(alloc, input, &mut self.owners, &mut self.rows, entry)?;
        note_entered(&mut self.entered, entry)?;
        note_answer(alloc, &mut self.answers, entry)
    }
}

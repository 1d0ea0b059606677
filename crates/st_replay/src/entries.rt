ghost use Rattle.std.specs.Prelude.{◌≡◌, ◌≢◌, ◌↔◌, [], None, Some, IfOk, IfErr, IsTrue, OnOk, OnErr};
ghost use Rattle.st_law.specs.Inputs.{IsStartable};
ghost use Rattle.st_reached.specs.Runnable.{CanRun};
ghost use Rattle.st_replay.specs.Replays.{IsReplayFault};
ghost use Rattle.st_replay.specs.Told.{entry_moved, with_added, with_entry, IsLawfulSoFar, IsOnly};

use crate::choice::{choice_of_mover, choice_told};
use crate::mover::Mover;
use st_kernel::{Kernel, StepFault};
use st_law::Input;
use st_same::is_same_entry;
use st_trace::{Choice, Entry};
use std::alloc::{AllocError, Global};
use std::marker::Model;

/// How an entry differs from what the machine does.
#[derive(Debug)]
pub struct Mismatch {
    /// The choice that the entry tells. It is worker 0, which isn't there, if no worker is at the number that a worker's entry names.
    pub choice: Choice,
    /// The entry that the machine adds for this choice; none iff the choice isn't enabled.
    pub entry: Option<Entry>,
}

// Written out, so that whoever drops one calls this, and doesn't drop the parts of an entry one by one.
impl Drop for Mismatch {
    fn drop(self) {
        let Self {
            choice: _,
            entry: _,
        } = self;
    }
}

/// Why an entry wasn't taken.
#[derive(Debug, Drop)]
pub enum ReplayFault {
    /// The trace so far with this entry isn't lawful.
    NotLawful(Mismatch),
    NoMemory,
}

// The fault of an entry whose choice wasn't made because of this fault of a step.
fn refusal(choice: Choice, fault: StepFault) -> ReplayFault
    ensures enabled { fault ≡ StepFault.NotEnabled → result ≡ ReplayFault.NotLawful (record { choice = choice; entry = None }) }
    ensures memory { fault ≡ StepFault.NoMemory → result ≡ ReplayFault.NoMemory }
{
    match fault {
        StepFault::NotEnabled => ReplayFault::NotLawful(Mismatch {
            choice,
            entry: None,
        }),
        StepFault::NoMemory => ReplayFault::NoMemory,
    }
}

// Whether an entry is the one that was added.
fn is_added(added: &Option<Entry>, entry: &Entry) -> bool
    ensures { IsTrue result ↔ (added.now ≡ Some entry.now) }
{
    match added {
        Some(added) => is_same_entry(added, entry),
        None => false,
    }
}

// Compares an entry with the one that was added for its choice. A fault takes the one that was added.
fn compare(choice: Choice, added: &mut Option<Entry>, entry: &Entry) -> Result<(), ReplayFault>
    ensures ok { OnOk result (added.old ≡ Some entry.now) }
    ensures differs { OnErr result (added.old ≢ Some entry.now) }
    ensures fault { IfErr result (λ fault. fault ≡ ReplayFault.NotLawful (record { choice = choice; entry = added.old })) }
{
    if is_added(added, entry) {
        return Ok(());
    }
    Err(ReplayFault::NotLawful(Mismatch {
        choice,
        entry: added.take(),
    }))
}

/// A lawful trace so far, with the kernel in the state after it.
pub struct Replay<'a> {
    kernel: Kernel<'a>,
    // The entry of the last step, if there was one. It stays here, so that no step drops one.
    added: Option<Entry>,
}

impl<'a> Model for Replay<'a> {
    ghost use Rattle.std.specs.Coded.{codes};
    ghost use Rattle.st_filter.specs.FormulaCode.{formula_code};
    ghost use Rattle.st_law.specs.Inputs.{IsStartable};
    ghost use Rattle.st_kernel.specs.Kernel.{trace_of};
    ghost use Rattle.st_replay.specs.Told.{TraceSoFar};

    ghost Value = { TraceSoFar };

    ghost coded = { Prim.hlevel (codes, formula_code) };

    ghost view = { λ r. record { input = r.kernel.input; trace = trace_of r.kernel } };

    ghost invariant = { λ r. IsStartable r.kernel.input };
}

// Written out, so that whoever drops a replay calls this, and doesn't drop its parts one by one.
impl<'a> Drop for Replay<'a> {
    fn drop(self) {
        let Self {
            kernel: _,
            added: _,
        } = self;
    }
}

impl<'a> Replay<'a> {
    /// The empty trace of a run of this input.
    pub fn start(alloc: Global, input: &'a Input) -> Result<Self, AllocError>
        requires { CanRun input.now }
        ensures input { IfOk result (λ replay. replay.input ≡ input.now) }
        ensures trace { IfOk result (λ replay. replay.trace ≡ []) }
    {
        Ok(Replay {
            kernel: Kernel::start(alloc, input)?,
            added: None,
        })
    }

    /// The input of the run whose trace is replayed. The trace so far is lawful.
    pub fn input(&self) -> &'a Input
        ensures input { result.now ≡ self.now.input }
        ensures startable { IsStartable self.now.input }
        ensures lawful { IsLawfulSoFar self.now }
    {
        self.kernel.input()
    }

    /// Takes the next entry of the trace, if the trace so far with this entry is lawful. If it isn't, the trace goes on with the entry that
    /// the machine adds in its place, if there is one. If memory runs out, the trace is unchanged.
    pub fn entry(&mut self, alloc: Global, entry: &Entry) -> Result<(), ReplayFault>
        ensures ok { OnOk result (self.new ≡ with_entry self.old entry.now) }
        ensures lawful { OnOk result (IsLawfulSoFar (with_entry self.old entry.now)) }
        ensures fault { IfErr result (λ fault. IsReplayFault self.old entry.now fault self.new) }
    {
        let choice = choice_told(&self.kernel, entry);
        if let Err(fault) = self.kernel.advance(alloc, choice, &mut self.added) {
            return Err(refusal(choice, fault));
        }
        compare(choice, &mut self.added, entry)
    }

    /// Makes the choice of this mover, if it is enabled: the trace goes on with the entry that the machine adds for it. Stores this entry in
    /// `added`, none if the choice isn't enabled. If memory runs out, the trace and `added` are unchanged.
    pub fn advance(
        &mut self,
        alloc: Global,
        mover: Mover,
        added: &mut Option<Entry>,
    ) -> Result<(), AllocError>
        ensures added { OnOk result (added.new ≡ entry_moved self.old mover) }
        ensures trace { OnOk result (self.new ≡ with_added self.old (entry_moved self.old mover)) }
        ensures lawful { OnOk result (IsLawfulSoFar self.new) }
        ensures only { IsOnly self.old mover (entry_moved self.old mover) }
        ensures err { OnErr result (self.new ≡ self.old) }
        ensures kept { OnErr result (added.new ≡ added.old) }
    {
        let choice = choice_of_mover(&self.kernel, mover);
        match self.kernel.advance(alloc, choice, added) {
            Ok(()) => Ok(()),
            Err(StepFault::NotEnabled) => Ok(()),
            Err(StepFault::NoMemory) => Err(AllocError),
        }
    }
}

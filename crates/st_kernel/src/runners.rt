// What runners ask of a run, and how a worker moves until it is ready. A runner judges a ready worker's copies by itself.
ghost use Rattle.std.specs.Option.{option_map};
ghost use Rattle.std.specs.Prelude.{◌≡◌, ◌↔◌, ℕ, true, None, Some, IfSome, IfOk, IfErr, OnOk, OnErr};
ghost use Rattle.st_kernel.specs.Kernel.{entry_now, kept_copies, number_now, state_in, with_choice, IsPlayed};
ghost use Rattle.st_kernel.specs.Runners.{HasEnabled, IsAnswerFault, IsWork};
ghost use Rattle.st_law.specs.Machine.{IsEnabled, IsSettled};
ghost use Rattle.st_law.specs.Meaning.{IsWorker};
ghost use Rattle.st_law.specs.State.{is_live, thread_count, worker_at};
ghost use Rattle.st_trace.specs.declared.entry.Choice.TheVariants as choices;
ghost use Rattle.st_trace.specs.declared.entry.Entry.TheVariants as entries;

use crate::kernel::Kernel;
use st_base::{Seq, Shared, Worker};
use st_calls::Snapshot;
use st_filter::Judged;
use st_report::note_choice;
use st_trace::{Choice, Entry};
use st_waking::woken_by;
use st_workers::Turn;
use std::alloc::{AllocError, Global};

/// What a worker did when it was asked to move.
#[derive(Debug, Drop)]
pub enum Work {
    /// Nothing: it isn't enabled.
    Idle,
    /// Nothing: it is ready, and these are the copies to judge.
    Judge(Shared<Snapshot>),
    /// Its choice was made.
    Went,
}

/// Why an answer wasn't taken. The judged call is returned.
#[derive(Debug, Drop)]
pub enum AnswerFault<'a> {
    /// The worker isn't ready.
    NotEnabled(Judged<'a>),
    /// The worker is ready with other copies than those that were judged.
    Differs(Judged<'a>),
}

impl<'a> Kernel<'a> {
    // Whether some thread can move. No thread below the cursor can.
    fn has_thread_enabled(&self) -> bool
        ensures enabled { HasEnabled choices.Thread (thread_count self.now.input) self.now result }
        ensures played { IsPlayed self.now }
    {
        for tid in self.first..self.machine.view().thread_count() + 1 {
            if self.enabled(Choice::Thread(tid)) {
                return true;
            }
        }
        false
    }

    // Whether some worker can move.
    fn has_worker_enabled(&self) -> bool
        ensures { HasEnabled choices.Worker self.now.input.options.workers self.now result }
    {
        for worker in 1..self.machine.view().worker_count() + 1 {
            if self.enabled(Choice::Worker(worker)) {
                return true;
            }
        }
        false
    }

    /// Whether no choice is enabled. It takes no memory.
    pub fn settled(&self) -> bool
        ensures { (result ≡ true) ↔ IsSettled self.now.input (state_in self.now) }
    {
        if self.has_thread_enabled() {
            return false;
        }
        if self.has_worker_enabled() {
            return false;
        }
        !self.enabled(Choice::Operator)
    }

    /// The number that a worker is at; none iff it is idle.
    pub fn working_on(&self, worker: Worker) -> Option<Seq>
        requires { IsWorker self.now.input worker }
        ensures { result ≡ option_map (number_now self.now) (worker_at (state_in self.now) worker) }
    {
        let machine = self.machine.view();
        match machine.workers.turn(worker) {
            Turn::Idle => None,
            Turn::Working(drawing) => Some(machine.workers.seq(*drawing)),
            Turn::Ready(drawing, _) => Some(machine.workers.seq(*drawing)),
        }
    }

    // The copies that a worker is ready with; none iff it isn't ready.
    fn sealed(&self, worker: Worker) -> Option<&Shared<Snapshot>>
        requires { IsWorker self.now.input worker }
        ensures none { result ≡ None → kept_copies self.now worker ≡ None }
        ensures some { IfSome result (λ copies. kept_copies self.now worker ≡ Some copies.now) }
    {
        let machine = self.machine.view();
        match machine.workers.turn(worker) {
            Turn::Ready(_, copies) => Some(copies),
            Turn::Idle => None,
            Turn::Working(_) => None,
        }
    }

    /// The copies that a worker is ready with, which were sealed in the step that made it ready; none iff it isn't ready. It takes no
    /// memory.
    pub fn kept(&self, worker: Worker) -> Option<&Snapshot>
        requires { IsWorker self.now.input worker }
        ensures none { result ≡ None → kept_copies self.now worker ≡ None }
        ensures some { IfSome result (λ copies. kept_copies self.now worker ≡ Some copies.now) }
    {
        match self.sealed(worker) {
            Some(copies) => Some(copies.get()),
            None => None,
        }
    }

    /// Moves a worker, unless it is ready: then its copies are returned, and nothing changes. The entry that a move adds is stored in
    /// `added`. If memory runs out, the run and `added` are unchanged.
    pub fn work(
        &mut self,
        alloc: Global,
        worker: Worker,
        added: &mut Option<Entry>,
    ) -> Result<Work, AllocError>
        requires { IsWorker self.old.input worker }
        ensures work { IfOk result (λ work. IsWork self.old worker work added.old added.new self.new) }
        ensures err { OnErr result (self.new ≡ self.old) }
        ensures place { OnErr result (added.new ≡ added.old) }
    {
        if let Some(copies) = self.sealed(worker) {
            let judged = copies.share()?;
            return Ok(Work::Judge(judged));
        }
        if self.choose(alloc, Choice::Worker(worker), added)? {
            Ok(Work::Went)
        } else {
            Ok(Work::Idle)
        }
    }

    /// Lets a ready worker answer with the verdict of a judged call, if that is the call that it is ready with. The entry that this adds is
    /// stored in `added`. A fault returns the judged call, and nothing changes. It takes no memory: the room is there since the worker is
    /// ready.
    pub fn answer(
        &mut self,
        worker: Worker,
        judged: Judged<'a>,
        added: &mut Option<Entry>,
    ) -> Result<(), AnswerFault<'a>>
        requires worker { IsWorker self.old.input worker }
        requires policies { judged.policies ≡ self.old.input.policies }
        ensures ok { OnOk result (self.new ≡ with_choice self.old (choices.Worker worker)) }
        ensures enabled { OnOk result (IsEnabled self.old.input (state_in self.old) (choices.Worker worker)) }
        ensures entry { OnOk result (added.new ≡ entry_now self.old (choices.Worker worker)) }
        ensures kept { OnOk result (kept_copies self.old worker ≡ Some judged.entry.snapshot) }
        ensures answered { OnOk result ((q : ℕ) × (worker_at (state_in self.old) worker ≡ Some q) × (added.new ≡ Some (entries.Answered worker judged.entry.snapshot judged.entry.verdict (is_live (state_in self.old) q)))) }
        ensures fault { IfErr result (λ fault. IsAnswerFault self.old worker judged.entry fault) }
        ensures err { OnErr result (self.new ≡ self.old) }
        ensures place { OnErr result (added.new ≡ added.old) }
    {
        let machine = self.machine.view();
        let Turn::Ready(_, copies) = machine.workers.turn(worker) else {
            return Err(AnswerFault::NotEnabled(judged));
        };
        if !copies.get().is_same(judged.snapshot()) {
            return Err(AnswerFault::Differs(judged));
        }
        self.machine.answer(worker, judged.verdict(), added);
        let Some(entry) = &*added else { unreachable!() };
        let woken = woken_by(&self.machine, entry);
        self.first = woken.cursor(&self.machine, self.first);
        woken.wake(&self.machine, self.first, &mut self.asleep);
        note_choice(&mut self.made, Choice::Worker(worker));
        Ok(())
    }
}

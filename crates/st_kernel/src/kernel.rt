ghost use Rattle.std.specs.Prelude.{◌≡◌, ◌↔◌, ◌≤◌, [], reverse, None, Some, is_some, IfOk, IfSome, ℕ, true, OnOk, OnErr};
ghost use Rattle.st_law.specs.History.{looking_back};
ghost use Rattle.st_law.specs.Lawful.{Lawful};
ghost use Rattle.st_law.specs.Machine.{entry_of, IsEnabled, IsSettled};
ghost use Rattle.st_law.specs.Numbers.{drawn, IsLawfulByNumber};
ghost use Rattle.st_law.specs.State.{State, is_live, thread_count};
ghost use Rattle.st_learn.specs.SessionIn.{IsSessionIn};
ghost use Rattle.st_decide.specs.Machine.{Refines};
ghost use Rattle.st_reached.specs.Runnable.{CanRun};
ghost use Rattle.st_reached.specs.Waiting.{is_message_by};
ghost use Rattle.st_report.specs.ScheduleText.{repeats_of};
ghost use Rattle.st_trace.specs.declared.entry.Choice.TheVariants.{Thread, Worker};
ghost use Rattle.st_kernel.specs.Kernel.{drawn_of, entry_now, number_now, rested, state_in, trace_of, with_choice, Continues, HasMadeFirstEnabled, IsChosen, IsLiveNumber, IsNextEntry, IsPlayed, IsTried, NoneMoves};

use st_base::{Seq, Tid};
use st_compile::Compiled;
use st_decide::View;
use st_law::Input;
use st_learn::Session;
use st_machine::Machine;
use st_report::{Recorder, Repeat, note_choice};
use st_trace::{Choice, Entry};
use st_waking::woken_by;
use std::alloc::{AllocError, Global};
use std::marker::Model;
use thiserror::Error;

/// Why a choice wasn't made.
#[derive(Clone, Copy, Debug, PartialEq, Eq, Drop, Error)]
pub enum StepFault {
    /// The choice would add no entry.
    #[error("the choice is not enabled")]
    NotEnabled,
    #[error("out of memory")]
    NoMemory,
}

impl From<AllocError> for StepFault {
    ghost use Rattle.st_kernel.specs.declared.kernel.StepFault.TheVariants.{NoMemory};

    ghost from_gives = { λ _ fault. fault ≡ NoMemory };

    fn from(_error: AllocError) -> Self {
        StepFault::NoMemory
    }
}

// Whether a choice is enabled, according to the machine.
fn is_enabled(machine: &View<'_, '_>, choice: Choice) -> bool
    ensures { (st : State) → Refines machine.now st → result ≡ is_some (entry_of machine.now.input st choice) }
{
    match choice {
        Choice::Thread(tid) => machine.can_move(tid),
        Choice::Worker(worker) if 0 < worker && worker <= machine.worker_count() => {
            machine.can_serve(worker)
        }
        Choice::Worker(_) => false,
        Choice::Operator => machine.can_ask(),
    }
}

/// A run so far: its input, and the choices that were made.
pub struct Kernel<'a> {
    pub(crate) machine: Machine<'a>,
    // The choices that were made, with equal consecutive ones joined. There is room for the answer of each ready worker.
    pub(crate) made: Vec<Repeat>,
    // The cursor: no thread below it can move.
    pub(crate) first: Tid,
    // No thread that is marked here can move. Thread t is at index t - 1.
    pub(crate) asleep: Vec<bool>,
}

impl<'a> Model for Kernel<'a> {
    ghost use Rattle.std.specs.Coded.{codes};
    ghost use Rattle.st_filter.specs.FormulaCode.{formula_code};
    ghost use Rattle.st_report.specs.ScheduleText.{spelled_choices};
    ghost use Rattle.std.specs.Prelude.{vec_capacity, vec_len};
    ghost use Rattle.st_kernel.specs.Kernel.{HasRoom, RunSoFar, IsRunSoFar};

    ghost Value = { RunSoFar };

    ghost coded = { Prim.hlevel (codes, formula_code) };

    ghost view = { λ k. record { input = k.machine.input; choices = spelled_choices k.made.items } };

    ghost invariant = { λ k. IsRunSoFar k.machine k.made.items k.first k.asleep.items × HasRoom (record { input = k.machine.input; choices = spelled_choices k.made.items }) (vec_len k.made) (vec_capacity k.made) };
}

// Written out, so that whoever drops a kernel calls this, and doesn't drop its parts one by one.
impl<'a> Drop for Kernel<'a> {
    fn drop(self) {
        let Self {
            machine: _,
            made: _,
            first: _,
            asleep: _,
        } = self;
    }
}

impl<'a> Kernel<'a> {
    /// A run before its first choice.
    pub fn start(alloc: Global, input: &'a Input) -> Result<Self, AllocError>
        requires { CanRun input.now }
        ensures input { IfOk result (λ kernel. kernel.input ≡ input.now) }
        ensures choices { IfOk result (λ kernel. kernel.choices ≡ []) }
    {
        let asleep = vec![in alloc; false; input.start.threads.len()]?;
        Ok(Kernel {
            machine: Machine::start(alloc, input)?,
            made: Vec::new(alloc),
            first: 1,
            asleep,
        })
    }

    /// The input of the run.
    pub fn input(&self) -> &'a Input
        ensures { result.now ≡ self.now.input }
    {
        self.machine.input()
    }

    /// The policies of the input, compiled.
    pub fn compiled(&self) -> &Compiled<'a>
        ensures { result.now ≡ self.now.input.policies }
    {
        self.machine.compiled()
    }

    /// The session after the drawings of the trace, with the versions of policies in force.
    pub fn session(&self) -> &Session<'a>
        ensures { IsSessionIn (looking_back self.now.input (reverse (drawn (trace_of self.now)))) result.now }
    {
        self.machine.session()
    }

    /// The choices that were made, in order, with equal consecutive ones joined. Each was enabled when it was made, and each entry of the
    /// run that they make is lawful by the entries before it.
    pub fn schedule(&self) -> &[Repeat]
        ensures choices { result.now ≡ repeats_of self.now.choices }
        ensures enabled { IsPlayed self.now }
        ensures lawful { Lawful self.now.input (drawn_of self.now) }
        ensures numbers { IsLawfulByNumber self.now.input (trace_of self.now) }
    {
        self.made.as_slice()
    }

    /// The thread that holds the call of a number, if the number is live. No other thread holds it.
    pub fn holder(&self, seq: Seq) -> Option<Tid>
        ensures only { IfSome result (λ tid. (t q : ℕ) → is_live (state_in self.now) q ≡ true → number_now self.now q ≡ seq → is_message_by (state_in self.now) t q ≡ true → t ≡ tid) }
        ensures live { (is_some result ≡ true) ↔ IsLiveNumber self.now seq }
    {
        let machine = self.machine.view();
        let drawing = machine.workers.drawing(seq)?;
        machine.holder(drawing)
    }

    /// Whether a choice is enabled: it would add an entry now. It takes no memory.
    pub fn enabled(&self, choice: Choice) -> bool
        ensures { result ≡ is_some (entry_of self.now.input (state_in self.now) choice) }
    {
        is_enabled(&self.machine.view(), choice)
    }

    // Makes a choice and stores the entry that it adds, or none, in `added`. Returns whether it adds one. Room is made for this choice and
    // for the answer of each worker, since any may be ready after it. If memory runs out, the run and `added` are unchanged.
    pub(crate) fn choose(
        &mut self,
        alloc: Global,
        choice: Choice,
        added: &mut Option<Entry>,
    ) -> Result<bool, AllocError>
        ensures chosen { IfOk result (λ made. IsChosen self.old choice made added.new self.new) }
        ensures err { OnErr result (self.new ≡ self.old) }
        ensures place { OnErr result (added.new ≡ added.old) }
    {
        self.made
            .reserve(1 + self.machine.view().worker_count() as usize)?;
        self.machine.choose(alloc, choice, added)?;
        match added {
            Some(entry) => {
                let woken = woken_by(&self.machine, entry);
                self.first = woken.cursor(&self.machine, self.first);
                woken.wake(&self.machine, self.first, &mut self.asleep);
                note_choice(&mut self.made, choice);
                Ok(true)
            }
            None => Ok(false),
        }
    }

    /// Makes a choice and stores the entry that it adds in `added`. A choice that isn't enabled is refused, and `added` is then empty. If
    /// memory runs out, `added` is unchanged. In both cases the run is unchanged.
    pub fn advance(
        &mut self,
        alloc: Global,
        choice: Choice,
        added: &mut Option<Entry>,
    ) -> Result<(), StepFault>
        ensures ok { OnOk result (self.new ≡ with_choice self.old choice) }
        ensures enabled { OnOk result (IsEnabled self.old.input (state_in self.old) choice) }
        ensures entry { OnOk result (added.new ≡ entry_now self.old choice) }
        ensures not_enabled { result ≡ Err StepFault.NotEnabled → entry_of self.old.input (state_in self.old) choice ≡ None }
        ensures no_entry { result ≡ Err StepFault.NotEnabled → added.new ≡ None }
        ensures same_place { result ≡ Err StepFault.NoMemory → added.new ≡ added.old }
        ensures err { OnErr result (self.new ≡ self.old) }
    {
        if self.choose(alloc, choice, added)? {
            Ok(())
        } else {
            Err(StepFault::NotEnabled)
        }
    }

    // Tries to move a thread before which no thread can move. Stores the entry that this adds in `added`, and returns whether there is one.
    // A thread that can't move is marked as asleep, and isn't tried again until it is woken. If memory runs out, the run is unchanged.
    fn move_here(
        &mut self,
        alloc: Global,
        tid: Tid,
        added: &mut Option<Entry>,
    ) -> Result<bool, AllocError>
        requires from { 1 ≤ tid }
        requires to { tid ≤ thread_count self.old.input }
        requires before { NoneMoves self.old tid }
        ensures tried { IfOk result (λ moved. IsTried self.old (Thread tid) moved added.new self.new) }
        ensures err { OnErr result (self.new ≡ self.old) }
    {
        self.first = tid;
        let place = tid as usize - 1;
        if self.asleep[place] {
            return Ok(false);
        }
        if self.choose(alloc, Choice::Thread(tid), added)? {
            return Ok(true);
        }
        self.asleep[place] = true;
        Ok(false)
    }

    // Moves the first thread that can move. Stores the entry that this adds in `added`, and returns whether there is one. If memory runs
    // out, the run is unchanged.
    fn move_first(&mut self, alloc: Global, added: &mut Option<Entry>) -> Result<bool, AllocError>
        ensures made { IfOk result (λ made. HasMadeFirstEnabled Thread (thread_count self.old.input) self.old made added.new self.new) }
        ensures played { IsPlayed self.old }
        ensures err { OnErr result (self.new ≡ self.old) }
    {
        for tid in self.first..self.machine.view().thread_count() + 1 {
            if self.move_here(alloc, tid, added)? {
                return Ok(true);
            }
        }
        Ok(false)
    }

    // Moves the first worker that can move. Stores the entry that this adds in `added`, and returns whether there is one. If memory runs
    // out, the run is unchanged.
    fn serve_first(&mut self, alloc: Global, added: &mut Option<Entry>) -> Result<bool, AllocError>
        ensures made { IfOk result (λ made. HasMadeFirstEnabled Worker self.old.input.options.workers self.old made added.new self.new) }
        ensures err { OnErr result (self.new ≡ self.old) }
    {
        for worker in 1..self.machine.view().worker_count() + 1 {
            if self.choose(alloc, Choice::Worker(worker), added)? {
                return Ok(true);
            }
        }
        Ok(false)
    }

    // Makes the first enabled choice, stores the entry that it adds in `added`, and returns whether there is one. Threads come first, by
    // number, then workers by number, then the operator. Each is tried at once, since asking first whether it can move would cost as much.
    // If memory runs out, the run is unchanged.
    fn make_next(&mut self, alloc: Global, added: &mut Option<Entry>) -> Result<bool, AllocError>
        ensures made { IfOk result (λ made. IsNextEntry self.old made added.new self.new) }
        ensures played { IsPlayed self.old }
        ensures err { OnErr result (self.new ≡ self.old) }
    {
        if self.move_first(alloc, added)? {
            return Ok(true);
        }
        if self.serve_first(alloc, added)? {
            return Ok(true);
        }
        self.choose(alloc, Choice::Operator, added)
    }

    /// Makes the first enabled choice again and again until none is enabled, and gives each entry to the recorder. If memory runs out, the
    /// steps that were made so far remain.
    pub fn rest<R: Recorder>(&mut self, alloc: Global, recorder: &mut R) -> Result<(), AllocError>
        ensures ok { OnOk result (self.new ≡ rested self.old) }
        ensures settled { OnOk result (IsSettled self.new.input (state_in self.new)) }
        ensures on_the_way { rested self.new ≡ rested self.old }
        ensures made { Continues self.old self.new }
        ensures played { OnOk result (IsPlayed self.new) }
        ensures noted { OnOk result (R.has_noted recorder.old self.old.input (trace_of self.old) → R.has_noted recorder.new self.new.input (trace_of self.new)) }
    {
        self.rest_through(alloc, &mut None, recorder)
    }

    // Rests. Each entry is stored in `added` meanwhile.
    fn rest_through<R: Recorder>(
        &mut self,
        alloc: Global,
        added: &mut Option<Entry>,
        recorder: &mut R,
    ) -> Result<(), AllocError>
        ensures ok { OnOk result (self.new ≡ rested self.old) }
        ensures settled { OnOk result (IsSettled self.new.input (state_in self.new)) }
        ensures on_the_way { rested self.new ≡ rested self.old }
        ensures made { Continues self.old self.new }
        ensures played { OnOk result (IsPlayed self.new) }
        ensures noted { OnOk result (R.has_noted recorder.old self.old.input (trace_of self.old) → R.has_noted recorder.new self.new.input (trace_of self.new)) }
    {
        while self.make_next(alloc, added)? {
            let Some(entry) = &*added else { unreachable!() };
            recorder.note(alloc, self.input(), self.compiled(), self.session(), entry)?;
        }
        Ok(())
    }
}

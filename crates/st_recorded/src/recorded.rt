// A run whose entries are recorded, and whose tickets are posted, as they are made.
ghost use Rattle.std.specs.Prelude.{◌≡◌, ◌≤◌, [], Bool, false, IfOk};
ghost use Rattle.std.specs.Coded.{codes};
ghost use Rattle.atomic_table.specs.Seated.{TableId};
ghost use Rattle.st_filter.specs.FormulaCode.{formula_code};
ghost use Rattle.st_trace.specs.declared.entry.Choice.TheVariants as choices;
ghost use Rattle.st_law.specs.Machine.{IsSettled};
ghost use Rattle.st_law.specs.declared.input.Input.{Input};
ghost use Rattle.st_kernel.specs.Kernel.{rested, state_in, trace_of, IsLiveNumber};
ghost use Rattle.st_noted.specs.Steps.{IsAnswerTaken, MayHaveMade};
ghost use Rattle.st_reached.specs.Reached.{most_numbers};
ghost use Rattle.st_recorded.specs.Recorded.{IsStepRecorded, IsTicketUsed, IsWorkRecorded};

use crate::news::{News, news_of};
use crate::run::{Run, TicketUse};
use crate::tickets::catch_up;
use st_base::{Seq, Tid, Worker};
use st_filter::Judged;
use st_kernel::{Kernel, Work};
use st_law::Input;
use st_messages::{Poster, Ticket};
use st_noted::{LastEntry, steps};
use st_report::Recorder;
use st_trace::Choice;
use std::alloc::{AllocError, Global};
use std::marker::{Brand, Model, PhantomData};
use std::sync::Wait;

/// A name of a run: of its input, and of the queue of its tickets.
pub trait RunName {
    ghost input: { Input };

    ghost queue: { TableId };
}

// The name that a call picks.
impl RunName for Brand {
    ghost use Rattle.st_recorded.specs.Names.{no_input, no_queue};

    ghost input = { no_input };

    ghost queue = { no_queue };
}

// Makes the choices that are still enabled.
fn settle<'a, R: Recorder + Drop>(
    alloc: Global,
    kernel: Kernel<'a>,
    recorder: R,
) -> Result<(Kernel<'a>, R), AllocError>
    requires { ∥ R.has_noted recorder kernel.input (trace_of kernel) ∥₁ }
    ensures input { IfOk result (λ both. both.0.input ≡ kernel.entry.input) }
    ensures rested { IfOk result (λ both. both.0 ≡ rested kernel.entry) }
    ensures settled { IfOk result (λ both. IsSettled both.0.input (state_in both.0)) }
    ensures noted { IfOk result (λ both. ∥ R.has_noted both.1 both.0.input (trace_of both.0) ∥₁) }
{
    let (mut kernel, mut recorder) = (kernel, recorder);
    kernel.rest(alloc, &mut recorder)?;
    Ok((kernel, recorder))
}

/// A kernel of the input that `N` names, with what records its run, and the poster of the queue that `N` names. Unless it is stopped, each
/// entry of the run was recorded. There is a ticket for each drawing of the run, in order, and room for those of all that it can make.
#[derive(Drop)]
pub struct RecordedRun<'a, N: RunName, R: Recorder + Drop> {
    kernel: Kernel<'a>,
    recorder: R,
    poster: Poster,
    // The entry of the last step of a thread or a worker.
    added: LastEntry,
    // Whether memory ran out.
    stopped: bool,
    named: PhantomData<N>,
}

impl<'a, N: RunName, R: Recorder + Drop> Model for RecordedRun<'a, N, R> {
    ghost use Rattle.std.specs.Coded.{codes};
    ghost use Rattle.st_filter.specs.FormulaCode.{formula_code};
    ghost use Rattle.st_recorded.specs.Recorded.{IsRecorded, RecordedSoFar};

    ghost Value = { RecordedSoFar };

    ghost coded = { Prim.hlevel (codes, formula_code) };

    ghost view = { λ r. record { so_far = r.kernel; stopped = r.stopped } };

    ghost invariant = { λ r. IsRecorded N.input N.queue (R.has_noted r.recorder) (record { so_far = r.kernel; stopped = r.stopped }) r.poster };
}

impl<'a, N: RunName, R: Recorder + Drop> RecordedRun<'a, N, R> {
    /// A run whose entries so far were recorded, with a poster that hasn't posted. It posts tickets for the drawings made so far.
    pub fn new<T: Wait>(
        rt: &T,
        kernel: Kernel<'a>,
        recorder: R,
        poster: Poster,
    ) -> RecordedRun<'a, N, R>
        requires input { kernel.input ≡ N.input }
        requires noted { R.has_noted recorder kernel.input (trace_of kernel) }
        requires room { most_numbers kernel.input ≤ poster.capacity }
        requires none { poster.tickets ≡ [] }
        requires queue { poster.queue ≡ N.queue }
        ensures { result ≡ record { so_far = kernel.entry; stopped = false } }
    {
        let mut poster = poster;
        catch_up(rt, &mut poster, &kernel);
        RecordedRun {
            kernel,
            recorder,
            poster,
            added: LastEntry::none(),
            stopped: false,
            named: PhantomData,
        }
    }

    /// The input of the run.
    pub fn input(&self) -> &'a Input
        ensures { result.now ≡ N.input }
    {
        self.kernel.input()
    }

    /// The kernel, settled, and what recorded its run. Makes the choices that are still enabled.
    pub fn finish(self, alloc: Global) -> Result<(Kernel<'a>, R), AllocError>
        ensures input { IfOk result (λ both. both.0.input ≡ N.input) }
        ensures rested { IfOk result (λ both. both.0 ≡ rested self.entry.so_far) }
        ensures settled { IfOk result (λ both. IsSettled both.0.input (state_in both.0)) }
        ensures noted { IfOk result (λ both. ∥ R.has_noted both.1 both.0.input (trace_of both.0) ∥₁) }
    {
        let Self {
            kernel,
            recorder,
            poster,
            added,
            stopped,
            ..
        } = self;
        drop(poster);
        drop(added);
        if stopped {
            return Err(AllocError);
        }
        settle(alloc, kernel, recorder)
    }

    /// Makes a choice. Returns whether it was enabled. If memory runs out, the run is stopped.
    pub fn advance<T: Wait>(&mut self, rt: &T, alloc: Global, choice: Choice) -> bool
        ensures made { IsStepRecorded self.old choice result self.new }
        ensures step { MayHaveMade self.old.so_far choice self.new.so_far }
    {
        let made = steps::advance(
            &mut self.kernel,
            &mut self.recorder,
            alloc,
            choice,
            &mut self.added,
        );
        catch_up(rt, &mut self.poster, &self.kernel);
        match made {
            Ok(enabled) => enabled,
            Err(AllocError) => {
                self.stopped = true;
                false
            }
        }
    }

    /// Moves a worker, unless it is ready. If memory runs out, the run is stopped.
    pub fn work<T: Wait>(&mut self, rt: &T, alloc: Global, worker: Worker) -> Work
        ensures work { IsWorkRecorded self.old worker result self.new }
        ensures step { MayHaveMade self.old.so_far (choices.Worker worker) self.new.so_far }
    {
        let made = steps::work(
            &mut self.kernel,
            &mut self.recorder,
            alloc,
            worker,
            &mut self.added,
        );
        catch_up(rt, &mut self.poster, &self.kernel);
        match made {
            Ok(work) => work,
            Err(AllocError) => {
                self.stopped = true;
                Work::Idle
            }
        }
    }

    /// Lets an idle worker claim a call by a ticket. If the ticket's number isn't live, nothing changes. If memory runs out, the run is
    /// stopped.
    pub fn use_ticket<T: Wait>(
        &mut self,
        rt: &T,
        alloc: Global,
        worker: Worker,
        ticket: Ticket,
    ) -> TicketUse
        ensures skipped { (IsLiveNumber self.old.so_far ticket.seq → ⊥) → (self.new ≡ self.old) × (result ≡ TicketUse.Skipped) }
        ensures used { IsTicketUsed self.old worker ticket result self.new }
    {
        if !self.kernel.live(ticket.seq) {
            return TicketUse::Skipped;
        }
        match self.work(rt, alloc, worker) {
            Work::Idle => TicketUse::Spent,
            Work::Judge(_) => TicketUse::Claimed,
            Work::Went => TicketUse::Claimed,
        }
    }

    /// Answers under the number of a worker, if it is ready with this call. If memory runs out, the run is stopped.
    pub fn answer<T: Wait>(&mut self, rt: &T, alloc: Global, worker: Worker, judged: Judged<'a>)
        requires { judged.policies ≡ N.input.policies }
        ensures taken { (taken : Bool) × IsAnswerTaken self.old.so_far worker judged.entry.snapshot taken self.new.so_far }
        ensures step { MayHaveMade self.old.so_far (choices.Worker worker) self.new.so_far }
    {
        let made = steps::answer(&mut self.kernel, &mut self.recorder, alloc, worker, judged);
        catch_up(rt, &mut self.poster, &self.kernel);
        match made {
            Ok(_) => {}
            Err(AllocError) => self.stopped = true,
        }
    }
}

// Whether the script of an input starts a thread of its own.
fn script_starts(input: &Input, tid: Tid) -> bool {
    if tid == 0 {
        return false;
    }
    match input.start.threads.as_slice().get(tid as usize - 1) {
        Some(row) => row.process.is_some(),
        None => false,
    }
}

// What the last entry means for runners that wait, if there is one.
fn news_of_last(added: &LastEntry) -> News {
    match &added.entry {
        Some(entry) => news_of(entry),
        None => News::nothing(),
    }
}

impl<'a, N: RunName, R: Recorder + Drop> Run for RecordedRun<'a, N, R> {
    fn starts(&self, tid: Tid) -> bool {
        script_starts(self.kernel.input(), tid)
    }

    fn enabled(&self, choice: Choice) -> bool {
        self.kernel.enabled(choice)
    }

    fn holder(&self, seq: Seq) -> Option<Tid> {
        self.kernel.holder(seq)
    }

    fn is_stopped(&self) -> bool {
        self.stopped
    }

    fn news(&self) -> News {
        news_of_last(&self.added)
    }

    fn advance<T: Wait>(&mut self, rt: &T, alloc: Global, choice: Choice) -> bool {
        self.advance(rt, alloc, choice)
    }

    fn work<T: Wait>(&mut self, rt: &T, alloc: Global, worker: Worker) -> Work {
        self.work(rt, alloc, worker)
    }

    fn use_ticket<T: Wait>(
        &mut self,
        rt: &T,
        alloc: Global,
        worker: Worker,
        ticket: Ticket,
    ) -> TicketUse {
        self.use_ticket(rt, alloc, worker, ticket)
    }
}

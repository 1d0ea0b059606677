ghost use Rattle.std.specs.Prelude.{◌≡◌, IfOk, map};
ghost use Rattle.st_law.specs.Machine.{first_state};
ghost use Rattle.st_law.specs.State.{State, is_live};
ghost use Rattle.st_learn.specs.Answers.{AreAnswersIn};
ghost use Rattle.st_learn.specs.Operator.{IsAdded};
ghost use Rattle.st_learn.specs.SessionIn.{IsSessionIn};
ghost use Rattle.st_law.specs.Numbers.{in_use_now, no_numbers};
ghost use Rattle.st_workers.specs.Numbers.{HasNumbers};
ghost use Rattle.st_workers.specs.Refinement.{RepresentsMessages};
ghost use Rattle.st_decide.specs.Machine.{Refines};
ghost use Rattle.st_threads.specs.Thread.{first_row};
ghost use Rattle.st_reached.specs.Runnable.{CanRun};

use st_compile::Compiled;
use st_decide::View;
use st_law::Input;
use st_learn::{Answers, Operator, Session};
use st_system::System;
use st_threads::Thread;
use st_trace::ThreadRow;
use st_workers::Workers;
use std::alloc::{AllocError, Global};
use std::marker::Model;

/// The machine that runs: the modelled system, the messages under way with the workers that serve them, how far each thread has come, what
/// answers calls, and what the operator has added.
pub struct Machine<'a> {
    pub(crate) input: &'a Input,
    pub(crate) system: System,
    pub(crate) workers: Workers,
    // Thread t is at index t - 1.
    pub(crate) threads: Vec<Thread<'a>>,
    pub(crate) answers: Answers<'a>,
    pub(crate) operator: Operator<'a>,
}

// Written out, so that another crate that drops one calls this, and doesn't drop its parts one by one.
impl<'a> Drop for Machine<'a> {
    fn drop(self) {
        let Self {
            input: _,
            system: _,
            workers: _,
            threads: _,
            answers: _,
            operator: _,
        } = self;
    }
}

impl<'a> Model for Machine<'a> {
    ghost use Rattle.std.specs.Coded.{codes};
    ghost use Rattle.st_filter.specs.FormulaCode.{formula_code};
    ghost use Rattle.st_decide.specs.Machine.{RefinesSomeState, Running};

    ghost Value = { Running };

    ghost coded = { Prim.hlevel (codes, formula_code) };

    ghost view = { λ m. record { input = m.input.now; system = m.system; workers = m.workers; threads = m.threads.items; answers = m.answers; operator = m.operator } };

    ghost invariant = { λ m. RefinesSomeState (record { input = m.input.now; system = m.system; workers = m.workers; threads = m.threads.items; answers = m.answers; operator = m.operator }) };
}

// The threads of these rows, before their first step.
fn threads_of<'a>(alloc: Global, rows: &'a [ThreadRow]) -> Result<Vec<Thread<'a>>, AllocError>
    ensures { IfOk result (λ threads. threads.items ≡ map (λ row. first_row row.body) rows.now) }
{
    rows.iter()
        .map(|row| Thread::new(row.body.as_slice()))
        .collect(alloc)
}

// The workers and the threads of an input, before their first step.
fn workers_and_threads<'a>(
    alloc: Global,
    input: &'a Input,
) -> Result<(Workers, Vec<Thread<'a>>), AllocError>
    ensures workers { IfOk result (λ both. RepresentsMessages input.now (first_state input.now) (is_live (first_state input.now)) both.0) }
    ensures numbers { IfOk result (λ both. HasNumbers no_numbers both.0.calls) }
    ensures threads { IfOk result (λ both. both.1.items ≡ map (λ row. first_row row.body) input.now.start.threads) }
{
    let threads = threads_of(alloc, input.start.threads.as_slice())?;
    Ok((Workers::new(alloc, input.options.workers)?, threads))
}

// What answers calls under the policies of an input, and what the operator has added before the first step.
fn answers_and_operator<'a>(
    alloc: Global,
    input: &'a Input,
) -> Result<(Answers<'a>, Operator<'a>), AllocError>
    ensures answers { IfOk result (λ both. AreAnswersIn input.now (first_state input.now) both.0) }
    ensures operator { IfOk result (λ both. IsAdded input.now (first_state input.now) both.1) }
{
    let answers = Answers::build(alloc, &input.policies)?;
    Ok((answers, Operator::new(alloc, input.replies.as_slice())?))
}

// The parts of a machine beside its system, before the first step.
#[derive(Drop)]
struct Parts<'a> {
    workers: Workers,
    threads: Vec<Thread<'a>>,
    answers: Answers<'a>,
    operator: Operator<'a>,
}

fn parts_of<'a>(alloc: Global, input: &'a Input) -> Result<Parts<'a>, AllocError>
    ensures workers { IfOk result (λ parts. RepresentsMessages input.now (first_state input.now) (is_live (first_state input.now)) parts.workers) }
    ensures numbers { IfOk result (λ parts. HasNumbers no_numbers parts.workers.calls) }
    ensures threads { IfOk result (λ parts. parts.threads.items ≡ map (λ row. first_row row.body) input.now.start.threads) }
    ensures answers { IfOk result (λ parts. AreAnswersIn input.now (first_state input.now) parts.answers) }
    ensures operator { IfOk result (λ parts. IsAdded input.now (first_state input.now) parts.operator) }
{
    let (workers, threads) = workers_and_threads(alloc, input)?;
    let (answers, operator) = answers_and_operator(alloc, input)?;
    Ok(Parts {
        workers,
        threads,
        answers,
        operator,
    })
}

impl<'a> Machine<'a> {
    /// The machine that a run of an input starts with.
    pub fn start(alloc: Global, input: &'a Input) -> Result<Self, AllocError>
        requires { CanRun input.now }
        ensures input { IfOk result (λ machine. machine.input ≡ input.now) }
        ensures first { IfOk result (λ machine. Refines machine (first_state input.now)) }
        ensures numbers { IfOk result (λ machine. HasNumbers (in_use_now input.now (first_state input.now) no_numbers) machine.workers.calls) }
    {
        let system = System::start(alloc, input)?;
        let parts = parts_of(alloc, input)?;
        Ok(Machine {
            input,
            system,
            workers: parts.workers,
            threads: parts.threads,
            answers: parts.answers,
            operator: parts.operator,
        })
    }

    /// The input of the run.
    pub fn input(&self) -> &'a Input
        ensures { result.now ≡ self.now.input }
    {
        self.input
    }

    /// The policies of the input, those of the script included, compiled.
    pub fn compiled(&self) -> &Compiled<'a>
        ensures { result.now ≡ self.now.input.policies }
    {
        self.answers.compiled()
    }

    /// The session of each abstract state that the machine represents: its filters, and the versions in force.
    pub fn session(&self) -> &Session<'a>
        ensures { (st : State) → Refines self.now st → IsSessionIn st result.now }
    {
        self.operator.session()
    }

    /// A view of the machine in its current state.
    pub fn view(&self) -> View<'_, 'a>
        ensures { result ≡ self.now }
    {
        View {
            input: self.input,
            system: &self.system,
            workers: &self.workers,
            threads: &self.threads,
            answers: &self.answers,
            operator: &self.operator,
        }
    }
}

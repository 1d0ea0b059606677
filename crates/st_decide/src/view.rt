ghost use Rattle.std.specs.Prelude.{◌≡◌, ◌≤◌, ◌<◌, IfSome, Option, None, Some, length};
ghost use Rattle.st_base.specs.Numbered.{item_at_number};
ghost use Rattle.st_law.specs.State.{thread_count};

use st_base::Tid;
use st_law::Input;
use st_learn::{Answers, Operator};
use st_system::System;
use st_threads::Thread;
use st_workers::Workers;
use std::marker::Model;

/// A view of the machine that runs in its current state: the modelled system, the messages under way with the workers that serve them, how
/// far each thread has come, what answers calls, and what the operator has added.
#[derive(Debug, Drop)]
pub struct View<'v, 'a> {
    pub input: &'a Input,
    pub system: &'v System,
    pub workers: &'v Workers,
    /// Thread t is at index t - 1.
    pub threads: &'v [Thread<'a>],
    pub answers: &'v Answers<'a>,
    pub operator: &'v Operator<'a>,
}

impl<'v, 'a> Model for View<'v, 'a> {
    ghost use Rattle.std.specs.Coded.{codes};
    ghost use Rattle.st_filter.specs.FormulaCode.{formula_code};
    ghost use Rattle.st_decide.specs.Machine.{RefinesSomeState, Running};

    ghost Value = { Running };

    ghost coded = { Prim.hlevel (codes, formula_code) };

    ghost view = { λ v. record { input = v.input.now; system = v.system.now; workers = v.workers.now; threads = v.threads.now; answers = v.answers.now; operator = v.operator.now } };

    ghost invariant = { λ v. RefinesSomeState (record { input = v.input.now; system = v.system.now; workers = v.workers.now; threads = v.threads.now; answers = v.answers.now; operator = v.operator.now }) };
}

impl<'v, 'a> View<'v, 'a> {
    /// How many threads the script has.
    pub fn thread_count(&self) -> u32
        ensures count { result ≡ thread_count self.now.input }
        ensures threads { result ≡ length self.now.threads }
        ensures few { result ≤ 64 }
    {
        self.threads.len() as u32
    }

    /// How many workers there are.
    pub fn worker_count(&self) -> u32
        ensures workers { result ≡ self.now.workers.calls.workers }
        ensures input { result ≡ self.now.input.options.workers }
        ensures few { result ≤ 8 }
    {
        self.workers.workers()
    }

    // How far a thread has come; none iff the script has no such thread.
    pub(crate) fn thread(&self, tid: Tid) -> Option<&'v Thread<'a>>
        ensures none { result ≡ None → item_at_number self.now.threads tid ≡ None }
        ensures some { IfSome result (λ thread. item_at_number self.now.threads tid ≡ Some thread.now) }
    {
        self.threads.get((tid as usize).checked_sub(1)?)
    }
}

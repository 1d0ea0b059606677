// What runners share: what they take in turns, and what calls are judged by outside the lock.
ghost use Rattle.std.specs.Prelude.{◌≡◌, ◌≤◌, [], IfOk};
ghost use Rattle.std.specs.Coded.{codes};
ghost use Rattle.st_filter.specs.FormulaCode.{formula_code};
ghost use Rattle.st_law.specs.Machine.{IsSettled};
ghost use Rattle.st_reached.specs.Reached.{most_numbers};
ghost use Rattle.st_kernel.specs.Kernel.{state_in, trace_of};

use st_base::Worker;
use st_calls::{Snapshot, Verdict};
use st_compile::Compiled;
use st_desk::{Gate, Monitor, Turns};
use st_filter::Judged;
use st_kernel::Kernel;
use st_law::Input;
use st_messages::Poster;
use st_recorded::{RecordedRun, RunName};
use st_report::Recorder;
use std::alloc::{AllocError, Global};
use std::sync::Wait;

/// A run that runners take in turns, of the input and the queue that `N` names, with what calls are judged by outside the lock.
#[derive(Drop)]
pub struct Shared<'a, N: RunName, R: Recorder + Drop> {
    turns: Turns<RecordedRun<'a, N, R>>,
    input: &'a Input,
    compiled: Compiled<'a>,
    ghost of_input: { input.now ≡ N.input } by { Prim.hlevel (codes, formula_code) },
    ghost compiled_of: { compiled ≡ N.input.policies } by { Prim.hlevel (codes, formula_code) },
}

impl<'a, N: RunName, R: Recorder + Drop> Shared<'a, N, R> {
    /// A run that no runner has taken a turn of, with a poster that hasn't posted.
    pub fn new<T: Wait>(
        rt: &T,
        alloc: Global,
        kernel: Kernel<'a>,
        recorder: R,
        poster: Poster,
    ) -> Result<Shared<'a, N, R>, AllocError>
        requires input { kernel.input ≡ N.input }
        requires noted { R.has_noted recorder kernel.input (trace_of kernel) }
        requires room { most_numbers kernel.input ≤ poster.capacity }
        requires none { poster.tickets ≡ [] }
        requires queue { poster.queue ≡ N.queue }
    {
        let input = kernel.input();
        let run = RecordedRun::new(rt, kernel, recorder, poster);
        let compiled = Compiled::build(alloc, &input.policies)?;
        let threads = input.start.threads.len();
        let turns = Turns::new(alloc, run, threads, input.options.workers)?;
        let shared = Shared {
            turns,
            input,
            compiled,
        };
        Ok(shared)
    }

    /// The kernel, settled, and what recorded its run.
    pub fn finish(self) -> Result<(Kernel<'a>, R), AllocError>
        ensures input { IfOk result (λ both. both.0.input ≡ N.input) }
        ensures settled { IfOk result (λ both. IsSettled both.0.input (state_in both.0)) }
        ensures noted { IfOk result (λ both. ∥ R.has_noted both.1 both.0.input (trace_of both.0) ∥₁) }
    {
        let Self { turns, .. } = self;
        let alloc = turns.alloc();
        turns.into_run().finish(alloc)
    }
}

impl<'a, N: RunName, R: Recorder + Drop> Monitor<RecordedRun<'a, N, R>> for Shared<'a, N, R> {
    fn turns(&self) -> &Turns<RecordedRun<'a, N, R>> {
        &self.turns
    }

    fn judge<G: Gate, T: Wait>(
        &self,
        rt: &T,
        worker: Worker,
        gate: &G,
        copies: st_base::Shared<Snapshot>,
    ) {
        let seq = copies.get().seq;
        gate.pass(rt, worker, seq);
        let verdict = self.compiled.decide(copies.get());
        let is_unmatched = matches!(&verdict, Verdict::Unmatched);
        let judged = Judged::with(&self.input.policies, copies, verdict);
        let mut guard = self.turns.lock(rt);
        guard.run().answer(rt, self.turns.alloc(), worker, judged);
        self.turns.end_answer(guard, worker, seq, is_unmatched);
        gate.done(rt, worker, seq);
    }
}

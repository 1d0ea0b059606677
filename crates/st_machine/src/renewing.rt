// Gives held calls new drawings after a call that sets the ids of their process.
ghost use Rattle.std.specs.Prelude.{◌≡◌, true, slice_index_or, None, IfOk, OnErr};
ghost use Rattle.st_steps.specs.Making.{MakesCall};
ghost use Rattle.st_decide.specs.Machine.{SameState};
ghost use Rattle.st_decide.specs.NextSteps.{CanStep};
ghost use Rattle.st_decide.specs.declared.step.Step.TheVariants as steps;
ghost use Rattle.st_calls.specs.Call.{sets_ids};
ghost use Rattle.st_model.specs.Identity.{ids_after_set, set_refused};

use crate::machine::Machine;
use st_base::{Ids, Tid};
use st_decide::ReadyCall;
use st_request::Outcome;
use st_steps::{OwnCall, renew_others};
use st_threads::{CallingThread, RenewedCalls, WhichCalls, plan_renewals};
use st_trace::Change;
use std::alloc::{AllocError, Global};

impl<'a> Machine<'a> {
    // Makes a thread's call that sets these ids, and gives the other held calls of its process new drawings. The drawing of its own call is
    // in use until then. If memory runs out, the abstract state is unchanged.
    pub(crate) fn set_ids(
        &mut self,
        alloc: Global,
        tid: Tid,
        ready: &ReadyCall,
        set: Ids,
    ) -> Result<Outcome, AllocError>
        requires step { CanStep self.old tid (steps.Make ready.now) }
        requires sets { sets_ids ready.now.call ≡ true }
        requires refused { set_refused ready.now.call ready.now.ids (slice_index_or ready.now.regs 0 0) ≡ None }
        requires set { ids_after_set ready.now.call ready.now.ids (slice_index_or ready.now.regs 0 0) ≡ set }
        ensures made { IfOk result (λ outcome. MakesCall self.old tid ready.now outcome self.new) }
        ensures err { OnErr result (SameState self.old self.new) }
        ensures input { self.new.input ≡ self.old.input }
    {
        let caller = CallingThread {
            pid: ready.pid,
            tid,
        };
        let calls = RenewedCalls {
            which: WhichCalls::OthersOf(caller),
            version: self
                .operator
                .version(self.system.policy(ready.pid).get().bytes()),
        };
        let first = Some(Change::SetIds(set));
        let plan = plan_renewals(alloc, &self.threads, &self.system, calls, first)?;
        let request = self.view().request_with(tid, ready);
        let outcome = self.system.execute(alloc, ready.call, &request)?;
        let own = OwnCall {
            caller,
            drawing: ready.drawing,
        };
        let changes = renew_others(
            &mut self.threads,
            &mut self.workers,
            &self.system,
            own,
            plan,
        );
        Ok(Outcome {
            result: outcome.result,
            changes,
        })
    }
}

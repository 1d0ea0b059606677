// Makes calls, and ends the threads and held calls that their changes end.
ghost use Rattle.std.specs.Prelude.{◌≡◌, IfOk, OnOk, OnErr};
ghost use Rattle.st_steps.specs.Making.{MakesCall, RenewsNone};
ghost use Rattle.st_decide.specs.Machine.{IsStep, SameState};
ghost use Rattle.st_decide.specs.NextSteps.{CanStep};
ghost use Rattle.st_decide.specs.declared.step.Step.TheVariants as steps;
ghost use Rattle.st_trace.specs.declared.entry.Choice.TheVariants.{Thread};

use crate::machine::Machine;
use crate::placing::leave;
use st_base::Tid;
use st_decide::ReadyCall;
use st_procs::ids_after;
use st_request::Outcome;
use st_steps::{OwnCall, end_made};
use st_threads::CallingThread;
use st_trace::Entry;
use std::alloc::{AllocError, Global};

impl<'a> Machine<'a> {
    // Makes a thread's call that renews no held calls. If memory runs out, the abstract state is unchanged.
    fn make(&mut self, alloc: Global, tid: Tid, ready: &ReadyCall) -> Result<Outcome, AllocError>
        requires step { CanStep self.old tid (steps.Make ready.now) }
        requires renews_none { RenewsNone ready.now }
        ensures made { IfOk result (λ outcome. MakesCall self.old tid ready.now outcome self.new) }
        ensures err { OnErr result (SameState self.old self.new) }
        ensures input { self.new.input ≡ self.old.input }
    {
        let request = self.view().request_with(tid, ready);
        let outcome = self.system.execute(alloc, ready.call, &request)?;
        let own = OwnCall {
            caller: CallingThread {
                pid: ready.pid,
                tid,
            },
            drawing: ready.drawing,
        };
        let changes = outcome.changes.as_slice();
        end_made(
            &mut self.threads,
            &mut self.workers,
            &self.system,
            own,
            changes,
        );
        Ok(outcome)
    }

    // Makes any call of a thread. Unless a call that sets ids is refused, each other held call of its process gets a new drawing, in the
    // order of threads. If memory runs out, the abstract state is unchanged.
    fn make_any(
        &mut self,
        alloc: Global,
        tid: Tid,
        ready: &ReadyCall,
    ) -> Result<Outcome, AllocError>
        requires { CanStep self.old tid (steps.Make ready.now) }
        ensures made { IfOk result (λ outcome. MakesCall self.old tid ready.now outcome self.new) }
        ensures err { OnErr result (SameState self.old self.new) }
        ensures input { self.new.input ≡ self.old.input }
    {
        if !ready.call.sets_ids() {
            return self.make(alloc, tid, ready);
        }
        match ids_after(ready.call, ready.ids, ready.regs[0]) {
            Ok(set) => self.set_ids(alloc, tid, ready, set),
            Err(_) => self.make(alloc, tid, ready),
        }
    }

    // Makes a thread's call and stores its entry in `added`. If memory runs out, the abstract state is unchanged.
    pub(crate) fn use_call(
        &mut self,
        alloc: Global,
        tid: Tid,
        ready: ReadyCall,
        added: &mut Option<Entry>,
    ) -> Result<(), AllocError>
        requires { CanStep self.old tid (steps.Make ready) }
        ensures step { OnOk result (IsStep self.old (Thread tid) added.new self.new) }
        ensures err { OnErr result (SameState self.old self.new) }
        ensures place { OnErr result (added.new ≡ added.old) }
        ensures input { self.new.input ≡ self.old.input }
    {
        let seq = self.workers.seq_if(ready.drawing);
        let outcome = self.make_any(alloc, tid, &ready)?;
        leave(
            added,
            ready.entry(tid, seq, outcome.result, outcome.changes),
        );
        Ok(())
    }
}

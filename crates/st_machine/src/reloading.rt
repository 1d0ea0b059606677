// Reloads: the script's policy with a number is put in force for its binary, and the held calls under that policy get new drawings.
ghost use Rattle.std.specs.Prelude.{◌≡◌, ◌<◌, ◌≤◌, ◌+◌, ◌^◌, ◌++◌, All, List, length, vec_capacity, OnOk, OnErr};
ghost use Rattle.st_lookaside.specs.Need.{IsShort};
ghost use Rattle.st_threads.specs.Renewing.{calls_from, cwds_of, pids_of, renewals_from, AreNumberedFrom, CanRenew, HaveRenewed};
ghost use Rattle.st_trace.specs.declared.entry.Change.{Change};
ghost use Rattle.st_workers.specs.Numbers.{AreFew};
ghost use Rattle.st_decide.specs.Machine.{IsNextStep, IsStep, SameState};
ghost use Rattle.st_decide.specs.declared.step.Step.TheVariants as steps;
ghost use Rattle.st_trace.specs.declared.entry.Choice.TheVariants as choices;

use crate::machine::Machine;
use crate::placing::leave;
use st_base::{Sequence, Tid};
use st_system::System;
use st_threads::{RenewalPlan, RenewedCalls, Thread, WhichCalls, plan_renewals, renew_all};
use st_trace::{Change, Entry};
use st_workers::Workers;
use std::alloc::{AllocError, Global};

// Gives these held calls new drawings. Returns the changes, with the numbers that the calls had and have got.
#[inline(always)]
fn renew_calls(
    threads: &mut Vec<Thread<'_>>,
    workers: &mut Workers,
    system: &System,
    which: WhichCalls<'_>,
    plan: RenewalPlan,
) -> Sequence<Change>
    requires few { length threads.old.items < 2 ^ 31 }
    requires calls { CanRenew workers.old (calls_from (pids_of system.now.processes which) 1 threads.old.items) }
    requires room { workers.old.calls.next + length threads.old.items < 2 ^ 64 }
    requires in_use { AreFew workers.old.calls }
    requires cwds { plan.cwds.items ≡ cwds_of system.now.processes (calls_from (pids_of system.now.processes which) 1 threads.old.items) }
    requires short { All IsShort plan.cwds.items }
    requires space { length plan.changes.items + length plan.cwds.items ≤ vec_capacity plan.changes }
    ensures renewed { HaveRenewed system.now.processes (pids_of system.now.processes which.entry) plan.version threads.old.items workers.old threads.new.items workers.new }
    ensures changes { (given : List Change) × (result ≡ plan.changes.items ++ given) × AreNumberedFrom workers.old (renewals_from workers.old.calls.next (calls_from (pids_of system.now.processes which.entry) 1 threads.old.items)) given }
{
    Sequence::of(renew_all(threads, workers, system, which, plan))
}

impl<'a> Machine<'a> {
    // Puts the script's policy with this number in force for its binary, and gives the held calls under that policy new drawings, in the
    // order of threads. All memory is taken before anything changes: if it runs out, the abstract state is unchanged.
    pub(crate) fn reload(
        &mut self,
        alloc: Global,
        tid: Tid,
        policy: u32,
        added: &mut Option<Entry>,
    ) -> Result<(), AllocError>
        requires { IsNextStep self.old tid (steps.Reload policy) }
        ensures step { OnOk result (IsStep self.old (choices.Thread tid) added.new self.new) }
        ensures err { OnErr result (SameState self.old self.new) }
        ensures place { OnErr result (added.new ≡ added.old) }
        ensures input { self.new.input ≡ self.old.input }
    {
        let Some(block) = self.input.policies.block(policy) else {
            unreachable!()
        };
        let binary = block.binary.bytes();
        let which = WhichCalls::Under(binary);
        let calls = RenewedCalls {
            which,
            version: policy,
        };
        let plan = plan_renewals(alloc, &self.threads, &self.system, calls, None)?;
        self.operator.reload(alloc, &mut self.answers, policy)?;
        self.threads[tid as usize - 1].go_on();
        let changes = renew_calls(
            &mut self.threads,
            &mut self.workers,
            &self.system,
            which,
            plan,
        );
        leave(
            added,
            Entry::Reloaded {
                tid,
                policy,
                done: true,
                changes,
            },
        );
        Ok(())
    }

    // Refuses a thread's reload: nothing changes but the thread's place.
    pub(crate) fn refuse_reload(
        &mut self,
        alloc: Global,
        tid: Tid,
        policy: u32,
        added: &mut Option<Entry>,
    )
        requires { IsNextStep self.old tid (steps.RefuseReload policy) }
        ensures step { IsStep self.old (choices.Thread tid) added.new self.new }
        ensures input { self.new.input ≡ self.old.input }
    {
        self.threads[tid as usize - 1].go_on();
        let changes = Sequence::new(alloc);
        leave(
            added,
            Entry::Reloaded {
                tid,
                policy,
                done: false,
                changes,
            },
        );
    }
}

// The steps of threads. Each changes the machine as its entry says, and stores the entry in the caller's `added`. An entry has many words,
// so it is written once and not passed on. It is written when nothing can fail any more, so that `added` is unchanged if a step fails.
ghost use Rattle.std.specs.Prelude.{◌≡◌, OnOk, OnErr};
ghost use Rattle.st_decide.specs.Machine.{IsNextStep, IsStep, SameState};
ghost use Rattle.st_decide.specs.NextSteps.{CanStep};
ghost use Rattle.st_decide.specs.declared.step.Step.TheVariants as steps;
ghost use Rattle.st_trace.specs.declared.entry.Choice.TheVariants.{Thread};

use crate::machine::Machine;
use crate::placing::{leave, leave_none};
use st_base::Tid;
use st_decide::{DeniedCall, FailedCall, Step, StoredWord};
use st_threads::end_call;
use st_trace::Entry;
use std::alloc::{AllocError, Global};

impl<'a> Machine<'a> {
    // Ends a thread, and its process if this was its last thread.
    fn end(&mut self, tid: Tid, added: &mut Option<Entry>)
        requires { IsNextStep self.old tid steps.End }
        ensures step { IsStep self.old (Thread tid) added.new self.new }
        ensures input { self.new.input ≡ self.old.input }
    {
        self.system.end_thread(tid);
        self.threads[tid as usize - 1].end();
        leave(added, Entry::Ended { tid });
    }

    // Stores a word for a thread. If memory runs out for the copy of a shared page, nothing changes.
    fn store(
        &mut self,
        alloc: Global,
        tid: Tid,
        stored: StoredWord,
        added: &mut Option<Entry>,
    ) -> Result<(), AllocError>
        requires { IsNextStep self.old tid (steps.Store stored) }
        ensures step { OnOk result (IsStep self.old (Thread tid) added.new self.new) }
        ensures err { OnErr result (SameState self.old self.new) }
        ensures place { OnErr result (added.new ≡ added.old) }
        ensures input { self.new.input ≡ self.old.input }
    {
        let StoredWord { place, word } = stored;
        self.system.store(alloc, tid, place, word)?;
        self.threads[tid as usize - 1].go_on();
        leave(added, Entry::Stored { tid, place, word });
        Ok(())
    }

    // Lets a thread's call that isn't held fail before it is made.
    fn fail(&mut self, alloc: Global, tid: Tid, failed: FailedCall, added: &mut Option<Entry>)
        requires { IsNextStep self.old tid (steps.Fail failed) }
        ensures step { IsStep self.old (Thread tid) added.new self.new }
        ensures input { self.new.input ≡ self.old.input }
    {
        self.threads[tid as usize - 1].close();
        leave(added, failed.entry(alloc, tid));
    }

    // Denies a thread's call. The drawing of a held call ends.
    fn deny(&mut self, tid: Tid, denied: DeniedCall, added: &mut Option<Entry>)
        requires { IsNextStep self.old tid (steps.Deny denied) }
        ensures step { IsStep self.old (Thread tid) added.new self.new }
        ensures input { self.new.input ≡ self.old.input }
    {
        self.threads[tid as usize - 1].close();
        let seq = self.workers.seq_if(denied.drawing);
        end_call(&mut self.workers, denied.drawing);
        leave(added, denied.entry(tid, seq));
    }

    // Does a thread's next step. A step that waits adds no entry. If memory runs out, the abstract state is unchanged.
    fn act(
        &mut self,
        alloc: Global,
        tid: Tid,
        step: Step,
        added: &mut Option<Entry>,
    ) -> Result<(), AllocError>
        requires { CanStep self.old tid step }
        ensures step { OnOk result (IsStep self.old (Thread tid) added.new self.new) }
        ensures err { OnErr result (SameState self.old self.new) }
        ensures place { OnErr result (added.new ≡ added.old) }
        ensures input { self.new.input ≡ self.old.input }
    {
        match step {
            Step::Enter(new) => self.enter(alloc, tid, &new, added),
            Step::Make(ready) => self.use_call(alloc, tid, ready, added),
            Step::Wait => {
                leave_none(added);
                Ok(())
            }
            Step::End => {
                self.end(tid, added);
                Ok(())
            }
            Step::Store(stored) => self.store(alloc, tid, stored, added),
            Step::Fail(failed) => {
                self.fail(alloc, tid, failed, added);
                Ok(())
            }
            Step::Deny(denied) => {
                self.deny(tid, denied, added);
                Ok(())
            }
            Step::Reload(policy) => self.reload(alloc, tid, policy, added),
            Step::RefuseReload(policy) => {
                self.refuse_reload(alloc, tid, policy, added);
                Ok(())
            }
        }
    }

    /// Moves a thread and stores the entry that this adds in `added`, or none if the thread can't move. If memory runs out, the abstract
    /// state is unchanged.
    pub fn move_thread(
        &mut self,
        alloc: Global,
        tid: Tid,
        added: &mut Option<Entry>,
    ) -> Result<(), AllocError>
        ensures step { OnOk result (IsStep self.old (Thread tid) added.new self.new) }
        ensures err { OnErr result (SameState self.old self.new) }
        ensures place { OnErr result (added.new ≡ added.old) }
        ensures input { self.new.input ≡ self.old.input }
    {
        let step = self.view().next_step(alloc, tid)?;
        self.act(alloc, tid, step, added)
    }
}

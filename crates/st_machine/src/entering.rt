// Enters calls: fast, barred, untraced, or held under the next drawing.
ghost use Rattle.std.specs.Prelude.{◌≡◌, OnOk, OnErr};
ghost use Rattle.st_decide.specs.Entering.{IsKeptAnswer, IsUnposted, IsWayOf};
ghost use Rattle.st_decide.specs.Machine.{IsNextStep, IsStep, SameState};
ghost use Rattle.st_decide.specs.NextSteps.{CanStep};
ghost use Rattle.st_decide.specs.declared.step.Step.TheVariants as steps;
ghost use Rattle.st_threads.specs.Ways.{drawn_way};
ghost use Rattle.st_trace.specs.declared.entry.Choice.TheVariants.{Thread};
ghost use Rattle.st_trace.specs.declared.entry.Way.TheVariants.{Held};

use crate::machine::Machine;
use crate::placing::leave;
use st_base::Tid;
use st_calls::FastAnswer;
use st_decide::{NewCall, NewWay};
use st_threads::CallWay;
use st_trace::{Entry, Way};
use std::alloc::{AllocError, Global};

// The way of a call that isn't held, as its entry has it.
fn way_unheld(way: CallWay) -> Way
    requires { IsUnposted (drawn_way way) }
    ensures { result ≡ drawn_way way }
{
    match way {
        CallWay::Fast => Way::Fast,
        CallWay::Barred(number) => Way::Barred(number),
        CallWay::Held(_) => unreachable!(),
        CallWay::Untraced => Way::Untraced,
    }
}

impl<'a> Machine<'a> {
    // Enters a thread's call that isn't held.
    fn enter_unheld(&mut self, tid: Tid, new: &NewCall, chosen: NewWay, added: &mut Option<Entry>)
        requires next { IsNextStep self.old tid (steps.Enter new.now) }
        requires way { IsWayOf self.old tid new.now (drawn_way chosen.way) }
        requires answer { IsKeptAnswer self.old tid new.now (drawn_way chosen.way) chosen.answer }
        requires unposted { IsUnposted (drawn_way chosen.way) }
        ensures step { IsStep self.old (Thread tid) added.new self.new }
        ensures input { self.new.input ≡ self.old.input }
    {
        self.threads[tid as usize - 1].enter(new.call, new.regs, chosen.way, chosen.answer);
        let entered = way_unheld(chosen.way);
        leave(
            added,
            Entry::Entered {
                tid,
                call: new.call,
                regs: new.regs,
                way: entered,
            },
        );
    }

    // Enters a thread's call that is held under the next drawing, and posts its message. If memory runs out, the abstract state is
    // unchanged.
    fn enter_held(
        &mut self,
        alloc: Global,
        tid: Tid,
        new: &NewCall,
        added: &mut Option<Entry>,
    ) -> Result<(), AllocError>
        requires step { CanStep self.old tid (steps.Enter new.now) }
        requires way { IsWayOf self.old tid new.now (Held self.old.workers.calls.next) }
        ensures step { OnOk result (IsStep self.old (Thread tid) added.new self.new) }
        ensures err { OnErr result (SameState self.old self.new) }
        ensures place { OnErr result (added.new ≡ added.old) }
        ensures input { self.new.input ≡ self.old.input }
    {
        let head = self.view().head_of(new)?;
        let drawing = head.drawing;
        let seq = head.seq;
        self.workers.post(alloc, tid, head)?;
        let way = CallWay::Held(drawing);
        self.threads[tid as usize - 1].enter(new.call, new.regs, way, FastAnswer::Ask);
        leave(
            added,
            Entry::Entered {
                tid,
                call: new.call,
                regs: new.regs,
                way: Way::Held(seq),
            },
        );
        Ok(())
    }

    // Enters the call of a thread's next instruction. If memory runs out, the abstract state is unchanged.
    pub(crate) fn enter(
        &mut self,
        alloc: Global,
        tid: Tid,
        new: &NewCall,
        added: &mut Option<Entry>,
    ) -> Result<(), AllocError>
        requires { CanStep self.old tid (steps.Enter new.now) }
        ensures step { OnOk result (IsStep self.old (Thread tid) added.new self.new) }
        ensures err { OnErr result (SameState self.old self.new) }
        ensures place { OnErr result (added.new ≡ added.old) }
        ensures input { self.new.input ≡ self.old.input }
    {
        let chosen = self.view().way_of(tid, new);
        match chosen.way {
            CallWay::Held(_) => self.enter_held(alloc, tid, new, added),
            CallWay::Fast | CallWay::Barred(_) | CallWay::Untraced => {
                self.enter_unheld(tid, new, chosen, added);
                Ok(())
            }
        }
    }
}

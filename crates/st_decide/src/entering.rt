// How calls are entered: fast, barred, untraced, or held under the next drawing.
ghost use Rattle.std.specs.Prelude.{IfOk};
ghost use Rattle.st_model.specs.Processes.{IsPid};
ghost use Rattle.st_decide.specs.Entering.{IsHeadOf, IsKeptAnswer, IsWayOf};
ghost use Rattle.st_decide.specs.NextSteps.{IsInProcess};
ghost use Rattle.st_threads.specs.Ways.{drawn_way};

use crate::step::{NewCall, NewWay};
use crate::view::View;
use st_base::Tid;
use st_calls::{FastAnswer, Rule};
use st_lookaside::Head;
use st_threads::CallWay;
use std::alloc::{AllocError, Global};

impl<'v, 'a> View<'v, 'a> {
    /// How a thread's call goes on. A call that has to be judged is held under the next drawing.
    pub fn way_of(&self, tid: Tid, new: &NewCall) -> NewWay
        requires { IsInProcess self.now.system tid new.now.pid }
        ensures way { IsWayOf self.now tid new.now (drawn_way result.way) }
        ensures answer { IsKeptAnswer self.now tid new.now (drawn_way result.way) result.answer }
    {
        if !self.system.traced(new.pid) {
            return NewWay {
                way: CallWay::Untraced,
                answer: FastAnswer::Permit,
            };
        }
        let answer = self.answer(new.pid, new.call, &new.regs);
        let way = match answer {
            FastAnswer::Permit => CallWay::Fast,
            FastAnswer::Refuse(_) => CallWay::Barred(1),
            FastAnswer::Ask => CallWay::Held(self.workers.next_drawing()),
        };
        NewWay { way, answer }
    }

    /// The head of the message of a call that is held under the next drawing. It has the version of its policy that is in force now.
    pub fn head_of(&self, new: &NewCall) -> Result<Head, AllocError>
        requires { IsPid self.now.system.processes new.now.pid }
        ensures { IfOk result (IsHeadOf self.now new.now) }
    {
        let policy = self.system.policy(new.pid);
        Ok(Head {
            drawing: self.workers.next_drawing(),
            seq: self.workers.next_seq(),
            pid: new.pid,
            ids: self.system.ids(new.pid),
            cwd: self.system.cwd(new.pid).share()?,
            policy: policy.share()?,
            version: self.operator.version(policy.get().bytes()),
            rule: Rule::of(new.call, &new.regs, self.input.options.aliasing),
            call: new.call,
            regs: new.regs,
        })
    }
}

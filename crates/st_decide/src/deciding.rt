// Decides what a thread does next, as in the law's machine.
ghost use Rattle.std.specs.Prelude.{◌≡◌, ℕ, Some, IfOk};
ghost use Rattle.st_calls.specs.declared.judged.Verdict.TheVariants.{Unmatched};
ghost use Rattle.st_decide.specs.Machine.{Refines, IsNextStep};
ghost use Rattle.st_decide.specs.NextSteps.{CanBeDone, HasEntered, HoldsDrawing, IsAnswerOf, IsDecidedStep, IsDecision, IsHeldStep, IsInProcess, IsPendingOf, IsPendingStep, IsPermittedStep, IsUnheldStep};
ghost use Rattle.st_decide.specs.Step.{step_entry};
ghost use Rattle.st_decide.specs.declared.step.Step.TheVariants as steps;
ghost use Rattle.st_law.specs.declared.input.Input.{Input};
ghost use Rattle.st_law.specs.Machine.{barred_entry};
ghost use Rattle.st_law.specs.State.{State};
ghost use Rattle.st_messages.specs.Messages.{message_state};
ghost use Rattle.st_messages.specs.declared.message.MsgState.TheVariants.{Answered};
ghost use Rattle.st_model.specs.Processes.{IsPid};
ghost use Rattle.st_system.specs.System.{Parts};
ghost use Rattle.st_workers.specs.Refinement.{HasAnswer, IsMessageStateOf};

use crate::step::{DeniedCall, FailedCall, ReadyCall, Step};
use crate::view::View;
use st_arguments::Arguments;
use st_base::{Drawing, Errno, Ids, Pid, Tid};
use st_calls::{FastAnswer, Rule, SysCall, Verdict};
use st_messages::MsgState;
use st_threads::{CallWay, CallingThread, PendingCall, Thread};
use st_trace::{CallArgs, Cause};
use std::alloc::{AllocError, Global};

// A step that denies a held call.
fn deny(drawing: Drawing, errno: Errno, cause: Cause) -> Step
    ensures { result ≡ steps.Deny (record { drawing = Some drawing; errno = errno; cause = cause }) }
{
    Step::Deny(DeniedCall {
        drawing: Some(drawing),
        errno,
        cause,
    })
}

// A barred call is denied with the kernel's own answer to it, as it was when the call was entered.
fn barred_step(number: u32, answer: FastAnswer) -> Step
    ensures step { (i : Input) (st : State) (t : ℕ) → barred_entry t number answer ≡ step_entry i st t result }
    ensures can { (parts : Parts) (t : ℕ) → CanBeDone parts t result }
{
    match answer {
        FastAnswer::Refuse(errno) => Step::Deny(DeniedCall {
            drawing: None,
            errno,
            cause: Cause::Filter(number),
        }),
        FastAnswer::Permit | FastAnswer::Ask => Step::Wait,
    }
}

impl<'v, 'a> View<'v, 'a> {
    /// What a thread does next.
    pub fn next_step(&self, alloc: Global, tid: Tid) -> Result<Step, AllocError>
        ensures step { IfOk result (IsNextStep self.now tid) }
        ensures can { IfOk result (CanBeDone self.now.system tid) }
    {
        let Some(thread) = self.thread(tid) else {
            return Ok(Step::Wait);
        };
        let Some(pid) = self.system.pid_of(tid) else {
            return Ok(Step::Wait);
        };
        if thread.has_ended() {
            return Ok(Step::Wait);
        }
        if thread.is_dying() {
            return Ok(Step::End);
        }
        match thread.pending() {
            None => Ok(self.instruction_step(CallingThread { pid, tid }, thread.left())),
            Some(entered) => self.pending_step(alloc, CallingThread { pid, tid }, thread, entered),
        }
    }

    // What a thread does next that has entered a call.
    fn pending_step(
        &self,
        alloc: Global,
        caller: CallingThread,
        thread: &Thread<'_>,
        entered: PendingCall,
    ) -> Result<Step, AllocError>
        requires { IsPendingOf self.now caller.tid caller.pid entered thread.now }
        ensures step { IfOk result (IsPendingStep self.now caller.tid entered) }
        ensures can { IfOk result (CanBeDone self.now.system caller.tid) }
    {
        match entered.way {
            CallWay::Fast | CallWay::Untraced => self.unheld_step(alloc, caller, entered),
            CallWay::Barred(number) => Ok(barred_step(number, thread.answer())),
            CallWay::Held(_) => self.held_step(alloc, caller, thread.drawing()),
        }
    }

    // The kernel's own answer for a call of a process.
    pub(crate) fn answer(&self, pid: Pid, call: SysCall, regs: &[u64; 6]) -> FastAnswer
        requires { IsPid self.now.system.processes pid }
        ensures { IsAnswerOf self.now pid call regs.now result }
    {
        let rule = Rule::of(call, regs, self.input.options.aliasing);
        let policy = self.system.policy(pid).get().bytes();
        self.answers.own(policy, rule)
    }

    // A call that isn't held does its copies, its looks and its effect in one step.
    fn unheld_step(
        &self,
        alloc: Global,
        caller: CallingThread,
        entered: PendingCall,
    ) -> Result<Step, AllocError>
        requires { HasEntered self.now caller.tid caller.pid entered }
        ensures step { IfOk result (IsUnheldStep self.now caller.tid entered) }
        ensures can { IfOk result (CanBeDone self.now.system caller.tid) }
    {
        let CallingThread { pid, tid } = caller;
        let PendingCall { call, regs, .. } = entered;
        let ids = self.system.ids(pid);
        let aliasing = self.input.options.aliasing;
        let args = match self.system.arguments(alloc, tid, call, &regs, aliasing)? {
            Arguments::Ready(args) => args,
            Arguments::Stuck(errno) => {
                return Ok(Step::Fail(FailedCall {
                    call,
                    regs,
                    ids,
                    errno,
                }));
            }
        };
        let link = self
            .system
            .link_met(alloc, call, &regs, args.as_slice(), aliasing)?;
        Ok(match link {
            None => Step::Make(ReadyCall {
                pid,
                drawing: None,
                call,
                regs,
                args: CallArgs::own(args),
                ids,
            }),
            Some(_) => Step::Fail(FailedCall {
                call,
                regs,
                ids,
                errno: Errno::ELOOP,
            }),
        })
    }

    // A held call waits until it is faulted or answered.
    fn held_step(
        &self,
        alloc: Global,
        caller: CallingThread,
        drawing: Drawing,
    ) -> Result<Step, AllocError>
        requires { HoldsDrawing self.now caller.tid caller.pid drawing }
        ensures step { IfOk result (IsHeldStep self.now caller.tid drawing) }
        ensures can { IfOk result (CanBeDone self.now.system caller.tid) }
    {
        let Some(state) = self.workers.state(drawing) else {
            return Ok(Step::Wait);
        };
        match state {
            MsgState::Answered(read) => self.decided_step(alloc, caller, drawing, read),
            MsgState::Faulted(errno) => Ok(deny(drawing, errno, Cause::Fault)),
            _ => Ok(Step::Wait),
        }
    }

    // The decision on an answered call on which the filters in force have this verdict; none if the call is a question.
    fn decision(&self, drawing: Drawing, read: Verdict) -> Option<Verdict>
        requires here { message_state self.now.workers.calls drawing ≡ Some (Answered read) }
        requires come { (st : State) → Refines self.now st → IsMessageStateOf self.now.input st drawing (Some (Answered read)) }
        ensures { IsDecision self.now drawing read result }
    {
        match read {
            Verdict::Unmatched => self.later_decision(self.workers.snapshot(drawing).get()),
            Verdict::Permit(..) | Verdict::Refuse(..) => Some(read),
        }
    }

    // An answered call goes on by the decision on its copies. A question waits for the operator.
    fn decided_step(
        &self,
        alloc: Global,
        caller: CallingThread,
        drawing: Drawing,
        read: Verdict,
    ) -> Result<Step, AllocError>
        requires process { IsInProcess self.now.system caller.tid caller.pid }
        requires here { message_state self.now.workers.calls drawing ≡ Some (Answered read) }
        requires come { (st : State) → Refines self.now st → IsMessageStateOf self.now.input st drawing (Some (Answered read)) }
        ensures step { IfOk result (IsDecidedStep self.now caller.tid drawing read) }
        ensures can { IfOk result (CanBeDone self.now.system caller.tid) }
    {
        match self.decision(drawing, read) {
            None => Ok(Step::Wait),
            Some(Verdict::Permit(_, ids)) => self.permitted_step(alloc, caller, drawing, ids),
            Some(Verdict::Refuse(number, errno)) => Ok(deny(drawing, errno, Cause::Filter(number))),
            Some(Verdict::Unmatched) => Ok(deny(drawing, Errno::EPERM, Cause::NoFilter)),
        }
    }

    // A held call that is permitted is made with its copies, unless a link is in the way.
    fn permitted_step(
        &self,
        alloc: Global,
        caller: CallingThread,
        drawing: Drawing,
        ids: Ids,
    ) -> Result<Step, AllocError>
        requires process { IsInProcess self.now.system caller.tid caller.pid }
        requires answered { HasAnswer (message_state self.now.workers.calls drawing) }
        ensures step { IfOk result (IsPermittedStep self.now caller.tid drawing ids) }
        ensures can { IfOk result (CanBeDone self.now.system caller.tid) }
    {
        let shared = self.workers.snapshot(drawing);
        let copies = shared.get();
        let call = copies.call;
        let regs = copies.regs;
        let aliasing = self.input.options.aliasing;
        let link = self
            .system
            .link_met(alloc, call, &regs, copies.parts.as_slice(), aliasing)?;
        match link {
            Some(name) => Ok(deny(drawing, Errno::ELOOP, Cause::Link(name))),
            None => Ok(Step::Make(ReadyCall {
                pid: caller.pid,
                drawing: Some(drawing),
                call,
                regs,
                args: CallArgs::judged(shared.share()?),
                ids,
            })),
        }
    }
}

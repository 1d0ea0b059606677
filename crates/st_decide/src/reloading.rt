// Steps of threads without a pending call, by their next instruction: also which reloads are done and which are refused.
ghost use Rattle.std.specs.Prelude.{◌≡◌};
ghost use Rattle.st_law.specs.State.{may_reload};
ghost use Rattle.st_model.specs.Processes.{process_at, IsPid};
ghost use Rattle.st_decide.specs.NextSteps.{CanBeDone, IsInProcess, IsInstructionStep, IsReloadStep};

use crate::step::{NewCall, Step, StoredWord};
use crate::view::View;
use st_base::Pid;
use st_calls::SysCall;
use st_threads::CallingThread;
use st_trace::Instr;

impl<'v, 'a> View<'v, 'a> {
    // Whether a process may put a policy in force: only an untraced process with effective user 0 may.
    fn may_reload(&self, pid: Pid) -> bool
        requires { IsPid self.now.system.processes pid }
        ensures { result ≡ may_reload (process_at self.now.system.processes pid) }
    {
        !self.system.traced(pid) && self.system.ids(pid).euid == 0
    }

    // The step of a thread whose next instruction puts the script's policy with this number in force.
    fn reload_step(&self, caller: CallingThread, policy: u32) -> Step
        requires { IsInProcess self.now.system caller.tid caller.pid }
        ensures step { IsReloadStep self.now caller.tid policy result }
        ensures can { CanBeDone self.now.system caller.tid result }
    {
        if self.may_reload(caller.pid) {
            Step::Reload(policy)
        } else {
            Step::RefuseReload(policy)
        }
    }

    // The next step of a thread without a pending call, by its instructions left.
    pub(crate) fn instruction_step(&self, caller: CallingThread, left: &[Instr]) -> Step
        requires { IsInProcess self.now.system caller.tid caller.pid }
        ensures step { IsInstructionStep self.now caller.tid left.now result }
        ensures can { CanBeDone self.now.system caller.tid result }
    {
        match left {
            [] => Step::End,
            [Instr::Store(place, word), ..] => Step::Store(StoredWord {
                place: *place,
                word: *word,
            }),
            [Instr::Call(call, regs), ..] => Step::Enter(NewCall {
                pid: caller.pid,
                call: *call,
                regs: *regs,
            }),
            [Instr::Fork(_), ..] => Step::Enter(NewCall {
                pid: caller.pid,
                call: SysCall::Fork,
                regs: [0; 6],
            }),
            [Instr::Reload(policy), ..] => self.reload_step(caller, *policy),
        }
    }
}

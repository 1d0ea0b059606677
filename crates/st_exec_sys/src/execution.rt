// Any call on processes, ids and sockets, made by its own function.
ghost use Rattle.std.specs.Prelude.{◌≡◌, ℕ, [], IfOk, OnOk, OnErr};
ghost use Rattle.st_calls.specs.declared.call.SysCall.TheVariants.{Fork};
ghost use Rattle.st_effects.specs.Effect.{effect};
ghost use Rattle.st_effects.specs.System as effects;
ghost use Rattle.st_exec_sys.specs.Execution.{CanMakeCall, CanCall, IsProcessCallExecuted, IsIdentityCall};
ghost use Rattle.st_model.specs.Processes.{next_pid};
ghost use Rattle.st_model.specs.Tree.{Tree};
ghost use Rattle.st_procs.specs.Laws.{AreOrdered};
ghost use Rattle.st_request.specs.Outcome.{outcome_of};
ghost use Rattle.st_request.specs.Ready.{IsReady};

use crate::forking::fork;
use crate::identity::{geteuid, getpid, getuid, set_ids};
use crate::signals::{exit, kill};
use crate::sockets::{bind, connect, socket};
use st_calls::SysCall;
use st_fds::Fds;
use st_memory::Spaces;
use st_procs::Procs;
use st_request::{Outcome, Request};
use std::alloc::{AllocError, Global};

// Makes a call that reports who the process is.
fn tell(alloc: Global, call: SysCall, request: &Request<'_>) -> Outcome
    requires { IsIdentityCall call }
    ensures outcome { (system : effects.System) → outcome_of result system.descriptors ≡ effect system call request.now }
    ensures changes { result.changes ≡ [] }
{
    match call {
        SysCall::GetPid => getpid(alloc, request),
        SysCall::GetUid => getuid(alloc, request),
        SysCall::GetEuid => geteuid(alloc, request),
        _ => unreachable!(),
    }
}

/// Makes any call on processes, ids and sockets, by the call's own function. It changes what the changes of the outcome say, and
/// nothing else. Giving held calls new numbers and ending threads are not done here. If memory runs out, nothing changes.
pub fn execute_sys(
    fds: &mut Fds,
    procs: &mut Procs,
    spaces: &mut Spaces,
    alloc: Global,
    call: SysCall,
    request: &Request<'_>,
) -> Result<Outcome, AllocError>
    requires process { CanCall fds.old procs.old spaces.old request.now.pid }
    requires call { CanMakeCall call fds.old procs.old spaces.old request.now }
    ensures executed { IfOk result (λ outcome. IsProcessCallExecuted call request.now outcome fds.old procs.old spaces.old fds.new procs.new spaces.new) }
    ensures ordered { AreOrdered procs.old → AreOrdered procs.new }
    ensures ready { (tree : Tree) (pid : ℕ) → IsReady tree fds.old procs.old spaces.old pid → IsReady tree fds.new procs.new spaces.new pid }
    ensures child { call ≡ Fork → OnOk result ((tree : Tree) → IsReady tree fds.old procs.old spaces.old request.now.pid → IsReady tree fds.new procs.new spaces.new (next_pid procs.old)) }
    ensures err { OnErr result ((fds.new ≡ fds.old) × ((procs.new ≡ procs.old) × (spaces.new ≡ spaces.old))) }
{
    match call {
        SysCall::Fork => fork(fds, procs, spaces, alloc, request),
        SysCall::Exit => exit(alloc, request),
        SysCall::Kill => kill(procs, alloc, request),
        SysCall::GetPid | SysCall::GetUid | SysCall::GetEuid => Ok(tell(alloc, call, request)),
        SysCall::SetUid | SysCall::SetEuid | SysCall::SetGid | SysCall::SetEgid => {
            set_ids(procs, alloc, call, request)
        }
        SysCall::Socket => socket(fds, alloc, request),
        SysCall::Bind => Ok(bind(fds, alloc, request)),
        SysCall::Connect => Ok(connect(fds, alloc, request)),
        _ => unreachable!(),
    }
}

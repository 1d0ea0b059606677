// The call that starts a process.
ghost use Rattle.std.specs.Prelude.{◌≡◌, ◌^◌, ◌-◌, ◌<◌, ℕ, [], ◌∷◌, true, None, IfOk, OnOk, OnErr};
ghost use Rattle.st_calls.specs.declared.call.SysCall.TheVariants.{Fork};
ghost use Rattle.st_exec_sys.specs.Execution.{CanCall, CanFork, IsSpaceCopied, IsProcessCallExecuted};
ghost use Rattle.st_memory.specs.Memory.{is_space_live, next_space};
ghost use Rattle.st_model.specs.Processes.{next_pid, pid_of, process_at, processes_after_fork, IsPid};
ghost use Rattle.st_model.specs.Tree.{Tree};
ghost use Rattle.st_procs.specs.Laws.{AreOrdered, ThreadStarts};
ghost use Rattle.st_request.specs.Ready.{IsReady};
ghost use Rattle.st_trace.specs.declared.entry.CallResult.TheVariants.{Value};
ghost use Rattle.st_trace.specs.declared.entry.Change.TheVariants.{Forked};

use st_base::Space;
use st_fds::Fds;
use st_memory::Spaces;
use st_procs::Procs;
use st_request::{Outcome, Request};
use st_trace::Change;
use std::alloc::{AllocError, Global};

// Starts a child of the calling process with this memory space. If memory runs out, nothing changes.
fn start_child(
    procs: &mut Procs,
    alloc: Global,
    request: &Request<'_>,
    space: Space,
) -> Result<Outcome, AllocError>
    requires parent { IsPid procs.old request.now.pid }
    requires thread { pid_of procs.old request.now.child ≡ None }
    requires room { next_pid procs.old < 2 ^ 32 - 1 }
    ensures result { IfOk result (λ outcome. outcome.result ≡ Value (next_pid procs.old)) }
    ensures changes { IfOk result (λ outcome. outcome.changes ≡ Forked (next_pid procs.old) space request.now.child ∷ []) }
    ensures processes { OnOk result (procs.new ≡ processes_after_fork procs.old request.now.pid request.now.child space) }
    ensures threads { OnOk result (ThreadStarts procs.old request.now.child (next_pid procs.old) procs.new) }
    ensures ordered { AreOrdered procs.old → AreOrdered procs.new }
    ensures err { OnErr result (procs.new ≡ procs.old) }
{
    let pid = procs.next_pid();
    let change = Change::Forked {
        pid,
        space,
        tid: request.child,
    };
    let outcome = Outcome::change(alloc, u64::from(pid), change)?;
    procs.fork(request.pid, request.child, space)?;
    Ok(outcome)
}

// Starts a child of the calling process with a copy of its memory. If memory runs out, nothing changes.
fn start_copy(
    procs: &mut Procs,
    spaces: &mut Spaces,
    alloc: Global,
    request: &Request<'_>,
) -> Result<Outcome, AllocError>
    requires parent { IsPid procs.old request.now.pid }
    requires space { is_space_live spaces.old (process_at procs.old request.now.pid).space ≡ true }
    requires thread { pid_of procs.old request.now.child ≡ None }
    requires room { next_pid procs.old < 2 ^ 32 - 1 }
    requires spaces { next_space spaces.old < 2 ^ 32 }
    ensures result { IfOk result (λ outcome. outcome.result ≡ Value (next_pid procs.old)) }
    ensures changes { IfOk result (λ outcome. outcome.changes ≡ Forked (next_pid procs.old) (next_space spaces.old) request.now.child ∷ []) }
    ensures processes { OnOk result (procs.new ≡ processes_after_fork procs.old request.now.pid request.now.child (next_space spaces.old)) }
    ensures threads { OnOk result (ThreadStarts procs.old request.now.child (next_pid procs.old) procs.new) }
    ensures ordered { AreOrdered procs.old → AreOrdered procs.new }
    ensures memory { OnOk result (IsSpaceCopied spaces.old (process_at procs.old request.now.pid).space spaces.new) }
    ensures err { OnErr result ((procs.new ≡ procs.old) × (spaces.new ≡ spaces.old)) }
{
    let space = spaces.copy_space(procs.space(request.pid))?;
    let started = start_child(procs, alloc, request, space);
    if started.is_err() {
        spaces.unmake(space);
    }
    started
}

/// fork(): starts a process that equals this one and shares its open files, with a copy of its memory and one thread, and returns
/// its number. If memory runs out, nothing changes.
pub fn fork(
    fds: &mut Fds,
    procs: &mut Procs,
    spaces: &mut Spaces,
    alloc: Global,
    request: &Request<'_>,
) -> Result<Outcome, AllocError>
    requires process { CanCall fds.old procs.old spaces.old request.now.pid }
    requires child { CanFork fds.old procs.old spaces.old request.now }
    ensures executed { IfOk result (λ outcome. IsProcessCallExecuted Fork request.now outcome fds.old procs.old spaces.old fds.new procs.new spaces.new) }
    ensures ordered { AreOrdered procs.old → AreOrdered procs.new }
    ensures ready { (tree : Tree) (pid : ℕ) → IsReady tree fds.old procs.old spaces.old pid → IsReady tree fds.new procs.new spaces.new pid }
    ensures child { OnOk result ((tree : Tree) → IsReady tree fds.old procs.old spaces.old request.now.pid → IsReady tree fds.new procs.new spaces.new (next_pid procs.old)) }
    ensures err { OnErr result ((fds.new ≡ fds.old) × ((procs.new ≡ procs.old) × (spaces.new ≡ spaces.old))) }
{
    let child = procs.next_pid();
    fds.copy(request.pid, child)?;
    let started = start_copy(procs, spaces, alloc, request);
    if started.is_err() {
        fds.uncopy(child);
    }
    started
}

// The calls that report and set who a process is.
ghost use Rattle.std.specs.Prelude.{◌≡◌, true, [], IfOk, OnErr};
ghost use Rattle.st_calls.specs.Call.{sets_ids};
ghost use Rattle.st_calls.specs.declared.call.SysCall.TheVariants.{GetEuid, GetPid, GetUid};
ghost use Rattle.st_effects.specs.Effect.{effect};
ghost use Rattle.st_effects.specs.Processes.{set_ids_outcome};
ghost use Rattle.st_effects.specs.System as effects;
ghost use Rattle.st_exec_sys.specs.Changes.{AreSetIdsOnly, AreProcessesAndThreadsAfter};
ghost use Rattle.st_model.specs.Processes.{next_pid, process_at, IsPid};
ghost use Rattle.st_request.specs.Outcome.{outcome_of};

use st_calls::SysCall;
use st_procs::{Procs, ids_after};
use st_request::{Outcome, Request};
use st_trace::Change;
use std::alloc::{AllocError, Global};

/// getpid(): the number of the process.
pub fn getpid(alloc: Global, request: &Request<'_>) -> Outcome
    ensures outcome { (system : effects.System) → outcome_of result system.descriptors ≡ effect system GetPid request.now }
    ensures changes { result.changes ≡ [] }
{
    Outcome::value(alloc, u64::from(request.pid))
}

/// getuid(): the real user that the call is made under.
pub fn getuid(alloc: Global, request: &Request<'_>) -> Outcome
    ensures outcome { (system : effects.System) → outcome_of result system.descriptors ≡ effect system GetUid request.now }
    ensures changes { result.changes ≡ [] }
{
    Outcome::value(alloc, u64::from(request.ids.ruid))
}

/// geteuid(): the effective user that the call is made under.
pub fn geteuid(alloc: Global, request: &Request<'_>) -> Outcome
    ensures outcome { (system : effects.System) → outcome_of result system.descriptors ≡ effect system GetEuid request.now }
    ensures changes { result.changes ≡ [] }
{
    Outcome::value(alloc, u64::from(request.ids.euid))
}

/// setuid(uid), seteuid(uid), setgid(gid) and setegid(gid): set ids of the process, which makes the call under its own ids. Giving
/// held calls new numbers is not done here. If memory runs out, nothing changes.
pub fn set_ids(
    procs: &mut Procs,
    alloc: Global,
    call: SysCall,
    request: &Request<'_>,
) -> Result<Outcome, AllocError>
    requires process { IsPid procs.old request.now.pid }
    requires call { sets_ids call ≡ true }
    requires ids { request.now.ids ≡ (process_at procs.old request.now.pid).ids }
    ensures outcome { IfOk result (λ outcome. (system : effects.System) → system.held ≡ [] → outcome_of outcome system.descriptors ≡ set_ids_outcome call system request.now) }
    ensures processes { IfOk result (λ outcome. AreProcessesAndThreadsAfter procs.old request.now.pid outcome.changes procs.new) }
    ensures changes { IfOk result (λ outcome. AreSetIdsOnly outcome.changes) }
    ensures threads { procs.new.threads ≡ procs.old.threads }
    ensures pids { next_pid procs.new ≡ next_pid procs.old }
    ensures err { OnErr result (procs.new ≡ procs.old) }
{
    let value = request.register(0);
    let ids = match ids_after(call, request.ids, value) {
        Ok(ids) => ids,
        Err(errno) => return Ok(Outcome::failure(alloc, errno)),
    };
    let outcome = Outcome::change(alloc, 0, Change::SetIds(ids))?;
    let _ = procs.set_ids(request.pid, call, value);
    Ok(outcome)
}

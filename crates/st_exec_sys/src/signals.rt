// The calls that end processes. The threads of a process end later, each by itself.
ghost use Rattle.std.specs.Prelude.{◌≡◌, ◌==◌, if◌then◌else◌, [], ◌∷◌, IfOk};
ghost use Rattle.st_effects.specs.Processes.{exit_outcome, kill_outcome, may_signal};
ghost use Rattle.st_effects.specs.System as effects;
ghost use Rattle.st_effects.specs.System.{register, success};
ghost use Rattle.st_exec_sys.specs.Changes.{AreEndings};
ghost use Rattle.st_exec_sys.specs.Signals.{number_of_live};
ghost use Rattle.st_model.specs.Processes.{IsPid};
ghost use Rattle.st_request.specs.Outcome.{outcome_of, unless_err, with_processes};
ghost use Rattle.st_trace.specs.declared.entry.Change.TheVariants.{Dying};

use st_base::{Errno, Ids, Pid};
use st_procs::Procs;
use st_request::{Outcome, Request};
use st_trace::Change;
use std::alloc::{AllocError, Global};

// The signal that ends a process.
const KILL: u64 = 9;

/// exit(code): from now on the threads of the process can only end. `Err` only if memory runs out.
pub fn exit(alloc: Global, request: &Request<'_>) -> Result<Outcome, AllocError>
    ensures outcome { IfOk result (λ outcome. (system : effects.System) → outcome_of outcome system.descriptors ≡ exit_outcome system request.now) }
    ensures changes { IfOk result (λ outcome. AreEndings outcome.changes) }
{
    Outcome::change(alloc, 0, Change::Dying(request.pid))
}

// The process with a number, if it exists and hasn't ended.
fn live_process(procs: &Procs, number: u64) -> Option<Pid>
    ensures { result ≡ number_of_live procs.now number }
{
    if number == 0 || number >= u64::from(procs.next_pid()) {
        return None;
    }
    let pid = number as Pid;
    if procs.alive(pid) { Some(pid) } else { None }
}

// Whether these ids may send a signal to a process with this real user.
fn may_signal(ids: Ids, target: u32) -> bool
    ensures { result ≡ may_signal ids target }
{
    ids.euid == 0 || ids.ruid == target || ids.euid == target
}

// The process that kill(2) sends a signal to, or the error of the call.
fn may_kill(procs: &Procs, request: &Request<'_>) -> Result<Pid, Errno>
    ensures { (system : effects.System) → kill_outcome (with_processes system procs.now) request.now ≡ unless_err system result (λ pid. success system 0 (if register request.now 1 == 0 then [] else Dying pid ∷ [])) }
{
    let signal = request.register(1);
    if signal != 0 && signal != KILL {
        return Err(Errno::EINVAL);
    }
    let Some(pid) = live_process(procs, request.register(0)) else {
        return Err(Errno::ESRCH);
    };
    if !may_signal(request.ids, procs.ids(pid).ruid) {
        return Err(Errno::EPERM);
    }
    Ok(pid)
}

/// kill(pid, signal): after signal 9 the threads of a process can only end. Signal 0 only checks whether that would be allowed.
/// `Err` only if memory runs out.
pub fn kill(procs: &Procs, alloc: Global, request: &Request<'_>) -> Result<Outcome, AllocError>
    ensures outcome { IfOk result (λ outcome. (system : effects.System) → outcome_of outcome system.descriptors ≡ kill_outcome (with_processes system procs.now) request.now) }
    ensures changes { IfOk result (λ outcome. AreEndings outcome.changes) }
{
    match may_kill(procs, request) {
        Err(errno) => Ok(Outcome::failure(alloc, errno)),
        Ok(_) if request.register(1) == 0 => Ok(Outcome::value(alloc, 0)),
        Ok(pid) => Outcome::change(alloc, 0, Change::Dying(pid)),
    }
}

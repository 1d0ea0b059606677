// The call that changes a process's directory.
ghost use Rattle.std.specs.Prelude.{◌≡◌, [], ◌∷◌, IfOk, OnErr};
ghost use Rattle.st_effects.specs.Names.{chdir_outcome};
ghost use Rattle.st_effects.specs.System.{arg_name_at, success, System};
ghost use Rattle.st_model.specs.Processes.{IsPid};
ghost use Rattle.st_request.specs.Outcome.{outcome_of, unless_err, with_tree};
ghost use Rattle.st_request.specs.Processes.{AreProcessesAfter};

use crate::walking;
use st_base::{Errno, Shared};
use st_names::AbsName;
use st_procs::Procs;
use st_request::{Outcome, Request};
use st_trace::Change;
use st_tree::{Tree, Want};
use std::alloc::{AllocError, Global};

// Checks that chdir(2) may enter a directory; otherwise gives the error of the call.
fn may_enter(tree: &Tree, request: &Request<'_>, name: &AbsName) -> Result<(), Errno>
    requires { name.now ≡ arg_name_at request.now 0 }
    ensures { (system : System) → chdir_outcome (with_tree system tree.now) request.now ≡ unless_err system result (λ _. success system 0 (Change.Cwd name.now ∷ [])) }
{
    let ids = request.ids;
    let obj = walking::find(tree, ids, name)?;
    if !walking::is_directory(tree, obj) {
        return Err(Errno::ENOTDIR);
    }
    if !tree.allowed(obj, ids.euid, ids.egid, Want::Search) {
        return Err(Errno::EACCES);
    }
    Ok(())
}

/// chdir(name): sets the directory of the process. If memory runs out, nothing changes.
pub fn chdir(
    tree: &Tree,
    procs: &mut Procs,
    alloc: Global,
    request: &Request<'_>,
) -> Result<Outcome, AllocError>
    requires { IsPid procs.old request.now.pid }
    ensures outcome { IfOk result (λ outcome. (system : System) → outcome_of outcome system.descriptors ≡ chdir_outcome (with_tree system tree.now) request.now) }
    ensures processes { IfOk result (λ outcome. AreProcessesAfter procs.old request.now.pid outcome.changes procs.new) }
    ensures err { OnErr result (procs.new ≡ procs.old) }
{
    let name = request.name(alloc, 0)?;
    if let Err(errno) = may_enter(tree, request, &name) {
        return Ok(Outcome::failure(alloc, errno));
    }
    let cwd = Shared::new(alloc, name.copy(alloc)?)?;
    let outcome = Outcome::change(alloc, 0, Change::Cwd(name))?;
    procs.set_cwd(request.pid, cwd);
    Ok(outcome)
}

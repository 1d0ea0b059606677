// Who may do what with an object: the call that asks for it and the calls that change it.
ghost use Rattle.std.specs.Prelude.{◌≡◌, ◌||◌, [], ◌∷◌, IfOk, OnErr};
ghost use Rattle.std.specs.Result.{result_err};
ghost use Rattle.st_base.specs.Errno.{error_if};
ghost use Rattle.st_base.specs.declared.errno.Errno.TheVariants.{EINVAL};
ghost use Rattle.st_effects.specs.Changes.{tree_after};
ghost use Rattle.st_effects.specs.Descriptors.{low_mode};
ghost use Rattle.st_effects.specs.Names.{access_outcome, chmod_outcome, chown_outcome, has_all_access, exceeds_ids, with_real_ids};
ghost use Rattle.st_effects.specs.System.{arg_name_at, register, success, System};
ghost use Rattle.st_model.specs.Tree.{node_with_number};
ghost use Rattle.st_tree.specs.Refusals.{IsObjectNumber};
ghost use Rattle.st_request.specs.Outcome.{outcome_of, unless_err, with_tree};

use crate::walking;
use st_base::{Errno, Ids, Obj};
use st_names::AbsName;
use st_request::{Outcome, Request};
use st_trace::Change;
use st_tree::{Tree, Want};
use std::alloc::{AllocError, Global};

// The object of chown(2), and its new owner and group.
#[derive(Clone, Copy)]
struct NewOwner {
    obj: Obj,
    uid: u32,
    gid: u32,
}

// The ids with the real ones in place of the effective ones.
fn with_real_ids(ids: Ids) -> Ids
    ensures { result ≡ with_real_ids ids }
{
    Ids {
        euid: ids.ruid,
        egid: ids.rgid,
        ..ids
    }
}

// Whether the ids have each access that a mode asks for.
fn has_all_access(tree: &Tree, ids: Ids, obj: Obj, mode: u64) -> bool
    requires { IsObjectNumber tree.now obj }
    ensures { result ≡ has_all_access ids (node_with_number tree.now obj) mode }
{
    let last = if walking::is_directory(tree, obj) {
        Want::Search
    } else {
        Want::Execute
    };
    let may = |bit, want| mode & bit == 0 || tree.allowed(obj, ids.euid, ids.egid, want);
    may(4, Want::Read) && may(2, Want::Write) && may(1, last)
}

// Checks that access(2) succeeds; otherwise gives the error of the call.
fn may_access(tree: &Tree, request: &Request<'_>, name: &AbsName) -> Result<(), Errno>
    requires { name.now ≡ arg_name_at request.now 0 }
    ensures { (system : System) → access_outcome (with_tree system tree.now) request.now ≡ unless_err system result (λ _. success system 0 []) }
{
    let mode = request.register(1);
    if mode > 7 {
        return Err(Errno::EINVAL);
    }
    let ids = with_real_ids(request.ids);
    let obj = walking::find(tree, ids, name)?;
    if !has_all_access(tree, ids, obj, mode) {
        return Err(Errno::EACCES);
    }
    Ok(())
}

/// access(name, mode): whether the real ids have the access to an object that the bits of a mode ask for: 4 to read it, 2 to write
/// it, 1 to search or execute it.
pub fn access(tree: &Tree, alloc: Global, request: &Request<'_>) -> Result<Outcome, AllocError>
    ensures { IfOk result (λ outcome. (system : System) → outcome_of outcome system.descriptors ≡ access_outcome (with_tree system tree.now) request.now) }
{
    let name = request.name(alloc, 0)?;
    Ok(match may_access(tree, request, &name) {
        Ok(()) => Outcome::value(alloc, 0),
        Err(errno) => Outcome::failure(alloc, errno),
    })
}

// The object whose mode chmod(2) changes, or the error of the call.
fn may_set_mode(tree: &Tree, request: &Request<'_>, name: &AbsName) -> Result<Obj, Errno>
    requires { name.now ≡ arg_name_at request.now 0 }
    ensures made { IfOk result (IsObjectNumber tree.now) }
    ensures outcome { (system : System) → chmod_outcome (with_tree system tree.now) request.now ≡ unless_err system result (λ obj. success system 0 (Change.Moded obj (low_mode (register request.now 1)) ∷ [])) }
{
    let obj = walking::find(tree, request.ids, name)?;
    let euid = request.ids.euid;
    if euid != 0 && euid != tree.node(obj).uid {
        return Err(Errno::EPERM);
    }
    Ok(obj)
}

/// chmod(name, mode): sets the mode of an object to the low nine bits of a mode.
pub fn chmod(tree: &mut Tree, alloc: Global, request: &Request<'_>) -> Result<Outcome, AllocError>
    ensures outcome { IfOk result (λ outcome. (system : System) → outcome_of outcome system.descriptors ≡ chmod_outcome (with_tree system tree.old) request.now) }
    ensures tree { IfOk result (λ outcome. tree.new ≡ tree_after tree.old outcome.changes) }
    ensures err { OnErr result (tree.new ≡ tree.old) }
{
    let name = request.name(alloc, 0)?;
    let obj = match may_set_mode(tree, request, &name) {
        Ok(obj) => obj,
        Err(errno) => return Ok(Outcome::failure(alloc, errno)),
    };
    let mode = request.mode(1);
    let outcome = Outcome::change(alloc, 0, Change::Moded { obj, mode })?;
    tree.set_mode(obj, mode);
    Ok(outcome)
}

// The ids that chown(2) sets, or EINVAL if one of the numbers isn't an id.
fn new_owner(request: &Request<'_>) -> Result<(u32, u32), Errno>
    ensures ids { IfOk result (λ owner. (owner.0 ≡ register request.now 1) × (owner.1 ≡ register request.now 2)) }
    ensures refused { result_err result ≡ error_if (exceeds_ids (register request.now 1) || exceeds_ids (register request.now 2)) EINVAL }
{
    match (
        u32::try_from(request.register(1)),
        u32::try_from(request.register(2)),
    ) {
        (Ok(uid), Ok(gid)) => Ok((uid, gid)),
        _ => Err(Errno::EINVAL),
    }
}

// The object that chown(2) changes with its new ids, or the error of the call.
fn may_set_owner(tree: &Tree, request: &Request<'_>, name: &AbsName) -> Result<NewOwner, Errno>
    requires { name.now ≡ arg_name_at request.now 0 }
    ensures made { IfOk result (λ new. IsObjectNumber tree.now new.obj) }
    ensures outcome { (system : System) → chown_outcome (with_tree system tree.now) request.now ≡ unless_err system result (λ new. success system 0 (Change.Owned new.obj new.uid new.gid ∷ [])) }
{
    let (uid, gid) = new_owner(request)?;
    let obj = walking::find(tree, request.ids, name)?;
    if request.ids.euid != 0 {
        return Err(Errno::EPERM);
    }
    Ok(NewOwner { obj, uid, gid })
}

/// chown(name, uid, gid): sets the owner and the group of an object.
pub fn chown(tree: &mut Tree, alloc: Global, request: &Request<'_>) -> Result<Outcome, AllocError>
    ensures outcome { IfOk result (λ outcome. (system : System) → outcome_of outcome system.descriptors ≡ chown_outcome (with_tree system tree.old) request.now) }
    ensures tree { IfOk result (λ outcome. tree.new ≡ tree_after tree.old outcome.changes) }
    ensures err { OnErr result (tree.new ≡ tree.old) }
{
    let name = request.name(alloc, 0)?;
    let NewOwner { obj, uid, gid } = match may_set_owner(tree, request, &name) {
        Ok(new) => new,
        Err(errno) => return Ok(Outcome::failure(alloc, errno)),
    };
    let outcome = Outcome::change(alloc, 0, Change::Owned { obj, uid, gid })?;
    tree.set_owner(obj, uid, gid);
    Ok(outcome)
}

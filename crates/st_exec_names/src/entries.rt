// Calls that remove entries from directories.
ghost use Rattle.std.specs.Prelude.{◌≡◌, [], ◌∷◌, None, IfOk, OnOk, OnErr};
ghost use Rattle.std.specs.Result.{result_err};
ghost use Rattle.st_effects.specs.Changes.{tree_after};
ghost use Rattle.st_effects.specs.Names.{directory_not_empty, rmdir_outcome, unlink_outcome};
ghost use Rattle.st_effects.specs.System.{arg_name_at, success, System};
ghost use Rattle.st_model.specs.Tree.{entry_count, remove_name};
ghost use Rattle.st_trace.specs.declared.entry.CallResult.TheVariants.{Value};
ghost use Rattle.st_tree.specs.Refusals.{remove_refused, IsObjectNumber};
ghost use Rattle.st_request.specs.Outcome.{outcome_of, unless_err, with_tree};
ghost use Rattle.st_exec_objects.specs.Walking.{object_made};

use st_base::{Errno, Obj};
use st_exec_objects::walking;
use st_names::AbsName;
use st_request::{Outcome, Request, unrefused};
use st_trace::Change;
use st_tree::Tree;
use std::alloc::{AllocError, Global};

// Checks that unlink(2) may remove a name; otherwise gives the error of the call.
fn may_unlink(tree: &Tree, request: &Request<'_>, name: &AbsName) -> Result<(), Errno>
    requires { name.now ≡ arg_name_at request.now 0 }
    ensures outcome { (system : System) → unlink_outcome (with_tree system tree.now) request.now ≡ unless_err system result (λ _. success system 0 (Change.Removed name.now ∷ [])) }
    ensures may { OnOk result (remove_refused tree.now name.now ≡ None) }
{
    let place = walking::walk(tree, request.ids, name)?;
    let Some(obj) = place.object else {
        return Err(Errno::ENOENT);
    };
    walking::may_write_holder(tree, request.ids, place)?;
    if walking::is_directory(tree, obj) {
        return Err(Errno::EPERM);
    }
    Ok(())
}

// Removes a name that may be removed. If memory runs out, nothing changes.
fn remove(tree: &mut Tree, alloc: Global, name: &AbsName) -> Result<Outcome, AllocError>
    requires { remove_refused tree.old name.now ≡ None }
    ensures result { IfOk result (λ outcome. outcome.result ≡ Value 0) }
    ensures changes { IfOk result (λ outcome. outcome.changes ≡ Change.Removed name.now ∷ []) }
    ensures tree { OnOk result (tree.new ≡ remove_name tree.old name.now) }
    ensures err { OnErr result (tree.new ≡ tree.old) }
{
    let change = Change::Removed(name.copy(alloc)?);
    let outcome = Outcome::change(alloc, 0, change)?;
    unrefused(tree.remove(name))?;
    Ok(outcome)
}

/// unlink(name): removes a name of an object that isn't a directory.
pub fn unlink(tree: &mut Tree, alloc: Global, request: &Request<'_>) -> Result<Outcome, AllocError>
    ensures outcome { IfOk result (λ outcome. (system : System) → outcome_of outcome system.descriptors ≡ unlink_outcome (with_tree system tree.old) request.now) }
    ensures tree { IfOk result (λ outcome. tree.new ≡ tree_after tree.old outcome.changes) }
    ensures err { OnErr result (tree.new ≡ tree.old) }
{
    let name = request.name(alloc, 0)?;
    match may_unlink(tree, request, &name) {
        Ok(()) => remove(tree, alloc, &name),
        Err(errno) => Ok(Outcome::failure(alloc, errno)),
    }
}

// Checks that an object isn't a directory with entries, and so may be removed; otherwise ENOTEMPTY.
pub(crate) fn may_take_away(tree: &Tree, obj: Obj) -> Result<(), Errno>
    requires { IsObjectNumber tree.now obj }
    ensures refused { result_err result ≡ directory_not_empty tree.now (object_made tree.now obj) }
    ensures bare { OnOk result (entry_count tree.now obj ≡ 0) }
{
    if walking::is_directory(tree, obj) && tree.node(obj).size != 0 {
        return Err(Errno::ENOTEMPTY);
    }
    Ok(())
}

// Checks that rmdir(2) may remove a name; otherwise gives the error of the call.
fn may_remove_directory(tree: &Tree, request: &Request<'_>, name: &AbsName) -> Result<(), Errno>
    requires { name.now ≡ arg_name_at request.now 0 }
    ensures outcome { (system : System) → rmdir_outcome (with_tree system tree.now) request.now ≡ unless_err system result (λ _. success system 0 (Change.Removed name.now ∷ [])) }
    ensures may { OnOk result (remove_refused tree.now name.now ≡ None) }
{
    if name.is_root() {
        return Err(Errno::EINVAL);
    }
    let place = walking::walk(tree, request.ids, name)?;
    let Some(obj) = place.object else {
        return Err(Errno::ENOENT);
    };
    if !walking::is_directory(tree, obj) {
        return Err(Errno::ENOTDIR);
    }
    walking::may_write_holder(tree, request.ids, place)?;
    may_take_away(tree, obj)?;
    Ok(())
}

/// rmdir(name): removes the name of a directory without entries.
pub fn rmdir(tree: &mut Tree, alloc: Global, request: &Request<'_>) -> Result<Outcome, AllocError>
    ensures outcome { IfOk result (λ outcome. (system : System) → outcome_of outcome system.descriptors ≡ rmdir_outcome (with_tree system tree.old) request.now) }
    ensures tree { IfOk result (λ outcome. tree.new ≡ tree_after tree.old outcome.changes) }
    ensures err { OnErr result (tree.new ≡ tree.old) }
{
    let name = request.name(alloc, 0)?;
    match may_remove_directory(tree, request, &name) {
        Ok(()) => remove(tree, alloc, &name),
        Err(errno) => Ok(Outcome::failure(alloc, errno)),
    }
}

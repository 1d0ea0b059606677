// The call that renames an object.
ghost use Rattle.std.specs.Prelude.{◌≡◌, ◌==◌, ◌&&◌, ◌||◌, not, [], ◌∷◌, None, Some, IfErr, IfOk, IfSome, OnOk, OnErr};
ghost use Rattle.std.specs.Result.{result_err};
ghost use Rattle.st_base.specs.Errno.{error_if, first_error};
ghost use Rattle.st_base.specs.declared.errno.Errno.TheVariants.{EISDIR, ENOTDIR};
ghost use Rattle.st_effects.specs.Changes.{tree_after};
ghost use Rattle.st_effects.specs.Names.{directory_not_empty, rename_outcome};
ghost use Rattle.st_effects.specs.NameTests.{parent_not_writable};
ghost use Rattle.st_effects.specs.System.{arg_name_at, failure, success, System};
ghost use Rattle.st_model.specs.Tree.{is_directory, is_proper_prefix, node_with_number};
ghost use Rattle.st_names.specs.Name.{is_root, Components};
ghost use Rattle.st_tree.specs.Refusals.{rename_refused, replace_refused, tree_after_rename, IsObjectNumber};
ghost use Rattle.st_request.specs.Outcome.{outcome_of, unless_err, with_tree};
ghost use Rattle.st_exec_names.specs.Renaming.{changes_of_move, AreFound};
ghost use Rattle.st_exec_objects.specs.Walking.{object_made, IsPlaceOfName};

use crate::entries::may_take_away;
use st_base::{Errno, Ids, Obj, Sequence};
use st_exec_objects::walking::{self, Place};
use st_names::AbsName;
use st_request::{Outcome, Request, unrefused};
use st_trace::{CallResult, Change};
use st_tree::{Tree, is_proper_prefix};
use std::alloc::{AllocError, Global};

// What rename(2) does with the new name.
#[derive(Clone, Copy)]
enum Move {
    // Both names have the same object, which keeps them.
    Stays,
    // No object has the new name yet.
    Free,
    // Another object has the new name, which is removed first.
    Replaces,
}

// What both names have, and the object to be renamed.
#[derive(Clone, Copy)]
struct Both {
    from: Place,
    obj: Obj,
    to: Place,
}

// Whether a name is that of the root.
fn is_root(name: &AbsName) -> bool
    ensures { result ≡ is_root name.now }
{
    name.is_root()
}

// Whether two numbers are those of the same object.
fn is_same(obj: Obj, other: Obj) -> bool
    ensures { result ≡ (obj == other) }
{
    obj == other
}

// Whether an object can't be renamed from one name to the other: one is the root's, or the old name is a proper prefix of the new
// one.
fn is_fixed(old: &AbsName, new: &AbsName) -> bool
    ensures { result ≡ (is_root old.now || (is_root new.now || is_proper_prefix old.now new.now)) }
{
    is_root(old) || is_root(new) || is_proper_prefix(old, new)
}

// Checks that an object may replace another; otherwise gives the error of the call.
fn may_replace(tree: &Tree, obj: Obj, other: Obj) -> Result<(), Errno>
    requires object { IsObjectNumber tree.now obj }
    requires other { IsObjectNumber tree.now other }
    ensures refused { let moved = is_directory (node_with_number tree.now obj).kind in let replaced = is_directory (node_with_number tree.now other).kind in result_err result ≡ first_error (error_if (moved && not replaced) ENOTDIR ∷ error_if (replaced && not moved) EISDIR ∷ directory_not_empty tree.now (object_made tree.now other) ∷ []) }
    ensures may { OnOk result (replace_refused tree.now (Some obj) (Some other) ≡ None) }
{
    let moved = walking::is_directory(tree, obj);
    let replaced = walking::is_directory(tree, other);
    if moved && !replaced {
        return Err(Errno::ENOTDIR);
    }
    if replaced && !moved {
        return Err(Errno::EISDIR);
    }
    may_take_away(tree, other)?;
    Ok(())
}

// What both names have, or an error of rename(2) that is known at once.
fn find_both(
    tree: &Tree,
    request: &Request<'_>,
    old: &AbsName,
    new: &AbsName,
) -> Result<Both, Errno>
    requires old { old.now ≡ arg_name_at request.now 0 }
    requires new { new.now ≡ arg_name_at request.now 1 }
    ensures found { IfOk result (AreFound tree.now request.now.ids old.now new.now) }
    ensures refused { IfErr result (λ errno. (system : System) → rename_outcome (with_tree system tree.now) request.now ≡ failure system errno) }
{
    let from = walking::walk(tree, request.ids, old)?;
    let Some(obj) = from.object else {
        return Err(Errno::ENOENT);
    };
    let to = walking::walk(tree, request.ids, new)?;
    if is_fixed(old, new) {
        return Err(Errno::EINVAL);
    }
    Ok(Both { from, obj, to })
}

// Checks that a call may change the entries of the directories of both names; EACCES if the ids may not write one of these
// directories.
fn may_write_holders(tree: &Tree, ids: Ids, both: Both) -> Result<(), Errno>
    requires from { IfSome both.from.holder (IsObjectNumber tree.now) }
    requires to { IfSome both.to.holder (IsObjectNumber tree.now) }
    ensures { (old new : Components) → IsPlaceOfName tree.now old both.from → IsPlaceOfName tree.now new both.to → result_err result ≡ first_error (parent_not_writable tree.now ids old ∷ parent_not_writable tree.now ids new ∷ []) }
{
    walking::may_write_holder(tree, ids, both.from)?;
    walking::may_write_holder(tree, ids, both.to)?;
    Ok(())
}

// What rename(2) does with the new name, or the error of the call.
fn may_move(tree: &Tree, request: &Request<'_>, old: &AbsName, new: &AbsName) -> Result<Move, Errno>
    requires old { old.now ≡ arg_name_at request.now 0 }
    requires new { new.now ≡ arg_name_at request.now 1 }
    ensures outcome { (system : System) → rename_outcome (with_tree system tree.now) request.now ≡ unless_err system result (λ move. success system 0 (changes_of_move move old.now new.now)) }
    ensures may { OnOk result (rename_refused tree.now old.now new.now ≡ None) }
    ensures tree { IfOk result (λ move. tree_after tree.now (changes_of_move move old.now new.now) ≡ tree_after_rename tree.now old.now new.now) }
{
    let both = find_both(tree, request, old, new)?;
    let Some(other) = both.to.object else {
        may_write_holders(tree, request.ids, both)?;
        return Ok(Move::Free);
    };
    if is_same(both.obj, other) {
        return Ok(Move::Stays);
    }
    may_write_holders(tree, request.ids, both)?;
    may_replace(tree, both.obj, other)?;
    Ok(Move::Replaces)
}

// The changes of a renaming.
fn changes_of(
    alloc: Global,
    way: Move,
    old: &AbsName,
    new: &AbsName,
) -> Result<Sequence<Change>, AllocError>
    ensures { IfOk result (λ changes. changes ≡ changes_of_move way old.now new.now) }
{
    let mut changes = Sequence::new(alloc);
    match way {
        Move::Stays => return Ok(changes),
        Move::Free => {}
        Move::Replaces => changes.push(Change::Removed(new.copy(alloc)?))?,
    }
    changes.push(Change::Renamed {
        old: old.copy(alloc)?,
        new: new.copy(alloc)?,
    })?;
    Ok(changes)
}

/// rename(old, new): gives the object of the old name the new one instead, and replaces the object that has the new name. If both
/// names have the same object, it keeps both.
pub fn rename(tree: &mut Tree, alloc: Global, request: &Request<'_>) -> Result<Outcome, AllocError>
    ensures outcome { IfOk result (λ outcome. (system : System) → outcome_of outcome system.descriptors ≡ rename_outcome (with_tree system tree.old) request.now) }
    ensures tree { IfOk result (λ outcome. tree.new ≡ tree_after tree.old outcome.changes) }
    ensures err { OnErr result (tree.new ≡ tree.old) }
{
    let old = request.name(alloc, 0)?;
    let new = request.name(alloc, 1)?;
    let way = match may_move(tree, request, &old, &new) {
        Ok(way) => way,
        Err(errno) => return Ok(Outcome::failure(alloc, errno)),
    };
    let changes = changes_of(alloc, way, &old, &new)?;
    unrefused(tree.rename(alloc, &old, &new))?;
    Ok(Outcome {
        result: CallResult::Value(0),
        changes,
    })
}

// Walks to names, one lookup for each component.
ghost use Rattle.std.specs.Prelude.{◌≡◌, false, Some, None, IfOk, IfSome};
ghost use Rattle.std.specs.Result.{result_err};
ghost use Rattle.st_effects.specs.NameTests.{parent_not_writable, search_error, walk_error, Object};
ghost use Rattle.st_effects.specs.System.{Outcome, System};
ghost use Rattle.st_model.specs.Tree.{entry_count, is_directory, node_of_number, node_with_number, object_of};
ghost use Rattle.st_tree.specs.Refusals.{IsObjectNumber};
ghost use Rattle.st_names.specs.Name.{Components};
ghost use Rattle.st_request.specs.Outcome.{unless_err, with_tree};
ghost use Rattle.st_exec_objects.specs.Walking.{object_made, outcome_at, IsPlaceOfName};

use st_base::{Errno, Ids, Obj};
use st_names::AbsName;
use st_tree::{Kind, Tree, Want};

/// What a name has: its object, and the directory that contains the name.
#[derive(Clone, Copy)]
pub struct Place {
    /// The directory that contains the name; `None` for the root.
    pub holder: Option<Obj>,
    pub object: Option<Obj>,
}

/// Whether an object is a directory.
pub fn is_directory(tree: &Tree, obj: Obj) -> bool
    requires { IsObjectNumber tree.now obj }
    ensures directory { result ≡ is_directory (node_with_number tree.now obj).kind }
    ensures plain { result ≡ false → entry_count tree.now obj ≡ 0 }
{
    match tree.node(obj).kind {
        Kind::Dir => true,
        Kind::File | Kind::Link => false,
    }
}

// Checks that a walk can go on from an object; otherwise gives the error of the walk.
fn search(tree: &Tree, ids: Ids, obj: Obj) -> Result<(), Errno>
    requires { IsObjectNumber tree.now obj }
    ensures { result_err result ≡ search_error (node_of_number tree.now obj) ids None }
{
    if !is_directory(tree, obj) {
        return Err(Errno::ENOTDIR);
    }
    if !tree.allowed(obj, ids.euid, ids.egid, Want::Search) {
        return Err(Errno::EACCES);
    }
    Ok(())
}

/// What a name has, or the error of walking to it. Component by component, the first error decides: ENOENT if the name so far has no
/// object, ENOTDIR if its object isn't a directory, EACCES if the ids may not search that directory.
pub fn walk(tree: &Tree, ids: Ids, name: &AbsName) -> Result<Place, Errno>
    ensures refused { result_err result ≡ walk_error tree.now ids name.now }
    ensures place { IfOk result (IsPlaceOfName tree.now name.now) }
{
    let mut place = Place {
        holder: None,
        object: Some(tree.root()),
    };
    for part in name.parts() {
        let Some(obj) = place.object else {
            return Err(Errno::ENOENT);
        };
        search(tree, ids, obj)?;
        place = Place {
            holder: Some(obj),
            object: tree.child(obj, part),
        };
    }
    Ok(place)
}

/// The object of a name, or why a call on it fails: the error of walking to it, or ENOENT if no object has the name.
pub fn find(tree: &Tree, ids: Ids, name: &AbsName) -> Result<Obj, Errno>
    ensures made { IfOk result (IsObjectNumber tree.now) }
    ensures object { IfOk result (λ obj. object_of tree.now name.now ≡ Some obj) }
    ensures outcome { (system : System) (outcome : Object → Outcome) → outcome_at (with_tree system tree.now) ids name.now outcome ≡ unless_err system result (λ obj. outcome (object_made tree.now obj)) }
{
    let place = walk(tree, ids, name)?;
    place.object.ok_or(Errno::ENOENT)
}

/// Checks that a call may change the entries of the directory that contains a name; EACCES if the ids may not write that directory.
/// No directory contains the root.
pub fn may_write_holder(tree: &Tree, ids: Ids, place: Place) -> Result<(), Errno>
    requires { IfSome place.holder (IsObjectNumber tree.now) }
    ensures { (name : Components) → IsPlaceOfName tree.now name place → result_err result ≡ parent_not_writable tree.now ids name }
{
    let Some(holder) = place.holder else {
        return Ok(());
    };
    if !tree.allowed(holder, ids.euid, ids.egid, Want::Write) {
        return Err(Errno::EACCES);
    }
    Ok(())
}

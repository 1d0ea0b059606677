// Calls that add names: of new objects, and of objects that exist.
ghost use Rattle.std.specs.Prelude.{◌≡◌, ◌+◌, [], ◌∷◌, length, ℕ, None, IfOk, OnOk, OnErr};
ghost use Rattle.std.specs.Result.{result_err};
ghost use Rattle.st_base.specs.Errno.{first_error};
ghost use Rattle.st_effects.specs.Changes.{tree_after};
ghost use Rattle.st_effects.specs.Names.{already_exists, link_outcome, make_outcome, mkdir_outcome, symlink_outcome};
ghost use Rattle.st_effects.specs.NameTests.{parent_not_writable, walk_error};
ghost use Rattle.st_effects.specs.System.{arg_name_at, success, System};
ghost use Rattle.st_model.specs.Tree.{node_of_new, node_with_number};
ghost use Rattle.st_model.specs.declared.object.NewKind.{NewKind};
ghost use Rattle.st_tree.specs.Refusals.{link_refused, IsObjectNumber};
ghost use Rattle.st_model.specs.Adding.{add_refused, place_refused};
ghost use Rattle.st_request.specs.Outcome.{outcome_of, unless_err, with_tree};

use st_base::{Errno, Ids, Obj, Text};
use st_exec_objects::walking;
use st_model::MOST_OBJECTS;
use st_names::AbsName;
use st_request::{Outcome, Request, unrefused};
use st_trace::{CallResult, Change};
use st_tree::{NewKind, NewNode, Tree};
use std::alloc::{AllocError, Global};

// The mode of a link: everyone may read, write and execute it.
const LINK_MODE: u32 = 0o777;

// Checks that a call may add a name; otherwise gives the error of the call.
fn may_name(tree: &Tree, ids: Ids, name: &AbsName) -> Result<(), Errno>
    ensures refused { result_err result ≡ first_error (walk_error tree.now ids name.now ∷ already_exists tree.now name.now ∷ parent_not_writable tree.now ids name.now ∷ []) }
    ensures free { OnOk result (place_refused tree.now name.now ≡ None) }
{
    let place = walking::walk(tree, ids, name)?;
    if place.object.is_some() {
        return Err(Errno::EEXIST);
    }
    walking::may_write_holder(tree, ids, place)?;
    Ok(())
}

// Checks that an object may be made under this name; otherwise gives the error of the call.
fn may_make(tree: &Tree, request: &Request<'_>, name: &AbsName) -> Result<(), Errno>
    ensures outcome { (system : System) (kind : NewKind) (mode : ℕ) → make_outcome (with_tree system tree.now) request.now name.now kind mode ≡ unless_err system result (λ _. success system 0 (Change.Made name.now (length tree.now.objects + 1) kind request.now.ids.euid request.now.ids.egid mode ∷ [])) }
    ensures may { OnOk result (add_refused tree.now name.now ≡ None) }
{
    may_name(tree, request.ids, name)?;
    if tree.made() as usize >= MOST_OBJECTS {
        return Err(Errno::ENOSPC);
    }
    Ok(())
}

/// An object to be made, of this kind and with this mode, that belongs to the effective ids.
pub fn owned_node(ids: Ids, kind: NewKind, mode: u32) -> NewNode
    ensures { result ≡ record { kind = kind; uid = ids.euid; gid = ids.egid; mode = mode } }
{
    NewNode {
        kind,
        uid: ids.euid,
        gid: ids.egid,
        mode,
    }
}

/// Makes an object that isn't refused. Returns the outcome of a call whose result is this number. If memory runs out, nothing changes.
pub fn make_object(
    tree: &mut Tree,
    alloc: Global,
    name: AbsName,
    new: NewNode,
    value: u64,
) -> Result<Outcome, AllocError>
    requires { add_refused tree.old name ≡ None }
    ensures result { IfOk result (λ outcome. outcome.result ≡ CallResult.Value value) }
    ensures changes { IfOk result (λ outcome. outcome.changes ≡ Change.Made name (length tree.old.objects + 1) new.kind new.uid new.gid new.mode ∷ []) }
    ensures tree { IfOk result (λ outcome. tree.new ≡ tree_after tree.old outcome.changes) }
    ensures made { OnOk result (IsObjectNumber tree.new (length tree.old.objects + 1)) }
    ensures node { OnOk result (node_with_number tree.new (length tree.old.objects + 1) ≡ node_of_new new) }
    ensures err { OnErr result (tree.new ≡ tree.old) }
{
    let change = Change::Made {
        name: name.copy(alloc)?,
        obj: tree.made() + 1,
        kind: new.kind.copy(alloc)?,
        uid: new.uid,
        gid: new.gid,
        mode: new.mode,
    };
    let outcome = Outcome::change(alloc, value, change)?;
    unrefused(tree.add(alloc, &name, new))?;
    Ok(outcome)
}

// Makes an object that belongs to the effective ids of a request, unless that is refused.
fn make(
    tree: &mut Tree,
    alloc: Global,
    request: &Request<'_>,
    name: AbsName,
    new: NewNode,
) -> Result<Outcome, AllocError>
    requires user { new.uid ≡ request.now.ids.euid }
    requires group { new.gid ≡ request.now.ids.egid }
    ensures outcome { IfOk result (λ outcome. (system : System) → outcome_of outcome system.descriptors ≡ make_outcome (with_tree system tree.old) request.now name new.kind new.mode) }
    ensures tree { IfOk result (λ outcome. tree.new ≡ tree_after tree.old outcome.changes) }
    ensures err { OnErr result (tree.new ≡ tree.old) }
{
    match may_make(tree, request, &name) {
        Ok(()) => make_object(tree, alloc, name, new, 0),
        Err(errno) => Ok(Outcome::failure(alloc, errno)),
    }
}

/// mkdir(name, mode): makes a directory, with the low nine bits of the mode.
pub fn mkdir(tree: &mut Tree, alloc: Global, request: &Request<'_>) -> Result<Outcome, AllocError>
    ensures outcome { IfOk result (λ outcome. (system : System) → outcome_of outcome system.descriptors ≡ mkdir_outcome (with_tree system tree.old) request.now) }
    ensures tree { IfOk result (λ outcome. tree.new ≡ tree_after tree.old outcome.changes) }
    ensures err { OnErr result (tree.new ≡ tree.old) }
{
    let name = request.name(alloc, 0)?;
    let new = owned_node(request.ids, NewKind::Dir, request.mode(1));
    make(tree, alloc, request, name, new)
}

/// symlink(text, name): makes a link whose target is the text.
pub fn symlink(tree: &mut Tree, alloc: Global, request: &Request<'_>) -> Result<Outcome, AllocError>
    ensures outcome { IfOk result (λ outcome. (system : System) → outcome_of outcome system.descriptors ≡ symlink_outcome (with_tree system tree.old) request.now) }
    ensures tree { IfOk result (λ outcome. tree.new ≡ tree_after tree.old outcome.changes) }
    ensures err { OnErr result (tree.new ≡ tree.old) }
{
    let target = request.text(0);
    if target.is_empty() {
        return Ok(Outcome::failure(alloc, Errno::ENOENT));
    }
    let kind = NewKind::Link(Text::of(alloc, target)?);
    let name = request.name(alloc, 1)?;
    let new = owned_node(request.ids, kind, LINK_MODE);
    make(tree, alloc, request, name, new)
}

// The object that gets one more name by link(2), or the error of the call.
fn may_link(tree: &Tree, request: &Request<'_>, old: &AbsName, new: &AbsName) -> Result<Obj, Errno>
    requires old { old.now ≡ arg_name_at request.now 0 }
    requires new { new.now ≡ arg_name_at request.now 1 }
    ensures made { IfOk result (IsObjectNumber tree.now) }
    ensures outcome { (system : System) → link_outcome (with_tree system tree.now) request.now ≡ unless_err system result (λ obj. success system 0 (Change.Linked new.now obj ∷ [])) }
    ensures may { IfOk result (λ obj. link_refused tree.now obj new.now ≡ None) }
{
    let obj = walking::find(tree, request.ids, old)?;
    if walking::is_directory(tree, obj) {
        return Err(Errno::EPERM);
    }
    may_name(tree, request.ids, new)?;
    Ok(obj)
}

/// link(old, new): gives one more name to an object that isn't a directory.
pub fn link(tree: &mut Tree, alloc: Global, request: &Request<'_>) -> Result<Outcome, AllocError>
    ensures outcome { IfOk result (λ outcome. (system : System) → outcome_of outcome system.descriptors ≡ link_outcome (with_tree system tree.old) request.now) }
    ensures tree { IfOk result (λ outcome. tree.new ≡ tree_after tree.old outcome.changes) }
    ensures err { OnErr result (tree.new ≡ tree.old) }
{
    let old = request.name(alloc, 0)?;
    let new = request.name(alloc, 1)?;
    let obj = match may_link(tree, request, &old, &new) {
        Ok(obj) => obj,
        Err(errno) => return Ok(Outcome::failure(alloc, errno)),
    };
    let name = new.copy(alloc)?;
    let outcome = Outcome::change(alloc, 0, Change::Linked { name, obj })?;
    unrefused(tree.link(alloc, obj, &new))?;
    Ok(outcome)
}

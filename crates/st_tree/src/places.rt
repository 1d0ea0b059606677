// The objects to which names lead, and why a name may not be added, removed or renamed.
ghost use Rattle.std.specs.Prelude.{◌≡◌, ◌<◌, ◌≤◌, false, Some, [], length, map, ℕ, IfOk, OnOk, OnErr};
ghost use Rattle.std.specs.Result.{result_err};
ghost use Rattle.st_names.specs.Name.{last_part, parent};
ghost use Rattle.st_tree.specs.Objects.{dirs_of, is_dir_of, object_node, tree_of, IsNumber, IsValidTree};
ghost use Rattle.st_tree.specs.Paths.{dir_entry, with_entry, without_entry};
ghost use Rattle.st_tree.specs.Reached.{directory_reached, errno_of_gap, object_or_gap, gap_or_entry, IsEmpty, IsFree, IsRenaming, IsTaken, IsRenamePlan};
ghost use Rattle.st_tree.specs.Refusals.{link_refused, no_object, remove_refused, rename_refused, replace_refused};
ghost use Rattle.st_model.specs.Adding.{add_refused, place_refused};
ghost use Rattle.st_model.specs.Tree.{is_proper_prefix};

use crate::object::Object;
use crate::table;
use st_base::{Errno, Obj};
use st_model::MOST_OBJECTS;
use st_names::{AbsName, NameParts};
use std::alloc::{AllocError, Global};

// The root's number.
pub(crate) const ROOT: Obj = 1;

// Why a name leads to no object.
#[derive(Clone, Copy, Debug, PartialEq, Eq)]
pub(crate) enum Gap {
    // The name or a proper prefix of it is missing.
    Missing,
    // A proper prefix of the name is no directory.
    NotDir,
}

// The data of a rename: the directories of the old and the new name, and the object.
#[derive(Clone, Copy)]
pub(crate) struct RenamePlan {
    pub(crate) from: Obj,
    pub(crate) to: Obj,
    pub(crate) obj: Obj,
}

impl Gap {
    fn errno(self) -> Errno
        ensures { result ≡ errno_of_gap self }
    {
        match self {
            Gap::Missing => Errno::ENOENT,
            Gap::NotDir => Errno::ENOTDIR,
        }
    }
}

// The object that a component has in this object, which has to be a directory.
fn step(objects: &[Object], from: Obj, part: &[u8]) -> Result<Obj, Gap>
    requires { IsNumber objects.now from }
    ensures { result ≡ gap_or_entry (is_dir_of objects.now from) (dir_entry (dirs_of objects.now) from part.now) }
{
    if !table::is_dir(objects, from) {
        return Err(Gap::NotDir);
    }
    table::entry(objects, from, part).ok_or(Gap::Missing)
}

// The object to which components lead from the root.
fn reach(objects: &[Object], parts: NameParts<'_>) -> Result<Obj, Gap>
    requires { IsValidTree objects.now }
    ensures reached { result ≡ object_or_gap objects.now 1 parts.entry }
    ensures number { IfOk result (IsNumber objects.now) }
{
    let mut at = ROOT;
    for part in parts {
        at = step(objects, at, part)?;
    }
    Ok(at)
}

// The object to which a name leads.
pub(crate) fn find(objects: &[Object], name: &AbsName) -> Result<Obj, Gap>
    requires { IsValidTree objects.now }
    ensures reached { result ≡ object_or_gap objects.now 1 name.now }
    ensures number { IfOk result (IsNumber objects.now) }
{
    reach(objects, name.parts())
}

// The directory of a name, whether or not the name exists.
fn directory_of(objects: &[Object], name: &AbsName) -> Result<Obj, Gap>
    requires { IsValidTree objects.now }
    ensures reached { result ≡ directory_reached objects.now (parent name.now) }
    ensures number { IfOk result (IsNumber objects.now) }
{
    let holder = reach(objects, name.parent())?;
    if !table::is_dir(objects, holder) {
        return Err(Gap::NotDir);
    }
    Ok(holder)
}

// The directory of a name that doesn't exist, or why the name can't be added.
fn free_place(objects: &[Object], name: &AbsName) -> Result<Obj, Errno>
    requires { IsValidTree objects.now }
    ensures free { IfOk result (IsFree objects.now name.now) }
    ensures refused { result_err result ≡ place_refused (tree_of objects.now) name.now }
{
    let holder = match directory_of(objects, name) {
        Ok(holder) => holder,
        Err(gap) => return Err(gap.errno()),
    };
    if name.is_root() {
        return Err(Errno::EEXIST);
    }
    match table::entry(objects, holder, name.last()) {
        Some(_) => Err(Errno::EEXIST),
        None => Ok(holder),
    }
}

// The directory and the object of a name other than the root's.
fn taken_place(objects: &[Object], name: &AbsName) -> Result<(Obj, Obj), Errno>
    requires whole { IsValidTree objects.now }
    requires named { 0 < length name.now }
    ensures taken { IfOk result (λ place. IsTaken objects.now name.now place.0 place.1) }
    ensures refused { result_err result ≡ no_object (tree_of objects.now) name.now }
{
    let holder = match reach(objects, name.parent()) {
        Ok(holder) => holder,
        Err(gap) => return Err(gap.errno()),
    };
    match step(objects, holder, name.last()) {
        Ok(obj) => Ok((holder, obj)),
        Err(gap) => Err(gap.errno()),
    }
}

// The directory for the name of a new object, or why the object can't be added.
pub(crate) fn place_to_add(objects: &[Object], name: &AbsName) -> Result<Obj, Errno>
    requires { IsValidTree objects.now }
    ensures free { IfOk result (IsFree objects.now name.now) }
    ensures room { IfOk result (λ _. length objects.now < MOST_OBJECTS) }
    ensures refused { result_err result ≡ add_refused (tree_of objects.now) name.now }
{
    let holder = free_place(objects, name)?;
    if objects.len() >= MOST_OBJECTS {
        return Err(Errno::ENOSPC);
    }
    Ok(holder)
}

// The directory for one more name of an object, or why the name can't be added.
pub(crate) fn place_to_link(objects: &[Object], obj: Obj, name: &AbsName) -> Result<Obj, Errno>
    requires whole { IsValidTree objects.now }
    requires number { IsNumber objects.now obj }
    ensures free { IfOk result (IsFree objects.now name.now) }
    ensures plain { IfOk result (λ _. is_dir_of objects.now obj ≡ false) }
    ensures refused { result_err result ≡ link_refused (tree_of objects.now) obj name.now }
{
    let holder = free_place(objects, name)?;
    if table::is_dir(objects, obj) {
        return Err(Errno::EPERM);
    }
    Ok(holder)
}

// The directory of a name that may be removed, or why the name can't be removed.
pub(crate) fn place_to_remove(objects: &[Object], name: &AbsName) -> Result<Obj, Errno>
    requires { IsValidTree objects.now }
    ensures empty { IfOk result (IsEmpty objects.now name.now) }
    ensures refused { result_err result ≡ remove_refused (tree_of objects.now) name.now }
{
    if name.is_root() {
        return Err(Errno::EINVAL);
    }
    let (holder, obj) = taken_place(objects, name)?;
    if table::has_entries(objects, obj) {
        return Err(Errno::ENOTEMPTY);
    }
    Ok(holder)
}

/// Whether `old` is a proper prefix of `new`.
pub fn is_proper_prefix(old: &AbsName, new: &AbsName) -> bool
    ensures { result ≡ is_proper_prefix old.now new.now }
{
    old.begins(new) && old.len() < new.len()
}

// Whether an object can replace another object, or why it can't.
fn replace(objects: &[Object], obj: Obj, replaced: Obj) -> Result<(), Errno>
    requires whole { IsValidTree objects.now }
    requires number { IsNumber objects.now obj }
    requires replaced { IsNumber objects.now replaced }
    ensures empty { OnOk result (dirs_of objects.now replaced ≡ []) }
    ensures refused { result_err result ≡ replace_refused (tree_of objects.now) (Some obj) (Some replaced) }
{
    let dir = table::is_dir(objects, obj);
    if dir != table::is_dir(objects, replaced) {
        return Err(if dir { Errno::ENOTDIR } else { Errno::EISDIR });
    }
    if table::has_entries(objects, replaced) {
        return Err(Errno::ENOTEMPTY);
    }
    Ok(())
}

// The data of a rename, or none if both names have the same object.
pub(crate) fn rename_plan(
    objects: &[Object],
    old: &AbsName,
    new: &AbsName,
) -> Result<Option<RenamePlan>, Errno>
    requires { IsValidTree objects.now }
    ensures way { IfOk result (IsRenaming objects.now old.now new.now) }
    ensures refused { result_err result ≡ rename_refused (tree_of objects.now) old.now new.now }
{
    if old.is_root() || new.is_root() || is_proper_prefix(old, new) {
        return Err(Errno::EINVAL);
    }
    let (from, obj) = taken_place(objects, old)?;
    let to = match directory_of(objects, new) {
        Ok(to) => to,
        Err(gap) => return Err(gap.errno()),
    };
    let Some(replaced) = table::entry(objects, to, new.last()) else {
        return Ok(Some(RenamePlan { from, to, obj }));
    };
    if replaced == obj {
        return Ok(None);
    }
    replace(objects, obj, replaced)?;
    Ok(Some(RenamePlan { from, to, obj }))
}

// Moves the entry of one name to another name, and replaces the entry of that name if it has one.
pub(crate) fn move_entry(
    objects: &mut [Object],
    alloc: Global,
    way: RenamePlan,
    old: &AbsName,
    new: &AbsName,
) -> Result<(), AllocError>
    requires { IsRenamePlan objects.old old.now new.now way }
    ensures ok { OnOk result ((n : ℕ) → dirs_of objects.new n ≡ without_entry (with_entry (dirs_of objects.old) way.to (last_part new.now) way.obj) way.from (last_part old.now) n) }
    ensures err { OnErr result ((n : ℕ) → dirs_of objects.new n ≡ dirs_of objects.old n) }
    ensures nodes { map object_node objects.new ≡ map object_node objects.old }
{
    table::put_entry(objects, alloc, way.to, new.last(), way.obj)?;
    table::take_entry(objects, way.from, old.last());
    Ok(())
}

ghost use Rattle.std.specs.Prelude.{◌≡◌, ◌+◌, ◌^◌, ◌<◌, ◌≤◌, ◌↔◌, suc, false, true, None, Some, [], ◌∷◌, ◌++◌, drop, length, take, IsNone, IfSome, IfOk, IfErr, OnOk, OnErr};
ghost use Rattle.st_names.specs.Name.{Components};
ghost use Rattle.st_names.specs.Seen.{seen_text};
ghost use Rattle.st_model.specs.Tree.{add_object, cut_object, entry_count, is_directory, link_object, look, node_with_number, object_of, remove_name, root_only, set_mode, set_owner, size_of, write_object, node_of_new};
ghost use Rattle.st_model.specs.Permission.{allowed};
ghost use Rattle.st_model.specs.declared.limits.TheConstants.{MOST_OBJECTS};
ghost use Rattle.st_tree.specs.Answers.{KeepsKinds, Refuses};
ghost use Rattle.st_tree.specs.Refusals.{cut_refused, is_absent, link_refused, remove_refused, rename_refused, tree_after_rename, write_too_long, IsFile, IsObjectNumber};
ghost use Rattle.st_model.specs.Adding.{add_refused};

use crate::object::{Node, Object};
use crate::places::{self, Gap};
use crate::table;
use st_base::{Errno, Obj, Text};
use st_model::{LONGEST_FILE, NewKind, NewNode, Want};
use st_names::{AbsName, Seen};
use std::alloc::{AllocError, Global};
use std::marker::Model;
use thiserror::Error;

/// Why a tree wasn't changed.
#[derive(Clone, Copy, Debug, PartialEq, Eq, Drop, Error)]
pub enum TreeFault {
    /// The call fails with this error.
    #[error("the call fails")]
    Os(Errno),
    /// Out of memory for the change.
    #[error("out of memory")]
    NoMemory,
}

impl From<AllocError> for TreeFault {
    ghost use Rattle.st_tree.specs.declared.tree.TreeFault.TheVariants.{NoMemory};

    ghost from_gives = { λ _ fault. fault ≡ NoMemory };

    fn from(_error: AllocError) -> Self {
        TreeFault::NoMemory
    }
}

impl From<Errno> for TreeFault {
    ghost use Rattle.st_tree.specs.declared.tree.TreeFault.TheVariants.{Os};

    ghost from_gives = { λ errno fault. fault ≡ Os errno };

    fn from(errno: Errno) -> Self {
        TreeFault::Os(errno)
    }
}

/// A file tree: objects, numbered from 1 in the order in which they were made, under the names that the entries of directories form.
/// The root is object 1.
#[derive(Debug, Drop)]
pub struct Tree {
    // Object n is at index n - 1.
    objects: Vec<Object>,
}

impl Model for Tree {
    ghost use Rattle.st_model.specs.Tree as names;

    ghost Value = { names.Tree };

    ghost use Rattle.st_tree.specs.Objects.{tree_of, IsValidTree};

    ghost view = { λ t. tree_of t.objects.items };

    ghost invariant = { λ t. IsValidTree t.objects.items };
}

impl Tree {
    /// The tree that has only the root.
    pub fn new(alloc: Global) -> Result<Self, AllocError>
        ensures { IfOk result (λ tree. tree ≡ root_only) }
    {
        let root = NewNode {
            kind: NewKind::Dir,
            uid: 0,
            gid: 0,
            mode: 0o755,
        };
        let mut objects = Vec::new(alloc);
        objects.push(Object::of(alloc, root))?;
        Ok(Tree { objects })
    }

    /// Reserves room for so many more objects. The tree doesn't change.
    pub fn reserve(&mut self, objects: usize) -> Result<(), AllocError>
        ensures { self.new ≡ self.old }
    {
        self.objects.reserve(objects)
    }

    /// The result of a look at a name. The first proper prefix that is missing or is no directory decides.
    pub fn look<'a>(&'a self, name: &AbsName) -> Seen<'a>
        ensures { seen_text result ≡ look self.now name.now }
    {
        match places::find(&self.objects, name) {
            Ok(obj) => self.objects[obj as usize - 1].seen(),
            Err(Gap::Missing) => Seen::Missing,
            Err(Gap::NotDir) => Seen::NotDir,
        }
    }

    /// The object that has a name; none exactly when a look sees Missing or NotDir.
    pub fn object(&self, name: &AbsName) -> Option<Obj>
        ensures object { result ≡ object_of self.now name.now }
        ensures none { IsNone result ↔ (is_absent (look self.now name.now) ≡ true) }
        ensures made { IfSome result (IsObjectNumber self.now) }
    {
        places::find(&self.objects, name).ok()
    }

    /// The root's number.
    pub fn root(&self) -> Obj
        ensures object { object_of self.now [] ≡ Some result }
        ensures made { IsObjectNumber self.now result }
        ensures directory { is_directory (node_with_number self.now result).kind ≡ true }
    {
        prove!(!self.objects.is_empty());
        places::ROOT
    }

    /// The object that a component has in this object; none in an object that is no directory. If there is none, no longer name has an
    /// object either.
    pub fn child(&self, obj: Obj, part: &[u8]) -> Option<Obj>
        requires { IsObjectNumber self.now obj }
        ensures object { (name : Components) → object_of self.now name ≡ Some obj → result ≡ object_of self.now (name ++ part.now ∷ []) }
        ensures below { result ≡ None → (name rest : Components) → object_of self.now name ≡ Some obj → object_of self.now (name ++ part.now ∷ rest) ≡ None }
        ensures made { IfSome result (IsObjectNumber self.now) }
    {
        table::entry(&self.objects, obj, part)
    }

    /// The kind, owner, group, mode and size of an object.
    pub fn node(&self, obj: Obj) -> Node
        requires { IsObjectNumber self.now obj }
        ensures kind { result.kind ≡ (node_with_number self.now obj).kind }
        ensures uid { result.uid ≡ (node_with_number self.now obj).uid }
        ensures gid { result.gid ≡ (node_with_number self.now obj).gid }
        ensures mode { result.mode ≡ (node_with_number self.now obj).mode }
        ensures size { result.size ≡ size_of self.now obj }
        ensures plain { is_directory result.kind ≡ false → entry_count self.now obj ≡ 0 }
    {
        self.objects[obj as usize - 1].node()
    }

    /// Whether a user and a group have this access to an object. The owner's bits decide for the owner, otherwise the group's bits for a
    /// member of the group, otherwise the others' bits. User 0 has every access, except that it may not execute what nobody may execute.
    pub fn allowed(&self, obj: Obj, uid: u32, gid: u32, want: Want) -> bool
        requires { IsObjectNumber self.now obj }
        ensures { result ≡ allowed (node_with_number self.now obj) uid gid want }
    {
        self.objects[obj as usize - 1].allows(uid, gid, want)
    }

    /// The bytes of a file or of a link's target. A directory has none.
    pub fn content(&self, obj: Obj) -> &[u8]
        requires { IsObjectNumber self.now obj }
        ensures { result.now ≡ (node_with_number self.now obj).content }
    {
        self.objects[obj as usize - 1].content()
    }

    /// The number of objects that were ever made. The next object gets the next number.
    pub fn made(&self) -> u32
        ensures count { result ≡ length self.now.objects }
        ensures few { result ≤ MOST_OBJECTS }
    {
        self.objects.len() as u32
    }

    /// Makes an object under a new name, and returns its number. Fails with ENOENT if the name's directory is missing, with ENOTDIR if a
    /// proper prefix is no directory, with EEXIST if the name exists, and with ENOSPC if 4,096 objects were made. After an error
    /// nothing is changed.
    pub fn add(&mut self, alloc: Global, name: &AbsName, new: NewNode) -> Result<Obj, TreeFault>
        ensures ok { OnOk result (self.new ≡ add_object self.old name.now (node_of_new new)) }
        ensures number { IfOk result (λ obj. obj ≡ suc (length self.old.objects)) }
        ensures made { IfOk result (IsObjectNumber self.new) }
        ensures node { IfOk result (λ obj. node_with_number self.new obj ≡ node_of_new new) }
        ensures may { OnOk result (add_refused self.old name.now ≡ None) }
        ensures refused { Refuses (add_refused self.old name.now) result }
        ensures err { OnErr result (self.new ≡ self.old) }
    {
        let holder = places::place_to_add(&self.objects, name)?;
        let obj = self.objects.len() as u32 + 1;
        self.objects.reserve(1)?;
        table::put_entry(&mut self.objects, alloc, holder, name.last(), obj)?;
        self.objects.push_reserved(Object::of(alloc, new));
        Ok(obj)
    }

    /// Gives an object one more name. Fails with ENOENT, ENOTDIR and EEXIST as for a new object, then with EPERM if the object is a
    /// directory. After an error nothing is changed.
    pub fn link(&mut self, alloc: Global, obj: Obj, name: &AbsName) -> Result<(), TreeFault>
        requires { IsObjectNumber self.old obj }
        ensures ok { OnOk result (self.new ≡ link_object self.old name.now obj) }
        ensures may { OnOk result (link_refused self.old obj name.now ≡ None) }
        ensures refused { Refuses (link_refused self.old obj name.now) result }
        ensures err { OnErr result (self.new ≡ self.old) }
    {
        let holder = places::place_to_link(&self.objects, obj, name)?;
        table::put_entry(&mut self.objects, alloc, holder, name.last(), obj)?;
        Ok(())
    }

    /// Removes a name; its object stays. Fails with EINVAL for the root, then with ENOENT if the name or a proper prefix is missing, with
    /// ENOTDIR if a proper prefix is no directory, and with ENOTEMPTY for a directory with entries. After an error nothing is changed.
    pub fn remove(&mut self, name: &AbsName) -> Result<(), TreeFault>
        ensures ok { OnOk result (self.new ≡ remove_name self.old name.now) }
        ensures may { OnOk result (remove_refused self.old name.now ≡ None) }
        ensures refused { Refuses (remove_refused self.old name.now) result }
        ensures err { OnErr result (self.new ≡ self.old) }
    {
        let holder = places::place_to_remove(&self.objects, name)?;
        table::take_entry(&mut self.objects, holder, name.last());
        Ok(())
    }

    /// Replaces the old prefix by the new prefix in each name that has it: an object moves with all names below it, and replaces the
    /// object with the new name, if there is one. If both names have the same object, nothing is changed. Fails with EINVAL if either
    /// name is the root's or the old name is a proper prefix of the new name; then with ENOENT or ENOTDIR for the old name, or for the
    /// new name's directory; then with ENOTDIR if only the moved object is a directory, with EISDIR if only the replaced object is one,
    /// and with ENOTEMPTY if the replaced object has entries. After an error nothing is changed.
    pub fn rename(&mut self, alloc: Global, old: &AbsName, new: &AbsName) -> Result<(), TreeFault>
        ensures ok { OnOk result (self.new ≡ tree_after_rename self.old old.now new.now) }
        ensures may { OnOk result (rename_refused self.old old.now new.now ≡ None) }
        ensures refused { Refuses (rename_refused self.old old.now new.now) result }
        ensures err { OnErr result (self.new ≡ self.old) }
    {
        let Some(way) = places::rename_plan(&self.objects, old, new)? else {
            return Ok(());
        };
        places::move_entry(&mut self.objects, alloc, way, old, new)?;
        Ok(())
    }

    /// `count` bytes of a file from offset `at` on, or fewer if the file ends before.
    pub fn read(&self, alloc: Global, obj: Obj, at: u64, count: u64) -> Result<Text, AllocError>
        requires { IsFile self.now obj }
        ensures bytes { IfOk result (λ text. text ≡ take count (drop at (node_with_number self.now obj).content)) }
        ensures few { IfOk result (λ text. length text ≤ count) }
        ensures end { IfOk result (λ text. 0 < length text → at + length text < 2 ^ 64) }
    {
        self.objects[obj as usize - 1].read(alloc, at, count)
    }

    /// Writes bytes to a file from offset `at` on. A gap before them is filled with zeros, and writing no bytes changes nothing. Fails with
    /// ENOSPC if the file would get longer than 65,536 bytes. After an error nothing is changed.
    pub fn write(&mut self, obj: Obj, at: u64, bytes: &[u8]) -> Result<(), TreeFault>
        requires { IsFile self.old obj }
        ensures ok { OnOk result (self.new ≡ write_object self.old obj at bytes.now) }
        ensures kinds { KeepsKinds self.old self.new }
        ensures may { OnOk result (write_too_long at bytes.now ≡ None) }
        ensures refused { Refuses (write_too_long at bytes.now) result }
        ensures err { OnErr result (self.new ≡ self.old) }
    {
        if bytes.is_empty() {
            return Ok(());
        }
        if at.saturating_add(bytes.len() as u64) > LONGEST_FILE {
            return Err(TreeFault::Os(Errno::ENOSPC));
        }
        self.objects[obj as usize - 1].write(at as usize, bytes)?;
        Ok(())
    }

    /// Truncates a file to a length, or extends it with zeros. Fails with ENOSPC for more than 65,536 bytes. After an error nothing is
    /// changed.
    pub fn cut(&mut self, obj: Obj, len: u64) -> Result<(), TreeFault>
        requires { IsFile self.old obj }
        ensures ok { OnOk result (self.new ≡ cut_object self.old obj len) }
        ensures kinds { KeepsKinds self.old self.new }
        ensures may { OnOk result (cut_refused len ≡ None) }
        ensures refused { Refuses (cut_refused len) result }
        ensures err { OnErr result (self.new ≡ self.old) }
    {
        if len > LONGEST_FILE {
            return Err(TreeFault::Os(Errno::ENOSPC));
        }
        self.objects[obj as usize - 1].cut(len as usize)?;
        Ok(())
    }

    /// Gives an object another mode.
    pub fn set_mode(&mut self, obj: Obj, mode: u32)
        requires { IsObjectNumber self.old obj }
        ensures mode { self.new ≡ set_mode self.old obj mode }
        ensures kinds { KeepsKinds self.old self.new }
    {
        self.objects[obj as usize - 1].mode = mode;
    }

    /// Gives an object another owner and another group.
    pub fn set_owner(&mut self, obj: Obj, uid: u32, gid: u32)
        requires { IsObjectNumber self.old obj }
        ensures owner { self.new ≡ set_owner self.old obj uid gid }
        ensures kinds { KeepsKinds self.old self.new }
    {
        let object = &mut self.objects[obj as usize - 1];
        object.uid = uid;
        object.gid = gid;
    }
}

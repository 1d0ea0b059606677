// Objects by their numbers, and the entries of directories.
ghost use Rattle.std.specs.Prelude.{◌≡◌, ℕ, true, nat_lt, length, map, OnOk, OnErr};
ghost use Rattle.st_tree.specs.Objects.{dirs_of, is_dir_of, object_node, IsNumber};
ghost use Rattle.st_tree.specs.Paths.{dir_entry, with_entry, without_entry};

use crate::object::Object;
use st_base::Obj;
use std::alloc::{AllocError, Global};

// Whether the object with this number is a directory.
pub(crate) fn is_dir(objects: &[Object], obj: Obj) -> bool
    requires { IsNumber objects.now obj }
    ensures { result ≡ is_dir_of objects.now obj }
{
    objects[obj as usize - 1].is_dir()
}

// Whether an object has entries.
pub(crate) fn has_entries(objects: &[Object], obj: Obj) -> bool
    requires { IsNumber objects.now obj }
    ensures { result ≡ nat_lt 0 (length (dirs_of objects.now obj)) }
{
    objects[obj as usize - 1].entries() > 0
}

// The number that a component has in a directory; none in any other object.
pub(crate) fn entry(objects: &[Object], holder: Obj, part: &[u8]) -> Option<Obj>
    requires { IsNumber objects.now holder }
    ensures { result ≡ dir_entry (dirs_of objects.now) holder part.now }
{
    objects[holder as usize - 1].entry(part)
}

// Inserts or replaces a component's entry in a directory.
pub(crate) fn put_entry(
    objects: &mut [Object],
    alloc: Global,
    holder: Obj,
    part: &[u8],
    obj: Obj,
) -> Result<(), AllocError>
    requires number { IsNumber objects.old holder }
    requires dir { is_dir_of objects.old holder ≡ true }
    ensures ok { OnOk result ((n : ℕ) → dirs_of objects.new n ≡ with_entry (dirs_of objects.old) holder part.now obj n) }
    ensures err { OnErr result ((n : ℕ) → dirs_of objects.new n ≡ dirs_of objects.old n) }
    ensures nodes { map object_node objects.new ≡ map object_node objects.old }
{
    objects[holder as usize - 1].put(alloc, part, obj)
}

// Removes a component's entry from an object, if it has one.
pub(crate) fn take_entry(objects: &mut [Object], holder: Obj, part: &[u8])
    requires { IsNumber objects.old holder }
    ensures entries { (n : ℕ) → dirs_of objects.new n ≡ without_entry (dirs_of objects.old) holder part.now n }
    ensures nodes { map object_node objects.new ≡ map object_node objects.old }
{
    objects[holder as usize - 1].take(part);
}

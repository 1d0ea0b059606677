ghost use Rattle.std.specs.Prelude.{◌≡◌, ◌+◌, ◌^◌, ◌<◌, ◌≤◌, [], drop, length, take, true, IfOk, OnOk, OnErr};
ghost use Rattle.std.specs.BTreeMap.{insert_entry, is_at};
ghost use Rattle.std.specs.Cmp.Lexicographic.{slice_cmp};
ghost use Rattle.std.specs.Map.{lookup, remove_entry};
ghost use Rattle.std.specs.Ordering.{nat_cmp};
ghost use Rattle.std.specs.Str.{bytes_eq};
ghost use Rattle.st_model.specs.Permission.{allowed};
ghost use Rattle.st_model.specs.Tree.{is_directory, bytes_after_write, bytes_after_cut, seen_of_kind, size_of_kind, content_of_new, kind_of_new, node_of_new};
ghost use Rattle.st_model.specs.declared.object.Kind.TheVariants as object_kind;
ghost use Rattle.st_names.specs.Seen.{seen_text};
ghost use Rattle.st_tree.specs.Objects.{content_of_body, entries_of_body, kind_of_body, object_node, sorted_entries};
ghost use Rattle.st_tree.specs.Nodes.{with_content};
ghost use Rattle.st_model.specs.declared.limits.TheConstants.{LONGEST_FILE};

use crate::content;
use indexmap::IndexMap;
use st_base::{Obj, Text, is_same_text};
use st_model::{Kind, NewKind, NewNode, Permission, Want};
use st_names::Seen;
use std::alloc::{AllocError, Global};

/// The kind, owner, group, mode and size of an object.
#[derive(Clone, Copy, Debug, PartialEq, Eq)]
pub struct Node {
    pub kind: Kind,
    pub uid: u32,
    pub gid: u32,
    pub mode: u32,
    /// The number of entries of a directory, of bytes of a file, or of bytes of a link's target.
    pub size: u64,
}

// An object as the tree stores it.
#[derive(Debug, Drop)]
pub(crate) struct Object {
    pub(crate) uid: u32,
    pub(crate) gid: u32,
    pub(crate) mode: u32,
    pub(crate) body: Body,
}

#[derive(Debug, Drop)]
pub(crate) enum Body {
    // The number of the object for each component. No call lists a directory, so the entries are in no particular order.
    Dir(IndexMap<Vec<u8>, Obj>),
    File(Vec<u8>),
    Link(Vec<u8>),
}

impl Body {
    fn of(alloc: Global, kind: NewKind) -> Self
        ensures kind { kind_of_body result ≡ kind_of_new kind }
        ensures content { content_of_body result ≡ content_of_new kind }
        ensures entries { entries_of_body result ≡ [] }
    {
        match kind {
            NewKind::Dir => Body::Dir(IndexMap::new(alloc)),
            NewKind::File(content) => Body::File(content.into_bytes()),
            NewKind::Link(target) => Body::Link(target.into_bytes()),
        }
    }
}

// Up to this many entries are compared one by one, since a hash costs more.
const FEW_ENTRIES: usize = 4;

// The number that a component has among entries, by a comparison with each entry.
fn compared(entries: &IndexMap<Vec<u8>, Obj>, part: &[u8]) -> Option<Obj>
    ensures { result ≡ lookup (λ key. bytes_eq part.now key.items) entries.now.entries }
{
    for place in 0..entries.len() {
        let Some((component, obj)) = entries.get_index(place) else {
            unreachable!()
        };
        if is_same_text(part, component.as_slice()) {
            return Some(*obj);
        }
    }
    None
}

// The number that a component has among the entries of a directory.
fn entry_in(entries: &IndexMap<Vec<u8>, Obj>, part: &[u8]) -> Option<Obj>
    ensures { result ≡ lookup (is_at (slice_cmp nat_cmp part.now)) (sorted_entries entries.now.entries) }
{
    if entries.len() <= FEW_ENTRIES {
        compared(entries, part)
    } else {
        entries.get(part).copied()
    }
}

impl Object {
    // A new object without entries. It allocates no memory.
    pub(crate) fn of(alloc: Global, new: NewNode) -> Self
        ensures node { object_node result ≡ node_of_new new }
        ensures entries { entries_of_body result.body ≡ [] }
    {
        let NewNode {
            kind,
            uid,
            gid,
            mode,
        } = new;
        Object {
            uid,
            gid,
            mode,
            body: Body::of(alloc, kind),
        }
    }

    pub(crate) fn is_dir(&self) -> bool
        ensures { result ≡ is_directory (kind_of_body self.now.body) }
    {
        match self.body {
            Body::Dir(_) => true,
            Body::File(_) | Body::Link(_) => false,
        }
    }

    // The number of entries of a directory, or 0 for any other object.
    pub(crate) fn entries(&self) -> usize
        ensures { result ≡ length (entries_of_body self.now.body) }
    {
        match &self.body {
            Body::Dir(entries) => entries.len(),
            Body::File(_) | Body::Link(_) => 0,
        }
    }

    // The object's kind, owner, group, mode and size.
    pub(crate) fn node(&self) -> Node
        ensures kind { result.kind ≡ (object_node self.now).kind }
        ensures uid { result.uid ≡ self.now.uid }
        ensures gid { result.gid ≡ self.now.gid }
        ensures mode { result.mode ≡ self.now.mode }
        ensures size { result.size ≡ size_of_kind (object_node self.now).kind (length (entries_of_body self.now.body)) (object_node self.now).content }
    {
        let (kind, size) = match &self.body {
            Body::Dir(entries) => (Kind::Dir, entries.len()),
            Body::File(content) => (Kind::File, content.len()),
            Body::Link(target) => (Kind::Link, target.len()),
        };
        Node {
            kind,
            uid: self.uid,
            gid: self.gid,
            mode: self.mode,
            size: size as u64,
        }
    }

    // Whether a user and a group have this access to the object.
    pub(crate) fn allows(&self, uid: u32, gid: u32, want: Want) -> bool
        ensures { result ≡ allowed (object_node self.now) uid gid want }
    {
        let permission = Permission {
            uid: self.uid,
            gid: self.gid,
            mode: self.mode,
        };
        permission.is_permitted(uid, gid, want)
    }

    // The result of a look at the object.
    pub(crate) fn seen(&self) -> Seen<'_>
        ensures { seen_text result ≡ seen_of_kind (object_node self.now).kind (object_node self.now).content }
    {
        match &self.body {
            Body::Dir(_) => Seen::Dir,
            Body::File(_) => Seen::File,
            Body::Link(target) => Seen::Link(target),
        }
    }

    // The number that a component has in a directory; none in any other object.
    pub(crate) fn entry(&self, part: &[u8]) -> Option<Obj>
        ensures { result ≡ lookup (is_at (slice_cmp nat_cmp part.now)) (entries_of_body self.now.body) }
    {
        match &self.body {
            Body::Dir(entries) => entry_in(entries, part),
            Body::File(_) | Body::Link(_) => None,
        }
    }

    // Inserts or replaces a component's entry in a directory.
    pub(crate) fn put(&mut self, alloc: Global, part: &[u8], obj: Obj) -> Result<(), AllocError>
        requires { is_directory (kind_of_body self.old.body) ≡ true }
        ensures ok { OnOk result (entries_of_body self.new.body ≡ insert_entry (slice_cmp nat_cmp) (entries_of_body self.old.body) part.now obj) }
        ensures err { OnErr result (entries_of_body self.new.body ≡ entries_of_body self.old.body) }
        ensures node { object_node self.new ≡ object_node self.old }
    {
        let part = Vec::from_slice(alloc, part)?;
        if let Body::Dir(entries) = &mut self.body {
            entries.insert(part, obj)?;
        }
        Ok(())
    }

    // Removes a component's entry, if it has one.
    pub(crate) fn take(&mut self, part: &[u8])
        ensures entries { entries_of_body self.new.body ≡ remove_entry (is_at (slice_cmp nat_cmp part.now)) (entries_of_body self.old.body) }
        ensures node { object_node self.new ≡ object_node self.old }
    {
        if let Body::Dir(entries) = &mut self.body {
            entries.swap_remove(part);
        }
    }

    // The bytes of a file or of a link's target. A directory has none.
    pub(crate) fn content(&self) -> &[u8]
        ensures { result.now ≡ (object_node self.now).content }
    {
        match &self.body {
            Body::Dir(_) => b"",
            Body::File(content) => content,
            Body::Link(target) => target,
        }
    }

    // `count` bytes from offset `at` on, or fewer if the content ends before.
    pub(crate) fn read(&self, alloc: Global, at: u64, count: u64) -> Result<Text, AllocError>
        ensures bytes { IfOk result (λ text. text ≡ take count (drop at (object_node self.now).content)) }
        ensures few { IfOk result (λ text. length text ≤ count) }
        ensures end { IfOk result (λ text. 0 < length text → at + length text < 2 ^ 64) }
    {
        Text::of(alloc, content::part(self.content(), at, count))
    }

    // Writes bytes to a file from offset `at` on.
    pub(crate) fn write(&mut self, at: usize, bytes: &[u8]) -> Result<(), AllocError>
        requires file { kind_of_body self.old.body ≡ object_kind.File }
        requires fits { at + length bytes.now ≤ LONGEST_FILE }
        ensures ok { OnOk result (object_node self.new ≡ with_content (object_node self.old) (bytes_after_write (object_node self.old).content at bytes.now)) }
        ensures err { OnErr result (object_node self.new ≡ object_node self.old) }
        ensures entries { entries_of_body self.new.body ≡ entries_of_body self.old.body }
    {
        if let Body::File(content) = &mut self.body {
            content::overwrite(content, at, bytes)?;
        }
        Ok(())
    }

    // Truncates or extends a file to a length.
    pub(crate) fn cut(&mut self, len: usize) -> Result<(), AllocError>
        requires { kind_of_body self.old.body ≡ object_kind.File }
        ensures ok { OnOk result (object_node self.new ≡ with_content (object_node self.old) (bytes_after_cut (object_node self.old).content len)) }
        ensures err { OnErr result (object_node self.new ≡ object_node self.old) }
        ensures entries { entries_of_body self.new.body ≡ entries_of_body self.old.body }
    {
        if let Body::File(content) = &mut self.body {
            content.resize(len, 0)?;
        }
        Ok(())
    }
}

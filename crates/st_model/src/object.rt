ghost use Rattle.std.specs.Prelude.{◌≡◌, IfOk};

use st_base::Text;
use std::alloc::{AllocError, Global};

/// The kind of an object of the file tree.
#[derive(Clone, Copy, Debug, PartialEq, Eq)]
pub enum Kind {
    Dir,
    File,
    Link,
}

/// An object to be made.
#[derive(Debug, Drop)]
pub struct NewNode {
    pub kind: NewKind,
    pub uid: u32,
    pub gid: u32,
    pub mode: u32,
}

impl NewNode {
    /// A copy with its own content.
    pub fn copy(&self, alloc: Global) -> Result<Self, AllocError>
        ensures { IfOk result (λ copied. copied ≡ self.now) }
    {
        Ok(NewNode {
            kind: self.kind.copy(alloc)?,
            uid: self.uid,
            gid: self.gid,
            mode: self.mode,
        })
    }
}

/// The kind of an object to be made, with its content.
#[derive(Debug, Drop)]
pub enum NewKind {
    Dir,
    /// A file, with its content.
    File(Text),
    /// A link, with its target.
    Link(Text),
}

impl NewKind {
    /// A copy with its own content.
    pub fn copy(&self, alloc: Global) -> Result<Self, AllocError>
        ensures { IfOk result (λ copied. copied ≡ self.now) }
    {
        Ok(match self {
            NewKind::Dir => NewKind::Dir,
            NewKind::File(content) => NewKind::File(content.copy(alloc)?),
            NewKind::Link(target) => NewKind::Link(target.copy(alloc)?),
        })
    }
}

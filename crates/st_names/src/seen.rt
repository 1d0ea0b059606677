ghost use Rattle.std.specs.Prelude.{◌≡◌, IfOk};
ghost use Rattle.st_names.specs.Seen.{seen_text};

use st_base::Text;
use std::alloc::{AllocError, Global};

/// The result of a look at a name.
#[derive(Clone, Copy, Debug)]
pub enum Seen<'a> {
    /// No object has this name, or a proper prefix of the name is missing.
    Missing,
    /// A proper prefix of the name is no directory.
    NotDir,
    Dir,
    File,
    /// A link, with its target.
    Link(&'a [u8]),
}

/// The result of a look at a name, with a copy of a link's target.
#[derive(Debug, Drop)]
pub enum SeenText {
    Missing,
    NotDir,
    Dir,
    File,
    Link(Text),
}

impl<'a> Seen<'a> {
    /// The same result, with a copy of the target.
    pub fn copy(self, alloc: Global) -> Result<SeenText, AllocError>
        ensures { IfOk result (λ copied. copied ≡ seen_text self.entry) }
    {
        Ok(match self {
            Seen::Missing => SeenText::Missing,
            Seen::NotDir => SeenText::NotDir,
            Seen::Dir => SeenText::Dir,
            Seen::File => SeenText::File,
            Seen::Link(target) => SeenText::Link(Text::of(alloc, target)?),
        })
    }
}

impl SeenText {
    /// A copy of the result, with a text of its own.
    pub fn copy(&self, alloc: Global) -> Result<Self, AllocError>
        ensures { IfOk result (λ copied. copied ≡ self.now) }
    {
        Ok(match self {
            SeenText::Missing => SeenText::Missing,
            SeenText::NotDir => SeenText::NotDir,
            SeenText::Dir => SeenText::Dir,
            SeenText::File => SeenText::File,
            SeenText::Link(target) => SeenText::Link(target.copy(alloc)?),
        })
    }
}

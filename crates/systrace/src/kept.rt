//! Files that keep copies of what they gave, so that a refusal is reported from the very bytes that were refused, and a failure by the name
//! of its file.

ghost use Rattle.std.specs.Prelude.{◌≡◌, ◌≢◌, ◌≤◌, [], ◌∷◌, ◌++◌, length, IfOk};
ghost use Rattle.st_outside.specs.Count.{HasRisen};
ghost use Rattle.st_outside.specs.Files.{CanHold, CanLack, CanExceed, CanFit};
ghost use Rattle.st_outside.specs.declared.files.TheConstants.{FILE_LIMIT};

use st_base::Text;
use st_outside::{FetchFault, Files, MemoryFiles};
use std::alloc::{AllocError, Global};

/// Files, with what is kept of those that were fetched.
#[derive(Drop)]
pub struct KeptFiles<F> {
    files: F,
    kept: Kept,
}

/// What is kept of files that were fetched.
#[derive(Drop)]
pub struct Kept {
    /// A copy of each that was read.
    pub files: MemoryFiles,
    /// The name of the last that could not be read.
    pub failed: Option<Text>,
}

impl Kept {
    /// What is kept before any file was fetched.
    pub fn new(alloc: Global) -> Self {
        Kept {
            files: MemoryFiles::new(alloc),
            failed: None,
        }
    }
}

impl<F: Drop> KeptFiles<F> {
    /// Files of which none was fetched yet.
    pub fn new(alloc: Global, files: F) -> Self {
        KeptFiles {
            files,
            kept: Kept::new(alloc),
        }
    }

    /// The files that it fetches from.
    pub fn files(&self) -> &F {
        &self.files
    }

    /// What was kept of the files that were fetched.
    pub fn into_kept(self) -> Kept {
        self.kept
    }
}

// Keeps a copy of a file.
fn keep(alloc: Global, kept: &mut MemoryFiles, name: &Text, text: &Text) -> Result<(), AllocError> {
    kept.add(
        Text::of(alloc, name.bytes())?,
        Text::of(alloc, text.bytes())?,
    )
}

// Keeps what a fetch gave. If memory runs out, nothing is kept; then only the reason of a refusal can't be reported.
fn note(alloc: Global, kept: &mut Kept, name: &Text, fetched: &Result<Text, FetchFault>) {
    match fetched {
        Ok(text) => {
            let _ = keep(alloc, &mut kept.files, name, text);
        }
        Err(FetchFault::Failed) => kept.failed = Text::of(alloc, name.bytes()).ok(),
        Err(_) => {}
    }
}

impl<F: Files> Files for KeptFiles<F> {
    ghost contents = { λ k. F.contents k.files };

    ghost asked = { λ k. F.asked k.files };

    ghost faults = { λ k. F.faults k.files };

    fn fetch(&mut self, alloc: Global, name: &Text) -> Result<Text, FetchFault>
        ensures contents { F.contents self.new.files ≡ F.contents self.old.files }
        ensures asked { F.asked self.new.files ≡ F.asked self.old.files ++ name.now ∷ [] }
        ensures content { IfOk result (λ text. CanHold (F.contents self.old.files name.now) text) }
        ensures within { IfOk result (λ text. length text ≤ FILE_LIMIT) }
        ensures missing { result ≡ Err FetchFault.Missing → CanLack (F.contents self.old.files name.now) }
        ensures too_long { result ≡ Err FetchFault.TooLong → CanExceed (F.contents self.old.files name.now) }
        ensures no_memory { result ≡ Err FetchFault.NoMemory → CanFit (F.contents self.old.files name.now) }
        ensures failed { result ≡ Err FetchFault.Failed → HasRisen (F.faults self.old.files) (F.faults self.new.files) }
        ensures quiet { result ≢ Err FetchFault.Failed → F.faults self.new.files ≡ F.faults self.old.files }
    {
        let fetched = self.files.fetch(alloc, name);
        note(alloc, &mut self.kept, name, &fetched);
        fetched
    }
}

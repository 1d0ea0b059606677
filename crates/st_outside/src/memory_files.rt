ghost use Rattle.std.specs.Prelude.{◌≡◌, ◌≢◌, ℕ, ◌≤◌, ◌↔◌, [], ◌∷◌, ◌++◌, List, length, IfOk, OnOk, OnErr, IsTrue, IsFalse, MatchOption};
ghost use Rattle.st_outside.specs.Count.{HasRisen, next_count};
ghost use Rattle.st_outside.specs.Files.{FileView, Absent, FileBytes, CanHold, CanLack, CanExceed, CanFit};
ghost use Rattle.st_outside.specs.MemoryFiles.{view_of_name, fetch_fails};

use crate::count::{contains_call, one_more};
use crate::files::{FILE_LIMIT, FetchFault, Files};
use crate::history::History;
use st_base::Text;
use std::alloc::{AllocError, Global};
use std::marker::Model;

/// A file in memory: its name and its content.
#[derive(Debug, Drop)]
pub struct HeldFile {
    pub name: Text,
    pub content: Text,
}

/// Files in memory. The content of each name is known, and the fetches with chosen numbers fail.
#[derive(Drop)]
pub struct MemoryFiles {
    files: Vec<HeldFile>,
    fetches: u64,
    failing: Vec<u32>,
    faults: u64,
    asked: History<Text>,
}

impl Model for MemoryFiles {
    ghost use Rattle.st_outside.specs.MemoryFiles.{FilesInMemory};

    ghost Value = { FilesInMemory };

    ghost view = { λ m. record { files = m.files.items; fetches = m.fetches; failing = m.failing.items; faults = m.faults; asked = m.asked.items } };
}

impl MemoryFiles {
    /// An empty set of files, of which no fetch is set to fail.
    pub fn new(alloc: Global) -> Self
        ensures { result ≡ record { files = []; fetches = 0; failing = []; faults = 0; asked = [] } }
    {
        MemoryFiles {
            files: Vec::new(alloc),
            fetches: 0,
            failing: Vec::new(alloc),
            faults: 0,
            asked: History::new(),
        }
    }

    /// Adds a file. If a name is added again, it holds the later content. If out of memory, the file is dropped.
    pub fn add(&mut self, name: Text, content: Text) -> Result<(), AllocError>
        ensures ok { OnOk result (self.new ≡ record self.old { files = self.old.files ++ record { name = name; content = content } ∷ [] }) }
        ensures later { OnOk result (view_of_name self.new.files name ≡ FileBytes content) }
        ensures others { OnOk result ((n : List ℕ) → n ≢ name → view_of_name self.new.files n ≡ view_of_name self.old.files n) }
        ensures err { OnErr result (self.new ≡ self.old) }
    {
        self.files.push(HeldFile { name, content })?;
        Ok(())
    }

    /// Makes the fetch with this number fail. Fetches are counted from 1.
    pub fn fail_at(&mut self, call: u32) -> Result<(), AllocError>
        ensures ok { OnOk result (self.new ≡ record self.old { failing = self.old.failing ++ call ∷ [] }) }
        ensures err { OnErr result (self.new ≡ self.old) }
    {
        self.failing.push(call)?;
        Ok(())
    }

    /// The number of faults so far, saturating at 2^64 - 1.
    pub fn faults(&self) -> u64
        ensures { result ≡ self.now.faults }
    {
        self.faults
    }
}

// The content that a name holds: that of the last file added under this name.
fn content_of<'a>(files: &'a [HeldFile], name: &Text) -> Option<&'a Text>
    ensures { MatchOption result (view_of_name files.now name.now ≡ Absent) (λ content. view_of_name files.now name.now ≡ FileBytes content.now) }
{
    let mut found = None;
    for file in files {
        if file.name.bytes() == name.bytes() {
            found = Some(&file.content);
        }
    }
    found
}

impl Files for MemoryFiles {
    ghost contents = { λ m. view_of_name m.files };

    ghost asked = { λ m. m.asked };

    ghost faults = { λ m. m.faults };

    fn fetch(&mut self, alloc: Global, name: &Text) -> Result<Text, FetchFault>
        ensures contents { view_of_name self.new.files ≡ view_of_name self.old.files }
        ensures asked { self.new.asked ≡ self.old.asked ++ name.now ∷ [] }
        ensures content { IfOk result (λ text. CanHold (view_of_name self.old.files name.now) text) }
        ensures within { IfOk result (λ text. length text ≤ FILE_LIMIT) }
        ensures missing { result ≡ Err FetchFault.Missing → CanLack (view_of_name self.old.files name.now) }
        ensures too_long { result ≡ Err FetchFault.TooLong → CanExceed (view_of_name self.old.files name.now) }
        ensures no_memory { result ≡ Err FetchFault.NoMemory → CanFit (view_of_name self.old.files name.now) }
        ensures failed { result ≡ Err FetchFault.Failed → HasRisen self.old.faults self.new.faults }
        ensures quiet { result ≢ Err FetchFault.Failed → self.new.faults ≡ self.old.faults }

        // Exactly when each fault occurs, which text a fetch returns, and the state after it.
        ensures fails { (result ≡ Err FetchFault.Failed) ↔ IsTrue (fetch_fails self.old) }
        ensures lacks { (result ≡ Err FetchFault.Missing) ↔ (IsFalse (fetch_fails self.old) × (view_of_name self.old.files name.now ≡ Absent)) }
        ensures exceeds { (result ≡ Err FetchFault.TooLong) ↔ (IsFalse (fetch_fails self.old) × CanExceed (view_of_name self.old.files name.now)) }
        ensures gives { IfOk result (λ text. view_of_name self.old.files name.now ≡ FileBytes text) }
        ensures after { result ≢ Err FetchFault.Failed → self.new ≡ record self.old { fetches = next_count self.old.fetches; asked = self.old.asked ++ name.now ∷ [] } }
        ensures after_failure { result ≡ Err FetchFault.Failed → self.new ≡ record self.old { fetches = next_count self.old.fetches; faults = next_count self.old.faults; asked = self.old.asked ++ name.now ∷ [] } }
    {
        self.asked = self.asked.and(name);
        self.fetches = one_more(self.fetches);
        if contains_call(&self.failing, self.fetches) {
            self.faults = one_more(self.faults);
            return Err(FetchFault::Failed);
        }
        let content = content_of(&self.files, name).ok_or(FetchFault::Missing)?;
        if content.bytes().len() as u64 > FILE_LIMIT {
            return Err(FetchFault::TooLong);
        }
        content.copy(alloc).map_err(|_| FetchFault::NoMemory)
    }
}

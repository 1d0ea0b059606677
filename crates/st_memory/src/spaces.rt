ghost use Rattle.std.specs.Prelude.{◌≡◌, ℕ, suc, ◌+◌, ◌-◌, ◌/◌, ◌%◌, ◌^◌, List, ◌<◌, ◌≤◌, ◌↔◌, ◌==◌, if◌then◌else◌, Option, Some, true, false, [], ◌∷◌, ◌++◌, length, IsTrue, IsNone, IsErr, IsErrOf, IfSome, IfOk, IfErr, OnOk, OnErr};
ghost use Rattle.st_memory.specs.Memory.{byte_in, is_space_live, next_space, page_number, spaces_after_copy, spaces_after_give_up, ChangesLive, IsOutside, IsPageShared, IsShared, IsSpaceAdded, IsWritten, KeepsSpaces, Memories, NumberedPage, OwnsPages};
ghost use Rattle.st_memory.specs.declared.page.TheConstants.{PAGE_BYTES, PAGE_WORDS};
ghost use Rattle.st_memory.specs.declared.table.TheConstants.{SPACE_PAGES};
ghost use Rattle.st_model.specs.Memory.{bytes_from, memory_after_put, memory_after_store, word_of};
ghost use Rattle.st_model.specs.declared.limits.TheConstants.{SPACE_BYTES, SPACE_WORDS};

use crate::page::{PAGE_BYTES, PAGE_WORDS};
use crate::table::{
    CountedPage, SPACE_PAGES, are_alone, insert_zeros, own_row, page_of, put_bytes_into,
    put_word_into, release, row_of, share,
};
use slab::Slab;
use st_base::{Space, Text};
use st_model::{SPACE_BYTES, SPACE_WORDS};
use std::alloc::{AllocError, Global};
use std::marker::Model;
use thiserror::Error;

/// Why memory could not be read or written.
#[derive(Clone, Copy, Debug, PartialEq, Eq, Drop, Error)]
pub enum MemFault {
    /// The access reaches past the end of the space.
    #[error("past the end of the memory")]
    Outside,
    /// Out of memory for the result, or for a copy of a page that other spaces have.
    #[error("out of memory")]
    NoMemory,
}

impl From<AllocError> for MemFault {
    ghost use Rattle.st_memory.specs.declared.spaces.MemFault.TheVariants.{NoMemory};

    ghost from_gives = { λ _ fault. fault ≡ NoMemory };

    fn from(_error: AllocError) -> Self {
        MemFault::NoMemory
    }
}

/// The memories of processes. Each space has 8,192 words, little-endian, on 16 pages, and is named by its number, from 1. A number is
/// given once, unless its space is unmade. A copy of a space shares its pages; the first write to a shared page copies that page.
#[derive(Debug, Drop)]
pub struct Spaces {
    // The page numbers of space s are at index s - 1; the entry of a space that was given up is `None`.
    rows: Vec<Option<[usize; SPACE_PAGES]>>,
    // The pages that spaces have, each under its number.
    pages: Slab<CountedPage>,
}

impl Model for Spaces {
    ghost use Rattle.st_memory.specs.Memory.{Memories};
    ghost use Rattle.st_memory.specs.Pages.{memories_of, words_of, IsTable};

    ghost Value = { Memories };

    ghost view = { λ s. memories_of s.rows.items (words_of s.pages) };

    ghost invariant = { λ s. IsTable s.rows.items s.pages };
}

impl Spaces {
    /// Makes memories without any space, which takes no memory.
    pub fn new(alloc: Global) -> Self
        ensures { result ≡ [] }
    {
        Spaces {
            rows: Vec::new(alloc),
            pages: Slab::new(alloc),
        }
    }

    /// Makes a space of zeros, with pages of its own. Its number is one more than that of the space made before. If memory runs out,
    /// nothing changes.
    pub fn make(&mut self, alloc: Global) -> Result<Space, AllocError>
        requires { next_space self.old < 2 ^ 32 }
        ensures number { IfOk result (λ space. space ≡ next_space self.old) }
        ensures ok { OnOk result (IsSpaceAdded self.old self.new) }
        ensures next { OnOk result (next_space self.new ≡ suc (next_space self.old)) }
        ensures live { OnOk result (ChangesLive self.old (next_space self.old) true self.new) }
        ensures zeros { IfOk result (λ space. (b : ℕ) → byte_in self.new space b ≡ 0) }
        ensures alone { IfOk result (λ space. (index : ℕ) → IsPageShared self.new space index → ⊥) }
        ensures others { (s b : ℕ) → byte_in self.new s b ≡ byte_in self.old s b }
        ensures err { OnErr result (self.new ≡ self.old) }
    {
        self.rows.reserve(1)?;
        let row = insert_zeros(&mut self.pages, alloc)?;
        self.rows.push_reserved(Some(row));
        Ok(self.rows.len() as Space)
    }

    /// Makes a copy of a space, as fork(2) does. The two share all pages, so it takes memory for the page numbers alone. Its number is
    /// one more than that of the space made before. If memory runs out, nothing changes.
    pub fn copy_space(&mut self, from: Space) -> Result<Space, AllocError>
        requires live { is_space_live self.old from ≡ true }
        requires room { next_space self.old < 2 ^ 32 }
        ensures number { IfOk result (λ space. space ≡ next_space self.old) }
        ensures ok { OnOk result (self.new ≡ spaces_after_copy self.old from) }
        ensures next { OnOk result (next_space self.new ≡ suc (next_space self.old)) }
        ensures live { OnOk result (ChangesLive self.old (next_space self.old) true self.new) }
        ensures bytes { OnOk result ((s b : ℕ) → byte_in self.new s b ≡ (if s == next_space self.old then byte_in self.old from b else byte_in self.old s b)) }
        ensures err { OnErr result (self.new ≡ self.old) }
    {
        let row = *row_of(&self.rows, from);
        self.rows.push(Some(row))?;
        share(&mut self.pages, &row);
        Ok(self.rows.len() as Space)
    }

    /// Gives up a space, and frees the pages that no other space has. From then on its number names no space.
    pub fn give_up(&mut self, space: Space)
        requires { is_space_live self.old space ≡ true }
        ensures spaces { self.new ≡ spaces_after_give_up self.old space }
        ensures next { next_space self.new ≡ next_space self.old }
        ensures live { ChangesLive self.old space false self.new }
        ensures others { (s b : ℕ) → byte_in self.new s b ≡ (if s == space then 0 else byte_in self.old s b) }
    {
        let row = *row_of(&self.rows, space);
        self.rows[space as usize - 1] = None;
        release(&mut self.pages, &row);
    }

    /// Removes the space that was made last; its number is the next one again. If nothing was written since, all is as before the
    /// space was made.
    pub fn unmake(&mut self, space: Space)
        requires live { is_space_live self.old space ≡ true }
        requires last { suc space ≡ next_space self.old }
        ensures undoes { (before : Memories) (pages : List NumberedPage) → self.old ≡ before ++ Some pages ∷ [] → self.new ≡ before }
        ensures next { next_space self.new ≡ space }
        ensures live { ChangesLive self.old space false self.new }
        ensures others { (s b : ℕ) → byte_in self.new s b ≡ (if s == space then 0 else byte_in self.old s b) }
    {
        let row = *row_of(&self.rows, space);
        self.rows.truncate(space as usize - 1);
        release(&mut self.pages, &row);
    }

    /// Whether another space has the page of the word at an index of a space.
    pub fn shared(&self, space: Space, place: u32) -> bool
        requires live { is_space_live self.now space ≡ true }
        requires inside { place < SPACE_WORDS }
        ensures { IsTrue result ↔ IsShared self.now space place }
    {
        page_of(&self.rows, &self.pages, space, place as usize / PAGE_WORDS).count > 1
    }

    /// The word at an index of a space; `None` exactly when the index is past the end.
    pub fn word(&self, space: Space, place: u32) -> Option<u64>
        requires { is_space_live self.now space ≡ true }
        ensures none { IsNone result ↔ (SPACE_WORDS ≤ place) }
        ensures value { IfSome result (λ word. word ≡ word_of (byte_in self.now space) place) }
    {
        if place >= SPACE_WORDS {
            return None;
        }
        let place = place as usize;
        let counted = page_of(&self.rows, &self.pages, space, place / PAGE_WORDS);
        Some(counted.page.word(place % PAGE_WORDS))
    }

    // Copies each shared page of a space from index `first` up to `end`. If memory runs out, nothing changes. It isn't inlined, as most
    // writes copy no page.
    #[inline(never)]
    fn copy_shared(
        &mut self,
        alloc: Global,
        space: Space,
        first: usize,
        end: usize,
    ) -> Result<(), AllocError>
        requires live { is_space_live self.old space ≡ true }
        requires inside { end ≤ SPACE_PAGES }
        ensures bytes { (s b : ℕ) → byte_in self.new s b ≡ byte_in self.old s b }
        ensures spaces { KeepsSpaces self.old self.new }
        ensures pages { OnOk result (OwnsPages self.old space (λ index. (first ≤ index) × (index < end)) self.new) }
        ensures shared { IsErr result → (index : ℕ) × (first ≤ index) × (index < end) × IsPageShared self.old space index }
        ensures err { OnErr result (self.new ≡ self.old) }
    {
        let row = row_of(&self.rows, space);
        let row = own_row(&mut self.pages, alloc, row, first, end)?;
        self.rows[space as usize - 1] = Some(row);
        Ok(())
    }

    // Lets a space have each page from index `first` up to `end` alone. If memory runs out, nothing changes.
    fn own(
        &mut self,
        alloc: Global,
        space: Space,
        first: usize,
        end: usize,
    ) -> Result<(), AllocError>
        requires live { is_space_live self.old space ≡ true }
        requires inside { end ≤ SPACE_PAGES }
        ensures bytes { (s b : ℕ) → byte_in self.new s b ≡ byte_in self.old s b }
        ensures spaces { KeepsSpaces self.old self.new }
        ensures pages { OnOk result (OwnsPages self.old space (λ index. (first ≤ index) × (index < end)) self.new) }
        ensures shared { IsErr result → (index : ℕ) × (first ≤ index) × (index < end) × IsPageShared self.old space index }
        ensures err { OnErr result (self.new ≡ self.old) }
    {
        if are_alone(&self.pages, row_of(&self.rows, space), first, end) {
            return Ok(());
        }
        self.copy_shared(alloc, space, first, end)
    }

    /// Stores a word at an index of a space, and changes nothing else. A shared page is copied first; if memory runs out for that,
    /// nothing changes.
    pub fn put_word(
        &mut self,
        alloc: Global,
        space: Space,
        place: u32,
        word: u64,
    ) -> Result<(), MemFault>
        requires { is_space_live self.old space ≡ true }
        ensures ok { OnOk result ((s b : ℕ) → byte_in self.new s b ≡ memory_after_store (byte_in self.old) space place word s b) }
        ensures spaces { KeepsSpaces self.old self.new }
        ensures pages { OnOk result (OwnsPages self.old space (λ index. index ≡ place / PAGE_WORDS) self.new) }
        ensures outside { IsErrOf result MemFault.Outside ↔ (SPACE_WORDS ≤ place) }
        ensures memory { IsErrOf result MemFault.NoMemory → IsShared self.old space place }
        ensures err { OnErr result (self.new ≡ self.old) }
    {
        if place >= SPACE_WORDS {
            return Err(MemFault::Outside);
        }
        let index = place as usize / PAGE_WORDS;
        self.own(alloc, space, index, index + 1)?;
        self.put_word_alone(space, place, word);
        Ok(())
    }

    // Stores a word at an index of a space, on a page that no other space has.
    fn put_word_alone(&mut self, space: Space, place: u32, word: u64)
        requires live { is_space_live self.old space ≡ true }
        requires inside { place < SPACE_WORDS }
        requires alone { IsShared self.old space place → ⊥ }
        ensures bytes { (s b : ℕ) → byte_in self.new s b ≡ memory_after_store (byte_in self.old) space place word s b }
        ensures numbers { (s index : ℕ) → page_number self.new s index ≡ page_number self.old s index }
        ensures spaces { KeepsSpaces self.old self.new }
    {
        let place = place as usize;
        let number = row_of(&self.rows, space)[place / PAGE_WORDS];
        put_word_into(&mut self.pages, number, place % PAGE_WORDS, word);
    }

    // Puts bytes on one page of a space, which no other space has.
    fn put_part_alone(&mut self, space: Space, at: usize, part: &[u8])
        requires live { is_space_live self.old space ≡ true }
        requires inside { at < SPACE_BYTES }
        requires one_page { at % PAGE_BYTES + length part.now ≤ PAGE_BYTES }
        requires alone { IsPageShared self.old space (at / PAGE_BYTES) → ⊥ }
        ensures bytes { (s b : ℕ) → byte_in self.new s b ≡ memory_after_put (byte_in self.old) space at part.now s b }
        ensures numbers { (s index : ℕ) → page_number self.new s index ≡ page_number self.old s index }
        ensures spaces { KeepsSpaces self.old self.new }
    {
        let number = row_of(&self.rows, space)[at / PAGE_BYTES];
        put_bytes_into(&mut self.pages, number, at % PAGE_BYTES, part);
    }

    // Puts bytes into a space at an offset, a page at a time, on pages that no other space has.
    fn put_bytes_alone(&mut self, space: Space, at: usize, bytes: &[u8])
        requires live { is_space_live self.old space ≡ true }
        requires inside { at + length bytes.now ≤ SPACE_BYTES }
        requires alone { (index : ℕ) → IsWritten at (length bytes.now) index → IsPageShared self.old space index → ⊥ }
        ensures bytes { (s b : ℕ) → byte_in self.new s b ≡ memory_after_put (byte_in self.old) space at bytes.now s b }
        ensures numbers { (s index : ℕ) → page_number self.new s index ≡ page_number self.old s index }
        ensures spaces { KeepsSpaces self.old self.new }
    {
        let mut done = 0;
        while done < bytes.len() {
            let room = PAGE_BYTES - (at + done) % PAGE_BYTES;
            let end = done + room.min(bytes.len() - done);
            self.put_part_alone(space, at + done, &bytes[done..end]);
            done = end;
        }
    }

    /// Puts bytes into a space at an offset, and changes nothing else. Shared pages are copied first; if memory runs out for one of
    /// them, nothing changes.
    pub fn put_bytes(
        &mut self,
        alloc: Global,
        space: Space,
        at: u64,
        bytes: &[u8],
    ) -> Result<(), MemFault>
        requires { is_space_live self.old space ≡ true }
        ensures ok { OnOk result ((s b : ℕ) → byte_in self.new s b ≡ memory_after_put (byte_in self.old) space at bytes.now s b) }
        ensures spaces { KeepsSpaces self.old self.new }
        ensures pages { OnOk result (OwnsPages self.old space (IsWritten at (length bytes.now)) self.new) }
        ensures outside { IsErrOf result MemFault.Outside ↔ IsOutside at (length bytes.now) }
        ensures memory { IsErrOf result MemFault.NoMemory → (index : ℕ) × IsWritten at (length bytes.now) index × IsPageShared self.old space index }
        ensures err { OnErr result (self.new ≡ self.old) }
    {
        if is_outside(at, bytes.len() as u64) {
            return Err(MemFault::Outside);
        }
        if bytes.is_empty() {
            return Ok(());
        }
        let at = at as usize;
        let end = (at + bytes.len() - 1) / PAGE_BYTES + 1;
        self.own(alloc, space, at / PAGE_BYTES, end)?;
        self.put_bytes_alone(space, at, bytes);
        Ok(())
    }

    // `count` bytes of a space from offset `at` on, a page at a time, in a vector that is allocated once.
    fn bytes_inside(
        &self,
        alloc: Global,
        space: Space,
        at: usize,
        count: usize,
    ) -> Result<Vec<u8>, AllocError>
        requires live { is_space_live self.now space ≡ true }
        requires inside { 0 < count → at + count ≤ SPACE_BYTES }
        ensures { IfOk result (λ bytes. bytes.items ≡ bytes_from (byte_in self.now space) at count) }
    {
        let mut bytes = Vec::with_capacity(alloc, count)?;
        let mut done = 0;
        while done < count {
            let counted = page_of(&self.rows, &self.pages, space, (at + done) / PAGE_BYTES);
            let from = (at + done) % PAGE_BYTES;
            let width = (PAGE_BYTES - from).min(count - done);
            counted.page.append_bytes(from, width, &mut bytes)?;
            done += width;
        }
        Ok(bytes)
    }

    /// `count` bytes of a space from offset `at` on.
    pub fn bytes(&self, alloc: Global, space: Space, at: u64, count: u64) -> Result<Text, MemFault>
        requires { is_space_live self.now space ≡ true }
        ensures ok { IfOk result (λ text. text ≡ bytes_from (byte_in self.now space) at count) }
        ensures outside { IsErrOf result MemFault.Outside ↔ IsOutside at count }
    {
        if is_outside(at, count) {
            return Err(MemFault::Outside);
        }
        let bytes = self.bytes_inside(alloc, space, at as usize, count as usize)?;
        Ok(Text::of(alloc, &bytes)?)
    }
}

// Whether one of `count` bytes from offset `at` on is past the end of a space.
fn is_outside(at: u64, count: u64) -> bool
    ensures { IsTrue result ↔ IsOutside at count }
{
    count > 0 && at.saturating_add(count) > SPACE_BYTES
}

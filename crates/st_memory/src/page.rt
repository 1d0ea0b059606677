ghost use Rattle.std.specs.Prelude.{◌≡◌, ℕ, ◌+◌, ◌%◌, ◌<◌, ◌≤◌, ◌++◌, length, slice_index, slice_set, IfOk, OnOk};
ghost use Rattle.std.specs.Int.{w64, to_le_bytes};
ghost use Rattle.st_memory.specs.Memory.{byte_of, zeros};
ghost use Rattle.st_model.specs.Memory.{bytes_after_put, bytes_after_store, bytes_from, word_of};

use std::alloc::{AllocError, Global};
use std::marker::Model;

/// The bytes of a page.
pub const PAGE_BYTES: usize = 4_096;

/// The words of a page.
pub const PAGE_WORDS: usize = 512;

/// The words of one page.
#[derive(Debug, Drop)]
pub struct Page {
    // The words up to the last that was stored. Those after it are 0 and have room, so a page costs nothing to make but its memory.
    words: Vec<u64>,
}

impl Model for Page {
    ghost use Rattle.std.specs.Prelude.{◌≤◌, List, ℕ, length, vec_capacity};
    ghost use Rattle.st_memory.specs.Page.{filled_up};
    ghost use Rattle.st_memory.specs.declared.page.TheConstants.{PAGE_WORDS};

    ghost Value = { List ℕ };

    ghost view = { λ p. filled_up p.words.items };

    ghost invariant = { λ p. (length p.words.items ≤ PAGE_WORDS) × (PAGE_WORDS ≤ vec_capacity p.words) };
}

impl Page {
    /// A page of zeros.
    pub fn zeros(alloc: Global) -> Result<Self, AllocError>
        ensures { IfOk result (λ page. page ≡ zeros) }
    {
        Ok(Page {
            words: Vec::with_capacity(alloc, PAGE_WORDS)?,
        })
    }

    // The word at an index; 0 past the end.
    fn at(&self, place: usize) -> u64
        ensures { result ≡ slice_index self.now place }
    {
        match self.words.get(place) {
            Some(word) => *word,
            None => 0,
        }
    }

    // Stores a word at an index. The words before it that were never stored become zeros.
    fn set(&mut self, place: usize, word: u64)
        requires { place < PAGE_WORDS }
        ensures size { length self.old ≡ PAGE_WORDS }
        ensures is { self.new ≡ slice_set self.old place word }
    {
        if place >= self.words.len() {
            let Ok(()) = self.words.resize(place + 1, 0) else {
                unreachable!()
            };
        }
        self.words[place] = word;
    }

    /// The word at an index.
    pub fn word(&self, place: usize) -> u64
        requires { place < PAGE_WORDS }
        ensures { result ≡ word_of (byte_of self.now) place }
    {
        self.at(place)
    }

    /// Appends `count` bytes from offset `at` on, a word at a time.
    pub fn append_bytes(
        &self,
        at: usize,
        count: usize,
        bytes: &mut Vec<u8>,
    ) -> Result<(), AllocError>
        requires { at + count ≤ PAGE_BYTES }
        ensures { OnOk result (bytes.new.items ≡ bytes.old.items ++ bytes_from (byte_of self.now) at count) }
    {
        let mut done = 0;
        while done < count {
            let word = self.at((at + done) / 8).to_le_bytes();
            let from = (at + done) % 8;
            let width = (8 - from).min(count - done);
            bytes.extend_from_slice(&word[from..from + width])?;
            done += width;
        }
        Ok(())
    }

    /// A copy with its own memory.
    pub fn copy(&self, alloc: Global) -> Result<Self, AllocError>
        ensures { IfOk result (λ page. page ≡ self.now) }
    {
        let mut words = Vec::with_capacity(alloc, PAGE_WORDS)?;
        words.extend_from_slice(&self.words)?;
        Ok(Page { words })
    }

    /// Stores a word at an index.
    pub fn put_word(&mut self, place: usize, word: u64)
        requires { place < PAGE_WORDS }
        ensures { (b : ℕ) → byte_of self.new b ≡ bytes_after_store (byte_of self.old) place word b }
    {
        self.set(place, word);
    }

    // Puts bytes that all fall into one word.
    fn put_part(&mut self, at: usize, part: &[u8])
        requires inside { at < PAGE_BYTES }
        requires one_word { at % 8 + length part.now ≤ 8 }
        ensures { (b : ℕ) → byte_of self.new b ≡ bytes_after_put (byte_of self.old) at part.now b }
    {
        let place = at / 8;
        self.set(place, merged(self.at(place), at % 8, part));
    }

    /// Puts bytes at an offset, a word at a time.
    pub fn put_bytes(&mut self, at: usize, bytes: &[u8])
        requires { at + length bytes.now ≤ PAGE_BYTES }
        ensures { (b : ℕ) → byte_of self.new b ≡ bytes_after_put (byte_of self.old) at bytes.now b }
    {
        let mut done = 0;
        while done < bytes.len() {
            let room = 8 - (at + done) % 8;
            let end = done + room.min(bytes.len() - done);
            self.put_part(at + done, &bytes[done..end]);
            done = end;
        }
    }
}

// A word with `part` in place of its bytes from index `from` on.
fn merged(word: u64, from: usize, part: &[u8]) -> u64
    requires { from + length part.now ≤ 8 }
    ensures { (k : ℕ) → k < 8 → slice_index (to_le_bytes w64 result) k ≡ bytes_after_put (slice_index (to_le_bytes w64 word)) from part.now k }
{
    let mut bytes = word.to_le_bytes();
    bytes[from..from + part.len()].copy_from_slice(part);
    u64::from_le_bytes(bytes)
}

ghost use Rattle.std.specs.Prelude.{◌≡◌, ℕ, ◌<◌, ◌≤◌, true, List, [], length, IsSome, IfSome, IfOk, nat_lt, vec_capacity};
ghost use Rattle.st_calls.specs.declared.argument.PartKind.{PartKind};
ghost use Rattle.st_model.specs.Spelling as spelling;
ghost use Rattle.st_model.specs.declared.limits.TheConstants.{SPACE_WORDS};
ghost use Rattle.st_translate.specs.Copied.{Copied, HasAllWords, asked_word, copy_fault, lies_in_memory, spelled_words, with_word};
ghost use Rattle.st_translate.specs.Stage.{AreAsked, Reaches, most_text, spelled_at};
ghost use Rattle.st_translate.specs.Taken.{took_of};

use crate::stage::{Stage, most_text, most_words};
use st_base::Errno;
use st_calls::PartKind;
use std::alloc::{AllocError, Global};
use std::marker::Model;

/// What taking a word led to.
#[derive(Clone, Copy, Debug, PartialEq, Eq)]
pub enum Took {
    /// Another word is needed.
    More,
    /// The part is complete.
    Part,
    Fault(Errno),
}

/// A part of a call that is copied from memory word by word. The cost of taking a word doesn't grow with the words before it, and
/// no memory is taken. With the last word the text is complete.
#[derive(Debug, Drop)]
pub struct Copying {
    kind: PartKind,
    at: u64,
    // With capacity for every word of the part.
    words: Vec<u64>,
    // What the words spell so far, with capacity for every byte.
    text: Vec<u8>,
    stage: Stage,
}

impl Model for Copying {
    ghost use Rattle.std.specs.Prelude.{vec_capacity};
    ghost use Rattle.st_translate.specs.Copied.{Copied};
    ghost use Rattle.st_translate.specs.Stage.{IsCopyStage};

    ghost Value = { Copied };

    ghost view = { λ c. record { kind = c.kind; at = c.at; words = c.words.items } };

    ghost invariant = { λ c. IsCopyStage c.kind c.at c.words.items c.text.items c.stage (vec_capacity c.words) (vec_capacity c.text) };
}

// What the last word led to, by the stage after it.
fn took_at(stage: Stage) -> Took
    ensures { (text : List ℕ) → result ≡ took_of (spelled_at stage text) }
{
    match stage {
        Stage::Done => Took::Part,
        Stage::Fault(errno) => Took::Fault(errno),
        _ => Took::More,
    }
}

// Reads a part again from its first word on, and gives its text and its stage.
fn read_again(kind: PartKind, at: u64, words: &[u64], text: &mut Vec<u8>) -> Stage
    requires kind { lies_in_memory kind ≡ true }
    requires asked { AreAsked kind at words.now }
    requires room { most_text kind ≤ vec_capacity text.old }
    ensures stage { Reaches kind at words.now text.new.items result }
    ensures capacity { vec_capacity text.new ≡ vec_capacity text.old }
{
    text.clear();
    let mut stage = Stage::start(kind, at);
    for word in words {
        stage.take(text, *word);
    }
    stage
}

impl Copying {
    /// A part that begins at this byte of memory, before its first word. The memory for all its words and its text is allocated at
    /// once.
    pub fn begin(alloc: Global, kind: PartKind, at: u64) -> Result<Self, AllocError>
        requires { lies_in_memory kind ≡ true }
        ensures { IfOk result (λ copying. copying ≡ record { kind = kind; at = at; words = [] }) }
    {
        Ok(Copying {
            kind,
            at,
            words: Vec::with_capacity(alloc, most_words(kind))?,
            text: Vec::with_capacity(alloc, most_text(kind))?,
            stage: Stage::start(kind, at),
        })
    }

    /// The index of the word that is copied next; `None` if the part is complete or has a fault.
    pub fn next_word(&self) -> Option<u32>
        ensures value { result ≡ asked_word (spelled_words self.now) }
        ensures inside { IfSome result (λ place. place < SPACE_WORDS) }
    {
        self.stage.place()
    }

    /// Whether a word was copied.
    pub fn is_begun(&self) -> bool
        ensures { result ≡ nat_lt 0 (length self.now.words) }
    {
        !self.words.is_empty()
    }

    /// The fault of the words, or that the part begins outside memory.
    pub fn fault(&self) -> Option<Errno>
        ensures { result ≡ copy_fault (spelled_words self.now) }
    {
        self.stage.fault()
    }

    /// Takes the word at the index that `next_word` gives.
    pub fn take(&mut self, word: u64) -> Took
        requires { IsSome (asked_word (spelled_words self.old)) }
        ensures words { self.new ≡ with_word self.old word }
        ensures took { result ≡ took_of (spelled_words self.new) }
    {
        self.words.push_reserved(word);
        self.stage.take(&mut self.text, word);
        took_at(self.stage)
    }

    /// Undoes the last `take`, by reading the words before it again.
    pub fn take_back(&mut self)
        requires { 0 < length self.old.words }
        ensures { (before : Copied) (word : ℕ) → self.old ≡ with_word before word → self.new ≡ before }
    {
        let _ = self.words.pop();
        self.stage = read_again(self.kind, self.at, self.words.as_slice(), &mut self.text);
    }

    /// Starts the part again, with the capacity that it has.
    pub fn restart(&mut self)
        ensures { self.new ≡ record { kind = self.old.kind; at = self.old.at; words = [] } }
    {
        self.words.clear();
        self.text.clear();
        self.stage = Stage::start(self.kind, self.at);
    }

    /// The text of a complete part.
    pub fn text(&self) -> &[u8]
        requires { HasAllWords (spelled_words self.now) }
        ensures { spelled_words self.now ≡ spelling.Text result.now }
    {
        &self.text
    }
}

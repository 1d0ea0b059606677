// The components that a walk has left, from its text and from the links that it follows.
ghost use Rattle.std.specs.Prelude.{◌≡◌, ◌↔◌, ◌+◌, ◌<◌, ◌≤◌, false, [], ◌∷◌, ◌++◌, drop, length, IsTrue, IsNone, IfSome, IfOk, OnOk, OnErr, vec_len, vec_capacity};
ghost use Rattle.st_names.specs.Name.{components_of, has_slash};
ghost use Rattle.st_model.specs.Walk.{is_last};
ghost use Rattle.st_resolve.specs.Remaining.{joined_components, AreUnfinished};

use crate::cursor::Cursor;
use std::alloc::{AllocError, Global};
use std::marker::Model;

/// The components that are left, the next one first.
#[derive(Debug, Drop)]
pub struct Remaining {
    // The texts that have these components, that of the next component last. Each text has a component left.
    texts: Vec<Cursor>,
}

impl Model for Remaining {
    ghost use Rattle.std.specs.Prelude.{List, ℕ};
    ghost use Rattle.st_resolve.specs.Remaining.{joined_components, AreUnfinished};

    ghost Value = { List (List ℕ) };

    ghost view = { λ r. joined_components r.texts.items };

    ghost invariant = { λ r. AreUnfinished r.texts.items };
}

impl Remaining {
    /// The components of a text.
    pub fn of(alloc: Global, text: &[u8]) -> Result<Self, AllocError>
        ensures { IfOk result (λ left. left ≡ components_of text.now) }
    {
        let mut texts = Vec::with_capacity(alloc, 1)?;
        let cursor = Cursor::of(alloc, text)?;
        if !cursor.is_empty() {
            texts.push(cursor)?;
        }
        Ok(Remaining { texts })
    }

    /// Whether no component is left.
    pub fn is_empty(&self) -> bool
        ensures { IsTrue result ↔ (self.now ≡ []) }
    {
        self.texts.is_empty()
    }

    /// The next component, if one is left.
    pub fn first(&self) -> Option<&[u8]>
        ensures none { IsNone result ↔ (self.now ≡ []) }
        ensures first { IfSome result (λ part. self.now ≡ part.now ∷ drop 1 self.now) }
        ensures plain { IfSome result (λ part. has_slash part.now ≡ false) }
    {
        match self.texts.last() {
            Some(text) => Some(text.first()),
            None => None,
        }
    }

    /// Whether the next component is the only one.
    pub fn is_last(&self) -> bool
        requires { 0 < length self.now }
        ensures { result ≡ is_last (drop 1 self.now) }
    {
        self.texts.len() == 1 && self.texts[0].is_last()
    }

    /// Drops the next component.
    pub fn drop_first(&mut self)
        requires { 0 < length self.old }
        ensures { self.new ≡ drop 1 self.old }
    {
        drop_first(&mut self.texts);
    }

    /// Replaces the next component with the components of a text. If memory runs out, nothing changes.
    pub fn replace_first(&mut self, alloc: Global, text: &[u8]) -> Result<(), AllocError>
        requires { 0 < length self.old }
        ensures ok { OnOk result (self.new ≡ components_of text.now ++ drop 1 self.old) }
        ensures err { OnErr result (self.new ≡ self.old) }
    {
        let cursor = Cursor::of(alloc, text)?;
        self.texts.reserve(1)?;
        drop_first(&mut self.texts);
        put_back(&mut self.texts, cursor);
        Ok(())
    }
}

// Pushes a text, unless it has no component left.
fn put_back(texts: &mut Vec<Cursor>, text: Cursor)
    requires { vec_len texts.old < vec_capacity texts.old }
    ensures joined { joined_components texts.new.items ≡ text ++ joined_components texts.old.items }
    ensures unfinished { AreUnfinished texts.old.items → AreUnfinished texts.new.items }
    ensures room { vec_len texts.new ≤ vec_len texts.old + 1 }
    ensures capacity { vec_capacity texts.new ≡ vec_capacity texts.old }
{
    if !text.is_empty() {
        texts.push_reserved(text);
    }
}

// Drops the next component of these texts, and its text if that has no other component.
fn drop_first(texts: &mut Vec<Cursor>)
    requires { AreUnfinished texts.old.items }
    ensures joined { joined_components texts.new.items ≡ drop 1 (joined_components texts.old.items) }
    ensures unfinished { AreUnfinished texts.new.items }
    ensures room { vec_len texts.new ≤ vec_len texts.old }
    ensures capacity { vec_capacity texts.new ≡ vec_capacity texts.old }
{
    if let Some(mut text) = texts.pop() {
        text.drop_first();
        put_back(texts, text);
    }
}

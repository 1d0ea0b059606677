// The components of one text, taken from its front.
ghost use Rattle.std.specs.Prelude.{◌≡◌, ◌↔◌, ◌+◌, ◌<◌, ◌≤◌, ℕ, false, [], ◌∷◌, drop, length, IsTrue, IfOk};
ghost use Rattle.st_names.specs.Name.{components_of, has_slash};
ghost use Rattle.st_model.specs.Walk.{is_last};
ghost use Rattle.st_resolve.specs.Cursor.{first_part_len, IsComponentAt};

use st_base::Text;
use st_names::{first_slash, is_component};
use std::alloc::{AllocError, Global};
use std::marker::Model;

/// The components of a text that are left. The end of the next component is stored, so that it isn't searched for each time.
#[derive(Debug, Drop)]
pub struct Cursor {
    text: Text,
    // Where the next component begins and ends; both are the text's length if none is left.
    at: usize,
    end: usize,
}

impl Model for Cursor {
    ghost use Rattle.std.specs.Prelude.{List, ℕ, drop};
    ghost use Rattle.st_names.specs.Name.{components_of};
    ghost use Rattle.st_resolve.specs.Cursor.{IsComponentAt};

    ghost Value = { List (List ℕ) };

    ghost view = { λ c. components_of (drop c.at c.text) };

    ghost invariant = { λ c. IsComponentAt c.text c.at c.end };
}

// Where the part that begins at this offset ends.
fn part_end(text: &[u8], at: usize) -> usize
    requires { at ≤ length text.now }
    ensures place { result ≡ at + first_part_len (drop at text.now) }
    ensures within { result ≤ length text.now }
{
    at + first_slash(&text[at..])
}

// Where the first component from this offset on begins and ends; both are the text's length if there is none.
fn component_from(text: &[u8], from: usize) -> (usize, usize)
    requires { from ≤ length text.now }
    ensures at { IsComponentAt text.now result.0 result.1 }
    ensures same { components_of (drop result.0 text.now) ≡ components_of (drop from text.now) }
{
    let mut at = from;
    while at < text.len() {
        let end = part_end(text, at);
        if is_component(&text[at..end]) {
            return (at, end);
        }
        at = (end + 1).min(text.len());
    }
    (at, at)
}

// Where the component after one that ends at this offset begins and ends; both are the text's length if there is none.
#[inline]
fn component_after(text: &[u8], end: usize) -> (usize, usize)
    requires { end ≤ length text.now }
    ensures at { IsComponentAt text.now result.0 result.1 }
    ensures rest { (at : ℕ) → IsComponentAt text.now at end → at < length text.now → components_of (drop result.0 text.now) ≡ drop 1 (components_of (drop at text.now)) }
{
    component_from(text, (end + 1).min(text.len()))
}

impl Cursor {
    /// All components of a text.
    pub fn of(alloc: Global, text: &[u8]) -> Result<Self, AllocError>
        ensures { IfOk result (λ cursor. cursor ≡ components_of text.now) }
    {
        let (at, end) = component_from(text, 0);
        Ok(Cursor {
            text: Text::of(alloc, text)?,
            at,
            end,
        })
    }

    /// Whether no component is left.
    pub fn is_empty(&self) -> bool
        ensures { IsTrue result ↔ (self.now ≡ []) }
    {
        self.at == self.text.len()
    }

    /// The next component.
    pub fn first(&self) -> &[u8]
        requires { 0 < length self.now }
        ensures first { self.now ≡ result.now ∷ drop 1 self.now }
        ensures plain { has_slash result.now ≡ false }
    {
        &self.text.bytes()[self.at..self.end]
    }

    /// Whether the next component is the only one.
    pub fn is_last(&self) -> bool
        requires { 0 < length self.now }
        ensures { result ≡ is_last (drop 1 self.now) }
    {
        let text = self.text.bytes();
        let (following, _) = component_after(text, self.end);
        following == text.len()
    }

    /// Moves past the next component.
    pub fn drop_first(&mut self)
        requires { 0 < length self.old }
        ensures { self.new ≡ drop 1 self.old }
    {
        (self.at, self.end) = component_after(self.text.bytes(), self.end);
    }
}

ghost use Rattle.std.specs.Prelude.{◌≡◌, ◌↔◌, ◌-◌, ◌^◌, ◌<◌, ◌≤◌, false, min, [], ◌∷◌, ◌++◌, length, take, count_by, IsTrue, IfOk, OnOk, OnErr};
ghost use Rattle.std.specs.List.{position_or_len};
ghost use Rattle.st_names.specs.Name.{components_of, has_slash, is_slash, last_part, parent, split_at_slashes, printed_name, IsLastSlash, IsNameText};

use crate::{is_component, split_at_slashes};
use memchr::memchr;
use st_base::Text;
use std::alloc::{AllocError, Global};
use std::marker::Model;

// Texts of at least this length are searched for a slash many bytes at a time. Few names are as long, and in a shorter text a test
// byte by byte finds the slash sooner.
const LONG_TEXT: usize = 128;

/// An absolute name: its components from the root. The root's name has no components.
#[derive(Debug, Drop)]
pub struct AbsName {
    // The components, each after a slash.
    text: Vec<u8>,
}

impl Model for AbsName {
    ghost use Rattle.std.specs.Prelude.{List, ℕ};
    ghost use Rattle.st_names.specs.Name.{parts_after, IsNameText};

    ghost Value = { List (List ℕ) };

    ghost view = { λ n. parts_after n.text.items };

    ghost invariant = { λ n. IsNameText n.text.items };
}

/// An iterator over the components of a name, with the components that remain.
#[derive(Drop)]
pub struct NameParts<'a> {
    // The remaining components, each after a slash.
    text: &'a [u8],
}

impl<'a> Model for NameParts<'a> {
    ghost use Rattle.std.specs.Prelude.{List, ℕ};
    ghost use Rattle.st_names.specs.Name.{parts_after, IsNameText};

    ghost Value = { List (List ℕ) };

    ghost view = { λ p. parts_after p.text.now };

    ghost invariant = { λ p. IsNameText p.text.now };
}

impl<'a> Iterator for NameParts<'a> {
    ghost use Rattle.std.specs.Iterator.{YieldsFirstRef, item_count};

    type Item = &'a [u8];

    ghost next_gives = { YieldsFirstRef (λ p. p) };

    ghost remaining = { item_count (λ p. p) };

    fn next(&mut self) -> Option<&'a [u8]> {
        let (_, text) = self.text.split_first()?;
        let (part, rest) = text.split_at(first_slash(text));
        self.text = rest;
        Some(part)
    }
}

// The offset of the first slash, or the text's length if it has no slash, by a test byte by byte.
#[inline]
fn near_slash(text: &[u8]) -> usize
    ensures place { result ≡ position_or_len is_slash text.now }
    ensures within { result ≤ length text.now }
{
    text.iter()
        .position(|byte| *byte == b'/')
        .unwrap_or(text.len())
}

// The offset of the first slash, or the text's length if it has no slash, by tests of many bytes at a time.
#[inline(never)]
fn far_slash(text: &[u8]) -> usize
    ensures place { result ≡ position_or_len is_slash text.now }
    ensures within { result ≤ length text.now }
{
    memchr(b'/', text).unwrap_or(text.len())
}

/// The offset of the first slash, or the text's length if it has no slash.
#[inline]
pub fn first_slash(text: &[u8]) -> usize
    ensures place { result ≡ position_or_len is_slash text.now }
    ensures within { result ≤ length text.now }
{
    if text.len() < LONG_TEXT {
        near_slash(text)
    } else {
        far_slash(text)
    }
}

// The offset of the last slash of a name's text, or 0 for the root.
fn last_slash(text: &[u8]) -> usize
    requires { IsNameText text.now }
    ensures last { IsLastSlash text.now result }
    ensures within { result ≤ length text.now }
{
    let mut at = text.len();
    while at > 0 {
        at -= 1;
        if text[at] == b'/' {
            return at;
        }
    }
    0
}

fn slash_count(text: &[u8]) -> usize
    ensures { result ≡ count_by is_slash text.now }
{
    text.iter().filter(|byte| **byte == b'/').count()
}

impl AbsName {
    /// The name of the root. It allocates no memory.
    pub fn root(alloc: Global) -> Self
        ensures { result ≡ [] }
    {
        AbsName {
            text: Vec::new(alloc),
        }
    }

    /// The name of the root, with room for components that take `room` bytes together with their slashes.
    pub fn root_with_room(alloc: Global, room: usize) -> Result<Self, AllocError>
        ensures { IfOk result (λ name. name ≡ []) }
    {
        Ok(AbsName {
            text: Vec::with_capacity(alloc, room)?,
        })
    }

    /// The name that a text's components spell from the root.
    pub fn of(alloc: Global, text: &[u8]) -> Result<Self, AllocError>
        ensures { IfOk result (λ name. name ≡ components_of text.now) }
    {
        let mut name = AbsName::root_with_room(alloc, text.len() + 1)?;
        for part in split_at_slashes(text) {
            if is_component(part) {
                name.push(part)?;
            }
        }
        Ok(name)
    }

    /// The name whose components are all parts between a text's slashes, empty parts and `.` included.
    pub fn of_parts(alloc: Global, text: &[u8]) -> Result<Self, AllocError>
        ensures { IfOk result (λ name. name ≡ split_at_slashes text.now) }
    {
        let mut spelled = Vec::with_capacity(alloc, text.len() + 1)?;
        spelled.push_reserved(b'/');
        spelled.extend_from_slice(text)?;
        Ok(AbsName { text: spelled })
    }

    /// How many components there are. This reads the whole text.
    pub fn len(&self) -> usize
        ensures { result ≡ length self.now }
    {
        slash_count(&self.text)
    }

    /// Whether this is the root's name.
    pub fn is_root(&self) -> bool
        ensures { IsTrue result ↔ (self.now ≡ []) }
    {
        self.text.is_empty()
    }

    /// An iterator over the components, from the root on.
    pub fn parts(&self) -> NameParts<'_>
        ensures { result ≡ self.now }
    {
        NameParts { text: &self.text }
    }

    /// An iterator over all components but the last. For the root it is empty.
    pub fn parent(&self) -> NameParts<'_>
        ensures { result ≡ parent self.now }
    {
        let text = self.text.as_slice();
        NameParts {
            text: &text[..last_slash(text)],
        }
    }

    /// The last component of a name other than the root's.
    pub fn last(&self) -> &[u8]
        requires { 0 < length self.now }
        ensures { result.now ≡ last_part self.now }
    {
        let text = self.text.as_slice();
        &text[last_slash(text) + 1..]
    }

    /// Appends a component. If out of memory, the name doesn't change.
    pub fn push(&mut self, part: &[u8]) -> Result<(), AllocError>
        requires { has_slash part.now ≡ false }
        ensures ok { OnOk result (self.new ≡ self.old ++ part.now ∷ []) }
        ensures err { OnErr result (self.new ≡ self.old) }
    {
        self.text.reserve(part.len() + 1)?;
        self.text.push_reserved(b'/');
        self.text.extend_from_slice(part)?;
        Ok(())
    }

    /// Drops the last component; the root stays the root.
    pub fn pop(&mut self)
        ensures { self.new ≡ parent self.old }
    {
        let end = last_slash(&self.text);
        self.text.truncate(end);
    }

    /// A copy of the name, in a single allocation.
    pub fn copy(&self, alloc: Global) -> Result<Self, AllocError>
        ensures { IfOk result (λ name. name ≡ self.now) }
    {
        let text = Vec::from_slice(alloc, &self.text)?;
        Ok(AbsName { text })
    }

    /// This name with a component appended, in a single allocation.
    pub fn child(&self, alloc: Global, part: &[u8]) -> Result<Self, AllocError>
        requires { has_slash part.now ≡ false }
        ensures { IfOk result (λ name. name ≡ self.now ++ part.now ∷ []) }
    {
        let mut text = Vec::with_capacity(alloc, self.text.len() + 1 + part.len())?;
        text.extend_from_slice(&self.text)?;
        let mut name = AbsName { text };
        name.push(part)?;
        Ok(name)
    }

    /// The name's text: `/` for the root, otherwise each component after a slash.
    pub fn print(&self, alloc: Global) -> Result<Text, AllocError>
        ensures { IfOk result (λ text. text ≡ printed_name self.now) }
    {
        if self.text.is_empty() {
            Text::of(alloc, b"/")
        } else {
            Text::of(alloc, &self.text)
        }
    }

    /// The length of the printed name, saturating at 2^64 - 1.
    pub fn print_len(&self) -> u64
        ensures { result ≡ min (length (printed_name self.now)) (2 ^ 64 - 1) }
    {
        if self.text.is_empty() {
            1
        } else {
            self.text.len() as u64
        }
    }

    /// Whether this name is a prefix of the other name, or equal to it.
    pub fn begins(&self, other: &AbsName) -> bool
        ensures { IsTrue result ↔ (self.now ≡ take (length self.now) other.now) }
    {
        let other = other.text.as_slice();
        let Some(rest) = other.strip_prefix(self.text.as_slice()) else {
            return false;
        };
        rest.is_empty() || rest[0] == b'/'
    }
}

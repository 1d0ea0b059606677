ghost use Rattle.std.specs.Prelude.{◌≡◌, ◌↔◌, true, ◌<◌, ◌≤◌, length, IfOk};
ghost use Rattle.std.specs.Option.{option_map};
ghost use Rattle.st_names.specs.Name.{AreParts, is_component, components_of, has_long_part, parts_after, parts_left, split_at_slashes, IsNameText};
ghost use Rattle.st_names.specs.declared.limits.TheConstants.{LONGEST_NAME};

use crate::first_slash;
use crate::limits::{LONGEST_NAME, LONGEST_PART};
use st_base::{Sequence, Text};
use std::alloc::{AllocError, Global};
use std::marker::Model;
use thiserror::Error;

/// Why a text has no components.
#[derive(Clone, Copy, Debug, PartialEq, Eq, Drop, Error)]
pub enum NameFault {
    /// The text has more than 1,024 bytes.
    #[error("the name is too long")]
    TooLong,
    /// A part of the text between slashes has more than 255 bytes.
    #[error("a part of the name is too long")]
    PartTooLong,
    #[error("out of memory")]
    NoMemory,
}

impl From<AllocError> for NameFault {
    ghost use Rattle.st_names.specs.declared.parts.NameFault.TheVariants.{NoMemory};

    ghost from_gives = { λ _ fault. fault ≡ NoMemory };

    fn from(_error: AllocError) -> NameFault {
        NameFault::NoMemory
    }
}

// The text after the slash with which it begins, or none if the text is empty.
fn after_slash(text: &[u8]) -> Option<&[u8]>
    ensures { IsNameText text.now → parts_left (option_map (λ rest. rest.now) result) ≡ parts_after text.now }
{
    let (_, rest) = text.split_first()?;
    Some(rest)
}

/// An iterator over the parts between a text's slashes, from the front.
#[derive(Drop)]
pub struct SlashParts<'a> {
    // The rest of the text, or `None` if no part remains.
    rest: Option<&'a [u8]>,
}

impl<'a> Model for SlashParts<'a> {
    ghost use Rattle.std.specs.Prelude.{List, ℕ};
    ghost use Rattle.std.specs.Option.{option_map};
    ghost use Rattle.st_names.specs.Name.{parts_left};

    ghost Value = { List (List ℕ) };

    ghost view = { λ p. parts_left (option_map (λ text. text.now) p.rest) };
}

impl<'a> Iterator for SlashParts<'a> {
    ghost use Rattle.std.specs.Iterator.{YieldsFirstRef, item_count};

    type Item = &'a [u8];

    ghost next_gives = { YieldsFirstRef (λ p. p) };

    ghost remaining = { item_count (λ p. p) };

    fn next(&mut self) -> Option<&'a [u8]> {
        let text = self.rest?;
        let (part, slashed) = text.split_at(first_slash(text));
        self.rest = after_slash(slashed);
        Some(part)
    }
}

/// The parts between a text's slashes.
pub fn split_at_slashes(text: &[u8]) -> SlashParts<'_>
    ensures { result ≡ split_at_slashes text.now }
{
    SlashParts { rest: Some(text) }
}

/// Whether a part between slashes is a component: it is neither empty nor `.`.
pub fn is_component(part: &[u8]) -> bool
    ensures { result ≡ is_component part.now }
{
    !part.is_empty() && part != b".".as_slice()
}

/// Whether a part between slashes is longer than a component may be.
pub fn has_long_part(text: &[u8]) -> bool
    ensures { result ≡ has_long_part text.now }
{
    // Few texts are longer than a component may be, and a shorter text has no part that is too long.
    text.len() > LONGEST_PART && split_at_slashes(text).any(|part| part.len() > LONGEST_PART)
}

// The parts between slashes, without empty parts and `.`.
fn kept_parts(alloc: Global, text: &[u8]) -> Result<Sequence<Text>, AllocError>
    ensures { IfOk result (λ parts. parts ≡ components_of text.now) }
{
    let mut parts = Sequence::new(alloc);
    for part in split_at_slashes(text) {
        if is_component(part) {
            parts.push(Text::of(alloc, part)?)?;
        }
    }
    Ok(parts)
}

/// The components of a name's text: the parts between slashes, without empty parts and `.`.
pub fn components(alloc: Global, text: &[u8]) -> Result<Sequence<Text>, NameFault>
    ensures ok { IfOk result (λ parts. parts ≡ components_of text.now) }
    ensures plain { IfOk result AreParts }
    ensures too_long { (result ≡ Err NameFault.TooLong) ↔ (LONGEST_NAME < length text.now) }
    ensures part_too_long { (result ≡ Err NameFault.PartTooLong) ↔ ((length text.now ≤ LONGEST_NAME) × (has_long_part text.now ≡ true)) }
{
    if text.len() > LONGEST_NAME {
        return Err(NameFault::TooLong);
    }
    if has_long_part(text) {
        return Err(NameFault::PartTooLong);
    }
    let parts = kept_parts(alloc, text)?;
    Ok(parts)
}

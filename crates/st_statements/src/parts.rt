ghost use Rattle.std.specs.Prelude.{◌≡◌, ◌≤◌, length, option_copied, IfOk};
ghost use Rattle.std.specs.List.{list_all};
ghost use Rattle.st_names.specs.Name.{split_at_slashes};
ghost use Rattle.st_statements.specs.Parts.{word_at, quoted_at, is_plain_part, is_normal, is_long, path_at, place_at, between, last_end, text_of_tokens};

use st_base::Text;
use st_lex::{Token, unquote_plain};
use st_names::{LONGEST_NAME, has_long_part};
use std::alloc::{AllocError, Global};

/// The text of a Word.
pub fn word_at<'a>(text: &'a [u8], token: &Token) -> Option<&'a [u8]>
    ensures { option_copied result ≡ word_at text.now token.now }
{
    if token.kind.is_word() {
        Some(token.text(text))
    } else {
        None
    }
}

/// The content of a quoted text, with its escapes replaced.
pub fn quoted_at(alloc: Global, text: &[u8], token: &Token) -> Result<Option<Text>, AllocError>
    ensures { IfOk result (λ found. found ≡ quoted_at text.now token.now) }
{
    if token.kind.is_quoted() {
        Ok(Some(unquote_plain(alloc, token.text(text))?))
    } else {
        Ok(None)
    }
}

fn is_plain_part(part: &[u8]) -> bool
    ensures { result ≡ is_plain_part part.now }
{
    !part.is_empty() && part != b".".as_slice() && part != b"..".as_slice()
}

fn has_plain_parts(names: &[u8]) -> bool
    ensures { result ≡ list_all is_plain_part (split_at_slashes names.now) }
{
    names
        .split(|byte| *byte == b'/')
        .all(|part| is_plain_part(part))
}

/// Whether a name is absolute and in normal form: `/`, or parts after slashes, none of them empty, `.` or `..`.
pub fn is_normal(name: &[u8]) -> bool
    ensures { result ≡ is_normal name.now }
{
    name.starts_with(b"/") && (name.len() <= 1 || has_plain_parts(&name[1..]))
}

/// Whether a name has more than 1,024 bytes, or a part of it more than 255.
pub fn is_long(name: &[u8]) -> bool
    ensures { result ≡ is_long name.now }
{
    name.len() > LONGEST_NAME || has_long_part(name)
}

/// A quoted name in normal form.
pub fn path_at(alloc: Global, text: &[u8], token: &Token) -> Result<Option<Text>, AllocError>
    ensures { IfOk result (λ found. found ≡ path_at text.now token.now) }
{
    match quoted_at(alloc, text, token)? {
        Some(name) if is_normal(name.bytes()) => Ok(Some(name)),
        _ => Ok(None),
    }
}

/// A quoted name in normal form other than the root's.
pub fn place_at(alloc: Global, text: &[u8], token: &Token) -> Result<Option<Text>, AllocError>
    ensures { IfOk result (λ found. found ≡ place_at text.now token.now) }
{
    match path_at(alloc, text, token)? {
        Some(name) if name.len() > 1 => Ok(Some(name)),
        _ => Ok(None),
    }
}

// The bytes of a text from one offset to another.
fn between(text: &[u8], start: usize, end: usize) -> &[u8]
    ensures is { result.now ≡ between text.now start end }
    ensures few { length result.now ≤ length text.now }
{
    let rest = &text[text.len().min(start)..];
    &rest[..rest.len().min(end.saturating_sub(start))]
}

// The offset after the last of some tokens.
fn end_of(first: &Token, following: &[Token]) -> usize
    ensures { result ≡ last_end first.now following.now }
{
    let last = following.last().unwrap_or(first);
    last.at as usize + last.len as usize
}

/// The bytes of a text from the first to the last of some tokens.
pub fn text_of_tokens<'a>(text: &'a [u8], tokens: &[Token]) -> &'a [u8]
    ensures is { result.now ≡ text_of_tokens text.now tokens.now }
    ensures few { length result.now ≤ length text.now }
{
    match tokens {
        [first, following @ ..] => between(text, first.at as usize, end_of(first, following)),
        [] => &[],
    }
}

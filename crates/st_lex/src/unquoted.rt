ghost use Rattle.std.specs.Prelude.{◌≡◌, ◌<◌, ◌≤◌, ◌∷◌, ◌++◌, [], ℕ, List, length, IfOk, IfSome, OnOk, MatchOption, option_copied};
ghost use Rattle.std.specs.List.{prefix_len};
ghost use Rattle.st_lex.specs.Text.{inside};
ghost use Rattle.st_lex.specs.Quote.{quoted, AreBytes};
ghost use Rattle.st_lex.specs.Unquote.{byte_of_hex, is_plain_byte, plain_front, named_front, dollar_names, names_in, unquoted_from, unquoted, unquoted_plain};
ghost use Rattle.st_lex.specs.declared.unquoted.Dollars.{Dollars};

use st_base::Text;
use std::alloc::{AllocError, Global};

/// The texts that replace `$HOME`, `$USER` and `$CWD` in a quoted text.
#[derive(Debug, Drop)]
pub struct Dollars {
    pub home: Text,
    pub user: Text,
    pub cwd: Text,
}

// The byte that two hexadecimal digits spell.
fn hex_byte(high: u8, low: u8) -> Option<u8>
    ensures { result ≡ byte_of_hex high low }
{
    let high = char::from(high).to_digit(16)?;
    let low = char::from(low).to_digit(16)?;
    Some((high * 16 + low) as u8)
}

// The byte that the front of these bytes spells if names aren't replaced, and the number of bytes that spell it.
fn plain_front(bytes: &[u8]) -> (u8, usize)
    requires { 0 < length bytes.now }
    ensures is { plain_front bytes.now ≡ record { text = result.0 ∷ []; len = result.1 } }
    ensures some { 0 < result.1 }
    ensures within { result.1 ≤ length bytes.now }
{
    match bytes {
        [b'\\', b'"', ..] => (b'"', 2),
        [b'\\', b'\\', ..] => (b'\\', 2),
        [b'\\', b'x', high, low, ..] => match hex_byte(*high, *low) {
            Some(byte) => (byte, 4),
            None => (b'\\', 1),
        },
        _ => (bytes[0], 1),
    }
}

// The text that replaces the name at the front of these bytes, and the length of this name.
fn name_front<'a>(bytes: &[u8], dollars: &'a Dollars) -> Option<(&'a [u8], usize)>
    ensures is { MatchOption result (named_front (dollar_names dollars.now) bytes.now ≡ plain_front bytes.now) (λ r. named_front (dollar_names dollars.now) bytes.now ≡ record { text = r.0.now; len = r.1 }) }
    ensures some { IfSome result (λ r. 0 < r.1) }
    ensures within { IfSome result (λ r. r.1 ≤ length bytes.now) }
{
    // Most bytes aren't a dollar sign.
    let [b'$', word @ ..] = bytes else {
        return None;
    };
    if word.starts_with(b"HOME") {
        Some((dollars.home.bytes(), 5))
    } else if word.starts_with(b"USER") {
        Some((dollars.user.bytes(), 5))
    } else if word.starts_with(b"CWD") {
        Some((dollars.cwd.bytes(), 4))
    } else {
        None
    }
}

// Appends what the front of these bytes spells, and returns the number of bytes that spell it.
fn append_front(
    bytes: &[u8],
    dollars: Option<&Dollars>,
    out: &mut Text,
) -> Result<usize, AllocError>
    requires { 0 < length bytes.now }
    ensures len { IfOk result (λ len. (named_front (names_in (option_copied dollars.entry)) bytes.now).len ≡ len) }
    ensures text { OnOk result (out.new ≡ out.old ++ (named_front (names_in (option_copied dollars.entry)) bytes.now).text) }
    ensures some { IfOk result (λ len. 0 < len) }
    ensures within { IfOk result (λ len. len ≤ length bytes.now) }
{
    if let Some(dollars) = dollars {
        if let Some((text, len)) = name_front(bytes, dollars) {
            out.append(text)?;
            return Ok(len);
        }
    }
    let (byte, len) = plain_front(bytes);
    out.push(byte)?;
    Ok(len)
}

// The number of bytes at the front that spell themselves, whatever the names are.
fn plain_len(bytes: &[u8]) -> usize
    ensures { result ≡ prefix_len is_plain_byte bytes.now }
{
    bytes
        .iter()
        .take_while(|byte| !matches!(**byte, b'\\' | b'$'))
        .count()
}

// The text that the bytes between the quotes spell. The bytes are usually plain, and then they are copied unchanged.
fn unquote_inside(
    alloc: Global,
    bytes: &[u8],
    dollars: Option<&Dollars>,
) -> Result<Text, AllocError>
    ensures { IfOk result (λ text. text ≡ unquoted_from (names_in (option_copied dollars.entry)) 0 bytes.now) }
{
    let mut at = plain_len(bytes);
    let mut text = Text::of(alloc, &bytes[..at])?;
    while at < bytes.len() {
        at += append_front(&bytes[at..], dollars, &mut text)?;
    }
    Ok(text)
}

// The bytes between the two quotes.
fn inside(source: &[u8]) -> &[u8]
    ensures { result.now ≡ inside source.now }
{
    match source {
        [_, inner @ .., _] => inner,
        _ => &[],
    }
}

/// The content of a quoted text that is given with both quotes. Escapes are replaced by their bytes, and the three names by their
/// texts, wherever they occur. The inserted texts aren't searched for escapes or names.
pub fn unquote(alloc: Global, source: &[u8], dollars: &Dollars) -> Result<Text, AllocError>
    ensures { IfOk result (λ text. text ≡ unquoted dollars.now source.now) }
{
    unquote_inside(alloc, inside(source), Some(dollars))
}

/// The content of a quoted text in which names aren't replaced: escapes are replaced by their bytes, and each `$` is a `$`.
pub fn unquote_plain(alloc: Global, source: &[u8]) -> Result<Text, AllocError>
    ensures { IfOk result (λ text. text ≡ unquoted_plain source.now) }
{
    unquote_inside(alloc, inside(source), None)
}

/// The text that `quote` prints is read back as the same bytes, whatever texts the names have.
pub fn quoted_is_unquoted()
    ensures named { (dollars : Dollars) (bytes : List ℕ) → AreBytes bytes → unquoted dollars (quoted bytes) ≡ bytes }
    ensures plain { (bytes : List ℕ) → AreBytes bytes → unquoted_plain (quoted bytes) ≡ bytes }
{}

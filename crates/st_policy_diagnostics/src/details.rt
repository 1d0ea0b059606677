//! What a message about a policy goes on with: what stands elsewhere, and what is known.

use crate::position::position_in;
use crate::refusal::Refusal;
use crate::shown::append_shown;
use st_base::Text;
use st_filter::Who;
use st_grammar::{NamedId, Place};
use st_lex::{Token, TokenKind, unquote};
use std::alloc::{AllocError, Global};

/// The most names that a message lists.
pub const MOST_NAMES: usize = 4;

/// The innermost `(` of some tokens that no `)` among them closes.
pub fn open_bracket(tokens: &[Token]) -> Option<&Token> {
    let mut closed: usize = 0;
    for token in tokens.iter().rev() {
        match token.kind {
            TokenKind::Close => closed = closed.saturating_add(1),
            TokenKind::Open if closed == 0 => return Some(token),
            TokenKind::Open => closed = closed.saturating_sub(1),
            _ => {}
        }
    }
    None
}

/// Appends where a `(` stands that isn't closed.
pub fn append_open_bracket(line: &mut Text, text: &[u8], open: &Token) -> Result<(), AllocError> {
    let position = position_in(text, open.at as usize);
    line.append(b"; the '(' at ")?;
    line.append_number(position.line as u64)?;
    line.push(b':')?;
    line.append_number(position.column as u64)?;
    line.append(b" is open")
}

// Whose id is wanted at a place.
fn who_at(place: Place) -> Who {
    match place {
        Place::Group { .. } => Who::Group,
        Place::Id(who) => who,
        _ => Who::User,
    }
}

/// What comes before so many names that are known.
pub fn known_front(count: usize) -> &'static [u8] {
    if count > 1 {
        b"; known are "
    } else {
        b"; known is "
    }
}

fn append_names(line: &mut Text, names: &[NamedId]) -> Result<(), AllocError> {
    let mut between = known_front(names.len());
    for named in names {
        line.append(between)?;
        append_shown(line, named.name.bytes())?;
        between = b", ";
    }
    Ok(())
}

/// Appends which users or groups are known, by which of them is wanted; nothing where they are many.
pub fn append_known(line: &mut Text, refusal: &Refusal<'_>) -> Result<(), AllocError> {
    let (names, none) = match who_at(refusal.place) {
        Who::User => (refusal.env.users.as_slice(), "; no user is known"),
        Who::Group => (refusal.env.groups.as_slice(), "; no group is known"),
    };
    match names.len() {
        0 => line.append(none.as_bytes()),
        1..=MOST_NAMES => append_names(line, names),
        _ => Ok(()),
    }
}

// The binary that a token names.
fn binary_of(alloc: Global, refusal: &Refusal<'_>, token: &Token) -> Result<Text, AllocError> {
    let bytes = token.text(refusal.text);
    if token.kind.is_quoted() {
        unquote(alloc, bytes, &refusal.env.dollars)
    } else {
        Text::of(alloc, bytes)
    }
}

// The line of the first header of this binary.
fn line_of_header(
    alloc: Global,
    refusal: &Refusal<'_>,
    binary: &[u8],
) -> Result<Option<u32>, AllocError> {
    let tokens = refusal.tokens;
    for (index, policy) in tokens.iter().enumerate() {
        if policy.is_keyword(refusal.text, b"Policy")
            && let [colon, token, ..] = &tokens[index.saturating_add(1).min(tokens.len())..]
            && colon.kind.is_colon()
            && binary_of(alloc, refusal, token)?.bytes() == binary
        {
            return Ok(Some(token.line));
        }
    }
    Ok(None)
}

/// Appends where the first policy of a binary stands, of which the fault is the second.
pub fn append_first_policy(
    alloc: Global,
    line: &mut Text,
    refusal: &Refusal<'_>,
) -> Result<(), AllocError> {
    let at = refusal.at();
    let Some(second) = refusal.tokens.iter().find(|token| token.at as usize == at) else {
        return Ok(());
    };
    let binary = binary_of(alloc, refusal, second)?;
    match line_of_header(alloc, refusal, binary.bytes())? {
        Some(number) if number < second.line => {
            line.append(b"; the first is at line ")?;
            line.append_number(u64::from(number))
        }
        _ => line.append(b"; the first is in a file before"),
    }
}

use crate::form::Slot;
use st_calls::SysCall;
use st_lex::Token;
use st_model::{SPACE_BYTES, SPACE_WORDS};
use st_statements::parts::{is_normal, quoted_at};
use st_statements::values::{id_at, mode_at, number_at};
use std::alloc::{AllocError, Global};

fn is_call(text: &[u8], token: &Token) -> bool {
    if !token.kind.is_word() {
        return false;
    }
    match SysCall::of_word(token.text(text)) {
        Some(call) => call != SysCall::Fork,
        None => false,
    }
}

// Whether a text can be put at this byte of memory.
fn takes_text(at: u64) -> bool {
    at < SPACE_BYTES && at % 8 == 0
}

/// How many bytes a text may have that the row puts where its first token says: a zero byte follows it.
pub fn room_for_text(text: &[u8], row: &[Token]) -> u64 {
    let at = match row.first() {
        Some(token) => number_at(text, token),
        None => None,
    };
    match at {
        Some(at) => SPACE_BYTES.saturating_sub(at).saturating_sub(1),
        None => 0,
    }
}

fn fits_number(number: u64, slot: Slot) -> bool {
    match slot {
        Slot::Place => number < u64::from(SPACE_WORDS),
        Slot::At => takes_text(number),
        _ => true,
    }
}

fn fits_text(bytes: &[u8], slot: Slot, room: u64) -> bool {
    match slot {
        Slot::Path => is_normal(bytes) && bytes.len() > 1,
        Slot::Binary | Slot::Directory => is_normal(bytes),
        Slot::Target => !bytes.is_empty(),
        Slot::Text => bytes.len() as u64 <= room,
        _ => true,
    }
}

// Whether a token is a quoted text that fits.
fn is_fitting_text(
    alloc: Global,
    text: &[u8],
    row: &[Token],
    token: &Token,
    slot: Slot,
) -> Result<bool, AllocError> {
    match quoted_at(alloc, text, token)? {
        Some(bytes) => Ok(fits_text(bytes.bytes(), slot, room_for_text(text, row))),
        None => Ok(false),
    }
}

fn is_fitting_number(text: &[u8], token: &Token, slot: Slot) -> bool {
    match number_at(text, token) {
        Some(number) => fits_number(number, slot),
        None => false,
    }
}

// Whether a token is what is written at a place of a row, of which these are the tokens after its first word.
fn fits(
    alloc: Global,
    text: &[u8],
    row: &[Token],
    token: &Token,
    slot: Slot,
) -> Result<bool, AllocError> {
    match slot {
        Slot::UserName | Slot::GroupName | Slot::ProcessName => Ok(token.kind.is_word()),
        Slot::ThreadName | Slot::Process | Slot::Thread => Ok(token.kind.is_word()),
        Slot::PolicyName | Slot::Policy => Ok(token.kind.is_word()),
        Slot::UserId | Slot::GroupId => Ok(id_at(text, token).is_some()),
        Slot::Mode => Ok(mode_at(text, token).is_some()),
        Slot::Traced => {
            Ok(token.is_keyword(text, b"traced") || token.is_keyword(text, b"untraced"))
        }
        Slot::In => Ok(token.is_keyword(text, b"in")),
        Slot::Call => Ok(is_call(text, token)),
        Slot::Place | Slot::Word | Slot::At | Slot::Register => {
            Ok(is_fitting_number(text, token, slot))
        }
        Slot::Path | Slot::Binary | Slot::Directory | Slot::ReplacedBinary => {
            is_fitting_text(alloc, text, row, token, slot)
        }
        Slot::Home | Slot::Content | Slot::Target | Slot::Text => {
            is_fitting_text(alloc, text, row, token, slot)
        }
    }
}

/// How many tokens of a row after its first word are as the form says, up to the first that isn't.
pub fn fitting(
    alloc: Global,
    text: &[u8],
    row: &[Token],
    form: &[Slot],
) -> Result<usize, AllocError> {
    for (index, slot) in form.iter().enumerate() {
        let Some(token) = row.get(index) else {
            return Ok(index);
        };
        if !fits(alloc, text, row, token, *slot)? {
            return Ok(index);
        }
    }
    Ok(form.len())
}

ghost use Rattle.std.specs.Prelude.{◌≡◌, ◌+◌, ◌/◌, ◌<◌, length, IfOk, IfSome};
ghost use Rattle.st_statements.specs.Instructions.{word_place_at, store_row, put_place, put_row, register_at, registers, unless_fork, call_at, call_row, fork_row, reload_row, end_row};

use crate::parts::{quoted_at, word_at};
use crate::statement::Statement;
use crate::values::number_at;
use st_base::Text;
use st_calls::SysCall;
use st_lex::Token;
use st_model::{SPACE_BYTES, SPACE_WORDS};
use std::alloc::{AllocError, Global};

// The word index that a token spells.
fn word_place_at(text: &[u8], token: &Token) -> Option<u32>
    ensures { result ≡ word_place_at text.now token.now }
{
    let number = number_at(text, token)?;
    if number < u64::from(SPACE_WORDS) {
        Some(number as u32)
    } else {
        None
    }
}

/// A store: `PLACE WORD`.
pub fn store_row(text: &[u8], row: &[Token]) -> Option<Statement>
    ensures { result ≡ store_row text.now row.now }
{
    let [place, word] = row else {
        return None;
    };
    let place = word_place_at(text, place)?;
    let word = number_at(text, word)?;
    Some(Statement::Store(place, word))
}

// The index of the first word of a text that is put at this byte.
fn put_place(bytes: &[u8], at: u64) -> Option<u32>
    ensures { result ≡ put_place bytes.now at }
{
    if at < SPACE_BYTES && at % 8 == 0 && bytes.len() < (SPACE_BYTES - at) as usize {
        Some((at / 8) as u32)
    } else {
        None
    }
}

/// The stores of a text and a zero byte: `AT "TEXT"`.
pub fn put_row(alloc: Global, text: &[u8], row: &[Token]) -> Result<Option<Statement>, AllocError>
    ensures { IfOk result (λ found. found ≡ put_row text.now row.now) }
{
    let [at, quoted] = row else {
        return Ok(None);
    };
    let Some(bytes) = quoted_at(alloc, text, quoted)? else {
        return Ok(None);
    };
    let Some(at) = number_at(text, at) else {
        return Ok(None);
    };
    match put_place(bytes.bytes(), at) {
        Some(place) => Ok(Some(Statement::Put(place, bytes))),
        None => Ok(None),
    }
}

fn register_at(text: &[u8], numbers: &[Token], place: usize) -> Option<u64>
    ensures { result ≡ register_at text.now numbers.now place }
{
    match numbers.get(place) {
        Some(token) => number_at(text, token),
        None => Some(0),
    }
}

fn registers(text: &[u8], numbers: &[Token]) -> Option<[u64; 6]>
    ensures { result ≡ registers text.now numbers.now }
{
    if numbers.len() > 6 {
        return None;
    }
    let a = register_at(text, numbers, 0)?;
    let b = register_at(text, numbers, 1)?;
    let c = register_at(text, numbers, 2)?;
    let d = register_at(text, numbers, 3)?;
    let e = register_at(text, numbers, 4)?;
    let f = register_at(text, numbers, 5)?;
    Some([a, b, c, d, e, f])
}

fn unless_fork(call: SysCall) -> Option<SysCall>
    ensures { result ≡ unless_fork call }
{
    match call {
        SysCall::Fork => None,
        other => Some(other),
    }
}

// The call that a Word names, other than fork.
fn call_at(text: &[u8], token: &Token) -> Option<SysCall>
    ensures { result ≡ call_at text.now token.now }
{
    if token.kind.is_word() {
        unless_fork(SysCall::of_word(token.text(text))?)
    } else {
        None
    }
}

/// A call other than fork: `NAME`, and up to six numbers.
pub fn call_row(text: &[u8], row: &[Token]) -> Option<Statement>
    ensures { result ≡ call_row text.now row.now }
{
    let [name, numbers @ ..] = row else {
        return None;
    };
    let call = call_at(text, name)?;
    let regs = registers(text, numbers)?;
    Some(Statement::Call(call, regs))
}

/// A fork: `THREAD`.
pub fn fork_row(alloc: Global, text: &[u8], row: &[Token]) -> Result<Option<Statement>, AllocError>
    ensures { IfOk result (λ found. found ≡ fork_row text.now row.now) }
{
    let [name] = row else {
        return Ok(None);
    };
    match word_at(text, name) {
        Some(name) => Ok(Some(Statement::Fork(Text::of(alloc, name)?))),
        None => Ok(None),
    }
}

/// A reload: `POLICY`.
pub fn reload_row(
    alloc: Global,
    text: &[u8],
    row: &[Token],
) -> Result<Option<Statement>, AllocError>
    ensures { IfOk result (λ found. found ≡ reload_row text.now row.now) }
{
    let [name] = row else {
        return Ok(None);
    };
    match word_at(text, name) {
        Some(name) => Ok(Some(Statement::Reload(Text::of(alloc, name)?))),
        None => Ok(None),
    }
}

/// The end of a body, which nothing may follow.
pub fn end_row(row: &[Token]) -> Option<Statement>
    ensures { result ≡ end_row row.now }
{
    if row.is_empty() {
        Some(Statement::End)
    } else {
        None
    }
}

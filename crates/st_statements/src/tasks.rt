ghost use Rattle.std.specs.Prelude.{◌≡◌, ◌^◌, ◌<◌, length, IfOk};
ghost use Rattle.st_statements.specs.Tasks.{traced_at, process_row, waiting_thread, starting_thread, thread_row, reply_row, policy_row};

use crate::parts::{path_at, text_of_tokens, word_at};
use crate::statement::{FilterText, ScriptProcess, Statement};
use crate::values::id_at;
use st_base::Text;
use st_lex::Token;
use std::alloc::{AllocError, Global};

// `traced` or `untraced`.
fn traced_at(text: &[u8], token: &Token) -> Option<bool>
    ensures { result ≡ traced_at text.now token.now }
{
    if token.is_keyword(text, b"traced") {
        Some(true)
    } else if token.is_keyword(text, b"untraced") {
        Some(false)
    } else {
        None
    }
}

/// A process: `NAME traced|untraced "BINARY" UID GID "DIRECTORY"`.
pub fn process_row(
    alloc: Global,
    text: &[u8],
    row: &[Token],
) -> Result<Option<Statement>, AllocError>
    ensures { IfOk result (λ found. found ≡ process_row text.now row.now) }
{
    let [name, traced, binary, uid, gid, cwd] = row else {
        return Ok(None);
    };
    let (Some(name), Some(traced), Some(uid), Some(gid)) = (
        word_at(text, name),
        traced_at(text, traced),
        id_at(text, uid),
        id_at(text, gid),
    ) else {
        return Ok(None);
    };
    let Some(binary) = path_at(alloc, text, binary)? else {
        return Ok(None);
    };
    let Some(cwd) = path_at(alloc, text, cwd)? else {
        return Ok(None);
    };
    let name = Text::of(alloc, name)?;
    Ok(Some(Statement::Process(ScriptProcess {
        name,
        traced,
        binary,
        uid,
        gid,
        cwd,
    })))
}

// A thread that waits for a fork, by its name.
fn waiting_thread(alloc: Global, text: &[u8], name: &Token) -> Result<Option<Statement>, AllocError>
    ensures { IfOk result (λ found. found ≡ waiting_thread text.now name.now) }
{
    let Some(name) = word_at(text, name) else {
        return Ok(None);
    };
    Ok(Some(Statement::Thread {
        name: Text::of(alloc, name)?,
        process: None,
    }))
}

// A thread that starts in a process, by the names of both.
fn starting_thread(
    alloc: Global,
    text: &[u8],
    name: &Token,
    process: &Token,
) -> Result<Option<Statement>, AllocError>
    ensures { IfOk result (λ found. found ≡ starting_thread text.now name.now process.now) }
{
    let (Some(name), Some(process)) = (word_at(text, name), word_at(text, process)) else {
        return Ok(None);
    };
    Ok(Some(Statement::Thread {
        name: Text::of(alloc, name)?,
        process: Some(Text::of(alloc, process)?),
    }))
}

/// A thread: `NAME`, or `NAME in PROCESS`.
pub fn thread_row(
    alloc: Global,
    text: &[u8],
    row: &[Token],
) -> Result<Option<Statement>, AllocError>
    ensures { IfOk result (λ found. found ≡ thread_row text.now row.now) }
{
    match row {
        [name] => waiting_thread(alloc, text, name),
        [name, within, process] if within.is_keyword(text, b"in") => {
            starting_thread(alloc, text, name, process)
        }
        _ => Ok(None),
    }
}

/// A reply: `"BINARY" FILTER`.
pub fn reply_row(alloc: Global, text: &[u8], row: &[Token]) -> Result<Option<Statement>, AllocError>
    requires { length text.now < 2 ^ 32 }
    ensures { IfOk result (λ found. found ≡ reply_row text.now row.now) }
{
    let [binary, filter @ ..] = row else {
        return Ok(None);
    };
    if !binary.kind.is_quoted() {
        return Ok(None);
    }
    Ok(Some(Statement::Reply {
        binary: Text::of(alloc, binary.text(text))?,
        filter: FilterText::of(alloc, text_of_tokens(text, filter))?,
    }))
}

/// A policy: `NAME "BINARY"`.
pub fn policy_row(
    alloc: Global,
    text: &[u8],
    row: &[Token],
) -> Result<Option<Statement>, AllocError>
    ensures { IfOk result (λ found. found ≡ policy_row text.now row.now) }
{
    let [name, binary] = row else {
        return Ok(None);
    };
    if !binary.kind.is_quoted() {
        return Ok(None);
    }
    let Some(name) = word_at(text, name) else {
        return Ok(None);
    };
    Ok(Some(Statement::Policy {
        name: Text::of(alloc, name)?,
        binary: Text::of(alloc, binary.text(text))?,
    }))
}

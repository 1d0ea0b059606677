ghost use Rattle.std.specs.Prelude.{◌≡◌, ◌∷◌, ◌^◌, ◌<◌, length, IfOk};
ghost use Rattle.st_lex.specs.Rows.{rows};
ghost use Rattle.st_statements.specs.Statements.{outer_row, inner_row, policy_body_row, statement_of, body_after, script_lines_from};
ghost use Rattle.st_statements.specs.declared.statement.OpenBody.TheVariants.{NoBody};

use crate::accounts::{group_row, user_row};
use crate::instructions::{call_row, end_row, fork_row, put_row, reload_row, store_row};
use crate::lines::line_of_row;
use crate::objects::{dir_row, file_row, link_row};
use crate::parts::text_of_tokens;
use crate::statement::{FilterText, OpenBody, ScriptLine, Statement};
use crate::tasks::{policy_row, process_row, reply_row, thread_row};
use st_lex::{Token, next_row};
use std::alloc::{AllocError, Global};

// What a row says outside all bodies.
fn outer_row(
    alloc: Global,
    text: &[u8],
    keyword: &Token,
    row: &[Token],
) -> Result<Option<Statement>, AllocError>
    requires { length text.now < 2 ^ 32 }
    ensures { IfOk result (λ found. found ≡ outer_row text.now keyword.now row.now) }
{
    if keyword.is_keyword(text, b"user") {
        user_row(alloc, text, row)
    } else if keyword.is_keyword(text, b"group") {
        group_row(alloc, text, row)
    } else if keyword.is_keyword(text, b"dir") {
        dir_row(alloc, text, row)
    } else if keyword.is_keyword(text, b"file") {
        file_row(alloc, text, row)
    } else if keyword.is_keyword(text, b"link") {
        link_row(alloc, text, row)
    } else if keyword.is_keyword(text, b"process") {
        process_row(alloc, text, row)
    } else if keyword.is_keyword(text, b"thread") {
        thread_row(alloc, text, row)
    } else if keyword.is_keyword(text, b"reply") {
        reply_row(alloc, text, row)
    } else if keyword.is_keyword(text, b"policy") {
        policy_row(alloc, text, row)
    } else {
        Ok(None)
    }
}

// What a row says inside the body of a thread.
fn inner_row(
    alloc: Global,
    text: &[u8],
    keyword: &Token,
    row: &[Token],
) -> Result<Option<Statement>, AllocError>
    ensures { IfOk result (λ found. found ≡ inner_row text.now keyword.now row.now) }
{
    if keyword.is_keyword(text, b"store") {
        Ok(store_row(text, row))
    } else if keyword.is_keyword(text, b"put") {
        put_row(alloc, text, row)
    } else if keyword.is_keyword(text, b"call") {
        Ok(call_row(text, row))
    } else if keyword.is_keyword(text, b"fork") {
        fork_row(alloc, text, row)
    } else if keyword.is_keyword(text, b"reload") {
        reload_row(alloc, text, row)
    } else if keyword.is_keyword(text, b"end") {
        Ok(end_row(row))
    } else {
        Ok(None)
    }
}

// What a row says inside a policy: `end`, or a filter, which begins with the keyword's token.
fn policy_body_row(
    alloc: Global,
    text: &[u8],
    keyword: &Token,
    row: &[Token],
    filter: &[Token],
) -> Result<Option<Statement>, AllocError>
    requires small { length text.now < 2 ^ 32 }
    requires whole { filter.now ≡ keyword.now ∷ row.now }
    ensures { IfOk result (λ found. found ≡ policy_body_row text.now keyword.now row.now) }
{
    if keyword.is_keyword(text, b"end") {
        return Ok(end_row(row));
    }
    let filter = FilterText::of(alloc, text_of_tokens(text, filter))?;
    Ok(Some(Statement::Filter(filter)))
}

/// What a row says in the body that is open there, or outside all bodies; nothing if it isn't in the grammar there.
pub fn statement_of(
    alloc: Global,
    text: &[u8],
    body: OpenBody,
    tokens: &[Token],
) -> Result<Option<Statement>, AllocError>
    requires { length text.now < 2 ^ 32 }
    ensures { IfOk result (λ found. found ≡ statement_of text.now body tokens.now) }
{
    let [keyword, row @ ..] = tokens else {
        return Ok(None);
    };
    match body {
        OpenBody::NoBody => outer_row(alloc, text, keyword, row),
        OpenBody::ThreadBody => inner_row(alloc, text, keyword, row),
        OpenBody::PolicyBody => policy_body_row(alloc, text, keyword, row, tokens),
    }
}

// The body that is open after a row: threads and policies open one, and only `end` closes it.
fn body_after(body: OpenBody, says: &Option<Statement>) -> OpenBody
    ensures { result ≡ body_after body says.now }
{
    match says {
        Some(Statement::Thread { .. }) => OpenBody::ThreadBody,
        Some(Statement::Policy { .. }) => OpenBody::PolicyBody,
        Some(Statement::End) => OpenBody::NoBody,
        _ => body,
    }
}

/// The lines of a script, from the tokens that are read.
pub fn lines_of_tokens(
    alloc: Global,
    text: &[u8],
    tokens: &[Token],
) -> Result<Vec<ScriptLine>, AllocError>
    requires { length text.now < 2 ^ 32 }
    ensures { IfOk result (λ lines. lines.items ≡ script_lines_from text.now NoBody (rows tokens.now)) }
{
    // A line usually has four tokens or more, with its newline.
    let mut lines = Vec::with_capacity(alloc, tokens.len() / 4)?;
    let mut body = OpenBody::NoBody;
    let mut rest = tokens;
    while let Some((row, following)) = next_row(rest) {
        let says = statement_of(alloc, text, body, row)?;
        body = body_after(body, &says);
        let number = line_of_row(row);
        lines.push(ScriptLine { number, says })?;
        rest = following;
    }
    Ok(lines)
}

//! What is wrong with a row that isn't in the grammar, or with a thread or a policy that doesn't end.

use crate::fits::fitting;
use crate::form::form_of;
use crate::refused_row::{END_OF_FILE, Misfit, RefusedRow};
use crate::slot::append_expected_slot;
use st_base::Text;
use st_lex::Token;
use st_policy_diagnostics::row::Row;
use st_policy_diagnostics::shown::append_shown;
use st_statements::{ScriptLine, Statement};
use std::alloc::{AllocError, Global};

/// How rows outside bodies begin.
pub const OUTSIDE: &str =
    "'user', 'group', 'dir', 'file', 'link', 'process', 'thread', 'reply' or 'policy'";

const INSIDE: &str = "'store', 'put', 'call', 'fork', 'reload' or 'end'";

// The body that goes on below some lines, and the line at which it was opened.
#[derive(Clone, Copy)]
enum OpenAt {
    Nothing,
    Thread(u32),
    Policy(u32),
}

// The body that goes on below these lines.
fn open_below(above: &[ScriptLine]) -> OpenAt {
    let mut open = OpenAt::Nothing;
    for line in above {
        match &line.says {
            Some(Statement::Thread { .. }) => open = OpenAt::Thread(line.number),
            Some(Statement::Policy { .. }) => open = OpenAt::Policy(line.number),
            Some(Statement::End) => open = OpenAt::Nothing,
            _ => {}
        }
    }
    open
}

fn append_open(line: &mut Text, what: &str, number: u32) -> Result<(), AllocError> {
    line.append(b"; the ")?;
    line.append(what.as_bytes())?;
    line.append(b" at line ")?;
    line.append_number(u64::from(number))?;
    line.append(b" is open")
}

// What a row is by its first token.
fn row_of(text: &[u8], first: &Token) -> Row {
    if first.kind.is_word() {
        Row::of_word(first.text(text))
    } else {
        Row::Unknown
    }
}

// Appends which rows there are outside bodies.
fn append_outside(line: &mut Text, text: &[u8], first: &Token) -> Result<(), AllocError> {
    line.append(OUTSIDE.as_bytes())?;
    if !row_of(text, first).is_instruction() {
        return Ok(());
    }
    line.append(b"; ")?;
    append_shown(line, first.text(text))?;
    line.append(b" is for the body of a thread")
}

// The first token begins no row that may stand in the body of the thread that is open at this line.
fn no_instruction(alloc: Global, number: u32) -> Result<Misfit, AllocError> {
    let mut misfit = Misfit::at(alloc, 0, INSIDE)?;
    append_open(&mut misfit.expected, "thread", number)?;
    Ok(misfit)
}

// The first token begins no row that may stand outside bodies.
fn no_outer_row(alloc: Global, text: &[u8], first: &Token) -> Result<Misfit, AllocError> {
    let mut expected = Text::new(alloc);
    append_outside(&mut expected, text, first)?;
    Ok(Misfit { index: 0, expected })
}

// What is expected after the last token that a row may have.
fn after_form(row: Row) -> &'static str {
    match row {
        Row::Call => "the end of the line after six numbers",
        _ => "the end of the line",
    }
}

// The first token after the first word that isn't of the row's form.
fn other_token(
    alloc: Global,
    refused: &RefusedRow<'_>,
    kind: Row,
    row: &[Token],
) -> Result<Misfit, AllocError> {
    let form = form_of(kind);
    let index = fitting(alloc, refused.text, row, form)?;
    let mut expected = Text::new(alloc);
    match form.get(index) {
        Some(slot) => {
            append_expected_slot(alloc, &mut expected, refused, *slot, row.get(index))?;
        }
        None => expected.append(after_form(kind).as_bytes())?,
    }
    Ok(Misfit {
        index: index.saturating_add(1),
        expected,
    })
}

fn not_in_grammar(alloc: Global, refused: &RefusedRow<'_>) -> Result<Option<Misfit>, AllocError> {
    let Some((first, row)) = refused.tokens.split_first() else {
        return Ok(None);
    };
    let kind = row_of(refused.text, first);
    let misfit = match open_below(refused.above) {
        OpenAt::Nothing if kind == Row::Unknown || kind.is_instruction() => {
            no_outer_row(alloc, refused.text, first)?
        }
        OpenAt::Thread(number) if !kind.is_instruction() => no_instruction(alloc, number)?,
        // Whatever begins no `end` is a filter of the policy.
        OpenAt::Policy(_) => other_token(alloc, refused, Row::End, row)?,
        _ => other_token(alloc, refused, kind, row)?,
    };
    Ok(Some(misfit))
}

fn missing_end(
    alloc: Global,
    refused: &RefusedRow<'_>,
    what: &str,
) -> Result<Option<Misfit>, AllocError> {
    let Some(first) = refused.tokens.first() else {
        return Ok(None);
    };
    let mut misfit = Misfit::at(alloc, END_OF_FILE, "'end'")?;
    append_open(&mut misfit.expected, what, first.line)?;
    Ok(Some(misfit))
}

/// What is wrong with a row in whose place something else was expected, unless it is a reply or a filter, or a policy whose binary is at
/// fault.
pub fn unexpected(alloc: Global, refused: &RefusedRow<'_>) -> Result<Option<Misfit>, AllocError> {
    match refused.says {
        None => not_in_grammar(alloc, refused),
        Some(Statement::Thread { .. }) => missing_end(alloc, refused, "thread"),
        Some(Statement::Policy { .. }) => missing_end(alloc, refused, "policy"),
        Some(_) => Ok(None),
    }
}

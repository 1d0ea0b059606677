ghost use Rattle.std.specs.Prelude.{◌≤◌, length};
ghost use Rattle.st_outside.specs.declared.files.TheConstants.{FILE_LIMIT};

use crate::excess::too_much;
use crate::naming::{duplicate_name, unknown_name};
use crate::replaced::{policy_filter_message, reply_message, wrong_policy_binary};
use st_base::Text;
use st_emulation::Emulation;
use st_grammar::Env;
use st_law::Options;
use st_lex::{LexFault, tokens};
use st_policy_diagnostics::caret::append_line_with_caret;
use st_policy_diagnostics::position::{position_in, rest_of_line};
use st_policy_diagnostics::refusal::{Found, is_byte_order_mark};
use st_policy_diagnostics::row::row_numbered;
use st_policy_diagnostics::shown::{
    OUT_OF_MEMORY, broken, found_at, place_of, row_message, token_for,
};
use st_row_diagnostics::misfit::{OUTSIDE, unexpected};
use st_row_diagnostics::refused_row::{Misfit, RefusedRow};
use st_script_faults::ScriptFault;
use st_script_names::environment::environment_of;
use st_statements::lines::looked_at;
use st_statements::{Statement, lines_of_tokens};
use std::alloc::{AllocError, Global};

// The message about a lexical fault.
fn lexical_message(
    alloc: Global,
    name: &[u8],
    text: &[u8],
    fault: LexFault,
) -> Result<Text, AllocError> {
    let at = place_of(fault);
    let (found, expected) = if is_byte_order_mark(text, fault) {
        (Found::ByteOrderMark, OUTSIDE)
    } else {
        let bytes = broken(rest_of_line(text, at), fault);
        (Found::Bytes(bytes), token_for(fault))
    };
    let mut line = found_at(alloc, name, position_in(text, at))?;
    found.append_to(&mut line)?;
    line.append(b", expected ")?;
    line.append(expected.as_bytes())?;
    append_line_with_caret(&mut line, text, at, found.len())?;
    Ok(line)
}

// The row is a reload, and policies are learnt.
fn reload_with_learn(alloc: Global) -> Result<Option<Misfit>, AllocError> {
    let expected = "no 'reload' where policies are learnt";
    Ok(Some(Misfit::at(alloc, 0, expected)?))
}

// What is wrong with a row whatever its values are read as.
fn misfit_of(
    alloc: Global,
    row: &RefusedRow<'_>,
    fault: ScriptFault,
) -> Result<Option<Misfit>, AllocError> {
    match fault {
        ScriptFault::Expected(_) => unexpected(alloc, row),
        ScriptFault::UnknownName(_) => unknown_name(alloc, row),
        ScriptFault::Duplicate(_) => duplicate_name(alloc, row),
        ScriptFault::TooMany(_) => too_much(alloc, row),
        ScriptFault::ReloadWithLearn(_) => reload_with_learn(alloc),
        ScriptFault::Lex(_) | ScriptFault::NoMemory => Ok(None),
    }
}

// The message about a row whose fault is that of one of its tokens.
fn misfit_message(
    alloc: Global,
    name: &[u8],
    row: &RefusedRow<'_>,
    misfit: Option<Misfit>,
) -> Result<Option<Text>, AllocError> {
    match misfit {
        Some(misfit) => Ok(Some(row.message(alloc, name, &misfit)?)),
        None => Ok(None),
    }
}

// The message about a row that is read with the script's environment, where its fault is in what is read so.
fn replaced_message(
    alloc: Global,
    name: &[u8],
    row: &RefusedRow<'_>,
    env: &Env,
    fault: ScriptFault,
) -> Result<Option<Text>, AllocError> {
    match (row.says, fault) {
        (Some(Statement::Reply { .. }), _) => reply_message(alloc, name, row, env, fault),
        (Some(Statement::Filter(_)), ScriptFault::Expected(_)) => {
            policy_filter_message(alloc, name, row, env)
        }
        (Some(Statement::Policy { .. }), ScriptFault::Expected(_)) => {
            let misfit = wrong_policy_binary(alloc, row, env)?;
            misfit_message(alloc, name, row, misfit)
        }
        _ => Ok(None),
    }
}

// Whether a row is read with the script's environment.
fn is_replaced(says: Option<&Statement>) -> bool {
    matches!(
        says,
        Some(Statement::Reply { .. } | Statement::Policy { .. } | Statement::Filter(_))
    )
}

/// What a script is read with: options, and the emulation that its filters are for.
#[derive(Clone, Copy)]
pub struct ReadWith<'a> {
    pub options: &'a Options,
    pub emulation: Emulation,
}

// The message about a row, where the token at fault is found.
fn message_of(
    alloc: Global,
    name: &[u8],
    row: &RefusedRow<'_>,
    with: ReadWith<'_>,
    fault: ScriptFault,
) -> Result<Option<Text>, AllocError> {
    if is_replaced(row.says) {
        let env = environment_of(alloc, with.options, row.lines, with.emulation)?;
        let message = replaced_message(alloc, name, row, &env, fault)?;
        if message.is_some() {
            return Ok(message);
        }
    }
    let misfit = misfit_of(alloc, row, fault)?;
    misfit_message(alloc, name, row, misfit)
}

// The line of a fault of a row.
fn line_of(fault: ScriptFault) -> u32 {
    match fault {
        ScriptFault::Expected(number) | ScriptFault::UnknownName(number) => number,
        ScriptFault::Duplicate(number) | ScriptFault::TooMany(number) => number,
        ScriptFault::ReloadWithLearn(number) => number,
        ScriptFault::Lex(_) | ScriptFault::NoMemory => 0,
    }
}

// The message about a row. Where the token at fault isn't found, the row is shown.
fn message_at_row(
    alloc: Global,
    name: &[u8],
    text: &[u8],
    with: ReadWith<'_>,
    fault: ScriptFault,
) -> Result<Text, AllocError>
    requires { length text.now ≤ FILE_LIMIT }
{
    let number = line_of(fault);
    let lexed = tokens(alloc, text)?;
    let looked = looked_at(&lexed);
    let lines = lines_of_tokens(alloc, text, looked)?;
    let row = RefusedRow::of(text, looked, lines.as_slice(), number);
    match message_of(alloc, name, &row, with, fault)? {
        Some(message) => Ok(message),
        None => {
            let row = row_numbered(text, number);
            row_message(
                alloc,
                name,
                number,
                row,
                "a row that a script may have there",
            )
        }
    }
}

/// The message why a script is refused that was read with this: a line, the script's line at fault, and one with a `^` under the
/// fault, without the last newline.
pub fn script_message(
    alloc: Global,
    name: &[u8],
    text: &[u8],
    with: ReadWith<'_>,
    fault: ScriptFault,
) -> Result<Text, AllocError>
    requires { length text.now ≤ FILE_LIMIT }
{
    match fault {
        ScriptFault::Lex(fault) => lexical_message(alloc, name, text, fault),
        ScriptFault::NoMemory => Text::of(alloc, OUT_OF_MEMORY.as_bytes()),
        _ => message_at_row(alloc, name, text, with, fault),
    }
}

//! What is wrong with a row that is read with names replaced: with the binary of a reply or of a policy, or with a filter, which is in the
//! language of policies.

use crate::excess::long_binary;
use st_base::Text;
use st_grammar::{Env, Place, PolicyFault, PolicyRefusal, Symbol};
use st_lex::{Token, unquote};
use st_policy_diagnostics::policy_fault::refusal_message;
use st_policy_diagnostics::refusal::{FilterSource, Refusal};
use st_policy_diagnostics::shown::append_shown;
use st_policy_states::Reader;
use st_row_diagnostics::refused_row::{Misfit, RefusedRow};
use st_row_diagnostics::slot::append_expected_name;
use st_script_faults::ScriptFault;
use st_statements::parts::{is_long, is_normal};
use std::alloc::{AllocError, Global};

// What is wrong with the binary of a reply.
fn wrong_reply_binary(
    alloc: Global,
    binary: &[u8],
    fault: ScriptFault,
) -> Result<Option<Misfit>, AllocError> {
    match fault {
        ScriptFault::Expected(_) if !is_normal(binary) => {
            let mut expected = Text::new(alloc);
            append_expected_name(&mut expected, "a binary", binary)?;
            Ok(Some(Misfit { index: 1, expected }))
        }
        ScriptFault::TooMany(_) if is_long(binary) => Ok(Some(long_binary(alloc, binary)?)),
        _ => Ok(None),
    }
}

// Appends what a binary is read as, where names may be replaced in it.
fn append_replaced(line: &mut Text, quoted: &[u8], binary: &[u8]) -> Result<(), AllocError> {
    if quoted.contains(&b'$') {
        line.append(b"; it is read as ")?;
        append_shown(line, binary)?;
    }
    Ok(())
}

// The name of a filter.
fn begin<'a>(
    reader: &mut Reader<'a>,
    env: &Env,
    text: &'a [u8],
    first: &Token,
) -> Result<(), PolicyFault> {
    if first.kind.is_word() {
        reader.begin_filter(env, first.at, first.text(text))
    } else {
        Err(PolicyFault::Expected(first.at))
    }
}

// A filter of a script that is read: what it is read with, and where it stands.
#[derive(Clone, Copy)]
struct ReadFilter<'a> {
    env: &'a Env,
    source: FilterSource,
}

// A symbol of a filter after its name. A reply doesn't ask. A filter of a script has no header.
fn step<'a>(
    reader: &mut Reader<'a>,
    alloc: Global,
    filter: ReadFilter<'_>,
    at: u32,
    symbol: &Symbol<'a>,
) -> Result<(), PolicyFault> {
    let place = reader.place();
    if place.is_binary() {
        return Err(PolicyFault::Expected(at));
    }
    if filter.source == FilterSource::Reply
        && matches!(place, Place::Clause | Place::Action)
        && symbol.is_keyword(b"ask")
    {
        return Err(PolicyFault::AskWithLearn(at));
    }
    reader.step(alloc, filter.env, at, symbol)
}

// Reads the rest of a filter, up to the row's end.
fn read_rest<'a>(
    reader: &mut Reader<'a>,
    alloc: Global,
    filter: ReadFilter<'_>,
    row: &RefusedRow<'a>,
    rest: &[Token],
) -> Result<(), PolicyRefusal> {
    for token in rest {
        let place = reader.place();
        let symbol = Symbol::of(row.text, token);
        if let Err(fault) = step(reader, alloc, filter, token.at, &symbol) {
            return Err(PolicyRefusal { fault, place });
        }
    }
    let place = reader.place();
    match step(reader, alloc, filter, row.end(), &Symbol::Line) {
        Ok(()) => Ok(()),
        Err(fault) => Err(PolicyRefusal { fault, place }),
    }
}

// Reads the filter of a row, whose tokens these are.
fn read<'a>(
    alloc: Global,
    filter: ReadFilter<'_>,
    row: &RefusedRow<'a>,
    tokens: &[Token],
) -> Result<(), PolicyRefusal> {
    let place = Place::Row;
    let Some((first, rest)) = tokens.split_first() else {
        let fault = PolicyFault::Expected(row.end());
        return Err(PolicyRefusal { fault, place });
    };
    let mut reader = Reader::new(alloc, 0);
    match begin(&mut reader, filter.env, row.text, first) {
        Ok(()) => read_rest(&mut reader, alloc, filter, row, rest),
        Err(fault) => Err(PolicyRefusal { fault, place }),
    }
}

// The message about the filter of a row: that of a policy with this filter. The tokens before it are skipped.
fn filter_message(
    alloc: Global,
    name: &[u8],
    row: &RefusedRow<'_>,
    filter: ReadFilter<'_>,
    skipped: usize,
) -> Result<Option<Text>, AllocError> {
    let tokens = &row.tokens[row.tokens.len().min(skipped)..];
    let Err(refused) = read(alloc, filter, row, tokens) else {
        return Ok(None);
    };
    if refused.fault == PolicyFault::NoMemory {
        return Err(AllocError);
    }
    let refusal = Refusal {
        text: row.text,
        tokens: &row.rest[row.rest.len().min(skipped)..],
        env: filter.env,
        fault: refused.fault,
        place: refused.place,
        source: filter.source,
    };
    Ok(Some(refusal_message(alloc, name, &refusal)?))
}

/// The message about a reply, in a script of this name.
pub fn reply_message(
    alloc: Global,
    name: &[u8],
    row: &RefusedRow<'_>,
    env: &Env,
    fault: ScriptFault,
) -> Result<Option<Text>, AllocError> {
    let Some(token) = row.tokens.get(1) else {
        return Ok(None);
    };
    let binary = unquote(alloc, token.text(row.text), &env.dollars)?;
    match wrong_reply_binary(alloc, binary.bytes(), fault)? {
        Some(mut misfit) => {
            append_replaced(&mut misfit.expected, token.text(row.text), binary.bytes())?;
            Ok(Some(row.message(alloc, name, &misfit)?))
        }
        None => {
            let source = FilterSource::Reply;
            filter_message(alloc, name, row, ReadFilter { env, source }, 2)
        }
    }
}

/// The message about a filter of a policy that isn't read, in a script of this name.
pub fn policy_filter_message(
    alloc: Global,
    name: &[u8],
    row: &RefusedRow<'_>,
    env: &Env,
) -> Result<Option<Text>, AllocError> {
    let source = FilterSource::ScriptPolicy;
    filter_message(alloc, name, row, ReadFilter { env, source }, 0)
}

/// What is wrong with the binary of a policy; nothing where it begins with `/`.
pub fn wrong_policy_binary(
    alloc: Global,
    row: &RefusedRow<'_>,
    env: &Env,
) -> Result<Option<Misfit>, AllocError> {
    let Some(token) = row.tokens.get(2) else {
        return Ok(None);
    };
    let binary = unquote(alloc, token.text(row.text), &env.dollars)?;
    if binary.bytes().starts_with(b"/") {
        return Ok(None);
    }
    let mut misfit = Misfit::at(alloc, 2, "a binary that begins with '/'")?;
    append_replaced(&mut misfit.expected, token.text(row.text), binary.bytes())?;
    Ok(Some(misfit))
}

//! What is expected at a place of a row.

use crate::calls::append_expected_call;
use crate::fits::room_for_text;
use crate::form::Slot;
use crate::given::{append_policies, append_processes, append_threads};
use crate::refused_row::RefusedRow;
use st_base::Text;
use st_lex::Token;
use st_names::LONGEST_NAME;
use st_statements::parts::quoted_at;
use std::alloc::{AllocError, Global};

// What is expected at a place whatever is found there.
fn expected_at(slot: Slot) -> &'static str {
    match slot {
        Slot::UserName => "the name of a user",
        Slot::GroupName => "the name of a group",
        Slot::ProcessName => "the name of a process",
        Slot::ThreadName => "the name of a thread",
        Slot::PolicyName => "the name of a policy",
        Slot::Process => "the name of a process of a row above",
        Slot::Thread => "the name of a thread of the script",
        Slot::Policy => "the name of a policy of a row above",
        Slot::UserId => "the id of a user, below 4294967296",
        Slot::GroupId => "the id of a group, below 4294967296",
        Slot::Mode => "a mode of one to four octal digits, at most 777",
        Slot::Traced => "'traced' or 'untraced'",
        Slot::In => "'in' or the end of the line",
        Slot::Path => "a quoted path that begins with '/'",
        Slot::Binary | Slot::ReplacedBinary => "a quoted binary that begins with '/'",
        Slot::Directory => "a quoted directory that begins with '/'",
        Slot::Home => "a quoted text, the home of the user",
        Slot::Content => "a quoted text, the content of the file",
        Slot::Target => "a quoted text that isn't empty, the target of the link",
        Slot::Place => "the place of a word of memory, below 8192",
        Slot::Word => "a number below 2^64",
        Slot::At => "a byte of memory, below 65536 and a multiple of 8",
        Slot::Text => "a quoted text",
        Slot::Call => "a call",
        Slot::Register => "a number below 2^64 or the end of the line",
    }
}

// Whether a name or a number alone is written at a place, which is never quoted.
fn is_bare(slot: Slot) -> bool {
    match slot {
        Slot::UserName | Slot::GroupName | Slot::ProcessName | Slot::ThreadName => true,
        Slot::PolicyName | Slot::Policy => true,
        Slot::Process | Slot::Thread | Slot::UserId | Slot::GroupId | Slot::Mode => true,
        Slot::Place | Slot::Word | Slot::At => true,
        _ => false,
    }
}

// Appends what is expected in the place of this token, and which names are known where one of them is.
fn append_expected_word(
    line: &mut Text,
    row: &RefusedRow<'_>,
    slot: Slot,
    token: Option<&Token>,
) -> Result<(), AllocError> {
    line.append(expected_at(slot).as_bytes())?;
    match token {
        Some(token) if token.kind.is_quoted() && is_bare(slot) => {
            line.append(b", without quotes")?;
        }
        _ => {}
    }
    match slot {
        Slot::Process => append_processes(line, row.above),
        Slot::Thread => append_threads(line, row.lines),
        Slot::Policy => append_policies(line, row.above),
        _ => Ok(()),
    }
}

// What a name is that isn't absolute and in normal form, or that is the root's.
fn fault_of_name(name: &[u8]) -> &'static str {
    if !name.starts_with(b"/") {
        " that begins with '/'"
    } else if name.len() > 1 {
        " without empty parts, '.' and '..'"
    } else {
        " other than '/'"
    }
}

/// Appends what a name is expected to be where it isn't absolute and in normal form, or is the root's.
pub fn append_expected_name(line: &mut Text, what: &str, name: &[u8]) -> Result<(), AllocError> {
    line.append(what.as_bytes())?;
    line.append(fault_of_name(name).as_bytes())
}

/// Appends what a name is expected to be where it is too long.
pub fn append_shorter_name(line: &mut Text, what: &str, name: &[u8]) -> Result<(), AllocError> {
    line.append(what.as_bytes())?;
    line.append(if name.len() > LONGEST_NAME {
        b" of at most 1024 bytes".as_slice()
    } else {
        b" whose parts have at most 255 bytes".as_slice()
    })
}

fn append_shorter_text(line: &mut Text, row: &RefusedRow<'_>) -> Result<(), AllocError> {
    let room = room_for_text(row.text, &row.tokens[row.tokens.len().min(1)..]);
    line.append(b"a text of at most ")?;
    line.append_number(room)?;
    line.append(b" bytes: it and a zero byte end by byte 65536")
}

// Appends what is expected in the place of a quoted text with these bytes.
fn append_expected_text(
    line: &mut Text,
    row: &RefusedRow<'_>,
    slot: Slot,
    bytes: &[u8],
) -> Result<(), AllocError> {
    match slot {
        Slot::Path => append_expected_name(line, "a path", bytes),
        Slot::Binary => append_expected_name(line, "a binary", bytes),
        Slot::Directory => append_expected_name(line, "a directory", bytes),
        Slot::Text => append_shorter_text(line, row),
        _ => line.append(expected_at(slot).as_bytes()),
    }
}

// Whether what is expected at a place depends on the bytes of the text there.
fn is_text(slot: Slot) -> bool {
    match slot {
        Slot::Path | Slot::Binary | Slot::Directory | Slot::Text => true,
        _ => false,
    }
}

/// Appends what is expected at a place of a row, where this token is found.
pub fn append_expected_slot(
    alloc: Global,
    line: &mut Text,
    row: &RefusedRow<'_>,
    slot: Slot,
    token: Option<&Token>,
) -> Result<(), AllocError> {
    if slot == Slot::Call {
        return append_expected_call(line, row.text, token);
    }
    if is_text(slot)
        && let Some(token) = token
        && let Some(bytes) = quoted_at(alloc, row.text, token)?
    {
        return append_expected_text(line, row, slot, bytes.bytes());
    }
    append_expected_word(line, row, slot, token)
}

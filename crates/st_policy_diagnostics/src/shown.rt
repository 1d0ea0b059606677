use crate::position::Position;
use st_base::Text;
use st_lex::{LexFault, hex_digit};
use std::alloc::{AllocError, Global};

/// The line of a program that has no memory left.
pub const OUT_OF_MEMORY: &str = "systrace: out of memory";

// How much of a file a message shows, in bytes.
const SHOWN: usize = 60;

/// Appends bytes between quotes, each that doesn't print by its number; after the quotes `...` if there are more.
pub fn append_shown(line: &mut Text, bytes: &[u8]) -> Result<(), AllocError> {
    line.push(b'\'')?;
    for &byte in &bytes[..bytes.len().min(SHOWN)] {
        match byte {
            0x20..=0x7e => line.push(byte)?,
            _ => line.append(&[b'\\', b'x', hex_digit(byte / 16), hex_digit(byte % 16)])?,
        }
    }
    line.append(if bytes.len() > SHOWN { b"'..." } else { b"'" })
}

// A message about a file, as far as the line of the file that it is about.
fn at_line(alloc: Global, name: &[u8], number: u64) -> Result<Text, AllocError> {
    let mut line = Text::of(alloc, b"systrace: ")?;
    line.append(name)?;
    line.push(b':')?;
    line.append_number(number)?;
    Ok(line)
}

/// A message about a place in a file, up to what was found there.
pub fn found_at(alloc: Global, name: &[u8], position: Position) -> Result<Text, AllocError> {
    let mut line = at_line(alloc, name, position.line as u64)?;
    line.push(b':')?;
    line.append_number(position.column as u64)?;
    line.append(b": found ")?;
    Ok(line)
}

/// A message about a row of a file, by the number of its line, up to the row.
pub fn row_found(alloc: Global, name: &[u8], number: u32, row: &[u8]) -> Result<Text, AllocError> {
    let mut line = at_line(alloc, name, u64::from(number))?;
    line.append(b": found ")?;
    append_shown(&mut line, row)?;
    Ok(line)
}

/// The line for a row of a file that can't stand there, by the number of its line.
pub fn row_message(
    alloc: Global,
    name: &[u8],
    number: u32,
    row: &[u8],
    expected: &str,
) -> Result<Text, AllocError> {
    let mut line = row_found(alloc, name, number, row)?;
    line.append(b", expected ")?;
    line.append(expected.as_bytes())?;
    Ok(line)
}

/// The byte at which a lexical fault stands.
pub fn place_of(fault: LexFault) -> usize {
    let at = match fault {
        LexFault::BadByte(at) | LexFault::OpenQuote(at) | LexFault::BadEscape(at) => at,
    };
    at as usize
}

/// What is no token, of what stands in its line from there on: one byte, an escape, or a text that isn't closed.
pub fn broken(rest: &[u8], fault: LexFault) -> &[u8] {
    let len = match fault {
        LexFault::BadByte(_) => 1,
        LexFault::BadEscape(_) => rest.iter().take_while(|byte| **byte != b'"').count().min(4),
        LexFault::OpenQuote(_) => rest.len(),
    };
    &rest[..len.min(rest.len())]
}

/// What was expected in the place of what is no token.
pub fn token_for(fault: LexFault) -> &'static str {
    match fault {
        LexFault::BadByte(_) => "a token",
        LexFault::OpenQuote(_) => "a text that is closed on its line",
        LexFault::BadEscape(_) => "'\\x' and two hexadecimal digits that aren't 00",
    }
}

/// Where a byte stands in a text: its line, and its place in the line, each from 1.
#[derive(Clone, Copy, Debug, PartialEq, Eq)]
pub struct Position {
    pub line: usize,
    pub column: usize,
}

/// The part of its line before a byte; for an offset past the text, before the text's end.
pub fn before_in_line(text: &[u8], at: usize) -> &[u8] {
    let before = &text[..at.min(text.len())];
    let count = before
        .iter()
        .rev()
        .take_while(|byte| **byte != b'\n')
        .count();
    &before[before.len().saturating_sub(count)..]
}

/// What stands in a line from a byte on.
pub fn rest_of_line(text: &[u8], at: usize) -> &[u8] {
    let rest = &text[at.min(text.len())..];
    let end = rest
        .iter()
        .take_while(|byte| !matches!(**byte, b'\n' | b'\r'))
        .count();
    &rest[..end.min(rest.len())]
}

/// The line that contains a byte, from its first byte; for an offset past the text, the last line.
pub fn line_around(text: &[u8], at: usize) -> &[u8] {
    let start = at
        .min(text.len())
        .saturating_sub(before_in_line(text, at).len());
    let rest = &text[start..];
    let end = rest.iter().take_while(|byte| **byte != b'\n').count();
    let line = &rest[..end.min(rest.len())];
    match line {
        [whole @ .., b'\r'] => whole,
        _ => line,
    }
}

/// The position of a byte; for an offset past the text, that of the text's end.
pub fn position_in(text: &[u8], at: usize) -> Position {
    let before = &text[..at.min(text.len())];
    let line = before.iter().filter(|byte| **byte == b'\n').count();
    Position {
        line: line.saturating_add(1),
        column: before_in_line(text, at).len().saturating_add(1),
    }
}

/// The line of this number, from 1; empty after the last.
pub fn line_numbered(text: &[u8], number: u32) -> &[u8] {
    let mut rest = text;
    for _ in 1..number {
        let len = rest.iter().take_while(|byte| **byte != b'\n').count();
        rest = &rest[rest.len().min(len.saturating_add(1))..];
    }
    rest_of_line(rest, 0)
}

use st_base::Text;
use st_base::number::number_of;
use std::alloc::{AllocError, Global};

/// The number that digits spell; 0 if they spell none.
pub fn count_of(digits: &[u8]) -> u32 {
    match number_of(digits) {
        Some(number) if number <= u64::from(u32::MAX) => number as u32,
        _ => 0,
    }
}

/// The words of a line, each after a blank.
pub fn words_of(alloc: Global, line: &[u8]) -> Result<Vec<Text>, AllocError> {
    let mut words = Vec::new(alloc);
    for word in line.split(|byte| *byte == b' ').skip(1) {
        words.push(Text::of(alloc, word)?)?;
    }
    Ok(words)
}

/// The bytes of a text up to its first newline.
pub fn first_line(text: &[u8]) -> &[u8] {
    match text.split(|byte| *byte == b'\n').next() {
        Some(line) => line,
        None => text,
    }
}

/// The bytes of a text after its first newline.
pub fn other_lines(text: &[u8]) -> &[u8] {
    let len = first_line(text).len().saturating_add(1);
    &text[text.len().min(len)..]
}

/// The last lines of a text each of whose lines ends with a newline, so many of them; all of it, if it has no more.
pub fn last_lines(text: &[u8], count: u32) -> &[u8] {
    let mut len = 0usize;
    for line in text
        .rsplit(|byte| *byte == b'\n')
        .skip(1)
        .take(count as usize)
    {
        len = len.saturating_add(line.len()).saturating_add(1);
    }
    &text[text.len().saturating_sub(len)..]
}

// How many bytes the lines of a text before the line of this number have with their newlines, which the last one may lack.
fn len_before(text: &[u8], number: u32) -> usize {
    let mut len = 0usize;
    for line in text
        .split(|byte| *byte == b'\n')
        .take(number.saturating_sub(1) as usize)
    {
        len = len.saturating_add(line.len()).saturating_add(1);
    }
    len
}

/// The lines of a text before the line of this number, counted from 1.
pub fn lines_before(text: &[u8], number: u32) -> &[u8] {
    &text[..text.len().min(len_before(text, number))]
}

/// The lines of a text from the line of this number on, counted from 1.
pub fn lines_from(text: &[u8], number: u32) -> &[u8] {
    &text[text.len().min(len_before(text, number))..]
}

use crate::position::{before_in_line, line_around};
use st_base::Text;
use std::alloc::AllocError;

// The longest line that is shown whole, and how much is shown of a longer one, in bytes.
const WHOLE: usize = 76;

const PART: usize = 70;

const CUT: &[u8] = b"...";

// What is shown of a line: so many bytes after those that are left out.
#[derive(Clone, Copy)]
struct Window {
    from: usize,
    len: usize,
}

// The part of a line of so many bytes that has the bytes from `at` on in its middle, as far as the line has bytes on both sides.
fn window_of(line_len: usize, at: usize, len: usize) -> Window {
    if line_len <= WHOLE {
        return Window {
            from: 0,
            len: line_len,
        };
    }
    let beside = PART.saturating_sub(len);
    Window {
        from: at
            .saturating_sub(beside / 2)
            .min(line_len.saturating_sub(PART)),
        len: PART,
    }
}

// Appends bytes of a line, each in one column.
fn append_bytes(out: &mut Text, bytes: &[u8]) -> Result<(), AllocError> {
    for &byte in bytes {
        match byte {
            b'\t' | 0x20..=0x7e => out.push(byte)?,
            _ => out.push(b'?')?,
        }
    }
    Ok(())
}

// Appends what is as wide as these bytes and shows nothing.
fn append_blanks(out: &mut Text, bytes: &[u8]) -> Result<(), AllocError> {
    for &byte in bytes {
        out.push(if byte == b'\t' { b'\t' } else { b' ' })?;
    }
    Ok(())
}

/// Appends two more lines: the line of a text that has the byte at `at`, and a `^` under this byte. Of a long line a part is shown that
/// has so many bytes from there on.
pub fn append_line_with_caret(
    out: &mut Text,
    text: &[u8],
    at: usize,
    len: usize,
) -> Result<(), AllocError> {
    let line = line_around(text, at);
    let column = before_in_line(text, at).len().min(line.len());
    let window = window_of(line.len(), column, len);
    let rest = &line[window.from.min(line.len())..];
    let shown = &rest[..window.len.min(rest.len())];
    let before = &shown[..column.saturating_sub(window.from).min(shown.len())];
    let left = if window.from > 0 { CUT } else { b"" };
    let right = if shown.len() < rest.len() { CUT } else { b"" };
    out.push(b'\n')?;
    out.append(left)?;
    append_bytes(out, shown)?;
    out.append(right)?;
    out.push(b'\n')?;
    append_blanks(out, left)?;
    append_blanks(out, before)?;
    out.push(b'^')
}

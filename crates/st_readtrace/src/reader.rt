ghost use Rattle.std.specs.Prelude.{◌≡◌, ◌≢◌, [], ◌+◌, ◌^◌, ◌<◌, ◌≤◌, length, drop, option_map, Some};
ghost use Rattle.std.specs.List.{prefix_len};
ghost use Rattle.st_lex.specs.Tokens.{is_no_newline};
ghost use Rattle.st_readtrace.specs.Lines.{after_first_line, closed, IsFirstLine, IsLineOf, IsNextEntry};

use crate::entries::entry_of_line;
use memchr::memchr;
use st_base::Text;
use st_fields::LineFault;
use st_trace::Entry;
use std::alloc::Global;
use std::marker::Model;

// How many bytes there are up to the first newline.
fn line_len(text: &[u8]) -> usize
    ensures is { result ≡ prefix_len is_no_newline text.now }
    ensures within { result ≤ length text.now }
{
    memchr(b'\n', text).unwrap_or(text.len())
}

// The bytes after a line of this length and its newline.
fn after_line(text: &[u8], len: usize) -> &[u8]
    ensures { result.now ≡ drop (len + 1) text.now }
{
    if len < text.len() {
        &text[len + 1..]
    } else {
        &[]
    }
}

// The entry of the line with which a text begins, by the line's length. It is printed into a text that is kept for this.
fn first_entry(
    alloc: Global,
    printed: &mut Text,
    text: &[u8],
    len: usize,
) -> Result<Entry, LineFault>
    requires some { text.now ≢ [] }
    requires line { len ≡ prefix_len is_no_newline text.now }
    requires within { len ≤ length text.now }
    ensures { IsFirstLine result text.now }
{
    entry_of_line(alloc, printed, &text[..len])
}

/// Reads the entries of a printed trace line by line, so that they needn't all be stored.
#[derive(Drop)]
pub struct TraceReader<'t> {
    rest: &'t [u8],
    // How many lines were read.
    lines: u32,
    // What is printed of the entry that was read last.
    printed: Text,
}

impl<'t> Model for TraceReader<'t> {
    ghost use Rattle.std.specs.Prelude.{◌+◌, ◌<◌, ◌^◌, length};
    ghost use Rattle.st_readtrace.specs.Lines.{Unread, closed};

    ghost Value = { Unread };

    ghost view = { λ r. record { text = closed r.rest.now; lines = r.lines } };

    ghost invariant = { λ r. r.lines + length r.rest.now < 2 ^ 32 };
}

impl<'t> TraceReader<'t> {
    /// A reader at the start of a text. It takes no memory.
    pub fn new(alloc: Global, text: &'t [u8]) -> Self
        requires { length text.now < 2 ^ 32 }
        ensures { result ≡ record { text = closed text.now; lines = 0 } }
    {
        TraceReader {
            rest: text,
            lines: 0,
            printed: Text::new(alloc),
        }
    }

    /// How many lines were read.
    pub fn lines(&self) -> u32
        ensures { result ≡ self.now.lines }
    {
        self.lines
    }

    /// The next line, without its newline, or `None` at the end of the text. It is still the next.
    pub fn line(&self) -> Option<&'t [u8]>
        ensures { IsLineOf (option_map (λ line. line.now) result) self.now.text }
    {
        if self.rest.is_empty() {
            return None;
        }
        Some(&self.rest[..line_len(self.rest)])
    }

    /// Goes past the next line, which is this one.
    pub fn skip_line(&mut self, line: &[u8])
        requires { IsLineOf (Some line.now) self.old.text }
        ensures { self.new ≡ record { text = after_first_line self.old.text; lines = self.old.lines + 1 } }
    {
        self.rest = after_line(self.rest, line.len());
        self.lines += 1;
    }

    /// The entry of the next line, or `None` at the end of the text. If the line is no entry's, or if out of memory, the line is still the
    /// next.
    pub fn next_entry(&mut self, alloc: Global) -> Result<Option<Entry>, LineFault>
        ensures { IsNextEntry result self.old self.new }
    {
        if self.rest.is_empty() {
            return Ok(None);
        }
        let len = line_len(self.rest);
        let entry = first_entry(alloc, &mut self.printed, self.rest, len)?;
        self.rest = after_line(self.rest, len);
        self.lines += 1;
        Ok(Some(entry))
    }
}

use st_base::Text;
use st_lex::{Token, TokenKind};
use st_policy_diagnostics::caret::append_line_with_caret;
use st_policy_diagnostics::position::position_in;
use st_policy_diagnostics::refusal::Found;
use st_policy_diagnostics::shown::found_at;
use st_statements::lines::saturated;
use st_statements::{ScriptLine, Statement};
use std::alloc::{AllocError, Global};

/// A row at which a script is refused.
#[derive(Clone, Copy)]
pub struct RefusedRow<'a> {
    /// The script's text.
    pub text: &'a [u8],
    /// The tokens of the row.
    pub tokens: &'a [Token],
    /// The script's tokens from the row's first on.
    pub rest: &'a [Token],
    /// All lines of the script.
    pub lines: &'a [ScriptLine],
    /// The lines above the row.
    pub above: &'a [ScriptLine],
    /// What the row says; nothing where it isn't in the grammar.
    pub says: Option<&'a Statement>,
}

/// What is wrong with a row: which of its tokens is at fault, from 0, and what was expected in its place.
#[derive(Drop)]
pub struct Misfit {
    pub index: usize,
    pub expected: Text,
}

/// The place after the last token of a script.
pub const END_OF_FILE: usize = usize::MAX;

impl Misfit {
    /// The token of this number is at fault.
    pub fn at(alloc: Global, index: usize, expected: &str) -> Result<Self, AllocError> {
        Ok(Misfit {
            index,
            expected: Text::of(alloc, expected.as_bytes())?,
        })
    }
}

// The tokens from the first of a line on.
fn from_line(tokens: &[Token], number: u32) -> &[Token] {
    let count = tokens
        .iter()
        .take_while(|token| token.line != number || token.kind == TokenKind::Line)
        .count();
    &tokens[count.min(tokens.len())..]
}

// The tokens up to the end of their first line.
fn up_to_line_end(tokens: &[Token]) -> &[Token] {
    let count = tokens
        .iter()
        .take_while(|token| token.kind != TokenKind::Line)
        .count();
    &tokens[..count.min(tokens.len())]
}

impl<'a> RefusedRow<'a> {
    /// The row of this line, of a script with these tokens and lines.
    pub fn of(text: &'a [u8], tokens: &'a [Token], lines: &'a [ScriptLine], number: u32) -> Self {
        let count = lines.iter().take_while(|line| line.number < number).count();
        let says = match lines.get(count) {
            Some(line) => line.says.as_ref(),
            None => None,
        };
        let rest = from_line(tokens, number);
        RefusedRow {
            text,
            tokens: up_to_line_end(rest),
            rest,
            lines,
            above: &lines[..count.min(lines.len())],
            says,
        }
    }

    /// The byte at which the row ends.
    pub fn end(&self) -> u32 {
        match self.rest.get(self.tokens.len()) {
            Some(token) => token.at,
            None => saturated(self.text.len() as u64),
        }
    }

    // The byte of a token, and what is found there.
    fn found(&self, index: usize) -> (usize, Found<'a>) {
        match self.rest.get(index) {
            Some(token) => match token.kind {
                TokenKind::Line => (token.at as usize, Found::EndOfLine),
                _ => (token.at as usize, Found::Bytes(token.text(self.text))),
            },
            None => (self.text.len(), Found::EndOfFile),
        }
    }

    /// The message about what is wrong with the row, in a script of this name.
    pub fn message(&self, alloc: Global, name: &[u8], misfit: &Misfit) -> Result<Text, AllocError> {
        let (at, found) = self.found(misfit.index);
        let mut line = found_at(alloc, name, position_in(self.text, at))?;
        found.append_to(&mut line)?;
        line.append(b", expected ")?;
        line.append(misfit.expected.bytes())?;
        append_line_with_caret(&mut line, self.text, at, found.len())?;
        Ok(line)
    }
}

use crate::position::rest_of_line;
use crate::shown::{append_shown, broken, place_of};
use st_base::Text;
use st_grammar::{Env, Place, PolicyFault};
use st_lex::{LexFault, Token, TokenKind};
use std::alloc::AllocError;

/// Where a filter stands.
#[derive(Clone, Copy, Debug, PartialEq, Eq)]
pub enum FilterSource {
    PolicyFile,
    /// A policy of a script, in whose text it stands.
    ScriptPolicy,
    /// A reply of a script, in whose text it stands.
    Reply,
}

/// A policy file that is refused, or a filter of a script: its text and tokens, what it was read with, its fault, and where in the grammar
/// the fault stands.
#[derive(Clone, Copy)]
pub struct Refusal<'a> {
    pub text: &'a [u8],
    pub tokens: &'a [Token],
    pub env: &'a Env,
    pub fault: PolicyFault,
    pub place: Place,
    pub source: FilterSource,
}

/// What stands at a fault.
#[derive(Clone, Copy)]
pub enum Found<'a> {
    ByteOrderMark,
    EndOfLine,
    EndOfFile,
    /// A token, or what is none.
    Bytes(&'a [u8]),
}

const BYTE_ORDER_MARK: &[u8] = b"\xef\xbb\xbf";

/// Whether a lexical fault is a byte order mark with which a text begins.
pub fn is_byte_order_mark(text: &[u8], fault: LexFault) -> bool {
    matches!(fault, LexFault::BadByte(0)) && text.starts_with(BYTE_ORDER_MARK)
}

impl<'a> Refusal<'a> {
    /// The byte at which the fault stands.
    pub fn at(&self) -> usize {
        let at = match self.fault {
            PolicyFault::Lex(fault) => return place_of(fault),
            PolicyFault::Expected(at) => at,
            PolicyFault::UnknownCall(at) => at,
            PolicyFault::UnknownArgument(at) => at,
            PolicyFault::UnknownError(at) => at,
            PolicyFault::UnknownUser(at) => at,
            PolicyFault::DuplicatePolicy(at) => at,
            PolicyFault::ElevateWithoutIds(at) => at,
            PolicyFault::ElevateOnSetId(at) => at,
            PolicyFault::NotSupported(at, _) => at,
            PolicyFault::AskWithLearn(at) => at,
            PolicyFault::TooMany(at) => at,
            PolicyFault::NoMemory => 0,
        };
        at as usize
    }

    /// The tokens before the fault that stand in its row.
    pub fn row(&self) -> &'a [Token] {
        let at = self.at();
        let count = self
            .tokens
            .iter()
            .take_while(|token| (token.at as usize) < at)
            .count();
        let before = &self.tokens[..count.min(self.tokens.len())];
        let count = before
            .iter()
            .rev()
            .take_while(|token| token.kind != TokenKind::Line)
            .count();
        &before[before.len().saturating_sub(count)..]
    }

    // What is no token at the fault, as far as its line goes.
    fn broken(&self) -> Found<'a> {
        let rest = rest_of_line(self.text, self.at());
        match self.fault {
            PolicyFault::Lex(fault) if is_byte_order_mark(self.text, fault) => Found::ByteOrderMark,
            PolicyFault::Lex(fault) => Found::Bytes(broken(rest, fault)),
            _ => Found::Bytes(rest),
        }
    }

    /// What stands at the fault.
    pub fn found(&self) -> Found<'a> {
        let at = self.at();
        match self.tokens.iter().find(|token| token.at as usize == at) {
            Some(token) => match token.kind {
                TokenKind::Line => Found::EndOfLine,
                _ => Found::Bytes(token.text(self.text)),
            },
            None if at >= self.text.len() => Found::EndOfFile,
            None => self.broken(),
        }
    }
}

impl<'a> Found<'a> {
    /// How many bytes it has in its line.
    pub fn len(self) -> usize {
        match self {
            Found::ByteOrderMark => BYTE_ORDER_MARK.len(),
            Found::EndOfLine | Found::EndOfFile => 0,
            Found::Bytes(bytes) => bytes.len(),
        }
    }

    /// Appends what a message calls it.
    pub fn append_to(self, line: &mut Text) -> Result<(), AllocError> {
        match self {
            Found::ByteOrderMark => line.append(b"a byte order mark"),
            Found::EndOfLine => line.append(b"the end of the line"),
            Found::EndOfFile => line.append(b"the end of the file"),
            Found::Bytes(bytes) => append_shown(line, bytes),
        }
    }
}

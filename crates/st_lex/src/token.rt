ghost use Rattle.std.specs.Prelude.{◌≡◌, option_copied};
ghost use Rattle.st_lex.specs.Text.{text_of_token, is_word, is_quoted, is_colon, is_comma, is_keyword, plain_quoted};

use st_base::{Sequence, is_same_text};
use thiserror::Error;

/// The kind of a token.
#[derive(Clone, Copy, Debug, PartialEq, Eq)]
pub enum TokenKind {
    Word,
    Quoted,
    Colon,
    Comma,
    Open,
    Close,
    OpenBracket,
    CloseBracket,
    Equal,
    NotEqual,
    Less,
    Greater,
    Line,
}

impl TokenKind {
    /// Whether it is a Word.
    pub fn is_word(self) -> bool
        ensures { result ≡ is_word self }
    {
        matches!(self, TokenKind::Word)
    }

    /// Whether it is a quoted text.
    pub fn is_quoted(self) -> bool
        ensures { result ≡ is_quoted self }
    {
        matches!(self, TokenKind::Quoted)
    }

    /// Whether it is `:`.
    pub fn is_colon(self) -> bool
        ensures { result ≡ is_colon self }
    {
        matches!(self, TokenKind::Colon)
    }

    /// Whether it is `,`.
    pub fn is_comma(self) -> bool
        ensures { result ≡ is_comma self }
    {
        matches!(self, TokenKind::Comma)
    }
}

/// A token: `len` bytes of the text from offset `at`, on line `line`, counted from 1.
#[derive(Clone, Copy, Debug, PartialEq, Eq)]
pub struct Token {
    pub kind: TokenKind,
    pub at: u32,
    pub len: u32,
    pub line: u32,
}

impl Token {
    /// The bytes of the token in the text that it was read from. In another text, these are the bytes at the same offset.
    pub fn text<'a>(&self, text: &'a [u8]) -> &'a [u8]
        ensures { result.now ≡ text_of_token text.now self.now }
    {
        let rest = &text[text.len().min(self.at as usize)..];
        &rest[..rest.len().min(self.len as usize)]
    }

    /// Whether the token is this Word.
    pub fn is_keyword(&self, text: &[u8], word: &[u8]) -> bool
        ensures { result ≡ is_keyword text.now word.now self.now }
    {
        self.kind.is_word() && is_same_text(self.text(text), word)
    }

    /// The bytes between the quotes, if the token is a quoted text without a backslash.
    pub fn plain_quoted<'a>(&self, text: &'a [u8]) -> Option<&'a [u8]>
        ensures { option_copied result ≡ plain_quoted text.now self.now }
    {
        let bytes = self.text(text);
        if !self.kind.is_quoted() || bytes.contains(&b'\\') {
            return None;
        }
        match bytes {
            [_, inner @ .., _] => Some(inner),
            _ => None,
        }
    }
}

/// Why a text has no further tokens, with the offset of the fault.
#[derive(Clone, Copy, Debug, PartialEq, Eq, Drop, Error)]
pub enum LexFault {
    /// No token begins with this byte.
    #[error("no token begins with this byte")]
    BadByte(u32),
    /// A quoted text isn't closed.
    #[error("the quote isn't closed")]
    OpenQuote(u32),
    /// The bytes after a backslash in quotes are no escape.
    #[error("not an escape")]
    BadEscape(u32),
}

/// The tokens of a text up to its first fault, or all of its tokens if it has no fault.
#[derive(Debug, Drop)]
pub struct Lexed {
    pub tokens: Sequence<Token>,
    pub fault: Option<LexFault>,
}

/// What is at the front of a text: a gap or a token with its length, or a fault with its offset.
#[derive(Clone, Copy, Debug, PartialEq, Eq)]
pub enum Front {
    Gap(usize),
    Piece(TokenKind, usize),
    Broken(LexFault),
}

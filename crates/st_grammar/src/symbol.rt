ghost use Rattle.std.specs.Prelude.{◌≡◌};
ghost use Rattle.st_grammar.specs.Symbol.{symbol_of, seen};
ghost use Rattle.st_grammar.specs.Grammar.{comparison};
ghost use Rattle.st_grammar.specs.Diagram.{is_action, is_word_symbol, is_colon_symbol, is_comma_symbol, is_close_bracket, is_line_symbol};

use crate::words::is_keyword;
use st_filter::Cmp;
use st_lex::{Token, TokenKind};

/// A token as the grammar of policies sees it.
#[derive(Drop)]
pub enum Symbol<'a> {
    Word(&'a [u8]),
    /// A quoted text as it was written, with its quotes.
    Quoted(&'a [u8]),
    Colon,
    Comma,
    Open,
    Close,
    OpenBracket,
    CloseBracket,
    Equal,
    NotEqual,
    Less,
    Greater,
    Line,
    /// Bytes that form no token.
    Broken,
}

impl<'a> Symbol<'a> {
    /// The symbol of a token of a text.
    pub fn of(text: &'a [u8], token: &Token) -> Self
        ensures { seen result ≡ symbol_of text.now token.now }
    {
        let bytes = token.text(text);
        match token.kind {
            TokenKind::Word => Symbol::Word(bytes),
            TokenKind::Quoted => Symbol::Quoted(bytes),
            TokenKind::Colon => Symbol::Colon,
            TokenKind::Comma => Symbol::Comma,
            TokenKind::Open => Symbol::Open,
            TokenKind::Close => Symbol::Close,
            TokenKind::OpenBracket => Symbol::OpenBracket,
            TokenKind::CloseBracket => Symbol::CloseBracket,
            TokenKind::Equal => Symbol::Equal,
            TokenKind::NotEqual => Symbol::NotEqual,
            TokenKind::Less => Symbol::Less,
            TokenKind::Greater => Symbol::Greater,
            TokenKind::Line => Symbol::Line,
        }
    }

    /// Whether the symbol is `:`.
    pub fn is_colon(&self) -> bool
        ensures { result ≡ is_colon_symbol (seen self.now) }
    {
        matches!(*self, Symbol::Colon)
    }

    /// Whether the symbol is `,`.
    pub fn is_comma(&self) -> bool
        ensures { result ≡ is_comma_symbol (seen self.now) }
    {
        matches!(*self, Symbol::Comma)
    }

    /// Whether the symbol is `]`.
    pub fn is_close_bracket(&self) -> bool
        ensures { result ≡ is_close_bracket (seen self.now) }
    {
        matches!(*self, Symbol::CloseBracket)
    }

    /// Whether the symbol is the end of a line.
    pub fn is_line(&self) -> bool
        ensures { result ≡ is_line_symbol (seen self.now) }
    {
        matches!(*self, Symbol::Line)
    }

    /// Whether the symbol is this keyword.
    pub fn is_keyword(&self, keyword: &[u8]) -> bool
        ensures { result ≡ is_word_symbol keyword.now (seen self.now) }
    {
        match *self {
            Symbol::Word(word) => is_keyword(word, keyword),
            _ => false,
        }
    }

    /// Whether the symbol is a word that begins an action.
    pub fn is_action(&self) -> bool
        ensures { result ≡ is_action (seen self.now) }
    {
        self.is_keyword(b"permit") || self.is_keyword(b"deny") || self.is_keyword(b"ask")
    }

    /// The comparison of a predicate that this sign spells.
    pub fn comparison(&self) -> Option<Cmp>
        ensures { result ≡ comparison (seen self.now) }
    {
        match *self {
            Symbol::Equal => Some(Cmp::Same),
            Symbol::NotEqual => Some(Cmp::Other),
            Symbol::Less => Some(Cmp::Below),
            Symbol::Greater => Some(Cmp::Above),
            _ => None,
        }
    }
}

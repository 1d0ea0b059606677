ghost use Rattle.std.specs.Prelude.{◌≡◌, ◌+◌, ◌<◌, ◌≤◌, ◌∷◌, ◌^◌, ℕ, List, length, IfOk, IfSome};
ghost use Rattle.std.specs.List.{prefix_len, list_all};
ghost use Rattle.st_lex.specs.Pieces.{Piece, CanBeReadBack, IsReadAs, print, piece_tokens, is_word_text};
ghost use Rattle.st_lex.specs.Slices.{AreSlices};
ghost use Rattle.st_lex.specs.Tokens.{is_blank, is_word_byte, is_no_newline, sign_of, quoted_front, front_of, lexed_text, line_after, IsNextToken, IsFrontWithin};
ghost use Rattle.st_lex.specs.Quoted.{closing_len, inner_fault, is_inner_byte, is_byte_escape, shifted_fault, place_of};

use crate::token::{Front, LexFault, Lexed, Token, TokenKind};
use st_base::Sequence;
use std::alloc::{AllocError, Global};
use std::marker::Model;

fn is_blank(byte: u8) -> bool
    ensures { result ≡ is_blank byte }
{
    matches!(byte, b' ' | b'\t' | b'\r')
}

fn is_word_byte(byte: u8) -> bool
    ensures { result ≡ is_word_byte byte }
{
    byte.is_ascii_lowercase()
        || byte.is_ascii_alphanumeric()
        || matches!(byte, b'_' | b'-' | b'.' | b'/' | b'+' | b'~' | b'%')
}

fn are_word_bytes(bytes: &[u8]) -> bool
    ensures { result ≡ list_all is_word_byte bytes.now }
{
    bytes.iter().all(|byte| is_word_byte(*byte))
}

/// Whether bytes are one Word: at least one byte, and only bytes that may be in a Word.
pub fn is_word_text(bytes: &[u8]) -> bool
    ensures { result ≡ is_word_text bytes.now }
{
    match bytes {
        [] => false,
        _ => are_word_bytes(bytes),
    }
}

fn word_len(bytes: &[u8]) -> usize
    ensures { result ≡ prefix_len is_word_byte bytes.now }
{
    bytes.iter().take_while(|byte| is_word_byte(**byte)).count()
}

fn comment_len(bytes: &[u8]) -> usize
    ensures { result ≡ prefix_len is_no_newline bytes.now }
{
    bytes.iter().take_while(|byte| **byte != b'\n').count()
}

// The kind of the one-byte token that this byte is, if it is one.
fn sign_of(byte: u8) -> Option<TokenKind>
    ensures { result ≡ sign_of byte }
{
    let kind = match byte {
        b'\n' => TokenKind::Line,
        b':' => TokenKind::Colon,
        b',' => TokenKind::Comma,
        b'(' => TokenKind::Open,
        b')' => TokenKind::Close,
        b'[' => TokenKind::OpenBracket,
        b']' => TokenKind::CloseBracket,
        b'=' => TokenKind::Equal,
        b'<' => TokenKind::Less,
        b'>' => TokenKind::Greater,
        _ => return None,
    };
    Some(kind)
}

// The number of bytes after an opening quote, up to and including the closing quote.
fn closing_len(bytes: &[u8]) -> Option<usize>
    ensures is { result ≡ closing_len bytes.now }
    ensures within { IfSome result (λ count. count ≤ length bytes.now) }
{
    let mut escaped = false;
    for (index, &byte) in bytes.iter().enumerate() {
        if byte == b'\n' {
            return None;
        }
        if escaped {
            escaped = false;
        } else if byte == b'"' {
            return Some(index + 1);
        } else {
            escaped = byte == b'\\';
        }
    }
    None
}

// Whether the bytes after `\x` begin with two hexadecimal digits that spell a byte other than zero.
fn is_byte_escape(bytes: &[u8]) -> bool
    ensures { result ≡ is_byte_escape bytes.now }
{
    match bytes {
        [high, low, ..] => high.is_ascii_hexdigit()
            && low.is_ascii_hexdigit()
            && !(*high == b'0' && *low == b'0'),
        _ => false,
    }
}

// The first fault inside a closed quoted text. Its offset is counted from the byte after the opening quote.
fn inner_fault(bytes: &[u8]) -> Option<LexFault>
    requires { length bytes.now < 2 ^ 32 }
    ensures is { result ≡ inner_fault bytes.now }
    ensures within { IfSome result (λ fault. place_of fault < length bytes.now) }
{
    let mut escaped = false;
    for (index, &byte) in bytes.iter().enumerate() {
        let at = index as u32;
        if byte == 0 {
            return Some(LexFault::BadByte(at));
        }
        if escaped {
            if byte == b'x' && !is_byte_escape(&bytes[index + 1..]) {
                return Some(LexFault::BadEscape(at - 1));
            }
            escaped = false;
        } else if byte == b'"' {
            return None;
        } else {
            escaped = byte == b'\\';
        }
    }
    None
}

// The fault with its offset increased by this many bytes.
fn fault_after(by: u32, fault: LexFault) -> LexFault
    requires { by + place_of fault < 2 ^ 32 }
    ensures { result ≡ shifted_fault by fault }
{
    match fault {
        LexFault::BadByte(at) => LexFault::BadByte(by + at),
        LexFault::OpenQuote(at) => LexFault::OpenQuote(by + at),
        LexFault::BadEscape(at) => LexFault::BadEscape(by + at),
    }
}

// The number of bytes before the first byte that needs a closer look: a quote, a backslash, a newline or a zero.
fn inner_len(bytes: &[u8]) -> usize
    ensures is { result ≡ prefix_len is_inner_byte bytes.now }
    ensures within { result ≤ length bytes.now }
{
    bytes
        .iter()
        .take_while(|byte| !matches!(**byte, 0 | b'\n' | b'"' | b'\\'))
        .count()
}

// The front that an opening quote and the bytes after it form, if they may contain an escape or a fault.
fn escaped_front(after: &[u8]) -> Front
    requires { length after.now + 1 < 2 ^ 32 }
    ensures { result ≡ quoted_front (closing_len after.now) (inner_fault after.now) }
{
    match closing_len(after) {
        None => Front::Broken(LexFault::OpenQuote(0)),
        Some(count) => match inner_fault(after) {
            None => Front::Piece(TokenKind::Quoted, 1 + count),
            Some(fault) => Front::Broken(fault_after(1, fault)),
        },
    }
}

// The front that an opening quote and the bytes after it form. Usually the first byte that isn't plain closes the text.
fn quoted_front(after: &[u8]) -> Front
    requires { length after.now + 1 < 2 ^ 32 }
    ensures { result ≡ quoted_front (closing_len after.now) (inner_fault after.now) }
{
    let inner = inner_len(after);
    match after.get(inner) {
        Some(b'"') => Front::Piece(TokenKind::Quoted, inner + 2),
        _ => escaped_front(after),
    }
}

// What is at the front of these bytes. The test for a sign is first, since it takes one look at the byte. A sign is neither a blank
// nor a byte of a Word.
#[tactic(auto, using(crate::proofs::Signs::sign_in_front))]
fn front(first: u8, after: &[u8]) -> Front
    requires { length after.now + 1 < 2 ^ 32 }
    ensures is { result ≡ front_of (first ∷ after.now) }
    ensures within { IsFrontWithin (length after.now + 1) result }
{
    if let Some(kind) = sign_of(first) {
        return Front::Piece(kind, 1);
    }
    if is_blank(first) {
        return Front::Gap(1);
    }
    if first == b'#' {
        return Front::Gap(1 + comment_len(after));
    }
    if is_word_byte(first) {
        return Front::Piece(TokenKind::Word, 1 + word_len(after));
    }
    if first == b'"' {
        return quoted_front(after);
    }
    match (first, after) {
        (b'!', [b'=', ..]) => Front::Piece(TokenKind::NotEqual, 2),
        _ => Front::Broken(LexFault::BadByte(0)),
    }
}

// The same. A blank, which is between most tokens, is known without a call.
#[inline(always)]
fn blank_or_front(first: u8, after: &[u8]) -> Front
    requires { length after.now + 1 < 2 ^ 32 }
    ensures is { result ≡ front_of (first ∷ after.now) }
    ensures within { IsFrontWithin (length after.now + 1) result }
{
    if is_blank(first) {
        Front::Gap(1)
    } else {
        front(first, after)
    }
}

fn line_after(kind: TokenKind, line: u64) -> u64
    requires { line + 1 < 2 ^ 64 }
    ensures { result ≡ line_after kind line }
{
    if kind == TokenKind::Line {
        line + 1
    } else {
        line
    }
}

/// Reads the tokens of a text one by one, so that they needn't all be stored.
#[derive(Drop)]
pub struct Lexer<'a> {
    text: &'a [u8],
    at: usize,
    line: u64,
}

impl<'a> Model for Lexer<'a> {
    ghost use Rattle.std.specs.Prelude.{◌+◌, ◌<◌, ◌≤◌, ◌^◌, drop, length};
    ghost use Rattle.st_lex.specs.Tokens.{tokens_from};
    ghost use Rattle.st_lex.specs.declared.token.Lexed.{Lexed};

    ghost Value = { Lexed };

    ghost view = { λ l. tokens_from 0 l.at l.line (drop l.at l.text.now) };

    ghost invariant = { λ l. (l.at ≤ length l.text.now) × ((l.line ≤ l.at + 1) × (length l.text.now < 2 ^ 32)) };
}

impl<'a> Lexer<'a> {
    /// A lexer at the start of a text.
    pub fn new(text: &'a [u8]) -> Self
        requires { length text.now < 2 ^ 32 }
        ensures { result ≡ lexed_text text.now }
    {
        Lexer {
            text,
            at: 0,
            line: 1,
        }
    }

    /// The next token with its offset and line, or `None` at the end of the text. At a fault it returns that fault, and so does every
    /// later call.
    #[inline(always)]
    pub fn next_token(&mut self) -> Result<Option<Token>, LexFault>
        ensures { IsNextToken result self.old self.new }
    {
        let mut at = self.at;
        while at < self.text.len() {
            match blank_or_front(self.text[at], &self.text[at + 1..]) {
                Front::Gap(len) => at += len,
                Front::Piece(kind, len) => {
                    let token = Token {
                        kind,
                        at: at as u32,
                        len: len as u32,
                        line: self.line as u32,
                    };
                    self.at = at + len;
                    self.line = line_after(kind, self.line);
                    return Ok(Some(token));
                }
                Front::Broken(fault) => return Err(fault_after(at as u32, fault)),
            }
        }
        Ok(None)
    }
}

/// All tokens of a text up to its first fault, and that fault.
pub fn tokens(alloc: Global, text: &[u8]) -> Result<Lexed, AllocError>
    requires { length text.now < 2 ^ 32 }
    ensures { IfOk result (λ lexed. lexed ≡ lexed_text text.now) }
{
    let mut lexer = Lexer::new(text);
    // A token usually has four bytes or more, with the blank after it.
    let mut tokens = Sequence::with_capacity(alloc, text.len() / 4)?;
    let fault = loop {
        match lexer.next_token() {
            Ok(Some(token)) => tokens.push(token)?,
            Ok(None) => break None,
            Err(fault) => break Some(fault),
        }
    };
    Ok(Lexed { tokens, fault })
}

/// The tokens of a text are slices of it, in order and with the right lines. A Word is a whole word, and a quoted text includes its
/// quotes.
pub fn tokens_are_slices()
    ensures { (text : List ℕ) → AreSlices text (lexed_text text).tokens }
{}

/// Pieces for which `CanBeReadBack` holds, printed one after the other, are lexed without a fault as the tokens that they represent.
pub fn pieces_are_tokens()
    ensures { (pieces : List Piece) → CanBeReadBack pieces → IsReadAs (print pieces) (piece_tokens pieces) }
{}

ghost use Rattle.std.specs.Prelude.{◌≡◌, ◌^◌, ◌<◌, length, count_by};
ghost use Rattle.st_lex.specs.Slices.{newlines};
ghost use Rattle.st_lex.specs.Quoted.{place_of};
ghost use Rattle.st_lex.specs.Rows.{ends_line};
ghost use Rattle.st_statements.specs.Lines.{saturated, up_to_last_line, whole_lines, tokens_before_fault_line, line_at, line_of_fault, line_of_row};

use st_lex::{LexFault, Lexed, Token, TokenKind};

/// A number in 32 bits: a larger one becomes the largest of 32 bits.
pub fn saturated(number: u64) -> u32
    ensures { result ≡ saturated number }
{
    number.min(u64::from(u32::MAX)) as u32
}

fn ends_line(token: &Token) -> bool
    ensures { result ≡ ends_line token.now }
{
    token.kind == TokenKind::Line
}

fn up_to_last_line(tokens: &[Token]) -> &[Token]
    ensures { result.now ≡ up_to_last_line tokens.now }
{
    let mut end = tokens.len();
    while end > 0 {
        if ends_line(&tokens[end - 1]) {
            return &tokens[..end];
        }
        end -= 1;
    }
    &[]
}

/// The tokens of all lines, or of the lines above the first lexical fault.
pub fn looked_at(lexed: &Lexed) -> &[Token]
    ensures { result.now ≡ tokens_before_fault_line lexed.now }
{
    let tokens = lexed.tokens.as_slice();
    match lexed.fault {
        None => tokens,
        Some(_) => up_to_last_line(tokens),
    }
}

fn newlines(bytes: &[u8]) -> usize
    ensures { result ≡ newlines bytes.now }
{
    bytes.iter().filter(|byte| **byte == b'\n').count()
}

fn place_of(fault: LexFault) -> u32
    ensures { result ≡ place_of fault }
{
    match fault {
        LexFault::BadByte(at) => at,
        LexFault::OpenQuote(at) => at,
        LexFault::BadEscape(at) => at,
    }
}

fn line_at(text: &[u8], place: u32) -> u32
    requires { length text.now < 2 ^ 32 }
    ensures { result ≡ line_at text.now place }
{
    let before = &text[..text.len().min(place as usize)];
    saturated(newlines(before) as u64 + 1)
}

/// The line of a lexical fault, counted from 1.
pub fn line_of_fault(text: &[u8], fault: Option<LexFault>) -> Option<u32>
    requires { length text.now < 2 ^ 32 }
    ensures { result ≡ line_of_fault text.now fault }
{
    match fault {
        None => None,
        Some(fault) => Some(line_at(text, place_of(fault))),
    }
}

/// The line of a row, counted from 1.
pub fn line_of_row(row: &[Token]) -> u32
    ensures { result ≡ line_of_row row.now }
{
    match row {
        [token, ..] => token.line,
        [] => 0,
    }
}

ghost use Rattle.std.specs.Prelude.{◌≡◌, ◌≤◌, [], length, MatchOption};
ghost use Rattle.std.specs.List.{prefix_len};
ghost use Rattle.st_lex.specs.Rows.{rows, ends_line, is_in_line, IsNextRow};

use crate::token::{Token, TokenKind};

// The number of tokens at the front that end a line.
fn blank_len(tokens: &[Token]) -> usize
    ensures is { result ≡ prefix_len ends_line tokens.now }
    ensures within { result ≤ length tokens.now }
{
    tokens
        .iter()
        .take_while(|token| token.kind == TokenKind::Line)
        .count()
}

// The number of tokens at the front that don't end a line.
fn row_len(tokens: &[Token]) -> usize
    ensures is { result ≡ prefix_len is_in_line tokens.now }
    ensures within { result ≤ length tokens.now }
{
    tokens
        .iter()
        .take_while(|token| token.kind != TokenKind::Line)
        .count()
}

/// The first row, without the token that ends its line, and the tokens after it.
pub fn next_row<'a>(tokens: &'a [Token]) -> Option<(&'a [Token], &'a [Token])>
    ensures { MatchOption result (rows tokens.now ≡ []) (λ r. IsNextRow tokens.now r.0.now r.1.now) }
{
    let rest = &tokens[blank_len(tokens)..];
    if rest.is_empty() {
        return None;
    }
    let end = row_len(rest);
    let following = if end < rest.len() {
        &rest[end + 1..]
    } else {
        &[]
    };
    Some((&rest[..end], following))
}

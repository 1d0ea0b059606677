ghost use Rattle.std.specs.Prelude.{◌≡◌};
ghost use Rattle.st_statements.specs.Values.{number_token, id_at, mode_at};

use st_base::number::{mode_of, number_of};
use st_lex::Token;

/// The number that a token spells.
pub fn number_at(text: &[u8], token: &Token) -> Option<u64>
    ensures { result ≡ number_token text.now token.now }
{
    if token.kind.is_word() {
        number_of(token.text(text))
    } else {
        None
    }
}

/// A user's or a group's id.
pub fn id_at(text: &[u8], token: &Token) -> Option<u32>
    ensures { result ≡ id_at text.now token.now }
{
    let number = number_at(text, token)?;
    if number < 1 << 32 {
        Some(number as u32)
    } else {
        None
    }
}

/// The mode that a token spells.
pub fn mode_at(text: &[u8], token: &Token) -> Option<u32>
    ensures { result ≡ mode_at text.now token.now }
{
    if token.kind.is_word() {
        mode_of(token.text(text))
    } else {
        None
    }
}

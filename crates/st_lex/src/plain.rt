ghost use Rattle.std.specs.Prelude.{◌≡◌, ◌^◌, ◌<◌, length, IfOk};
ghost use Rattle.st_lex.specs.Plain.{plain_tokens};

use crate::lexer::tokens;
use crate::token::{Lexed, Token};
use st_base::Sequence;
use std::alloc::{AllocError, Global};

/// The tokens of a text that has no comment and no lexical fault.
pub fn plain_tokens(alloc: Global, text: &[u8]) -> Result<Option<Sequence<Token>>, AllocError>
    requires { length text.now < 2 ^ 32 }
    ensures { IfOk result (λ found. found ≡ plain_tokens text.now) }
{
    if text.contains(&b'#') {
        return Ok(None);
    }
    let Lexed { tokens, fault } = tokens(alloc, text)?;
    match fault {
        None => Ok(Some(tokens)),
        Some(_) => Ok(None),
    }
}

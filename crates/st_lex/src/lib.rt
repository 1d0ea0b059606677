//! The lexer of policies, scripts, schedules and traces, with quoted texts and rows of tokens.
#![tactic(auto)]

pub mod lexer;
pub mod plain;
pub mod quoted;
pub mod rows;
pub mod token;
pub mod unquoted;

pub use lexer::{Lexer, is_word_text, pieces_are_tokens, tokens, tokens_are_slices};
pub use plain::plain_tokens;
pub use quoted::{hex_digit, quote, quoted_is_one_token};
pub use rows::next_row;
pub use token::{LexFault, Lexed, Token, TokenKind};
pub use unquoted::{Dollars, quoted_is_unquoted, unquote, unquote_plain};

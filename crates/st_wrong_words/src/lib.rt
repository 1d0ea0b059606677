//! Writes what is wrong with words that are no command.
#![tactic(auto)]

mod options;
pub mod wrong_words;

pub use wrong_words::no_text_message;

//! How the commands are written, and what `--help` and `--version` print.
#![tactic(auto)]

mod answer;
pub mod usage;

pub use answer::{Answer, answer_of, answer_text};

//! Writes the messages about refused policies, and the parts that all messages about a file have: a position, a line with a caret, a row.
#![tactic(auto)]

mod arguments;
pub mod caret;
pub mod details;
mod expected;
mod forms;
pub mod policy_fault;
pub mod position;
pub mod refusal;
pub mod row;
pub mod shown;

pub use policy_fault::policy_message;

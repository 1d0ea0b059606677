//! Writes the messages about refused scripts: the token at fault in its row, and what was expected in its place.
#![tactic(auto)]

mod excess;
mod naming;
mod replaced;
pub mod script_fault;

pub use script_fault::{ReadWith, script_message};

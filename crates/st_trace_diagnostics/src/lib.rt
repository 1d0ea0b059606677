//! Writes the messages about printed traces that aren't lawful: what a line should have been, by replaying the lines before it.
#![tactic(auto)]

mod line;
mod reason;
pub mod trace_fault;

pub use trace_fault::trace_message;

//! Replays printed traces: reads each line as an entry, and checks that the law allows it after the lines before it.
#![tactic(auto)]

pub mod law;
mod mover;
pub mod text;

pub use law::{a_printed_trace_breaks_at_one_line, what_is_printed_of_a_lawful_trace_is_lawful};
pub use text::first_unlawful_line;

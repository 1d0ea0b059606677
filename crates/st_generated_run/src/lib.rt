//! Runs what the generated policy and script mean, and sums the run up in a line.
#![tactic(auto)]

mod input;
mod line;

pub use line::generated_line;

//! Executes the steps of threads, workers and the operator over the modelled system: each step is that of the law's machine.
#![tactic(auto)]

mod acting;
mod asking;
mod choosing;
mod entering;
pub mod machine;
mod making;
mod placing;
mod reloading;
mod renewing;
mod serving;

pub use machine::Machine;

//! Runs a kernel by threads: its runners share one lock, and calls are judged outside it.
#![tactic(auto)]

pub mod run;
pub mod shared;

pub use run::run_all;
pub use shared::Shared;
pub use st_desk::{Gate, OpenGate};

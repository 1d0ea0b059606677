//! Reads the words of the command line as a command: which command they spell, and with which options.
#![tactic(auto)]

pub mod command;
pub mod given;
pub mod law;
pub mod reading;
mod words;

pub use command::{CheckWords, Command, ReplayWords, RunWords, StepWords};
pub use given::Print;
pub use reading::{read_gen_words, read_run_words, read_words};

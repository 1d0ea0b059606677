//! Reads a command and its files as what they mean, before anything runs: the script, the policies, and the schedule are fetched and read,
//! in that order.
#![tactic(auto)]

pub mod environment;
pub mod files;
pub mod input;
pub mod law;
pub mod reading;
pub mod refusal;
pub mod running;

pub use environment::bare_env;
pub use input::input_with;
pub use reading::{Reading, read_command};
pub use refusal::{Refusal, Which};
pub use running::read_run;

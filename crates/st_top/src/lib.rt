//! The proved top calls of the program, which take words, files and a sink, and give one status each.
#![tactic(auto)]

pub mod ended;
mod generated;
pub mod law;
pub mod plain;
mod replaying;
mod run;
pub mod running;
pub mod status;
mod threaded;

pub use ended::{Ended, Schedule};
pub use plain::systrace_plain;
pub use running::systrace_run;
pub use st_monitor::{Gate, OpenGate};
pub use st_reading::Which;
pub use status::Status;

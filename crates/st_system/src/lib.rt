//! Keeps the modelled system and makes calls on it: file tree, descriptors, processes and memories together represent those of the law's
//! machine.
#![tactic(auto)]

mod arguments;
mod execution;
mod laws;
mod start;
pub mod system;

pub use laws::{arguments_are_fit, calls_that_set_ids_renew, started_threads_run};
pub use st_arguments::Arguments;
pub use system::System;

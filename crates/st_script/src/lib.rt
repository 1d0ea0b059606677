//! Reads whole scripts as the start of a run, the environment that policies are read with, the operator's replies, and the
//! policies that reloads put in force.
#![tactic(auto)]

pub mod bodies;
pub mod policies;
pub mod reading;

pub use reading::{ReadScript, read_script};

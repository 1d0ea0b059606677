//! The names that the rows of a script give, and the environment that they make for its policies.
#![tactic(auto)]

pub mod environment;
pub mod limits;
pub mod names;

pub use limits::{MOST_INSTRUCTIONS, MOST_PROCESSES, MOST_THREADS, MOST_TREE_ROWS};

//! The calls on file descriptors, and those that move bytes between open files and memory: each as its definition says.
#![tactic(auto)]

mod descriptors;
mod transfers;

pub use descriptors::{close, dup, lseek};
pub use transfers::{read, write};

//! Reads policies one symbol at a time: the place in the grammar, and the parts of the row that were read.
#![tactic(auto)]

mod reader;
mod stack;
mod steps;

pub use reader::Reader;

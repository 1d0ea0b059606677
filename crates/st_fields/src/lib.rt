//! The fields that the lines of printed traces consist of, as they are read.
#![tactic(auto)]

mod fault;
pub mod fields;
pub mod words;

pub use fault::LineFault;
pub use fields::{Fields, read_args};
pub use words::kind_of_word;

//! Prints policies in their canonical form: for each a header and its filters in order, each in a row.
#![tactic(auto)]

mod print;

pub use print::{print_filter, print_policies};

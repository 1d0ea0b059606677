//! Reads the text of policies: for each binary a list of filters, in order.
#![tactic(auto)]

pub mod one_filter;
pub mod reader;

pub use one_filter::read_filter;
pub use reader::read_policies;

//! Finds the first fault of a script, line by line, given the lines above and below.
#![tactic(auto)]

pub mod fault;
pub mod faults;
pub mod row_value;
pub mod script_filters;

pub use fault::ScriptFault;
pub use script_filters::ScriptFilters;

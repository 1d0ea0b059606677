//! The arguments of a call that is made in one step: their texts, and the link in the way of its names.
#![tactic(auto)]

pub mod arguments;
pub mod asked;
mod fault;
mod links;
mod part;

pub use arguments::{Arguments, arguments_in};
pub use asked::Asked;
pub use links::link_met;

//! Writes what was expected in a row of a script that is refused, in place of the token at fault.
#![tactic(auto)]

mod calls;
mod fits;
mod form;
pub mod given;
pub mod misfit;
pub mod refused_row;
pub mod slot;

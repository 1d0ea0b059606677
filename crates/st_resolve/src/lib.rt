//! How names are resolved in the modelled file tree: a walk over the components of a text, which asks for a look at one name after
//! another and goes on by what was seen.
#![tactic(auto)]

mod cursor;
mod remaining;
pub mod walk;

pub use walk::{Walk, WalkFault, WalkStep, first_step};

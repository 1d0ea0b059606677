//! Which threads an entry may wake, so that the others needn't be asked again whether they can move.
#![tactic(auto)]

pub mod waking;

pub use waking::{Woken, woken_by};

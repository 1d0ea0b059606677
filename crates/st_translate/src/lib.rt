//! How the arguments of a call become texts: names, texts, addresses and argument vectors, which are copied word by word from a
//! process's memory, and the arguments whose value is in a register.
#![tactic(auto)]

mod address;
mod buffer;
pub mod copying;
mod register;
mod stage;

pub use copying::{Copying, Took};
pub use register::plain_text;

//! Keeps what was copied and seen for each message under way: the words of its arguments, the answers to the looks at their names, and what
//! it needs next.
#![tactic(auto)]

pub mod head;
mod need;
mod part;
pub mod slot;
pub mod slots;

pub use head::{Head, NewNumber, Renewal};
pub use slot::{Next, Slot};
pub use slots::Slots;

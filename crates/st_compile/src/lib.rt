//! Compiles policies: what a held call's filters say, and the kernel's own answers, are found without searching the policies.
#![tactic(auto)]

mod argument;
mod asked;
pub mod compiled;
mod expr;
mod filter;
mod index;
mod own_answers;
mod passing;
pub mod places;
mod policy;
mod rule;
pub mod table;

pub use asked::asked_text;
pub use compiled::Compiled;
pub use own_answers::OwnAnswers;
pub use places::Places;
pub use table::FastTable;

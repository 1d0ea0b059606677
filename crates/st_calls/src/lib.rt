//! The system calls of the model, the rules by which policies name them, and the arguments that policies judge.
#![tactic(auto)]

pub mod argument;
pub mod call;
pub mod emulation;
pub mod flags;
pub mod index;
pub mod judged;
pub mod rule;

pub use argument::{ArgSpec, ArgText, Label, PartKind, args_of};
pub use call::{SysCall, follows};
pub use emulation::{emulation_prefix, emulation_word};
pub use flags::{
    O_ACCMODE, O_APPEND, O_CREAT, O_EXCL, O_RDONLY, O_RDWR, O_TRUNC, O_WRONLY, has_flag,
};
pub use index::append_index;
pub use judged::{Snapshot, Verdict};
pub use rule::{FastAnswer, RULES, Rule};

//! Basic types that all crates share, such as errors, ids, texts, lists and shared values, and the reading of numbers.
#![tactic(auto)]

pub mod errno;
pub mod ids;
pub mod number;
pub mod sequence;
pub mod shared;
pub mod text;

pub use errno::Errno;
pub use ids::{Drawing, Ids, Obj, Pid, Seq, Space, Tid, Worker};
pub use sequence::Sequence;
pub use shared::Shared;
pub use text::{Text, is_same_text};

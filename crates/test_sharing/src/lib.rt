//! Lists the types that threads may share: all of those by which a run is made, up to the kernel. That this crate compiles and is proved
//! is the test.
#![tactic(auto)]

pub mod kernels;
pub mod mediation;
pub mod policies;
pub mod runs;
pub mod system;

// Compiles for a type whose values may move between threads and be shared by them.
fn is_shareable<T: Send + Sync>() {}

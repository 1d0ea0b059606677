//! Walks to names, name resolution over the tree, and the calls on the object of a name: each as its definition says.
#![tactic(auto)]

mod directory;
mod execution;
mod looks;
mod permission;
mod resolution;
pub mod walking;

pub use directory::chdir;
pub use execution::execve;
pub use looks::{readlink, stat};
pub use permission::{access, chmod, chown};
pub use resolution::resolve;

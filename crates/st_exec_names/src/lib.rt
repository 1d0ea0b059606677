//! The calls that add, move and remove names, made over the real tree: each as its definition says.
#![tactic(auto)]

mod entries;
mod making;
mod renaming;

pub use entries::{rmdir, unlink};
pub use making::{link, make_object, mkdir, owned_node, symlink};
pub use renaming::rename;

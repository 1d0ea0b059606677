//! The modelled file tree: directories, files and symbolic links as objects under names.
#![tactic(auto)]

mod content;
pub mod laws;
pub mod object;
mod places;
mod table;
pub mod tree;

pub use laws::{one_name_changes, rename_moves_names_below};
pub use object::Node;
pub use places::is_proper_prefix;
pub use st_model::{Kind, NewKind, NewNode, Want};
pub use tree::{Tree, TreeFault};

//! The modelled system as plain data: memory, descriptors and ports, the file tree, permission, processes, name resolution and the
//! spelling of arguments. The crates that keep these data at run time are proved to behave as defined here.
#![tactic(auto)]

pub mod limits;
pub mod object;
pub mod open_file;
pub mod permission;
pub mod tree;
pub mod walk;

pub use limits::{
    ARGV_BYTES, ARGV_PARTS, LONGEST_FILE, LONGEST_TEXT, MOST_LINKS, MOST_OBJECTS, SPACE_BYTES,
    SPACE_WORDS,
};
pub use object::{Kind, NewKind, NewNode};
pub use open_file::{DESCRIPTORS, FileKind, OpenFile};
pub use permission::{Permission, Want};
pub use tree::a_tree_is_a_map;
pub use walk::{a_resolution_ends, a_walk_asks_in_order};

//! Absolute names in the modelled file tree, the components of a text, and the results of looks at names.
#![tactic(auto)]

pub mod limits;
pub mod name;
pub mod parts;
pub mod seen;

pub use limits::{LONGEST_NAME, LONGEST_PART};
pub use name::{AbsName, NameParts, first_slash};
pub use parts::{NameFault, SlashParts, components, has_long_part, is_component, split_at_slashes};
pub use seen::{Seen, SeenText};

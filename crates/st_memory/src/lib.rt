//! The memories of modelled processes: spaces of pages, shared by copies and read and written by words and by bytes.
#![tactic(auto)]

mod page;
pub mod spaces;
mod table;

pub use page::{PAGE_BYTES, PAGE_WORDS};
pub use spaces::{MemFault, Spaces};
pub use st_model::{SPACE_BYTES, SPACE_WORDS};
pub use table::SPACE_PAGES;

//! Requests and outcomes of calls: who makes a call, with which arguments, over which system, and what it returns and changes.
#![tactic(auto)]

mod laws;
mod memory;
pub mod outcome;
pub mod request;
mod want_of_memory;

pub use laws::{a_system_has_its_parts, open_files_stay_real, the_same_processes_live};
pub use memory::put_bytes;
pub use outcome::Outcome;
pub use request::Request;
pub use want_of_memory::unrefused;

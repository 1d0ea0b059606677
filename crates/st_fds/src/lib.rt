//! The file descriptors of modelled processes: shared open files, and the ports that sockets hold.
#![tactic(auto)]

pub mod fds;
pub mod laws;
mod places;

pub use fds::{FdFault, Fds};
pub use laws::open_files_are_shared;

//! The calls on processes, ids and sockets, made over the real descriptors, processes and memories: each as its definition says.
#![tactic(auto)]

mod execution;
mod forking;
mod identity;
mod laws;
mod signals;
mod sockets;

pub use execution::execute_sys;
pub use forking::fork;
pub use identity::{geteuid, getpid, getuid, set_ids};
pub use laws::addresses_have_ports;
pub use signals::{exit, kill};
pub use sockets::{bind, connect, port_in, socket};

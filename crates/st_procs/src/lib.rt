//! The table of modelled processes and threads: who a process is, its directory and memory, which policy applies to it, and when it
//! ends.
#![tactic(auto)]

mod identity;
pub mod laws;
pub mod procs;
mod rows;
mod threads;

pub use identity::ids_after;
pub use laws::rows_stay_apart;
pub use procs::Procs;
pub use rows::ProcRow;

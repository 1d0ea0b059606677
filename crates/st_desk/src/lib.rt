//! A run that runners take in turns, and the runners of bodies, of workers and of the operator.
#![tactic(auto)]

pub mod bodies;
pub mod desk;
pub mod gate;
pub mod monitor;
pub mod runners;
pub mod servers;
pub mod turns;

pub use bodies::{run_bodies, run_body};
pub use desk::{BodyTurn, ClaimTurn, Desk, WorkerTurn};
pub use gate::{Gate, OpenGate};
pub use monitor::Monitor;
pub use runners::{OPERATOR, Runners, runner_of_worker};
pub use servers::{run_operator, run_worker, serve};
pub use turns::Turns;

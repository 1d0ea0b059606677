// What runners share.
use crate::gate::Gate;
use crate::turns::Turns;
use st_base::Worker;
use st_calls::Snapshot;
use st_recorded::Run;
use std::sync::Wait;

/// What runners take turns at, and how they judge.
pub trait Monitor<Q: Run + Drop> {
    /// What runners take turns at.
    fn turns(&self) -> &Turns<Q>;

    /// Judges the copies of a worker with no lock held, and answers. Nothing is claimed of when it returns.
    fn judge<G: Gate, T: Wait>(
        &self,
        rt: &T,
        worker: Worker,
        gate: &G,
        copies: st_base::Shared<Snapshot>,
    );
}

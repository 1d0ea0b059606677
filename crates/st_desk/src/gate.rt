// Where runners can be held up while they judge.
use st_base::{Seq, Worker};
use std::sync::Wait;

/// What a runner passes while it judges. Nothing is claimed of a gate.
pub trait Gate {
    /// Called after the copies of a call were taken and before they are judged, with no lock held.
    fn pass<T: Wait>(&self, rt: &T, worker: Worker, seq: Seq);

    /// Called after the answer, with no lock held.
    fn done<T: Wait>(&self, rt: &T, worker: Worker, seq: Seq);
}

/// A gate that holds nobody up.
#[derive(Debug, Drop)]
pub struct OpenGate;

impl Gate for OpenGate {
    fn pass<T: Wait>(&self, _rt: &T, _worker: Worker, _seq: Seq) {}

    fn done<T: Wait>(&self, _rt: &T, _worker: Worker, _seq: Seq) {}
}

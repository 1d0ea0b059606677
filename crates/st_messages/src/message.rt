use st_base::{Drawing, Errno, Seq, Tid, Worker};
use st_calls::Verdict;

/// How far a message has come.
#[derive(Clone, Copy, Debug, PartialEq, Eq)]
pub enum MsgState {
    /// No worker has claimed it.
    Waiting,
    /// This worker has claimed it.
    Claimed(Worker),
    /// It was answered with this verdict.
    Answered(Verdict),
    /// Copying or looking failed with this error.
    Faulted(Errno),
}

/// Whether an answer was applied.
#[derive(Clone, Copy, Debug, PartialEq, Eq)]
pub enum Delivered {
    /// The message has the answer.
    Applied,
    /// The answer came too late, and changed nothing.
    Stale,
}

/// A live message: the held call of a thread.
#[derive(Clone, Copy, Debug, PartialEq, Eq)]
pub struct Message {
    pub drawing: Drawing,
    pub seq: Seq,
    pub tid: Tid,
    pub state: MsgState,
}

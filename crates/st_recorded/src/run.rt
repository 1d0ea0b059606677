// What runners take turns at.
use crate::news::News;
use st_base::{Seq, Tid, Worker};
use st_kernel::Work;
use st_messages::Ticket;
use st_trace::Choice;
use std::alloc::Global;
use std::sync::Wait;

/// What a worker did with a ticket.
#[derive(Clone, Copy, Debug, PartialEq, Eq)]
pub enum TicketUse {
    /// The ticket's number isn't live, and the ticket was skipped.
    Skipped,
    /// No call was waiting, and the ticket is spent.
    Spent,
    /// The worker has claimed a call by it.
    Claimed,
}

/// A run that is made step by step. A step that runs out of memory stops it.
pub trait Run {
    /// Whether the script starts a thread of its own.
    fn starts(&self, tid: Tid) -> bool;

    /// Whether a choice is enabled.
    fn enabled(&self, choice: Choice) -> bool;

    /// The thread that holds the call of a number, if the number is live.
    fn holder(&self, seq: Seq) -> Option<Tid>;

    /// Whether memory ran out.
    fn is_stopped(&self) -> bool;

    /// What the last step means for runners that wait.
    fn news(&self) -> News;

    /// Makes a choice. Returns whether it was enabled.
    fn advance<T: Wait>(&mut self, rt: &T, alloc: Global, choice: Choice) -> bool;

    /// Moves a worker, unless it is ready.
    fn work<T: Wait>(&mut self, rt: &T, alloc: Global, worker: Worker) -> Work;

    /// Lets an idle worker claim a call by a ticket.
    fn use_ticket<T: Wait>(
        &mut self,
        rt: &T,
        alloc: Global,
        worker: Worker,
        ticket: Ticket,
    ) -> TicketUse;
}

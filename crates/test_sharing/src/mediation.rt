//! Calls under way, and the threads that make them.

use crate::is_shareable;
use st_lookaside::{Head, Next, Renewal, Slot, Slots};
use st_messages::message::Message;
use st_messages::{Delivered, Messages, MsgState, Poster, Taker, Ticket};
use st_report::{NoRecorder, Repeat, TraceRecorder};
use st_threads::{CallingThread, PendingCall, RenewalPlan, RenewedCalls, Thread, WhichCalls};
use st_workers::{Task, Turn, Workers};
use std::sync::Mutex;

/// Messages, slots and workers.
pub fn messages_are_shareable() {
    is_shareable::<Messages>();
    is_shareable::<Message>();
    is_shareable::<MsgState>();
    is_shareable::<Delivered>();
    is_shareable::<Slots>();
    is_shareable::<Slot>();
    is_shareable::<Head>();
    is_shareable::<Renewal>();
    is_shareable::<Next>();
    is_shareable::<Workers>();
    is_shareable::<Task>();
    is_shareable::<Turn>();
}

/// Tickets, and what posts and takes them, in turns.
pub fn tickets_are_shareable() {
    is_shareable::<Ticket>();
    is_shareable::<Mutex<Poster>>();
    is_shareable::<Mutex<Taker>>();
}

/// Threads, and what records their steps.
pub fn threads_are_shareable() {
    is_shareable::<Thread<'_>>();
    is_shareable::<PendingCall>();
    is_shareable::<CallingThread>();
    is_shareable::<WhichCalls<'_>>();
    is_shareable::<RenewedCalls<'_>>();
    is_shareable::<RenewalPlan>();
    is_shareable::<TraceRecorder>();
    is_shareable::<Repeat>();
    is_shareable::<NoRecorder>();
}

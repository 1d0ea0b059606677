use crossbeam_queue::RuledArrayQueue;
use crossbeam_queue::protocol::{Lesson, Outcome, Protocol, Split};
use st_base::Seq;
use std::collections::LinkedList;

/// A ticket for a worker: its place among all that were posted, from 1, and the number of a message.
#[derive(Clone, Copy, Debug, PartialEq, Eq)]
pub struct Ticket {
    pub place: u64,
    pub seq: Seq,
}

/// What a pass knows: whether it is the poster's, and the tickets that it posted or took. No value of it is made, nor of the rule and the
/// steps below: they are for the proofs alone.
pub struct TicketList {
    pub posts: bool,
    pub tickets: LinkedList<Ticket>,
}

/// The rule of the queue.
pub struct InOrder;

impl Protocol<Ticket, TicketList> for InOrder {
    ghost use Rattle.std.specs.Prelude.{[]};
    ghost use Rattle.st_messages.specs.Tickets.{posted_list, AreTickets};

    ghost holds = { AreTickets };

    ghost first = { posted_list [] };
}

/// A taker's pass is made of the poster's.
pub struct NewTaker;

impl Split<TicketList> for NewTaker {
    ghost use Rattle.std.specs.Prelude.{[]};
    ghost use Rattle.st_messages.specs.Tickets.{taken_list};

    ghost left = { λ list. list };

    ghost right = { λ list. taken_list [] };
}

/// What a push tells the poster.
pub struct Posts;

impl Outcome<Ticket, TicketList> for Posts {
    ghost use Rattle.st_messages.specs.Tickets.{IsPosted};

    ghost then = { IsPosted };
}

impl Lesson<Ticket, TicketList> for Posts {
    ghost use Rattle.st_messages.specs.Tickets.{HasAtMost};

    ghost fact = { HasAtMost };
}

/// What a pop tells a taker.
pub struct Takes;

impl Outcome<Ticket, TicketList> for Takes {
    ghost use Rattle.st_messages.specs.Tickets.{IsTaken};

    ghost then = { IsTaken };
}

impl Lesson<Ticket, TicketList> for Takes {
    ghost use Rattle.st_messages.specs.Tickets.{HadQueue};

    ghost fact = { HadQueue };
}

/// The queue of tickets under this rule.
pub type TicketQueue = RuledArrayQueue<Ticket, TicketList, InOrder>;

ghost use Rattle.std.specs.Prelude.{◌≡◌, ◌<◌, ◌≤◌, List, [], ◌∷◌, length, replicate, All, IfOk, IfSome, IfNone};
ghost use Rattle.crossbeam_queue.specs.Passes.{IsSamePass, IsPassOf};
ghost use Rattle.st_messages.specs.declared.ticket.Ticket.{Ticket};
ghost use Rattle.st_messages.specs.Tickets.{after_posting, after_taking, list_of, posted_list, taken_list, took_nothing, HadQueue, IsBefore};

use crate::ticket::{NewTaker, Posts, Takes, Ticket, TicketList, TicketQueue};
use crossbeam_queue::Pass;
use st_base::{Seq, Shared};
use std::alloc::{AllocError, Global};
use std::marker::Model;
use std::sync::Wait;

/// Posts tickets, each with the next place, into the queue of which it is the only poster. Contracts see what it posted.
pub struct Poster {
    queue: Shared<TicketQueue>,
    pass: Pass<Ticket, TicketList>,
    capacity: u32,
    posted: u64,
}

impl Drop for Poster {
    fn drop(self) {
        let Self {
            queue: _,
            pass: _,
            capacity: _,
            posted: _,
        } = self;
    }
}

impl Model for Poster {
    ghost use Rattle.std.specs.Prelude.{◌≡◌, length};
    ghost use Rattle.crossbeam_queue.specs.Passes.{IsPassOf, ruled_capacity};
    ghost use Rattle.st_messages.specs.Tickets.{list_of, posted_list, PostedTickets};

    ghost Value = { PostedTickets };

    ghost view = { λ p. record { queue = p.queue.table.shared.table_id; capacity = p.capacity; tickets = (list_of p.pass).tickets } };

    ghost invariant = { λ p. IsPassOf p.queue p.pass × (list_of p.pass ≡ posted_list (list_of p.pass).tickets) × (ruled_capacity p.queue ≡ p.capacity) × (p.posted ≡ length (list_of p.pass).tickets) };
}

impl Poster {
    /// How many tickets were posted.
    pub fn posted(&self) -> u64
        ensures { result ≡ length self.now.tickets }
    {
        self.posted
    }

    /// Posts a ticket with the next place and this number. It takes no memory, but may wait inside the queue.
    pub fn post<R: Wait>(&mut self, rt: &R, seq: Seq)
        requires { length self.old.tickets < self.old.capacity }
        ensures { self.new ≡ after_posting self.old seq }
    {
        let ticket = Ticket {
            place: self.posted + 1,
            seq,
        };
        match self
            .queue
            .get()
            .push_as::<Posts, R>(rt, &mut self.pass, ticket)
        {
            Ok(()) => self.posted += 1,
            Err(_) => unreachable!(),
        }
    }
}

/// Takes tickets out of the queue, which it shares with the poster and the other takers. Contracts see what it took.
pub struct Taker {
    queue: Shared<TicketQueue>,
    pass: Pass<Ticket, TicketList>,
}

impl Drop for Taker {
    fn drop(self) {
        let Self { queue: _, pass: _ } = self;
    }
}

impl Model for Taker {
    ghost use Rattle.std.specs.Prelude.{◌≡◌};
    ghost use Rattle.crossbeam_queue.specs.Passes.{IsPassOf};
    ghost use Rattle.st_messages.specs.Tickets.{list_of, taken_list, TakenTickets};

    ghost Value = { TakenTickets };

    ghost view = { λ t. record { queue = t.queue.table.shared.table_id; tickets = (list_of t.pass).tickets } };

    ghost invariant = { λ t. IsPassOf t.queue t.pass × (list_of t.pass ≡ taken_list (list_of t.pass).tickets) };
}

impl Taker {
    // A taker with the queue of the poster that has this pass.
    fn new(
        queue: &Shared<TicketQueue>,
        pass: &mut Pass<Ticket, TicketList>,
    ) -> Result<Taker, AllocError>
        requires queue { IsPassOf queue.now pass.old }
        requires poster { list_of pass.old ≡ posted_list (list_of pass.old).tickets }
        ensures queue { IsSamePass pass.old pass.new }
        ensures poster { list_of pass.new ≡ list_of pass.old }
        ensures taker { IfOk result (λ taker. taker ≡ took_nothing queue.now.table.shared.table_id) }
    {
        let queue = queue.share()?;
        let pass = queue.get().another::<NewTaker>(pass);
        Ok(Taker { queue, pass })
    }

    /// Takes the first ticket of the queue; none only if the queue was empty at a moment of this call. It takes no memory, but may wait
    /// inside the queue.
    pub fn take<R: Wait>(&mut self, rt: &R) -> Option<Ticket>
        ensures none { IfNone result (self.new ≡ self.old) }
        ensures empty { IfNone result (HadQueue (taken_list self.old.tickets) []) }
        ensures some { IfSome result (λ ticket. self.new ≡ after_taking self.old ticket) }
        ensures first { IfSome result (λ ticket. (later : List Ticket) × HadQueue (taken_list self.old.tickets) (ticket ∷ later)) }
        ensures place { IfSome result (λ ticket. All (λ earlier. IsBefore earlier ticket) self.old.tickets) }
    {
        self.queue.get().pop_as::<Takes, R>(rt, &mut self.pass)
    }
}

// So many takers with the queue of the poster that has this pass.
fn takers_of(
    alloc: Global,
    queue: &Shared<TicketQueue>,
    pass: &mut Pass<Ticket, TicketList>,
    count: u32,
) -> Result<Vec<Taker>, AllocError>
    requires queue { IsPassOf queue.now pass.old }
    requires poster { list_of pass.old ≡ posted_list (list_of pass.old).tickets }
    ensures queue { IsSamePass pass.old pass.new }
    ensures poster { list_of pass.new ≡ list_of pass.old }
    ensures takers { IfOk result (λ takers. takers.items ≡ replicate count (took_nothing queue.now.table.shared.table_id)) }
{
    let mut takers = Vec::with_capacity(alloc, count as usize)?;
    for _ in 0..count {
        takers.push_reserved(Taker::new(queue, pass)?);
    }
    Ok(takers)
}

/// The poster and the takers of a new queue, which has room for so many tickets.
pub fn tickets(
    alloc: Global,
    capacity: u32,
    takers: u32,
) -> Result<(Poster, Vec<Taker>), AllocError>
    requires capacity { 1 ≤ capacity }
    requires takers { 1 ≤ takers }
    ensures capacity { IfOk result (λ made. made.0.capacity ≡ capacity) }
    ensures poster { IfOk result (λ made. made.0.tickets ≡ []) }
    ensures takers { IfOk result (λ made. made.1.items ≡ replicate takers (took_nothing made.0.queue)) }
{
    let (queue, mut pass) = TicketQueue::ruled(alloc, capacity as usize)?;
    let queue = Shared::new(alloc, queue)?;
    let takers = takers_of(alloc, &queue, &mut pass, takers)?;
    let poster = Poster {
        queue,
        pass,
        capacity,
        posted: 0,
    };
    Ok((poster, takers))
}

// The poster and the takers of a run, and what the poster posts.
ghost use Rattle.std.specs.Prelude.{◌≡◌, ◌≤◌, ◌-◌, ◌++◌, [], IfOk, length};
ghost use Rattle.st_law.specs.Inputs.{IsStartable};
ghost use Rattle.st_kernel.specs.Kernel.{state_in};
ghost use Rattle.st_reached.specs.Reached.{most_numbers};
ghost use Rattle.st_recorded.specs.Tickets.{new_takers, tickets_after};

use st_kernel::Kernel;
use st_messages::{Poster, Taker, tickets};
use std::alloc::{AllocError, Global};
use std::sync::Wait;

/// A poster with room for all tickets of the run of a kernel, and a taker of its queue for each of its workers, or one if there is none.
pub fn tickets_for(alloc: Global, kernel: &Kernel<'_>) -> Result<(Poster, Vec<Taker>), AllocError>
    ensures room { IfOk result (λ made. most_numbers kernel.now.input ≤ made.0.capacity) }
    ensures none { IfOk result (λ made. made.0.tickets ≡ []) }
    ensures takers { IfOk result (λ made. made.1.items ≡ new_takers kernel.now.input made.0.queue) }
{
    let capacity = kernel.most_messages().max(1);
    let workers = kernel.input().options.workers.max(1);
    tickets(alloc, capacity, workers)
}

/// Posts a ticket for each drawing that the run of a kernel has made since the last was posted.
pub fn catch_up<T: Wait>(rt: &T, poster: &mut Poster, kernel: &Kernel<'_>)
    requires room { most_numbers kernel.now.input ≤ poster.old.capacity }
    requires count { length poster.old.tickets ≤ (state_in kernel.now).posted }
    ensures room { most_numbers kernel.now.input ≤ poster.new.capacity }
    ensures queue { poster.new.queue ≡ poster.old.queue }
    ensures startable { IsStartable kernel.now.input }
    ensures posted { poster.new.tickets ≡ poster.old.tickets ++ tickets_after kernel.now (length poster.old.tickets) ((state_in kernel.now).posted - length poster.old.tickets) }
{
    let drawings = kernel.drawings();
    while poster.posted() < drawings {
        let seq = kernel.seq(poster.posted() + 1);
        poster.post(rt, seq.unwrap_or(0));
    }
}

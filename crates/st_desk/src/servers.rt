// The runners of workers and of the operator.
ghost use Rattle.std.specs.Prelude.{◌≡◌};
ghost use Rattle.st_messages.specs.Tickets.{took_nothing};

use crate::desk::{ClaimTurn, WorkerTurn};
use crate::gate::Gate;
use crate::monitor::Monitor;
use st_base::Worker;
use st_messages::Taker;
use st_recorded::{Run, RunName};
use std::sync::Wait;

/// Serves the call that a worker has claimed, until the worker is idle.
pub fn serve<Q: Run + Drop, M: Monitor<Q>, G: Gate, T: Wait>(
    rt: &T,
    shared: &M,
    worker: Worker,
    gate: &G,
) {
    for _ in rt.forever() {
        match shared.turns().work(rt, worker) {
            WorkerTurn::Went => {}
            WorkerTurn::Judge(copies) => {
                shared.judge(rt, worker, gate, copies);
                return;
            }
            WorkerTurn::Over => return,
        }
    }
}

// Runs a worker until every body has ended: it serves call after call. The taker takes its tickets without the lock.
fn run_with<Q: Run + Drop, M: Monitor<Q>, G: Gate, T: Wait>(
    rt: &T,
    shared: &M,
    worker: Worker,
    gate: &G,
    taker: Taker,
) {
    let mut taker = taker;
    let mut ticket = None;
    shared.turns().await_turn(rt, worker);
    for _ in rt.forever() {
        if ticket.is_none() {
            ticket = taker.take(rt);
        }
        match shared.turns().worker_claims(rt, worker, ticket) {
            ClaimTurn::Serves => {
                ticket = None;
                serve::<Q, M, G, T>(rt, shared, worker, gate);
            }
            ClaimTurn::Went => ticket = None,
            ClaimTurn::Sleeps => shared.turns().await_turn(rt, worker),
            ClaimTurn::Over => return,
        }
    }
}

/// Runs a worker of the run that `N` names, with a taker of its queue, until every body has ended.
pub fn run_worker<N: RunName, Q: Run + Drop, M: Monitor<Q>, G: Gate, T: Wait>(
    rt: &T,
    shared: &M,
    worker: Worker,
    gate: &G,
    taker: Taker,
)
    requires { taker ≡ took_nothing N.queue }
{
    run_with::<Q, M, G, T>(rt, shared, worker, gate, taker);
}

/// Runs the operator until every body has ended.
pub fn run_operator<Q: Run + Drop, M: Monitor<Q>, T: Wait>(rt: &T, shared: &M) {
    for _ in rt.forever() {
        if !shared.turns().operator_turn(rt) {
            return;
        }
    }
}

// The runners of bodies.
ghost use Rattle.std.specs.Thread.{IsSend, IsSync};

use crate::desk::BodyTurn;
use crate::gate::Gate;
use crate::monitor::Monitor;
use crate::servers::serve;
use st_base::Tid;
use st_recorded::Run;
use std::sync::Wait;
use std::thread::{Threads, join};

/// Runs the body of a thread to its end. From the call by which it starts another thread on, its rest and the other's body run by join,
/// both with a depth of one less. At depth 0 it returns at once, and what is left is done when the run is finished.
pub fn run_body<
    Q: Run + Drop + Send,
    M: Monitor<Q> + Sync,
    G: Gate + Sync,
    T: Threads + Wait + Sync,
>(rt: &T, shared: &M, tid: Tid, gate: &G, depth: u32) {
    if depth == 0 {
        return;
    }
    for _ in rt.forever() {
        match shared.turns().body_turn(rt, tid) {
            BodyTurn::Went => {}
            BodyTurn::Serves(worker) => serve::<Q, M, G, T>(rt, shared, worker, gate),
            BodyTurn::Over => return,
            BodyTurn::Forked(child) => {
                let depth = depth - 1;
                join(
                    rt,
                    ||
                        requires { IsSync T.row × IsSync G.row × IsSync M.row × IsSend Q.row }
                    { run_body::<Q, M, G, T>(rt, shared, tid, gate, depth) },
                    ||
                        requires { IsSync T.row × IsSync G.row × IsSync M.row × IsSend Q.row }
                    { run_body::<Q, M, G, T>(rt, shared, child, gate, depth) },
                );
                return;
            }
        }
    }
}

/// Runs the bodies of the threads from a number on that the script starts, so many of them at most.
pub fn run_bodies<
    Q: Run + Drop + Send,
    M: Monitor<Q> + Sync,
    G: Gate + Sync,
    T: Threads + Wait + Sync,
>(rt: &T, shared: &M, gate: &G, first: Tid, left: u32) {
    if left == 0 {
        return;
    }
    let left = left - 1;
    let next = first.wrapping_add(1);
    if !shared.turns().starts(rt, first) {
        run_bodies::<Q, M, G, T>(rt, shared, gate, next, left);
        return;
    }
    join(
        rt,
        ||
            requires { IsSync T.row × IsSync G.row × IsSync M.row × IsSend Q.row }
        { run_bodies::<Q, M, G, T>(rt, shared, gate, next, left) },
        ||
            requires { IsSync T.row × IsSync G.row × IsSync M.row × IsSend Q.row }
        { run_body::<Q, M, G, T>(rt, shared, first, gate, DEPTH) },
    );
}

// How often a body may start threads whose bodies start threads, in a row. A script has fewer threads.
const DEPTH: u32 = 64;

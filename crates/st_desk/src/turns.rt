// The lock, and the conditions that runners wait on.
use crate::desk::{BodyTurn, ClaimTurn, Desk, WorkerTurn};
use crate::runners::{OPERATOR, Runners, runner_of_worker};
use st_base::{Seq, Tid, Worker};
use st_messages::Ticket;
use st_recorded::Run;
use std::alloc::{AllocError, Global};
use std::sync::{Condvar, Mutex, MutexGuard, Wait};

/// A desk that runners take in turns. Each call of a turn takes the lock once, and lets go before it returns. Nothing is claimed of when a
/// call returns.
#[derive(Drop)]
pub struct Turns<Q: Run + Drop> {
    desk: Mutex<Desk<Q>>,
    // What each runner waits on, by its index.
    conditions: Vec<Condvar>,
    alloc: Global,
    threads: usize,
}

// So many conditions.
fn new_conditions(alloc: Global, count: usize) -> Result<Vec<Condvar>, AllocError> {
    let mut conditions = Vec::new(alloc);
    for _ in 0..count {
        conditions.push(Condvar::new())?;
    }
    Ok(conditions)
}

impl<Q: Run + Drop> Turns<Q> {
    /// A run of so many threads and workers that no runner has taken a turn of.
    pub fn new(
        alloc: Global,
        run: Q,
        threads: usize,
        workers: u32,
    ) -> Result<Turns<Q>, AllocError> {
        let runners = Runners::new(alloc, threads, workers)?;
        let conditions = new_conditions(alloc, runners.len())?;
        Ok(Turns {
            desk: Mutex::new(Desk::new(run, runners)),
            conditions,
            alloc,
            threads,
        })
    }

    /// The run, as its runners have left it.
    pub fn into_run(self) -> Q {
        let Self { desk, .. } = self;
        desk.into_inner().into_run()
    }

    /// What new memory is taken from.
    pub fn alloc(&self) -> Global {
        self.alloc
    }

    /// Takes the lock, for an answer.
    pub fn lock<'b, T: Wait>(&'b self, rt: &T) -> MutexGuard<'b, Desk<Q>> {
        self.desk.lock(rt)
    }

    // Takes the lock, and then waits until it is the runner's turn.
    fn begin_turn<'b, T: Wait>(&'b self, rt: &T, runner: usize) -> MutexGuard<'b, Desk<Q>> {
        let mut guard = self.desk.lock(rt);
        guard.begin(runner);
        match self.conditions.as_slice().get(runner) {
            Some(condition) => condition.wait_while(rt, guard, |desk| desk.waits(runner)),
            None => guard,
        }
    }

    // Lets go of the lock, and then wakes the runner that is to take the next turn, if that one waits. It wakes one more in its turn.
    fn end_turn(&self, guard: MutexGuard<'_, Desk<Q>>) {
        let mut guard = guard;
        let next = guard.end_turn();
        drop(guard);
        if let Some(runner) = next {
            if let Some(condition) = self.conditions.as_slice().get(runner) {
                condition.notify_one();
            }
        }
    }

    /// Ends a turn in which a runner answered under the number of a worker. The operator is asked if no filter has decided.
    pub fn end_answer(
        &self,
        guard: MutexGuard<'_, Desk<Q>>,
        worker: Worker,
        seq: Seq,
        is_unmatched: bool,
    ) {
        let mut guard = guard;
        guard.after_answer(worker, seq, is_unmatched);
        self.end_turn(guard);
    }

    /// Whether the script starts a thread of its own.
    pub fn starts<T: Wait>(&self, rt: &T, tid: Tid) -> bool {
        self.desk.lock(rt).starts(tid)
    }

    /// A turn of a body, as soon as it can do something.
    pub fn body_turn<T: Wait>(&self, rt: &T, tid: Tid) -> BodyTurn {
        let mut guard = self.begin_turn(rt, tid as usize);
        let turn = guard.body_turn(rt, self.alloc, tid);
        self.end_turn(guard);
        turn
    }

    /// Waits until the runner of a worker can take a turn.
    pub fn await_turn<T: Wait>(&self, rt: &T, worker: Worker) {
        drop(self.begin_turn(rt, runner_of_worker(self.threads, worker)));
    }

    /// Lets a worker claim a call by a ticket, if its runner has one.
    pub fn worker_claims<T: Wait>(
        &self,
        rt: &T,
        worker: Worker,
        ticket: Option<Ticket>,
    ) -> ClaimTurn {
        let mut guard = self.desk.lock(rt);
        let turn = guard.worker_claims(rt, self.alloc, worker, ticket);
        self.end_turn(guard);
        turn
    }

    /// A step of a worker that its runner serves.
    pub fn work<T: Wait>(&self, rt: &T, worker: Worker) -> WorkerTurn {
        let mut guard = self.desk.lock(rt);
        let turn = guard.work(rt, self.alloc, worker);
        self.end_turn(guard);
        turn
    }

    /// A turn of the operator, as soon as there is a question. Returns whether its runner goes on.
    pub fn operator_turn<T: Wait>(&self, rt: &T) -> bool {
        let mut guard = self.begin_turn(rt, OPERATOR);
        let goes_on = guard.operator_turn(rt, self.alloc);
        self.end_turn(guard);
        goes_on
    }

    /// Notes that every body has ended, and wakes the other runners.
    pub fn close<T: Wait>(&self, rt: &T) {
        let mut guard = self.desk.lock(rt);
        guard.close();
        self.end_turn(guard);
    }
}

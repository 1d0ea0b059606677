// What lies under the lock: a run, and which of its runners wait.
use crate::runners::{OPERATOR, Runners, Sleepers};
use st_base::{Seq, Tid, Worker};
use st_calls::Snapshot;
use st_kernel::Work;
use st_messages::Ticket;
use st_recorded::{News, Run, TicketUse};
use st_trace::Choice;
use std::alloc::Global;
use std::sync::Wait;

/// A run that runners take in turns.
///
/// A runner sleeps only if it can't go on, and a body only if some runner serves a call, so that somebody is awake as long as anybody sleeps.
/// A body whose thread can't move claims a call that no worker has claimed before it sleeps; the runner of a worker claims by tickets. If
/// another call waits then, and a worker is idle, a runner is woken that can claim it: so too when a call is waiting again, when a body
/// returns, and when the runner of a worker finds no ticket. A body is woken when its thread can move: when its call is answered or blocked
/// by a fault, when the operator has answered, and when its process runs another binary or dies. When nobody serves a call and none is
/// waiting, all bodies are woken. The operator is woken when there is a question.
#[derive(Drop)]
pub struct Desk<Q: Run + Drop> {
    run: Q,
    // Whether every body has ended.
    over: bool,
    // Whether there may be a question.
    may_ask: bool,
    runners: Runners,
    // Who can go on after this turn, beside those that were named.
    woken: Sleepers,
}

/// What a body did with its turn.
#[derive(Clone, Copy)]
pub enum BodyTurn {
    /// It isn't at its end. It may have to wait for its next turn.
    Went,
    /// It started the thread of this number.
    Forked(Tid),
    /// It serves a call under the number of this worker, which was idle.
    Serves(Worker),
    /// Its thread has ended, or the run is stopped.
    Over,
}

/// What the runner of a worker did with its turn and its ticket.
#[derive(Clone, Copy)]
pub enum ClaimTurn {
    /// It serves the call that its worker has claimed, and its ticket is spent.
    Serves,
    /// Its ticket is skipped or spent, and it takes the next one.
    Went,
    /// It sleeps. If it has a ticket, it keeps it.
    Sleeps,
    /// It returns: every body has ended, or the run is stopped.
    Over,
}

/// What the runner that serves a worker did with its turn.
#[derive(Drop)]
pub enum WorkerTurn {
    /// The worker is still at its call.
    Went,
    /// The worker is ready with these copies.
    Judge(st_base::Shared<Snapshot>),
    /// The worker is idle, or the run is stopped.
    Over,
}

impl<Q: Run + Drop> Desk<Q> {
    /// A run whose runners haven't begun.
    pub fn new(run: Q, runners: Runners) -> Desk<Q> {
        Desk {
            run,
            over: false,
            may_ask: true,
            runners,
            woken: Sleepers::Nobody,
        }
    }

    /// The run, as its runners have left it.
    pub fn into_run(self) -> Q {
        let Self { run, .. } = self;
        run
    }

    /// Whether the script starts a thread of its own.
    pub fn starts(&self, tid: Tid) -> bool {
        self.run.starts(tid)
    }

    /// Notes that every body has ended. The other runners are woken, and return.
    pub fn close(&mut self) {
        self.over = true;
        self.woken = Sleepers::Everybody;
    }

    /// Notes that a runner begins, if it was away.
    pub fn begin(&mut self, runner: usize) {
        self.runners.begin(runner);
    }

    /// Whether a runner waits.
    pub fn waits(&self, runner: usize) -> bool {
        self.runners.waits(runner)
    }

    /// Ends a turn. Returns the runner that is to take the next turn, if that one waits.
    pub fn end_turn(&mut self) -> Option<usize> {
        if self.run.is_stopped() {
            self.woken = Sleepers::Everybody;
        }
        match self.woken {
            Sleepers::Nobody => {}
            _ => self.wake_sleepers(),
        }
        self.runners.take_ready()
    }

    fn wake_sleepers(&mut self) {
        for runner in 0..self.runners.len() {
            if self.is_woken(runner) {
                self.runners.wake(runner);
            }
        }
        self.woken = Sleepers::Nobody;
    }

    fn is_woken(&self, runner: usize) -> bool {
        match self.woken {
            Sleepers::Nobody => false,
            Sleepers::Movable => { self.runners.is_body(runner) && self.can_move(runner) }
            Sleepers::Bodies => self.runners.is_body(runner),
            Sleepers::Everybody => true,
        }
    }

    // Whether the thread of this number can move.
    fn can_move(&self, tid: usize) -> bool {
        match u32::try_from(tid) {
            Ok(tid) => self.run.enabled(Choice::Thread(tid)),
            Err(_) => false,
        }
    }

    // The first worker that no runner serves, if it can claim a call.
    fn claimant(&self) -> Option<Worker> {
        let worker = self.runners.first_idle()?;
        if self.run.enabled(Choice::Worker(worker)) {
            Some(worker)
        } else {
            None
        }
    }

    // Wakes a runner if an idle worker can claim a call.
    fn wake_server(&mut self) {
        if let Some(worker) = self.claimant() {
            self.runners.wake_server(worker);
        }
    }

    // Wakes the operator if there is a question.
    fn wake_operator(&mut self) {
        if self.may_ask && self.run.enabled(Choice::Operator) {
            self.runners.wake(OPERATOR);
        }
    }

    /// Moves a thread. If it can't move, claims a call under the number of an idle worker, or answers a question. If there is neither, its
    /// runner sleeps until it is woken.
    pub fn body_turn<T: Wait>(&mut self, rt: &T, alloc: Global, tid: Tid) -> BodyTurn {
        if self.run.is_stopped() {
            return self.leave_body(tid);
        }
        match self.move_body(rt, alloc, tid) {
            Some(turn) => turn,
            None => self.find_work(rt, alloc, tid),
        }
    }

    // Makes the next step of a thread, if it can move.
    fn move_body<T: Wait>(&mut self, rt: &T, alloc: Global, tid: Tid) -> Option<BodyTurn> {
        if !self.run.advance(rt, alloc, Choice::Thread(tid)) {
            return None;
        }
        let news = self.run.news();
        if news.ended {
            return Some(self.leave_body(tid));
        }
        Some(self.after_step(tid, news))
    }

    // What a body does whose thread can't move.
    fn find_work<T: Wait>(&mut self, rt: &T, alloc: Global, tid: Tid) -> BodyTurn {
        if let Some(worker) = self.claim_any(rt, alloc) {
            return BodyTurn::Serves(worker);
        }
        if self.ask(rt, alloc) {
            return BodyTurn::Went;
        }
        self.rest_body(tid)
    }

    // What a body's step means for its runner, and for those that wait. A body that starts another begins again, since its runner and that of
    // the other may go on one after the other.
    fn after_step(&mut self, tid: Tid, news: News) -> BodyTurn {
        if news.may_end_threads {
            self.woken = Sleepers::Movable;
        }
        if news.renews {
            self.wake_server();
        }
        match news.started {
            Some(child) => {
                self.runners.end(tid as usize);
                BodyTurn::Forked(child)
            }
            None => BodyTurn::Went,
        }
    }

    // The runner of a body returns.
    fn leave_body(&mut self, tid: Tid) -> BodyTurn {
        self.runners.end(tid as usize);
        self.wake_server();
        BodyTurn::Over
    }

    // A body whose thread can't move, and that finds nothing else to do, sleeps. If nobody serves a call, nobody would wake it.
    fn rest_body(&mut self, tid: Tid) -> BodyTurn {
        if self.run.is_stopped() || !self.runners.is_any_served() {
            return self.leave_body(tid);
        }
        self.runners.sleep(tid as usize);
        BodyTurn::Went
    }

    // Lets the first idle worker claim a call. Returns it if it did.
    fn claim_any<T: Wait>(&mut self, rt: &T, alloc: Global) -> Option<Worker> {
        let worker = self.runners.first_idle()?;
        if self.claim(rt, alloc, worker) {
            Some(worker)
        } else {
            None
        }
    }

    // Lets an idle worker claim a call. Returns whether it did, and is to be served.
    fn claim<T: Wait>(&mut self, rt: &T, alloc: Global, worker: Worker) -> bool {
        if self.run.is_stopped() || matches!(self.run.work(rt, alloc, worker), Work::Idle) {
            return false;
        }
        self.begin_service(worker);
        true
    }

    // A runner serves a worker from now on.
    fn begin_service(&mut self, worker: Worker) {
        self.runners.note_served(worker, true);
        self.wake_server();
    }

    // Answers a question, if there is one.
    fn ask<T: Wait>(&mut self, rt: &T, alloc: Global) -> bool {
        if !self.may_ask || self.run.is_stopped() {
            return false;
        }
        self.may_ask = self.run.advance(rt, alloc, Choice::Operator);
        if self.may_ask {
            self.woken = Sleepers::Movable;
            self.wake_operator();
        }
        self.may_ask
    }

    // Whether a runner that isn't a body has to return: every body has ended, or memory ran out.
    fn is_closed(&self) -> bool {
        self.over || self.run.is_stopped()
    }

    /// Lets a worker claim a call by a ticket that its runner took. Without one the runner sleeps until it is woken, and so it does while
    /// another one serves the worker.
    pub fn worker_claims<T: Wait>(
        &mut self,
        rt: &T,
        alloc: Global,
        worker: Worker,
        ticket: Option<Ticket>,
    ) -> ClaimTurn {
        let runner = self.runners.of_worker(worker);
        if self.is_closed() {
            self.runners.end(runner);
            return ClaimTurn::Over;
        }
        if self.runners.is_served(worker) {
            self.runners.sleep(runner);
            return ClaimTurn::Sleeps;
        }
        match ticket {
            Some(ticket) => self.claim_by_ticket(rt, alloc, worker, ticket),
            None => self.rest_without_ticket(runner),
        }
    }

    fn claim_by_ticket<T: Wait>(
        &mut self,
        rt: &T,
        alloc: Global,
        worker: Worker,
        ticket: Ticket,
    ) -> ClaimTurn {
        match self.run.use_ticket(rt, alloc, worker, ticket) {
            TicketUse::Claimed => {
                self.begin_service(worker);
                ClaimTurn::Serves
            }
            TicketUse::Skipped | TicketUse::Spent => ClaimTurn::Went,
        }
    }

    // The runner of a worker sleeps. A call may be waiting all the same, if its ticket was used for one before it: then a body is woken, and
    // claims it without a ticket.
    fn rest_without_ticket(&mut self, runner: usize) -> ClaimTurn {
        if self.claimant().is_some() {
            self.runners.wake_body();
        }
        self.runners.sleep(runner);
        ClaimTurn::Sleeps
    }

    /// Makes the next step of a worker that its runner serves.
    pub fn work<T: Wait>(&mut self, rt: &T, alloc: Global, worker: Worker) -> WorkerTurn {
        if self.run.is_stopped() {
            return WorkerTurn::Over;
        }
        match self.run.work(rt, alloc, worker) {
            Work::Judge(copies) => WorkerTurn::Judge(copies),
            Work::Idle => self.rest_worker(worker),
            Work::Went => self.after_work(worker),
        }
    }

    // What a worker's step means for its runner, and for those that wait.
    fn after_work(&mut self, worker: Worker) -> WorkerTurn {
        match self.run.news().faulted {
            Some(seq) => {
                self.release(seq);
                self.rest_worker(worker)
            }
            None => WorkerTurn::Went,
        }
    }

    // Wakes the body whose call has this number.
    fn release(&mut self, seq: Seq) {
        if let Some(tid) = self.run.holder(seq) {
            self.runners.wake(tid as usize);
        }
    }

    // No runner serves a worker any more.
    fn rest_worker(&mut self, worker: Worker) -> WorkerTurn {
        self.runners.note_served(worker, false);
        if !self.runners.is_any_served() && self.claimant().is_none() {
            self.woken = Sleepers::Bodies;
        }
        WorkerTurn::Over
    }

    /// The run, in which a runner answers.
    pub fn run(&mut self) -> &mut Q {
        &mut self.run
    }

    /// What an answer under the number of a worker means for its runner, and for those that wait. The operator is asked if no filter has
    /// decided.
    pub fn after_answer(&mut self, worker: Worker, seq: Seq, is_unmatched: bool) {
        if is_unmatched {
            self.may_ask = true;
            self.wake_operator();
        }
        self.release(seq);
        self.rest_worker(worker);
    }

    /// Answers a question. If there is none, the operator's runner sleeps until it is woken. Returns whether it goes on.
    pub fn operator_turn<T: Wait>(&mut self, rt: &T, alloc: Global) -> bool {
        if self.is_closed() {
            self.runners.end(OPERATOR);
            return false;
        }
        if !self.ask(rt, alloc) {
            self.runners.sleep(OPERATOR);
        }
        true
    }
}

// Which runners wait, and which workers some runner serves.
use st_base::Worker;
use std::alloc::{AllocError, Global};

// What a runner is about.
#[derive(Clone, Copy, PartialEq, Eq)]
enum RunnerState {
    // It hasn't begun, or has returned.
    Away,
    // It takes turns.
    Awake,
    // It can go on, and waits for its place among those that are awake.
    Ready,
    // It can't go on, and waits until another runner finds that it can.
    Asleep,
}

/// The runners of a run.
///
/// At most one more than there are workers is awake at a time: that is enough, since a call is judged under the number of a worker, and so
/// one of them is always free to make a step. If all were awake, they would mostly wait for the lock.
#[derive(Drop)]
pub struct Runners {
    // The operator's is at index 0, that of thread t at index t, and after those of all threads come those of the workers, by number.
    states: Vec<RunnerState>,
    threads: usize,
    // Whether some runner serves a call under the number of a worker. Worker w is at index w.
    served: Vec<bool>,
    // How many are awake, and how many are ready.
    awake: usize,
    ready: usize,
    // The index after that of the runner that became awake last, so that each has its turn.
    next: usize,
}

/// The index of the operator's runner.
pub const OPERATOR: usize = 0;

/// The index of the runner of a worker, if there are so many threads.
pub fn runner_of_worker(threads: usize, worker: Worker) -> usize {
    threads.saturating_add(worker as usize)
}

impl Runners {
    /// Runners that haven't begun, of so many threads and workers.
    pub fn new(alloc: Global, threads: usize, workers: u32) -> Result<Runners, AllocError> {
        let count = runner_of_worker(threads, workers).saturating_add(1);
        Ok(Runners {
            states: vec![in alloc; RunnerState::Away; count]?,
            threads,
            served: vec![in alloc; false; workers as usize + 1]?,
            awake: 0,
            ready: 0,
            next: 0,
        })
    }

    /// How many there are.
    pub fn len(&self) -> usize {
        self.states.len()
    }

    /// The index of the runner of a worker.
    pub fn of_worker(&self, worker: Worker) -> usize {
        runner_of_worker(self.threads, worker)
    }

    /// Whether a runner waits.
    pub fn waits(&self, runner: usize) -> bool {
        matches!(self.state(runner), RunnerState::Ready | RunnerState::Asleep)
    }

    fn state(&self, runner: usize) -> RunnerState {
        if runner < self.states.len() {
            self.states[runner]
        } else {
            RunnerState::Away
        }
    }

    fn note(&mut self, runner: usize, state: RunnerState) {
        if runner < self.states.len() {
            self.states[runner] = state;
        }
    }

    // Whether one more runner may be awake.
    fn has_place(&self) -> bool {
        self.awake < self.served.len()
    }

    fn note_awake(&mut self, runner: usize) {
        self.note(runner, RunnerState::Awake);
        self.awake = self.awake.saturating_add(1);
        self.next = runner.saturating_add(1);
    }

    fn note_ready(&mut self, runner: usize) {
        self.note(runner, RunnerState::Ready);
        self.ready = self.ready.saturating_add(1);
    }

    /// Notes that a runner begins, if it was away.
    pub fn begin(&mut self, runner: usize) {
        if self.state(runner) != RunnerState::Away {
            return;
        }
        if self.has_place() {
            self.note_awake(runner);
        } else {
            self.note_ready(runner);
        }
    }

    fn leave(&mut self, runner: usize, state: RunnerState) {
        if self.state(runner) == RunnerState::Awake {
            self.note(runner, state);
            self.awake = self.awake.saturating_sub(1);
        }
    }

    /// Notes that a runner that is awake returns.
    pub fn end(&mut self, runner: usize) {
        self.leave(runner, RunnerState::Away);
    }

    /// Notes that a runner that is awake can't go on.
    pub fn sleep(&mut self, runner: usize) {
        self.leave(runner, RunnerState::Asleep);
    }

    /// Notes that a runner can go on, if it is asleep.
    pub fn wake(&mut self, runner: usize) {
        if self.state(runner) == RunnerState::Asleep {
            self.note_ready(runner);
        }
    }

    /// Notes that the next runner that is ready is awake, if there is a place. Returns it then.
    pub fn take_ready(&mut self) -> Option<usize> {
        if self.ready == 0 || !self.has_place() {
            return None;
        }
        let runner = self.next_ready()?;
        self.ready -= 1;
        self.note_awake(runner);
        Some(runner)
    }

    fn next_ready(&self) -> Option<usize> {
        match self.first(RunnerState::Ready, self.next, self.states.len()) {
            Some(runner) => Some(runner),
            None => self.first(RunnerState::Ready, 0, self.next),
        }
    }

    // The first runner in this state, among those from an index to before another.
    fn first(&self, state: RunnerState, from: usize, to: usize) -> Option<usize> {
        for runner in from..to {
            if self.state(runner) == state {
                return Some(runner);
            }
        }
        None
    }

    /// Notes that the runner of a worker, or that of some thread if the worker's isn't there, can claim a call.
    pub fn wake_server(&mut self, worker: Worker) {
        let runner = self.of_worker(worker);
        if self.state(runner) != RunnerState::Away {
            self.wake(runner);
        } else {
            self.wake_body();
        }
    }

    /// Notes that the runner of some thread can go on, if one is asleep.
    pub fn wake_body(&mut self) {
        let after = self.threads.saturating_add(1);
        if let Some(runner) = self.first(RunnerState::Asleep, 1, after) {
            self.wake(runner);
        }
    }

    /// Whether this is the runner of a thread.
    pub fn is_body(&self, runner: usize) -> bool {
        runner != OPERATOR && runner <= self.threads
    }

    /// The first worker that no runner serves.
    pub fn first_idle(&self) -> Option<Worker> {
        for worker in 1..self.served.len() {
            if !self.served[worker] {
                return u32::try_from(worker).ok();
            }
        }
        None
    }

    /// Whether some runner serves a worker. One that isn't there counts as served.
    pub fn is_served(&self, worker: Worker) -> bool {
        match self.served.as_slice().get(worker as usize) {
            Some(served) => *served,
            None => true,
        }
    }

    /// Whether some runner serves a worker.
    pub fn is_any_served(&self) -> bool {
        for served in self.served.as_slice() {
            if *served {
                return true;
            }
        }
        false
    }

    /// Notes whether some runner serves a worker.
    pub fn note_served(&mut self, worker: Worker, served: bool) {
        if (worker as usize) < self.served.len() {
            self.served[worker as usize] = served;
        }
    }
}

/// Which of the runners that are asleep can go on.
#[derive(Clone, Copy)]
pub enum Sleepers {
    Nobody,
    /// Those of threads that can move.
    Movable,
    /// Those of all threads.
    Bodies,
    Everybody,
}

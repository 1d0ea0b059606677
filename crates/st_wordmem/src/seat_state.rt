// What a memory is told once, what each seat knows, and the steps. No value of a state, of the rule or of a step is made: they are for the
// proofs alone.
use atomic_table::{Join, Play, Split, TableRule};
use st_base::{Pid, Tid};
use st_trace::Start;
use std::snapshot::Snapshot;

/// Whose memory it is: the script that its threads run, as contracts see it, and its process.
#[derive(Drop)]
pub struct ScriptProcess {
    pub start: Snapshot<Start>,
    pub pid: Pid,
}

/// What a seat knows: whose memory it is of, and what is said here.
pub enum SeatState {
    /// The seat that others are split from, with the thread of the process that is given one next.
    Root {
        start: Start,
        pid: Pid,
        next: Tid,
    },
    /// The seat of a thread, with the number of stores of its body that it made.
    Thread {
        start: Start,
        pid: Pid,
        thread: Tid,
        made: u64,
    },
    /// A seat that was joined.
    Spent,
}

/// The rule of the words.
pub struct StoredWords;

impl TableRule<(), SeatState, ScriptProcess> for StoredWords {
    ghost use Rattle.st_wordmem.specs.Rule.{first_root, Kept};

    ghost holds = { λ process. Kept process.start.value process.pid };

    ghost first = { λ process. first_root process.start.value process.pid };
}

/// A thread's seat is made of the root's.
pub struct NextThread;

impl Split<SeatState> for NextThread {
    ghost use Rattle.st_wordmem.specs.Rule.{root_after, seat_of_next};

    ghost left = { root_after };

    ghost right = { seat_of_next };
}

/// A thread's seat goes back to the root.
pub struct Back;

impl Join<SeatState> for Back {
    ghost use Rattle.st_wordmem.specs.declared.seat_state.SeatState.TheVariants.{Spent};

    ghost both = { λ root seat. root };

    ghost spent = { Spent };
}

/// What a load tells a thread.
pub struct Loads;

impl Play<(), SeatState> for Loads {
    ghost use Rattle.st_wordmem.specs.Rule.{IsLoadTold};

    ghost then = { IsLoadTold };
}

/// What a store tells a thread.
pub struct Stores;

impl Play<(), SeatState> for Stores {
    ghost use Rattle.st_wordmem.specs.Rule.{IsStoreTold};

    ghost then = { IsStoreTold };
}

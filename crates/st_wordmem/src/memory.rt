ghost use Rattle.std.specs.Prelude.{◌≡◌, ◌<◌, suc, [], replicate, IfOk};
ghost use Rattle.st_model.specs.declared.limits.TheConstants.{SPACE_WORDS};
ghost use Rattle.st_law.specs.Loaded.{process_by_script, IsLoaded, IsNextStore};
ghost use Rattle.st_reached.specs.Scripts.{StoresInMemory};
ghost use Rattle.st_wordmem.specs.Memory.{IsProcessOf};
ghost use Rattle.st_wordmem.specs.Rule.{first_root, next_thread};

use crate::seat_state::{Back, Loads, NextThread, ScriptProcess, SeatState, StoredWords, Stores};
use atomic_table::{Seat, Table};
use st_base::Pid;
use st_model::SPACE_WORDS;
use st_trace::Start;
use std::alloc::{AllocError, Global};
use std::marker::Model;
use std::snapshot::Snapshot;

type WordTable = Table<(), SeatState, ScriptProcess, StoredWords, Global>;

type WordTableSeat = Seat<(), SeatState>;

/// The memory of a process: words that its threads store and load without a lock.
#[derive(Drop)]
pub struct WordMem {
    table: WordTable,
}

impl Model for WordMem {
    ghost use Rattle.std.specs.Prelude.{◌≡◌};
    ghost use Rattle.st_model.specs.declared.limits.TheConstants.{SPACE_WORDS};
    ghost use Rattle.st_reached.specs.Scripts.{StoresInMemory};
    ghost use Rattle.st_wordmem.specs.Memory.{memory_of, MemoryOf};

    ghost Value = { MemoryOf };

    ghost view = { λ m. memory_of m.table.shared.table_id m.table.shared.key.start.value m.table.shared.key.pid };

    ghost invariant = { λ m. (m.table.shared.table_id.words ≡ SPACE_WORDS) × StoresInMemory m.table.shared.key.start.value };
}

/// The seat from which those of the threads are split. It is of one memory.
#[derive(Drop)]
pub struct Root {
    seat: WordTableSeat,
}

impl Model for Root {
    ghost use Rattle.std.specs.Prelude.{◌≡◌, []};
    ghost use Rattle.st_wordmem.specs.Memory.{memory_in, next_in, IsRoot, RootOf};

    ghost Value = { RootOf };

    ghost view = { λ r. record { memory = memory_in r.seat.table_id r.seat.me.0; next = next_in r.seat.me.0 } };

    ghost invariant = { λ r. IsRoot r.seat.me.0 × (r.seat.me.1 ≡ []) };
}

/// The seat of a thread, by which it stores and loads. It is of one memory.
#[derive(Drop)]
pub struct WordSeat {
    seat: WordTableSeat,
}

impl Model for WordSeat {
    ghost use Rattle.std.specs.Prelude.{◌≡◌, []};
    ghost use Rattle.st_wordmem.specs.Memory.{made_in, memory_in, thread_in, IsThreadSeat, SeatOf};

    ghost Value = { SeatOf };

    ghost view = { λ s. record { memory = memory_in s.seat.table_id s.seat.me.0; thread = thread_in s.seat.me.0; made = made_in s.seat.me.0 } };

    ghost invariant = { λ s. IsThreadSeat s.seat.me.0 × (s.seat.me.1 ≡ []) };
}

// A table whose words are 0, and its root.
fn table_of(
    alloc: Global,
    words: &[u64],
    process: &ScriptProcess,
) -> Result<(WordTable, WordTableSeat), AllocError>
    requires { words.now ≡ replicate SPACE_WORDS 0 }
    ensures table { IfOk result (λ made. (made.0.shared.table_id.words ≡ SPACE_WORDS) × (made.0.shared.key ≡ process.now)) }
    ensures seat { IfOk result (λ made. (made.1.table_id ≡ made.0.shared.table_id) × (made.1.me ≡ (first_root process.now.start.value process.now.pid, []))) }
{
    WordTable::of_words(alloc, words, process)
}

impl WordMem {
    /// The memory of a process of a script, whose words are 0, and its root, from which no seat was split.
    pub fn new(alloc: Global, start: &Start, pid: Pid) -> Result<(WordMem, Root), AllocError>
        requires stores { StoresInMemory start.now }
        requires process { IsProcessOf start.now pid }
        ensures memory { IfOk result (λ made. (made.0.start ≡ start.now) × (made.0.pid ≡ pid)) }
        ensures root { IfOk result (λ made. made.1 ≡ record { memory = made.0; next = next_thread start.now pid 0 }) }
    {
        let process = ScriptProcess {
            start: Snapshot::of(start),
            pid,
        };
        let words = Vec::from_elem(alloc, 0u64, SPACE_WORDS as usize)?;
        let (table, seat) = table_of(alloc, words.as_slice(), &process)?;
        Ok((WordMem { table }, Root { seat }))
    }

    /// A seat for the next thread of the process, which has made no store. It takes no memory, and waits for nothing.
    pub fn seat(&self, root: &mut Root) -> WordSeat
        requires memory { root.old.memory ≡ self.now }
        requires some { process_by_script self.now.start root.old.next ≡ self.now.pid }
        ensures root { root.new ≡ record { memory = self.now; next = next_thread self.now.start self.now.pid root.old.next } }
        ensures seat { result ≡ record { memory = self.now; thread = root.old.next; made = 0 } }
    {
        WordSeat {
            seat: self.table.shared.split_seat::<NextThread>(&mut root.seat),
        }
    }

    /// Stores a word at a place: the next store of the body of the seat's thread. It takes no memory, and waits for nothing.
    pub fn store(&self, seat: &mut WordSeat, place: u32, word: u64)
        requires memory { seat.old.memory ≡ self.now }
        requires next { IsNextStore self.now.start seat.old.thread seat.old.made place word }
        ensures { seat.new ≡ record { memory = self.now; thread = seat.old.thread; made = suc seat.old.made } }
    {
        self.table
            .shared
            .swap::<Stores>(&mut seat.seat, place as usize, word);
    }

    /// The word at a place. It is 0 or one that a thread of the process stores there by its body. Where the seat's thread has stored there,
    /// it is one that a thread of the process stores there, and where besides no other thread of the process stores there, it is the last
    /// that the seat's thread has stored there. It takes no memory, and waits for nothing.
    pub fn load(&self, seat: &mut WordSeat, place: u32) -> u64
        requires memory { seat.old.memory ≡ self.now }
        requires place { place < SPACE_WORDS }
        ensures seat { seat.new ≡ seat.old }
        ensures word { IsLoaded self.now.start seat.old.thread seat.old.made place result }
    {
        self.table
            .shared
            .load::<Loads>(&mut seat.seat, place as usize)
    }

    /// Takes back the seat of a thread that stores and loads no more. It takes no memory, and waits for nothing.
    pub fn join(&self, root: &mut Root, seat: WordSeat)
        requires root { root.old.memory ≡ self.now }
        requires seat { seat.memory ≡ self.now }
        ensures { root.new ≡ root.old }
    {
        let WordSeat { seat } = seat;
        self.table.shared.join_seat::<Back>(&mut root.seat, seat);
    }
}

//! How far the threads of a run have come, as far as its entries say whether they can move.

ghost use Rattle.std.specs.Prelude.{⊤};

use st_base::{Seq, Tid, Worker};
use st_compile::Compiled;
use st_law::Input;
use st_learn::Session;
use st_report::Recorder;
use st_trace::{Change, Entry, ThreadRow, Way};
use std::alloc::{AllocError, Global};

/// How far a thread has come.
#[derive(Clone, Copy)]
pub enum Progress {
    NotStarted,
    Running,
    /// Its call of this number waits until a worker claims it.
    Posted(Seq),
    /// Its call of this number was claimed by this worker.
    Claimed(Seq, Worker),
    /// Its call of this number was answered.
    Answered(Seq),
    Ended,
}

impl Progress {
    // The number of the call that the thread holds.
    fn seq(self) -> Option<Seq> {
        match self {
            Progress::Posted(seq) | Progress::Claimed(seq, _) | Progress::Answered(seq) => {
                Some(seq)
            }
            Progress::NotStarted | Progress::Running | Progress::Ended => None,
        }
    }

    // How far a thread has come before the first entry.
    fn first(row: &ThreadRow) -> Self {
        if row.process.is_some() {
            Progress::Running
        } else {
            Progress::NotStarted
        }
    }
}

/// The threads of a run, each as far as it has come.
#[derive(Drop)]
pub struct Threads {
    // Thread t is at t - 1.
    items: Vec<Progress>,
}

impl Threads {
    /// The threads before the first entry.
    pub fn new(alloc: Global, input: &Input) -> Result<Self, AllocError> {
        let mut items = Vec::new(alloc);
        for row in input.start.threads.as_slice() {
            items.push(Progress::first(row))?;
        }
        Ok(Threads { items })
    }

    /// How many there are.
    pub fn count(&self) -> usize {
        self.items.len()
    }

    /// How far a thread has come; none where the script has no such thread.
    pub fn of(&self, tid: Tid) -> Option<Progress> {
        let place = (tid as usize).checked_sub(1)?;
        self.items.as_slice().get(place).copied()
    }
}

// Notes how far a thread has come.
fn set(threads: &mut [Progress], tid: Tid, progress: Progress) {
    if tid > 0 && tid as usize <= threads.len() {
        threads[tid as usize - 1] = progress;
    }
}

// Forgets a number that is drawn again. A dying thread may still have it until it ends.
fn forget(threads: &mut [Progress], seq: Seq) {
    for each in threads.iter_mut() {
        if each.seq() == Some(seq) {
            *each = Progress::Running;
        }
    }
}

// Notes that a thread's call is posted under this number. It is the only one that has the number then.
fn set_posted(threads: &mut [Progress], tid: Tid, seq: Seq) {
    forget(threads, seq);
    set(threads, tid, Progress::Posted(seq));
}

// Notes how far the thread has come that holds the call of this number.
fn set_holder(threads: &mut [Progress], seq: Seq, progress: Progress) {
    for each in threads.iter_mut() {
        if each.seq() == Some(seq) {
            *each = progress;
        }
    }
}

// Notes that the call of the old number is posted again under the new one.
fn renew(threads: &mut [Progress], old: Seq, new: Seq) {
    forget(threads, new);
    set_holder(threads, old, Progress::Posted(new));
}

// Notes what a call or a reload changes.
fn note_changes(threads: &mut [Progress], changes: &[Change]) {
    for change in changes {
        match change {
            Change::Forked { tid, .. } => set(threads, *tid, Progress::Running),
            Change::Renewed { old, new } => renew(threads, *old, *new),
            _ => {}
        }
    }
}

impl Threads {
    /// Notes what the next entry says.
    pub fn note_entry(&mut self, entry: &Entry) {
        match entry {
            Entry::Entered {
                tid,
                way: Way::Held(seq),
                ..
            } => set_posted(&mut self.items, *tid, *seq),
            Entry::Claimed { worker, seq } => {
                set_holder(&mut self.items, *seq, Progress::Claimed(*seq, *worker));
            }
            Entry::Answered {
                snapshot,
                applied: true,
                ..
            } => {
                let seq = snapshot.get().seq;
                set_holder(&mut self.items, seq, Progress::Answered(seq));
            }
            Entry::Used { tid, changes, .. } => {
                set(&mut self.items, *tid, Progress::Running);
                note_changes(&mut self.items, changes.as_slice());
            }
            Entry::Reloaded { changes, .. } => {
                note_changes(&mut self.items, changes.as_slice());
            }
            Entry::Denied { tid, .. } => set(&mut self.items, *tid, Progress::Running),
            Entry::Ended { tid } => set(&mut self.items, *tid, Progress::Ended),
            _ => {}
        }
    }
}

impl Recorder for Threads {
    ghost has_noted = { λ _ _ _. ⊤ };

    fn note(
        &mut self,
        _alloc: Global,
        _input: &Input,
        _compiled: &Compiled<'_>,
        _session: &Session<'_>,
        entry: &Entry,
    ) -> Result<(), AllocError> {
        self.note_entry(entry);
        Ok(())
    }
}

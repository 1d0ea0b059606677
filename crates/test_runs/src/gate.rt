// A gate at which two held calls wait for each other.
use crate::again::{Made, make};
use st_base::{Seq, Text, Worker};
use st_outside::MemoryFiles;
use st_top::Gate;
use std::alloc::{AllocError, Global};
use std::sync::Wait;
use std::sync::atomic::{AtomicBool, Ordering};
use std::thread::{Threads, yield_now};

// How often a flag is looked at before a wait is given up.
const MOST_LOOKS: u32 = 200_000_000;

// How far the judging of a call has come.
#[derive(Drop)]
struct Passage {
    entered: AtomicBool,
    passed: AtomicBool,
    done: AtomicBool,
    // Whether it was done before it had passed, or a wait was given up.
    failed: AtomicBool,
}

impl Passage {
    fn new() -> Self {
        Passage {
            entered: AtomicBool::new(false),
            passed: AtomicBool::new(false),
            done: AtomicBool::new(false),
            failed: AtomicBool::new(false),
        }
    }

    // Passes once the flag is set.
    fn pass(&self, flag: &AtomicBool) {
        self.entered.store(true, Ordering::SeqCst);
        for _ in 0..MOST_LOOKS {
            if flag.load(Ordering::SeqCst) {
                self.passed.store(true, Ordering::SeqCst);
                return;
            }
            yield_now();
        }
        self.failed.store(true, Ordering::SeqCst);
    }

    fn finish(&self) {
        if !self.passed.load(Ordering::SeqCst) {
            self.failed.store(true, Ordering::SeqCst);
        }
        self.done.store(true, Ordering::SeqCst);
    }

    // Whether it has passed, and was done after that.
    fn has_succeeded(&self) -> bool {
        self.done.load(Ordering::SeqCst) && !self.failed.load(Ordering::SeqCst)
    }
}

// The call of number 1 passes once that of number 2 is answered, and the call of number 2 once that of number 1 is at the gate. So both are
// judged at once, and the lock is free meanwhile.
#[derive(Drop)]
struct Crossing {
    first: Passage,
    second: Passage,
}

impl Gate for Crossing {
    fn pass<T: Wait>(&self, _rt: &T, _worker: Worker, seq: Seq) {
        match seq {
            1 => self.first.pass(&self.second.done),
            2 => self.second.pass(&self.first.entered),
            _ => {}
        }
    }

    fn done<T: Wait>(&self, _rt: &T, _worker: Worker, seq: Seq) {
        match seq {
            1 => self.first.finish(),
            2 => self.second.finish(),
            _ => {}
        }
    }
}

// Whether the first answer in the text of a trace is to the call of number 2.
fn is_second_first(trace: &[u8]) -> bool {
    for line in trace.split(|byte| *byte == b'\n') {
        let mut words = line.split(|byte| *byte == b' ');
        if words.next() == Some(b"answered".as_slice()) {
            return words.nth(1) == Some(b"2".as_slice());
        }
    }
    false
}

/// Makes the run of these words, whose trace is printed. Returns it with a line that says whether two workers judged at once, and whether
/// the printed run is theirs.
pub fn test_gate<T: Threads + Wait + Sync>(
    rt: &T,
    alloc: Global,
    words: &[Text],
    files: &mut MemoryFiles,
) -> Result<(Made, &'static [u8]), AllocError> {
    let gate = Crossing {
        first: Passage::new(),
        second: Passage::new(),
    };
    let made = make(rt, alloc, words, files, &gate)?;
    let line: &'static [u8] = if !gate.first.has_succeeded() || !gate.second.has_succeeded() {
        b"the calls were not judged at once"
    } else if !is_second_first(made.written.bytes()) {
        b"the calls were judged at once, but this is not the run of their threads"
    } else {
        b"the calls were judged at once, and this is the run of their threads"
    };
    Ok((made, line))
}

//! Who can't move at a line of a schedule, and why.

use crate::threads::{Progress, Threads};
use st_base::{Text, Tid, Worker};
use st_law::{Input, Mode};
use st_trace::{Choice, Instr, ThreadRow};
use std::alloc::{AllocError, Global};

// Appends a word, a number and a text.
fn append_numbered(line: &mut Text, word: &str, number: u64, text: &str) -> Result<(), AllocError> {
    line.append(word.as_bytes())?;
    line.append_number(number)?;
    line.append(text.as_bytes())
}

// Whether an instruction starts a thread by fork.
fn is_fork_of(instr: &Instr, tid: Tid) -> bool {
    match instr {
        Instr::Fork(child) => *child == tid,
        Instr::Store(..) | Instr::Call(..) | Instr::Reload(_) => false,
    }
}

// Whether a thread starts another by fork.
fn starts(row: &ThreadRow, tid: Tid) -> bool {
    row.body
        .as_slice()
        .iter()
        .any(|instr| is_fork_of(instr, tid))
}

// The place of the thread that starts another by fork.
fn parent_of(input: &Input, tid: Tid) -> Option<usize> {
    for (place, row) in input.start.threads.as_slice().iter().enumerate() {
        if starts(row, tid) {
            return Some(place);
        }
    }
    None
}

// Appends why a thread has not started.
fn append_not_started(line: &mut Text, input: &Input, tid: Tid) -> Result<(), AllocError> {
    line.append(b" has not started: ")?;
    match parent_of(input, tid) {
        Some(place) => {
            let parent = (place as u64).saturating_add(1);
            append_numbered(line, "thread ", parent, " has not forked it")
        }
        None => line.append(b"no thread forks it"),
    }
}

// Appends why a thread of the script can't move.
fn append_waiting(
    line: &mut Text,
    input: &Input,
    tid: Tid,
    progress: Progress,
) -> Result<(), AllocError> {
    append_numbered(line, "thread ", u64::from(tid), "")?;
    match progress {
        Progress::NotStarted => append_not_started(line, input, tid),
        Progress::Ended => line.append(b" has ended"),
        Progress::Posted(_) => line.append(b" waits for a worker to claim its call"),
        Progress::Claimed(_, worker) => {
            append_numbered(
                line,
                " waits for worker ",
                u64::from(worker),
                " to answer its call",
            )
        }
        Progress::Answered(_) => line.append(b" waits for the operator to answer its call"),
        Progress::Running => line.append(b" can't move"),
    }
}

// Appends that the script has no thread of the number, by how many it has.
fn append_no_thread(line: &mut Text, count: usize) -> Result<(), AllocError> {
    match count {
        0 => line.append(b"the script has no thread"),
        1 => line.append(b"the script has no such thread: it has thread 1 alone"),
        _ => append_numbered(
            line,
            "the script has no such thread: it has 1 to ",
            count as u64,
            "",
        ),
    }
}

// Appends why a worker can't move, by how many there are.
fn append_idle(line: &mut Text, count: u32, worker: Worker) -> Result<(), AllocError> {
    if 1 <= worker && worker <= count {
        append_numbered(
            line,
            "worker ",
            u64::from(worker),
            " has nothing to do: no call waits for a worker to claim it",
        )
    } else {
        append_numbered(
            line,
            "there is no such worker: -w N says how many there are, and N is ",
            u64::from(count),
            " here",
        )
    }
}

// Why the operator can't move.
fn unasked(mode: Mode) -> &'static str {
    match mode {
        Mode::Enforce => "the operator has no question: without -A or -t it never has one",
        Mode::Learn | Mode::AskText => "the operator has no question: no call waits for its answer",
    }
}

/// Appends who can't move and why, by the threads as far as they have come.
pub fn append_blocked(
    line: &mut Text,
    input: &Input,
    threads: &Threads,
    choice: Choice,
) -> Result<(), AllocError> {
    match choice {
        Choice::Thread(tid) => match threads.of(tid) {
            Some(progress) => append_waiting(line, input, tid, progress),
            None => append_no_thread(line, threads.count()),
        },
        Choice::Worker(worker) => append_idle(line, input.options.workers, worker),
        Choice::Operator => line.append(unasked(input.options.mode).as_bytes()),
    }
}

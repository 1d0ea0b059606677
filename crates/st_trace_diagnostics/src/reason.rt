//! Why a line of a printed trace isn't lawful.

ghost use Rattle.std.specs.Prelude.{◌<◌, ◌^◌, length};
ghost use Rattle.st_reached.specs.Runnable.{CanRun};

use st_fields::LineFault;
use st_law::Input;
use st_readtrace::TraceReader;
use st_replay::{Mismatch, Replay, ReplayFault};
use st_schedule_diagnostics::threads::Threads;
use st_trace::Entry;
use std::alloc::{AllocError, Global};

/// Why a line isn't lawful.
#[derive(Drop)]
pub enum Reason {
    /// It is no entry's.
    NoEntry,
    /// The machine does something else for the choice that its entry tells, or nothing.
    Mismatch(Entry, Mismatch),
}

// Whether an entry was taken.
fn is_taken(taken: Result<(), ReplayFault>) -> Result<bool, AllocError> {
    match taken {
        Ok(()) => Ok(true),
        Err(ReplayFault::NotLawful(_)) => Ok(false),
        Err(ReplayFault::NoMemory) => Err(AllocError),
    }
}

// Replays the next line, which is lawful, and says whether there was one.
fn replay_line(
    alloc: Global,
    reader: &mut TraceReader<'_>,
    replay: &mut Replay<'_>,
    threads: &mut Threads,
) -> Result<bool, AllocError> {
    match reader.next_entry(alloc) {
        Ok(Some(entry)) => {
            threads.note_entry(&entry);
            is_taken(replay.entry(alloc, &entry))
        }
        Ok(None) | Err(LineFault::NotInGrammar) => Ok(false),
        Err(LineFault::NoMemory) => Err(AllocError),
    }
}

// Why an entry isn't lawful.
fn reason_of_entry(
    alloc: Global,
    replay: &mut Replay<'_>,
    entry: Entry,
) -> Result<Option<Reason>, AllocError> {
    match replay.entry(alloc, &entry) {
        Ok(()) => Ok(None),
        Err(ReplayFault::NotLawful(mismatch)) => Ok(Some(Reason::Mismatch(entry, mismatch))),
        Err(ReplayFault::NoMemory) => Err(AllocError),
    }
}

// Why the next line isn't lawful.
fn reason_of_line(
    alloc: Global,
    reader: &mut TraceReader<'_>,
    replay: &mut Replay<'_>,
) -> Result<Option<Reason>, AllocError> {
    match reader.next_entry(alloc) {
        Ok(Some(entry)) => reason_of_entry(alloc, replay, entry),
        Ok(None) => Ok(None),
        Err(LineFault::NotInGrammar) => Ok(Some(Reason::NoEntry)),
        Err(LineFault::NoMemory) => Err(AllocError),
    }
}

/// Why the line of this number, from 1, of a printed trace isn't lawful for a run of this input. The threads are noted as far as they have
/// come before it.
pub fn reason_at(
    alloc: Global,
    input: &Input,
    threads: &mut Threads,
    trace: &[u8],
    number: u32,
) -> Result<Option<Reason>, AllocError>
    requires can_run { CanRun input.now }
    requires within { length trace.now < 2 ^ 32 }
{
    let mut reader = TraceReader::new(alloc, trace);
    let mut replay = Replay::start(alloc, input)?;
    for _ in 1..number {
        if !replay_line(alloc, &mut reader, &mut replay, threads)? {
            break;
        }
    }
    reason_of_line(alloc, &mut reader, &mut replay)
}

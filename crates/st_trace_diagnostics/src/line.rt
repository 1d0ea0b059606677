//! The messages about one line of a printed trace.

use crate::reason::Reason;
use st_base::{Seq, Text};
use st_law::Input;
use st_policy_diagnostics::caret::append_line_with_caret;
use st_policy_diagnostics::position::Position;
use st_policy_diagnostics::shown::{append_shown, found_at, row_found};
use st_readtrace::fault_place;
use st_replay::Mismatch;
use st_report::append_entry;
use st_schedule_diagnostics::blocked::append_blocked;
use st_schedule_diagnostics::threads::Threads;
use st_trace::{Choice, Entry};
use std::alloc::{AllocError, Global};

/// A line of a printed trace: the name of the trace's file, the line's number, from 1, and what stands in it.
#[derive(Clone, Copy)]
pub struct TraceLine<'a> {
    pub name: &'a [u8],
    pub number: u32,
    pub text: &'a [u8],
}

/// What is known of a run before a line of its trace: its input, and how far its threads have come.
#[derive(Clone, Copy)]
pub struct Before<'a> {
    pub input: &'a Input,
    pub threads: &'a Threads,
}

impl TraceLine<'_> {
    // What stands in the line from a place on.
    fn rest(&self, place: usize) -> &[u8] {
        &self.text[place.min(self.text.len())..]
    }

    // The message up to what was found at a place.
    fn found(&self, alloc: Global, place: usize) -> Result<Text, AllocError> {
        let position = Position {
            line: self.number as usize,
            column: place.saturating_add(1),
        };
        let mut message = found_at(alloc, self.name, position)?;
        append_rest(&mut message, self.rest(place))?;
        Ok(message)
    }

    // Appends the line, with a mark under what stands from a place on.
    fn append_marked(&self, message: &mut Text, place: usize) -> Result<(), AllocError> {
        let len = self.rest(place).len();
        append_line_with_caret(message, self.text, place, len)
    }
}

// Appends the rest of a line.
fn append_rest(message: &mut Text, rest: &[u8]) -> Result<(), AllocError> {
    if rest.is_empty() {
        message.append(b"the end of the line")
    } else {
        append_shown(message, rest)
    }
}

// Appends a word and a number.
fn append_number(message: &mut Text, word: &str, number: u64) -> Result<(), AllocError> {
    message.append(word.as_bytes())?;
    message.append_number(number)
}

// Appends who makes a choice.
fn append_mover(message: &mut Text, choice: Choice) -> Result<(), AllocError> {
    match choice {
        Choice::Thread(tid) => append_number(message, "thread ", u64::from(tid)),
        Choice::Worker(worker) => append_number(message, "worker ", u64::from(worker)),
        Choice::Operator => message.append(b"the operator"),
    }
}

// The number of the message at which a worker copied, looked, or found a fault.
fn number_at_work(entry: &Entry) -> Seq {
    match entry {
        Entry::Copied { seq, .. } | Entry::Looked { seq, .. } | Entry::Faulted { seq, .. } => *seq,
        _ => 0,
    }
}

// How many bytes two texts begin with in common.
fn common_len(one: &[u8], other: &[u8]) -> usize {
    one.iter()
        .zip(other.iter())
        .take_while(|(a, b)| **a == **b)
        .count()
}

// The start of the word in which a byte stands: the place after the last blank before it.
fn word_start(line: &[u8], place: usize) -> usize {
    let before = &line[..place.min(line.len())];
    let len = before
        .iter()
        .rev()
        .take_while(|byte| **byte != b' ')
        .count();
    before.len().saturating_sub(len)
}

// The message about a line that is no entry's.
fn no_entry(alloc: Global, line: TraceLine<'_>) -> Result<Text, AllocError> {
    let place = fault_place(alloc, line.text)?;
    let mut message = line.found(alloc, place)?;
    message.append(b", expected an entry as it is printed")?;
    line.append_marked(&mut message, place)?;
    Ok(message)
}

// The message about an entry of someone who can't move.
fn not_enabled(
    alloc: Global,
    line: TraceLine<'_>,
    before: Before<'_>,
    choice: Choice,
    entry: &Entry,
) -> Result<Text, AllocError> {
    let mut message = row_found(alloc, line.name, line.number, line.text)?;
    message.append(b", but ")?;
    match choice {
        Choice::Worker(0) => {
            append_number(
                &mut message,
                "no worker is at call ",
                u64::from(number_at_work(entry)),
            )?;
        }
        _ => append_blocked(&mut message, before.input, before.threads, choice)?,
    }
    Ok(message)
}

// The message about an entry in whose place another one is made.
fn other_entry(
    alloc: Global,
    line: TraceLine<'_>,
    choice: Choice,
    made: &Entry,
) -> Result<Text, AllocError> {
    let mut printed = Text::new(alloc);
    append_entry(alloc, &mut printed, made)?;
    let place = word_start(line.text, common_len(line.text, printed.bytes()));
    let mut message = line.found(alloc, place)?;
    message.append(b", but ")?;
    append_mover(&mut message, choice)?;
    message.append(b" writes ")?;
    append_rest(&mut message, &printed.bytes()[place.min(printed.len())..])?;
    message.append(b" here")?;
    line.append_marked(&mut message, place)?;
    Ok(message)
}

// The message about an entry that differs from what the machine does.
fn differs(
    alloc: Global,
    line: TraceLine<'_>,
    before: Before<'_>,
    entry: &Entry,
    mismatch: &Mismatch,
) -> Result<Text, AllocError> {
    match &mismatch.entry {
        Some(made) => other_entry(alloc, line, mismatch.choice, made),
        None => not_enabled(alloc, line, before, mismatch.choice, entry),
    }
}

/// The message about a line that isn't lawful for this reason, without its last newline.
pub fn line_message(
    alloc: Global,
    line: TraceLine<'_>,
    before: Before<'_>,
    reason: &Reason,
) -> Result<Text, AllocError> {
    match reason {
        Reason::NoEntry => no_entry(alloc, line),
        Reason::Mismatch(entry, mismatch) => { differs(alloc, line, before, entry, mismatch) }
    }
}

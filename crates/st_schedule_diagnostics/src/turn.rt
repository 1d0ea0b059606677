//! A run that is made again up to a line of its schedule that can't be played, for why it can't.

ghost use Rattle.st_command.specs.Reading.{IsWithinLimits};
ghost use Rattle.st_reached.specs.Runnable.{CanRun};

use crate::blocked::append_blocked;
use crate::threads::Threads;
use st_base::{Sequence, Text};
use st_command::Command;
use st_kernel::{Kernel, PlayFault, StepFault};
use st_law::{Input, ReadSchedule, ScheduleLine, What};
use st_outside::Files;
use st_reading::law::what_is_meant_to_run_can_run;
use st_reading::{Reading, Refusal, read_command};
use st_trace::Choice;
use std::alloc::{AllocError, Global};

// The line of a schedule that has this number in its file.
fn line_numbered(schedule: &ReadSchedule, number: u32) -> Option<ScheduleLine> {
    for line in schedule.lines.as_slice() {
        if line.line == number {
            return Some(*line);
        }
    }
    None
}

// The lines of a schedule before the one that has this number in its file.
fn lines_before(
    alloc: Global,
    schedule: &ReadSchedule,
    number: u32,
) -> Result<ReadSchedule, AllocError> {
    let mut lines = Sequence::new(alloc);
    for line in schedule.lines.as_slice() {
        if line.line < number {
            lines.push(*line)?;
        }
    }
    Ok(ReadSchedule { lines, bad: None })
}

// Plays the lines before the one of this number, each of which can be played.
fn play_before(
    alloc: Global,
    kernel: &mut Kernel<'_>,
    schedule: &ReadSchedule,
    number: u32,
    threads: &mut Threads,
) -> Result<(), AllocError> {
    let lines = lines_before(alloc, schedule, number)?;
    match kernel.play(alloc, &lines, threads) {
        Ok(()) | Err(PlayFault::BadLine(_)) => Ok(()),
        Err(PlayFault::NoMemory) => Err(AllocError),
    }
}

// Whether a choice was made.
fn is_made(advanced: Result<(), StepFault>) -> Result<bool, AllocError> {
    match advanced {
        Ok(()) => Ok(true),
        Err(StepFault::NotEnabled) => Ok(false),
        Err(StepFault::NoMemory) => Err(AllocError),
    }
}

// Makes a choice where it is enabled, and says whether it is. The entry is dropped in one place.
fn advance(
    alloc: Global,
    kernel: &mut Kernel<'_>,
    choice: Choice,
    threads: &mut Threads,
) -> Result<bool, AllocError> {
    let mut added = None;
    let advanced = kernel.advance(alloc, choice, &mut added);
    if let Some(entry) = &added {
        threads.note_entry(entry);
    }
    is_made(advanced)
}

// Makes a choice up to so many times, as long as it is enabled, and says how often it was made.
fn repeat(
    alloc: Global,
    kernel: &mut Kernel<'_>,
    choice: Choice,
    count: u32,
    threads: &mut Threads,
) -> Result<u32, AllocError> {
    for made in 0..count {
        if !advance(alloc, kernel, choice, threads)? {
            return Ok(made);
        }
    }
    Ok(count)
}

// Appends at which turn of a line nobody moved, after so many at which somebody did.
fn append_turn(reason: &mut Text, made: u32, count: u32) -> Result<(), AllocError> {
    if count == 1 {
        return Ok(());
    }
    reason.append(b"at turn ")?;
    reason.append_number(u64::from(made.saturating_add(1)))?;
    reason.append(b" of ")?;
    reason.append_number(u64::from(count))?;
    reason.push(b' ')
}

// Why a line that asks for this choice can't be played, as a message goes on with it.
fn reason_of_choice(
    alloc: Global,
    kernel: &mut Kernel<'_>,
    schedule: &ReadSchedule,
    line: ScheduleLine,
    choice: Choice,
) -> Result<Text, AllocError> {
    let mut threads = Threads::new(alloc, kernel.input())?;
    play_before(alloc, kernel, schedule, line.line, &mut threads)?;
    let made = repeat(alloc, kernel, choice, line.count, &mut threads)?;
    let mut reason = Text::of(alloc, b", but ")?;
    append_turn(&mut reason, made, line.count)?;
    append_blocked(&mut reason, kernel.input(), &threads, choice)?;
    Ok(reason)
}

// Why the line of this number can't be played. It has the kernel by reference, so that the kernel is dropped in one place.
fn reason_of_line(
    alloc: Global,
    kernel: &mut Kernel<'_>,
    schedule: &ReadSchedule,
    number: u32,
) -> Result<Option<Text>, Refusal> {
    let Some(line) = line_numbered(schedule, number) else {
        return Ok(None);
    };
    let What::Choose(choice) = line.what else {
        return Ok(None);
    };
    Ok(Some(reason_of_choice(alloc, kernel, schedule, line, choice)?))
}

// Why the line of this number can't be played in a run of this input.
fn reason_in(
    alloc: Global,
    input: &Input,
    schedule: &ReadSchedule,
    number: u32,
) -> Result<Option<Text>, Refusal>
    requires { CanRun input.now }
{
    let mut kernel = Kernel::start(alloc, input)?;
    reason_of_line(alloc, &mut kernel, schedule, number)
}

/// Who can't move at the line of this number of a command's schedule, and why, as a message goes on with it; nothing where the command means
/// no run.
pub fn reason_at<F: Files>(
    alloc: Global,
    files: &mut F,
    command: &Command<'_>,
    number: u32,
) -> Result<Option<Text>, Refusal>
    requires limits { IsWithinLimits command.now }
{
    what_is_meant_to_run_can_run();
    match read_command(alloc, command, files)? {
        Reading::Run(input, schedule) => reason_in(alloc, &input, &schedule, number),
        Reading::Replay(..) | Reading::Text(_) => Ok(None),
    }
}

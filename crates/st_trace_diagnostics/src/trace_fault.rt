ghost use Rattle.std.specs.Prelude.{◌<◌, ◌^◌, length};
ghost use Rattle.st_command.specs.Reading.{IsWithinLimits};
ghost use Rattle.st_reached.specs.Runnable.{CanRun};

use crate::line::{Before, TraceLine, line_message};
use crate::reason::reason_at;
use st_base::Text;
use st_command::Command;
use st_law::Input;
use st_outside::Files;
use st_reading::law::what_is_meant_to_be_replayed_can_run;
use st_reading::{Reading, Refusal, Which, read_command};
use st_schedule_diagnostics::names::file_in;
use st_schedule_diagnostics::threads::Threads;
use std::alloc::{AllocError, Global};

// The line of this number, from 1; empty after the last.
fn line_of(trace: &[u8], number: u32) -> &[u8] {
    trace
        .split(|byte| *byte == b'\n')
        .nth(number.saturating_sub(1) as usize)
        .unwrap_or(&[])
}

// The message about the line of this number of a trace; nothing where it is lawful.
fn message_of(
    alloc: Global,
    input: &Input,
    name: &Text,
    trace: &[u8],
    number: u32,
) -> Result<Option<Text>, AllocError>
    requires can_run { CanRun input.now }
    requires within { length trace.now < 2 ^ 32 }
{
    let mut threads = Threads::new(alloc, input)?;
    let Some(reason) = reason_at(alloc, input, &mut threads, trace, number)? else {
        return Ok(None);
    };
    let line = TraceLine {
        name: name.bytes(),
        number,
        text: line_of(trace, number),
    };
    let before = Before {
        input,
        threads: &threads,
    };
    Ok(Some(line_message(alloc, line, before, &reason)?))
}

// The message why the trace of a command, which has this name, isn't lawful at a line; nothing where a file of the command wasn't kept.
fn message_at<F: Files>(
    alloc: Global,
    files: &mut F,
    command: &Command<'_>,
    name: &Text,
    number: u32,
) -> Result<Option<Text>, Refusal>
    requires limits { IsWithinLimits command.now }
{
    what_is_meant_to_be_replayed_can_run();
    match read_command(alloc, command, files)? {
        Reading::Replay(input, trace) => {
            Ok(message_of(alloc, &input, name, trace.bytes(), number)?)
        }
        Reading::Run(..) | Reading::Text(_) => Ok(None),
    }
}

/// The message why the trace of a command isn't lawful at a line, without its last newline; none if a file of the command wasn't kept. It
/// shows the line, and says that it is no entry's, who can't move and why, or what stands there in the line that would be lawful.
pub fn trace_message<F: Files>(
    alloc: Global,
    files: &mut F,
    command: &Command<'_>,
    number: u32,
) -> Result<Option<Text>, AllocError>
    requires limits { IsWithinLimits command.now }
{
    let Some(name) = file_in(command, Which::Trace) else {
        return Ok(None);
    };
    match message_at(alloc, files, command, name, number) {
        Ok(message) => Ok(message),
        Err(Refusal::NoMemory) => Err(AllocError),
        Err(_) => Ok(None),
    }
}

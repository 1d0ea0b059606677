ghost use Rattle.std.specs.Prelude.{◌≤◌, length};
ghost use Rattle.st_command.specs.Reading.{IsWithinLimits};
ghost use Rattle.st_outside.specs.declared.files.TheConstants.{FILE_LIMIT};

use crate::names::file_in;
use crate::sources::text_of;
use crate::turn::reason_at;
use st_base::Text;
use st_command::Command;
use st_outside::Files;
use st_policy_diagnostics::row::row_numbered;
use st_policy_diagnostics::shown::row_found;
use st_reading::{Refusal, Which};
use st_schedule::read_schedule;
use std::alloc::{AllocError, Global};

const FORM: &[u8] =
    b", expected 'thread N', 'worker N' or 'operator', after which a count from 1 to 1000000 may stand, or 'rest'";

// Whether the line of this number is the first that isn't in the form.
fn is_out_of_form(alloc: Global, text: &Text, number: u32) -> Result<bool, AllocError>
    requires { length text.now ≤ FILE_LIMIT }
{
    let schedule = read_schedule(alloc, text.bytes())?;
    Ok(schedule.bad == Some(number))
}

// What a message says of the line of this number after showing it: which form it should have, or who can't move and why. Nothing where a
// file of the command wasn't kept.
fn fault_of<F: Files>(
    alloc: Global,
    files: &mut F,
    command: &Command<'_>,
    text: &Text,
    number: u32,
) -> Result<Option<Text>, AllocError>
    requires limits { IsWithinLimits command.now }
    requires short { length text.now ≤ FILE_LIMIT }
{
    if is_out_of_form(alloc, text, number)? {
        return Ok(Some(Text::of(alloc, FORM)?));
    }
    match reason_at(alloc, files, command, number) {
        Ok(reason) => Ok(reason),
        Err(Refusal::NoMemory) => Err(AllocError),
        Err(_) => Ok(None),
    }
}

// The message about the line of this number, which has this fault.
fn line_with(
    alloc: Global,
    name: &Text,
    text: &Text,
    number: u32,
    fault: &Text,
) -> Result<Text, AllocError> {
    let row = row_numbered(text.bytes(), number);
    let mut line = row_found(alloc, name.bytes(), number, row)?;
    line.append(fault.bytes())?;
    Ok(line)
}

/// The message why the schedule of a command is refused at a line, without its newline; none if a file of the command wasn't kept.
pub fn schedule_message<F: Files>(
    alloc: Global,
    files: &mut F,
    command: &Command<'_>,
    number: u32,
) -> Result<Option<Text>, AllocError>
    requires limits { IsWithinLimits command.now }
{
    let Some(name) = file_in(command, Which::Schedule) else {
        return Ok(None);
    };
    let Some(text) = text_of(alloc, files, name)? else {
        return Ok(None);
    };
    match fault_of(alloc, files, command, &text, number)? {
        Some(fault) => Ok(Some(line_with(alloc, name, &text, number, &fault)?)),
        None => Ok(None),
    }
}

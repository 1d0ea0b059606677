use st_base::Text;
use st_command::Command;
use st_policy_diagnostics::shown::OUT_OF_MEMORY;
use st_schedule_diagnostics::names::file_in;
use st_top::{Status, Which};
use st_usage::usage::append_usage;
use std::alloc::{AllocError, Global};

const REFUSED: &str = "refused, and no memory was left for the reason";

fn about_file(
    alloc: Global,
    command: Option<&Command<'_>>,
    which: Which,
    fault: &str,
) -> Result<Text, AllocError> {
    let mut line = Text::of(alloc, b"systrace: ")?;
    if let Some(command) = command
        && let Some(name) = file_in(command, which)
    {
        line.append(name.bytes())?;
        line.append(b": ")?;
    }
    line.append(fault.as_bytes())?;
    Ok(line)
}

fn usage_lines(alloc: Global) -> Result<Text, AllocError> {
    let mut lines = Text::new(alloc);
    append_usage(alloc, &mut lines)?;
    Ok(lines)
}

/// The message for a status alone, without its newline; empty for `Done`.
pub fn message(
    alloc: Global,
    command: Option<&Command<'_>>,
    status: Status,
) -> Result<Text, AllocError> {
    let line = match status {
        Status::Done => "",
        Status::Missing(which) => return about_file(alloc, command, which, "no such file"),
        Status::TooLong(which) => {
            return about_file(alloc, command, which, "holds more than 1048576 bytes");
        }
        Status::Policy(number, _) => {
            return about_file(alloc, command, Which::Policy(number), REFUSED);
        }
        Status::Script(_) => return about_file(alloc, command, Which::Script, REFUSED),
        Status::Schedule(_) => return about_file(alloc, command, Which::Schedule, REFUSED),
        Status::Illegal(_) => return about_file(alloc, command, Which::Trace, REFUSED),
        Status::Usage => return usage_lines(alloc),
        Status::ReadFault => "systrace: a file could not be read",
        Status::WriteFault => "systrace: standard output could not be written",
        Status::NoMemory => OUT_OF_MEMORY,
    };
    Text::of(alloc, line.as_bytes())
}

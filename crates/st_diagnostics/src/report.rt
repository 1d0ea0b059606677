ghost use Rattle.std.specs.Prelude.{IfOk, IfSome};
ghost use Rattle.st_command.specs.Reading.{IsWithinLimits};

use crate::message::message;
use st_base::Text;
use st_command::{Command, StepWords, read_run_words, read_words};
use st_emulation::Emulation;
use st_grammar::PolicyRefusal;
use st_law::Options;
use st_outside::Files;
use st_policy_diagnostics::policy_fault::policy_message;
use st_schedule_diagnostics::names::file_in;
use st_schedule_diagnostics::schedule_fault::schedule_message;
use st_schedule_diagnostics::sources::{env_of, text_of};
use st_script_diagnostics::script_fault::{ReadWith, script_message};
use st_script_faults::ScriptFault;
use st_top::{Status, Which};
use st_trace_diagnostics::trace_message;
use st_wrong_words::wrong_words::usage_message;
use std::alloc::{AllocError, Global};

// Why a policy file is refused.
fn policy_line<F: Files>(
    alloc: Global,
    files: &mut F,
    command: &Command<'_>,
    number: u32,
    refused: PolicyRefusal,
) -> Result<Option<Text>, AllocError> {
    if let Some(name) = file_in(command, Which::Policy(number))
        && let Some(env) = env_of(alloc, files, command)?
        && let Some(text) = text_of(alloc, files, name)?
    {
        let line = policy_message(alloc, name.bytes(), text.bytes(), &env, refused)?;
        return Ok(Some(line));
    }
    Ok(None)
}

// The options and the emulation that the script is read with.
fn read_with(command: &Command<'_>) -> (Options, Emulation) {
    match command {
        Command::Step(step) => (step.options, step.emulation),
        Command::Replay(replay) => (replay.options, replay.emulation),
        Command::Check(check) => (check.options(), check.emulation),
    }
}

// Why the script is refused.
fn script_line<F: Files>(
    alloc: Global,
    files: &mut F,
    command: &Command<'_>,
    fault: ScriptFault,
) -> Result<Option<Text>, AllocError> {
    if let Some(name) = file_in(command, Which::Script)
        && let Some(text) = text_of(alloc, files, name)?
    {
        let (options, emulation) = read_with(command);
        let with = ReadWith {
            options: &options,
            emulation,
        };
        let line = script_message(alloc, name.bytes(), text.bytes(), with, fault)?;
        return Ok(Some(line));
    }
    Ok(None)
}

// The message about a refused file, if the status is about one.
fn refused_file_message<F: Files>(
    alloc: Global,
    files: &mut F,
    command: &Command<'_>,
    status: Status,
) -> Result<Option<Text>, AllocError>
    requires limits { IsWithinLimits command.now }
{
    match status {
        Status::Policy(number, refused) => policy_line(alloc, files, command, number, refused),
        Status::Script(fault) => script_line(alloc, files, command, fault),
        Status::Schedule(number) => schedule_message(alloc, files, command, number),
        Status::Illegal(number) => trace_message(alloc, files, command, number),
        _ => Ok(None),
    }
}

// The command of words, for what is reported of it. A `run` is reported as the `step` with the same words: nothing that is reported of it is
// about a schedule, so that the script stands where the schedule would.
fn command_of(alloc: Global, words: &[Text]) -> Result<Option<Command<'_>>, AllocError>
    ensures { IfOk result (λ command. IfSome command IsWithinLimits) }
{
    match read_run_words(alloc, words)? {
        Some(run) => Ok(Some(Command::Step(StepWords {
            policies: run.policies,
            script: run.script,
            schedule: run.script,
            options: run.options,
            print: run.print,
            emulation: run.emulation,
        }))),
        None => read_words(alloc, words),
    }
}

/// The message about how a call with these words ended, over the files that it read, without its newline. If a file is refused, the first
/// line says what was found there; if it names a byte, two more lines show it. If the words are no command, the first line says why, and
/// the others how a command is written.
pub fn line_of<F: Files>(
    alloc: Global,
    files: &mut F,
    words: &[Text],
    status: Status,
) -> Result<Text, AllocError> {
    if matches!(status, Status::Usage) {
        return usage_message(alloc, words);
    }
    let command = command_of(alloc, words)?;
    if let Some(command) = &command
        && let Some(line) = refused_file_message(alloc, files, command, status)?
    {
        return Ok(line);
    }
    message(alloc, command.as_ref(), status)
}

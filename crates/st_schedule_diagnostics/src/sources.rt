//! What a command was read from: its files as they were kept. If one wasn't kept, nothing is reported of it.

ghost use Rattle.std.specs.Prelude.{◌≤◌, length, IfOk, IfSome};
ghost use Rattle.st_outside.specs.declared.files.TheConstants.{FILE_LIMIT};

use st_base::Text;
use st_command::Command;
use st_emulation::Emulation;
use st_grammar::Env;
use st_law::Options;
use st_outside::{FetchFault, Files};
use st_reading::bare_env;
use st_script::read_script;
use std::alloc::{AllocError, Global};

/// What a file holds.
pub fn text_of<F: Files>(
    alloc: Global,
    files: &mut F,
    name: &Text,
) -> Result<Option<Text>, AllocError>
    ensures { IfOk result (λ text. IfSome text (λ bytes. length bytes ≤ FILE_LIMIT)) }
{
    match files.fetch(alloc, name) {
        Ok(text) => Ok(Some(text)),
        Err(FetchFault::NoMemory) => Err(AllocError),
        Err(_) => Ok(None),
    }
}

// What a script has policies read with.
fn env_of_script<F: Files>(
    alloc: Global,
    files: &mut F,
    name: &Text,
    options: &Options,
    emulation: Emulation,
) -> Result<Option<Env>, AllocError> {
    let Some(text) = text_of(alloc, files, name)? else {
        return Ok(None);
    };
    match read_script(alloc, text.bytes(), options, emulation) {
        Ok(script) => Ok(Some(script.env)),
        Err(_) => Ok(None),
    }
}

/// What the policies of a command are read with.
pub fn env_of<F: Files>(
    alloc: Global,
    files: &mut F,
    command: &Command<'_>,
) -> Result<Option<Env>, AllocError> {
    match command {
        Command::Step(step) => {
            env_of_script(alloc, files, step.script, &step.options, step.emulation)
        }
        Command::Replay(replay) => env_of_script(
            alloc,
            files,
            replay.script,
            &replay.options,
            replay.emulation,
        ),
        Command::Check(check) => match check.script {
            Some(name) => env_of_script(alloc, files, name, &check.options(), check.emulation),
            None => Ok(Some(bare_env(alloc, check.ids.is_some(), check.emulation)?)),
        },
    }
}

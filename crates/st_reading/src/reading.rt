ghost use Rattle.std.specs.Prelude.{◌≡◌, ◌≢◌, ◌⊎◌, false};
ghost use Rattle.st_outside.specs.Count.{HasRisen};
ghost use Rattle.st_command.specs.Reading.{IsWithinLimits};
ghost use Rattle.st_command.specs.declared.command.Command.TheVariants as command;
ghost use Rattle.st_reading.specs.Meaning.{Meaning, Means, is_stop, AreFilesKnown, names_of};
ghost use Rattle.st_reading.specs.Files.{EnvEnds};
ghost use Rattle.st_reading.specs.Ends.{EndsReading, ending};

use crate::environment::bare_env;
use crate::files::{
    InputWords, fetch_trace, read_input, read_policy_files, read_schedule_file, read_script_file,
};
use crate::refusal::Refusal;
use st_base::Text;
use st_command::{CheckWords, Command, ReplayWords, StepWords};
use st_grammar::Env;
use st_law::{Input, ReadSchedule};
use st_outside::Files;
use st_printing::print_policies;
use std::alloc::Global;

/// What a command means, once it and its files are read.
#[derive(Debug, Drop)]
pub enum Reading {
    /// A run of this input by this schedule.
    Run(Input, ReadSchedule),
    /// The replay of a printed trace, as a trace of this input.
    Replay(Input, Text),
    /// A text to be written.
    Text(Text),
}

// The run that the words of `step` ask for.
fn read_step<F: Files>(
    alloc: Global,
    step: &StepWords<'_>,
    files: &mut F,
) -> Result<Reading, Refusal>
    requires { IsWithinLimits (command.Step step.now) }
    ensures contents { F.contents files.new ≡ F.contents files.old }
    ensures ends { EndsReading (F.contents files.old) (command.Step step.now) (F.faults files.old) (F.faults files.new) (F.asked files.old) (F.asked files.new) result }
    ensures quiet { result ≢ Err Refusal.ReadFault → F.faults files.new ≡ F.faults files.old }
{
    let input = read_input(
        alloc,
        files,
        InputWords {
            policies: step.policies.as_slice(),
            script: step.script,
            options: step.options,
            emulation: step.emulation,
        },
    )?;
    let schedule = read_schedule_file(alloc, files, step.schedule)?;
    Ok(Reading::Run(input, schedule))
}

// The replay that the words of `replay` ask for.
fn read_replay<F: Files>(
    alloc: Global,
    replay: &ReplayWords<'_>,
    files: &mut F,
) -> Result<Reading, Refusal>
    requires { IsWithinLimits (command.Replay replay.now) }
    ensures contents { F.contents files.new ≡ F.contents files.old }
    ensures ends { EndsReading (F.contents files.old) (command.Replay replay.now) (F.faults files.old) (F.faults files.new) (F.asked files.old) (F.asked files.new) result }
    ensures quiet { result ≢ Err Refusal.ReadFault → F.faults files.new ≡ F.faults files.old }
{
    let input = read_input(
        alloc,
        files,
        InputWords {
            policies: replay.policies.as_slice(),
            script: replay.script,
            options: replay.options,
            emulation: replay.emulation,
        },
    )?;
    let trace = fetch_trace(alloc, files, replay.trace)?;
    Ok(Reading::Replay(input, trace))
}

// The environment that `check` reads its policy with.
fn env_of_check<F: Files>(
    alloc: Global,
    check: &CheckWords<'_>,
    files: &mut F,
) -> Result<Env, Refusal>
    ensures contents { F.contents files.new ≡ F.contents files.old }
    ensures ends { EnvEnds (F.contents files.old) check.now (F.faults files.old) (F.faults files.new) (F.asked files.old) (F.asked files.new) result }
    ensures quiet { result ≢ Err Refusal.ReadFault → F.faults files.new ≡ F.faults files.old }
{
    match check.script {
        Some(name) => {
            let script = read_script_file(alloc, files, name, &check.options(), check.emulation)?;
            Ok(script.env)
        }
        None => Ok(bare_env(alloc, check.ids.is_some(), check.emulation)?),
    }
}

// The canonical text that the words of `check` ask for.
fn read_check<F: Files>(
    alloc: Global,
    check: &CheckWords<'_>,
    files: &mut F,
) -> Result<Reading, Refusal>
    ensures contents { F.contents files.new ≡ F.contents files.old }
    ensures ends { EndsReading (F.contents files.old) (command.Check check.now) (F.faults files.old) (F.faults files.new) (F.asked files.old) (F.asked files.new) result }
    ensures quiet { result ≢ Err Refusal.ReadFault → F.faults files.new ≡ F.faults files.old }
{
    let env = env_of_check(alloc, check, files)?;
    let policies = read_policy_files(alloc, files, &env, &[check.policy])?;
    Ok(Reading::Text(print_policies(alloc, &policies, env.emulation)?))
}

/// Fetches the files that a command names and reads them: the script, then each policy file, after the policies of the files before it and
/// with the script's environment, then the schedule or the trace.
pub fn read_command<F: Files>(
    alloc: Global,
    command: &Command<'_>,
    files: &mut F,
) -> Result<Reading, Refusal>
    requires { IsWithinLimits command.now }

    // The answer is what the command means, and the names that were asked for are those of the command, in order, up to the file that the
    // answer is about.
    ensures ends { EndsReading (F.contents files.old) command.now (F.faults files.old) (F.faults files.new) (F.asked files.old) (F.asked files.new) result }

    // The files stay as they are, and the count of faults rises only with a read fault.
    ensures contents { F.contents files.new ≡ F.contents files.old }
    ensures quiet { result ≢ Err Refusal.ReadFault → F.faults files.new ≡ F.faults files.old }

    // If each name of the command is known and no count rose, the answer is what the command means, unless memory runs out.
    ensures complete { AreFilesKnown (F.contents files.old) (names_of command.now) → (HasRisen (F.faults files.old) (F.faults files.new) → ⊥) →
        (outcome : Meaning) → is_stop outcome ≡ false → Means (F.contents files.old) command.now outcome →
        (result ≡ Err Refusal.NoMemory) ⊎ (ending result ≡ outcome) }
{
    match command {
        Command::Step(step) => read_step(alloc, step, files),
        Command::Replay(replay) => read_replay(alloc, replay, files),
        Command::Check(check) => read_check(alloc, check, files),
    }
}

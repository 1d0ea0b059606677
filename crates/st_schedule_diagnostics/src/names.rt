use st_base::Text;
use st_command::Command;
use st_reading::Which;

// The name of this number, from 1.
fn numbered<'a>(names: &[&'a Text], number: u32) -> Option<&'a Text> {
    let place = (number as usize).checked_sub(1)?;
    names.get(place).copied()
}

// The policy file of this number, from 1.
fn policy_in<'a>(command: &'a Command<'_>, number: u32) -> Option<&'a Text> {
    match command {
        Command::Step(step) => numbered(step.policies.as_slice(), number),
        Command::Replay(replay) => numbered(replay.policies.as_slice(), number),
        Command::Check(check) => Some(check.policy),
    }
}

/// The word of a command that names a file.
pub fn file_in<'a>(command: &'a Command<'_>, which: Which) -> Option<&'a Text> {
    match (which, command) {
        (Which::Policy(number), _) => policy_in(command, number),
        (Which::Script, Command::Step(step)) => Some(step.script),
        (Which::Script, Command::Replay(replay)) => Some(replay.script),
        (Which::Script, Command::Check(check)) => check.script,
        (Which::Schedule, Command::Step(step)) => Some(step.schedule),
        (Which::Trace, Command::Replay(replay)) => Some(replay.trace),
        (Which::Schedule | Which::Trace, _) => None,
    }
}

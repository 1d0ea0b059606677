//! The names that the rows of a script give.

use st_base::Text;
use st_policy_diagnostics::details::{MOST_NAMES, known_front};
use st_policy_diagnostics::shown::append_shown;
use st_statements::{ScriptLine, Statement};
use std::alloc::AllocError;

/// What a row gives a name to.
#[derive(Clone, Copy, Debug, PartialEq, Eq)]
pub enum Kind {
    User,
    Group,
    Object,
    Process,
    Thread,
    Policy,
}

/// The name that a line gives to something of a kind: of an object its path.
pub fn given_by(line: &ScriptLine, kind: Kind) -> Option<&[u8]> {
    let Some(says) = &line.says else {
        return None;
    };
    match (kind, says) {
        (Kind::User, Statement::User(user)) => Some(user.name.bytes()),
        (Kind::Group, Statement::Group(group)) => Some(group.name.bytes()),
        (Kind::Object, Statement::Object { path, .. }) => Some(path.bytes()),
        (Kind::Process, Statement::Process(process)) => Some(process.name.bytes()),
        (Kind::Thread, Statement::Thread { name, .. }) => Some(name.bytes()),
        (Kind::Policy, Statement::Policy { name, .. }) => Some(name.bytes()),
        _ => None,
    }
}

/// How many of the lines give a name to something of a kind.
pub fn count_given(lines: &[ScriptLine], kind: Kind) -> usize {
    lines
        .iter()
        .filter(|line| given_by(line, kind).is_some())
        .count()
}

/// The first line that gives this name to something of a kind.
pub fn line_giving(lines: &[ScriptLine], kind: Kind, name: &[u8]) -> Option<u32> {
    for line in lines {
        if let Some(given) = given_by(line, kind)
            && given == name
        {
            return Some(line.number);
        }
    }
    None
}

fn append_names(line: &mut Text, lines: &[ScriptLine], kind: Kind) -> Result<(), AllocError> {
    let mut between = known_front(count_given(lines, kind));
    for row in lines {
        if let Some(name) = given_by(row, kind) {
            line.append(between)?;
            append_shown(line, name)?;
            between = b", ";
        }
    }
    Ok(())
}

// Appends which names the lines give to things of a kind; nothing where they are many.
fn append_given(
    line: &mut Text,
    lines: &[ScriptLine],
    kind: Kind,
    none: &str,
) -> Result<(), AllocError> {
    match count_given(lines, kind) {
        0 => line.append(none.as_bytes()),
        1..=MOST_NAMES => append_names(line, lines, kind),
        _ => Ok(()),
    }
}

/// Appends which processes the lines have.
pub fn append_processes(line: &mut Text, lines: &[ScriptLine]) -> Result<(), AllocError> {
    append_given(line, lines, Kind::Process, "; no process is known")
}

/// Appends which threads the lines have.
pub fn append_threads(line: &mut Text, lines: &[ScriptLine]) -> Result<(), AllocError> {
    append_given(line, lines, Kind::Thread, "; no thread is known")
}

/// Appends which policies the lines have.
pub fn append_policies(line: &mut Text, lines: &[ScriptLine]) -> Result<(), AllocError> {
    append_given(line, lines, Kind::Policy, "; no policy is known")
}

//! What is wrong with a row that names what isn't there, or what is there already.

use st_base::Text;
use st_policy_diagnostics::shown::append_shown;
use st_row_diagnostics::given::{
    Kind, append_policies, append_processes, append_threads, line_giving,
};
use st_row_diagnostics::refused_row::{Misfit, RefusedRow};
use st_script_names::names::directory_of;
use st_statements::{ScriptLine, Statement};
use std::alloc::{AllocError, Global};

// The number of a row's line; 0 where the row has no token.
fn number_of(refused: &RefusedRow<'_>) -> u32 {
    match refused.tokens.first() {
        Some(first) => first.line,
        None => 0,
    }
}

// Appends a few words and the number of a line.
fn append_at_line(line: &mut Text, words: &[u8], number: u32) -> Result<(), AllocError> {
    line.append(words)?;
    line.append_number(u64::from(number))
}

// Appends what is the matter with a name at a line.
fn append_at_fault(
    line: &mut Text,
    name: &[u8],
    number: u32,
    matter: &[u8],
) -> Result<(), AllocError> {
    line.append(b"; ")?;
    append_shown(line, name)?;
    append_at_line(line, b" at line ", number)?;
    line.append(matter)
}

// Appends why a path is not that of a directory of a row above.
fn append_no_directory(
    line: &mut Text,
    refused: &RefusedRow<'_>,
    path: &[u8],
) -> Result<(), AllocError> {
    match line_giving(refused.lines, Kind::Object, path) {
        Some(number) if number < number_of(refused) => {
            append_at_fault(line, path, number, b" is no directory")
        }
        Some(number) => append_at_fault(line, path, number, b" is below"),
        None => {
            line.append(b"; there is no ")?;
            append_shown(line, path)
        }
    }
}

fn unknown_directory(
    alloc: Global,
    refused: &RefusedRow<'_>,
    path: &[u8],
) -> Result<Misfit, AllocError> {
    let mut misfit = Misfit::at(
        alloc,
        1,
        "a path in the root or in a directory of a row above",
    )?;
    append_no_directory(&mut misfit.expected, refused, directory_of(path))?;
    Ok(misfit)
}

fn unknown_process(
    alloc: Global,
    refused: &RefusedRow<'_>,
    process: &[u8],
) -> Result<Misfit, AllocError> {
    let mut misfit = Misfit::at(alloc, 3, "the name of a process of a row above")?;
    let expected = &mut misfit.expected;
    match line_giving(refused.lines, Kind::Process, process) {
        Some(number) => append_at_fault(expected, process, number, b" is below")?,
        None => append_processes(expected, refused.above)?,
    }
    Ok(misfit)
}

fn unknown_thread(alloc: Global, refused: &RefusedRow<'_>) -> Result<Misfit, AllocError> {
    let mut misfit = Misfit::at(alloc, 1, "the name of a thread of the script")?;
    append_threads(&mut misfit.expected, refused.lines)?;
    Ok(misfit)
}

fn unknown_policy(
    alloc: Global,
    refused: &RefusedRow<'_>,
    policy: &[u8],
) -> Result<Misfit, AllocError> {
    let mut misfit = Misfit::at(alloc, 1, "the name of a policy of a row above")?;
    let expected = &mut misfit.expected;
    match line_giving(refused.lines, Kind::Policy, policy) {
        Some(number) => append_at_fault(expected, policy, number, b" is below")?,
        None => append_policies(expected, refused.above)?,
    }
    Ok(misfit)
}

/// What is wrong with a row that names what isn't there.
pub fn unknown_name(alloc: Global, refused: &RefusedRow<'_>) -> Result<Option<Misfit>, AllocError> {
    let misfit = match refused.says {
        Some(Statement::Object { path, .. }) => unknown_directory(alloc, refused, path.bytes())?,
        Some(
            Statement::Thread {
                process: Some(process),
                ..
            },
        ) => unknown_process(alloc, refused, process.bytes())?,
        Some(Statement::Fork(_)) => unknown_thread(alloc, refused)?,
        Some(Statement::Reload(policy)) => unknown_policy(alloc, refused, policy.bytes())?,
        _ => return Ok(None),
    };
    Ok(Some(misfit))
}

fn new_name(kind: Kind) -> &'static str {
    match kind {
        Kind::User => "a name that no user has yet",
        Kind::Group => "a name that no group has yet",
        Kind::Object => "a path that no object has yet",
        Kind::Process => "a name that no process has yet",
        Kind::Thread => "a name that no thread has yet",
        Kind::Policy => "a name that no policy has yet",
    }
}

// A row gives a name that a row above has given.
fn second_name(
    alloc: Global,
    refused: &RefusedRow<'_>,
    kind: Kind,
    name: &[u8],
) -> Result<Misfit, AllocError> {
    let mut misfit = Misfit::at(alloc, 1, new_name(kind))?;
    if let Some(number) = line_giving(refused.above, kind, name) {
        append_at_line(&mut misfit.expected, b"; the first is at line ", number)?;
    }
    Ok(misfit)
}

// The line of the thread with this name, where it starts in a process.
fn line_starting(lines: &[ScriptLine], thread: &[u8]) -> Option<u32> {
    for line in lines {
        if let Some(
            Statement::Thread {
                name,
                process: Some(_),
            },
        ) = &line.says
            && name.bytes() == thread
        {
            return Some(line.number);
        }
    }
    None
}

// The first line that forks a thread.
fn line_forking(lines: &[ScriptLine], thread: &[u8]) -> Option<u32> {
    for line in lines {
        if let Some(Statement::Fork(name)) = &line.says
            && name.bytes() == thread
        {
            return Some(line.number);
        }
    }
    None
}

fn started_thread(
    alloc: Global,
    refused: &RefusedRow<'_>,
    thread: &[u8],
) -> Result<Misfit, AllocError> {
    let mut misfit = Misfit::at(alloc, 1, "a thread that nothing starts yet")?;
    let expected = &mut misfit.expected;
    if let Some(number) = line_starting(refused.lines, thread) {
        append_at_line(expected, b"; it starts in a process, at line ", number)?;
    } else if let Some(number) = line_forking(refused.above, thread) {
        append_at_line(expected, b"; it is forked at line ", number)?;
    }
    Ok(misfit)
}

/// What is wrong with a row that names what is there already.
pub fn duplicate_name(
    alloc: Global,
    refused: &RefusedRow<'_>,
) -> Result<Option<Misfit>, AllocError> {
    let (kind, name) = match refused.says {
        Some(Statement::User(user)) => (Kind::User, user.name.bytes()),
        Some(Statement::Group(group)) => (Kind::Group, group.name.bytes()),
        Some(Statement::Object { path, .. }) => (Kind::Object, path.bytes()),
        Some(Statement::Process(process)) => (Kind::Process, process.name.bytes()),
        Some(Statement::Thread { name, .. }) => (Kind::Thread, name.bytes()),
        Some(Statement::Policy { name, .. }) => (Kind::Policy, name.bytes()),
        Some(Statement::Fork(name)) => {
            return Ok(Some(started_thread(alloc, refused, name.bytes())?));
        }
        _ => return Ok(None),
    };
    Ok(Some(second_name(alloc, refused, kind, name)?))
}

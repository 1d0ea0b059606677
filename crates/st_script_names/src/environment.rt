ghost use Rattle.std.specs.Prelude.{◌≡◌, ◌++◌, [], find, ◌==◌, map, decimal, IfOk, OnOk, option_copied};
ghost use Rattle.st_script_names.specs.Environment.{new_user, users_below, new_group, groups_below, script_process, is_refused, is_given, first_traced, user_of, dollars_by, dollars_of, user_id, group_id, learns, environment_of};

use crate::limits::MOST_PROCESSES;
use crate::names::NameIndex;
use st_base::{Sequence, Text};
use st_emulation::Emulation;
use st_grammar::{Env, NamedId};
use st_law::{Mode, Options};
use st_lex::Dollars;
use st_statements::parts::is_long;
use st_statements::{ScriptLine, ScriptProcess, Statement};
use st_trace::{GroupRow, UserRow};
use std::alloc::{AllocError, Global};

// The user that a row defines, if no row above has its name.
fn new_user<'a>(known: &NameIndex, says: &'a Option<Statement>) -> Option<&'a UserRow>
    ensures { option_copied result ≡ new_user known.now says.now }
{
    match says {
        Some(Statement::User(user)) if !known.has(user.name.bytes()) => Some(user),
        _ => None,
    }
}

// Adds the users of lines, of each name the first.
fn add_users<'a>(
    users: &mut Sequence<&'a UserRow>,
    known: &mut NameIndex<'a>,
    lines: &'a [ScriptLine],
) -> Result<(), AllocError>
    ensures { OnOk result (map (λ user. user.now) users.new ≡ map (λ user. user.now) users.old ++ users_below known.old lines.now) }
{
    for line in lines {
        if let Some(user) = new_user(known, &line.says) {
            users.push(user)?;
            known.add(user.name.bytes())?;
        }
    }
    Ok(())
}

// The users of lines, of each name the first.
fn users_of<'a>(alloc: Global, lines: &'a [ScriptLine]) -> Result<Sequence<&'a UserRow>, AllocError>
    ensures { IfOk result (λ users. map (λ user. user.now) users ≡ users_below [] lines.now) }
{
    let mut users = Sequence::new(alloc);
    add_users(&mut users, &mut NameIndex::new(alloc), lines)?;
    Ok(users)
}

// The group that a row defines, if no row above has its name.
fn new_group<'a>(known: &NameIndex, says: &'a Option<Statement>) -> Option<&'a GroupRow>
    ensures { option_copied result ≡ new_group known.now says.now }
{
    match says {
        Some(Statement::Group(group)) if !known.has(group.name.bytes()) => Some(group),
        _ => None,
    }
}

fn group_id(alloc: Global, group: &GroupRow) -> Result<NamedId, AllocError>
    ensures { IfOk result (λ id. id ≡ group_id group.now) }
{
    Ok(NamedId {
        name: group.name.copy(alloc)?,
        id: group.gid,
    })
}

// Adds the groups of lines, of each name the first.
fn add_groups<'a>(
    alloc: Global,
    groups: &mut Sequence<NamedId>,
    known: &mut NameIndex<'a>,
    lines: &'a [ScriptLine],
) -> Result<(), AllocError>
    ensures { OnOk result (groups.new ≡ groups.old ++ map group_id (groups_below known.old lines.now)) }
{
    for line in lines {
        if let Some(group) = new_group(known, &line.says) {
            groups.push(group_id(alloc, group)?)?;
            known.add(group.name.bytes())?;
        }
    }
    Ok(())
}

// The groups of lines, of each name the first.
fn group_ids(alloc: Global, lines: &[ScriptLine]) -> Result<Sequence<NamedId>, AllocError>
    ensures { IfOk result (λ ids. ids ≡ map group_id (groups_below [] lines.now)) }
{
    let mut groups = Sequence::new(alloc);
    add_groups(alloc, &mut groups, &mut NameIndex::new(alloc), lines)?;
    Ok(groups)
}

// The process of a row, if it has one.
fn process_of(says: &Option<Statement>) -> Option<&ScriptProcess>
    ensures { option_copied result ≡ script_process says.now }
{
    match says {
        Some(Statement::Process(process)) => Some(process),
        _ => None,
    }
}

// Whether a process is refused, given the processes above.
fn is_refused(known: &NameIndex, process: &ScriptProcess) -> bool
    ensures { result ≡ is_refused known.now process.now }
{
    known.has(process.name.bytes())
        || known.len() >= MOST_PROCESSES
        || is_long(process.binary.bytes())
        || is_long(process.cwd.bytes())
}

// The first traced process of lines that isn't refused, below rows with these processes.
fn first_traced<'a>(
    known: &mut NameIndex<'a>,
    lines: &'a [ScriptLine],
) -> Result<Option<&'a ScriptProcess>, AllocError>
    ensures { IfOk result (λ process. option_copied process ≡ first_traced known.old lines.now) }
{
    for line in lines {
        if let Some(process) = process_of(&line.says) {
            if process.traced && !is_refused(known, process) {
                return Ok(Some(process));
            }
            known.add(process.name.bytes())?;
        }
    }
    Ok(None)
}

// The user of a traced process: that of `-c` if given, otherwise its own.
fn user_of(options: &Options, process: &ScriptProcess) -> u32
    ensures { result ≡ user_of options.now process.now }
{
    match options.ids {
        Some((uid, _)) => uid,
        None => process.uid,
    }
}

// The first user with an id.
fn user_with<'a>(users: &[&'a UserRow], uid: u32) -> Option<&'a UserRow>
    ensures { option_copied result ≡ find (λ user. user.uid == uid) (map (λ user. user.now) users.now) }
{
    for user in users {
        if user.uid == uid {
            return Some(user);
        }
    }
    None
}

// The texts that replace `$HOME`, `$USER` and `$CWD`, from these bytes.
fn dollars_with(alloc: Global, home: &[u8], user: &[u8], cwd: &[u8]) -> Result<Dollars, AllocError>
    ensures { IfOk result (λ dollars. dollars ≡ record { home = home.now; user = user.now; cwd = cwd.now }) }
{
    Ok(Dollars {
        home: Text::of(alloc, home)?,
        user: Text::of(alloc, user)?,
        cwd: Text::of(alloc, cwd)?,
    })
}

// An id in digits.
fn digits_of(alloc: Global, id: u32) -> Result<Text, AllocError>
    ensures { IfOk result (λ digits. digits ≡ decimal id) }
{
    let mut digits = Text::new(alloc);
    digits.append_number(u64::from(id))?;
    Ok(digits)
}

fn dollars_by(
    alloc: Global,
    uid: u32,
    cwd: &Text,
    user: Option<&UserRow>,
) -> Result<Dollars, AllocError>
    ensures { IfOk result (λ dollars. dollars ≡ dollars_by uid cwd.now (option_copied user.entry)) }
{
    match user {
        Some(user) => dollars_with(alloc, user.home.bytes(), user.name.bytes(), cwd.bytes()),
        None => {
            let digits = digits_of(alloc, uid)?;
            dollars_with(alloc, b"/", digits.bytes(), cwd.bytes())
        }
    }
}

// The texts that replace `$HOME`, `$USER` and `$CWD`: those of the first traced process, or of root if there is none.
fn dollars_of(
    alloc: Global,
    options: &Options,
    users: &[&UserRow],
    process: Option<&ScriptProcess>,
) -> Result<Dollars, AllocError>
    ensures { IfOk result (λ dollars. dollars ≡ dollars_of options.now (map (λ user. user.now) users.now) (option_copied process.entry)) }
{
    match process {
        Some(process) => {
            let uid = user_of(options, process);
            dollars_by(alloc, uid, &process.cwd, user_with(users, uid))
        }
        None => dollars_with(alloc, b"/root", b"root", b"/"),
    }
}

fn user_id(alloc: Global, user: &UserRow) -> Result<NamedId, AllocError>
    ensures { IfOk result (λ id. id ≡ user_id user.now) }
{
    Ok(NamedId {
        name: user.name.copy(alloc)?,
        id: user.uid,
    })
}

fn user_ids(alloc: Global, users: &[&UserRow]) -> Result<Sequence<NamedId>, AllocError>
    ensures { IfOk result (λ ids. ids ≡ map user_id (map (λ user. user.now) users.now)) }
{
    let mut ids = Sequence::new(alloc);
    for user in users {
        ids.push(user_id(alloc, user)?)?;
    }
    Ok(ids)
}

fn learns(mode: Mode) -> bool
    ensures { result ≡ learns mode }
{
    match mode {
        Mode::Learn => true,
        Mode::Enforce => false,
        Mode::AskText => false,
    }
}

// The users of lines by name, and the texts that replace `$HOME`, `$USER` and `$CWD`.
fn users_and_dollars(
    alloc: Global,
    options: &Options,
    lines: &[ScriptLine],
) -> Result<(Sequence<NamedId>, Dollars), AllocError>
    ensures users { IfOk result (λ both. both.0 ≡ map user_id (users_below [] lines.now)) }
    ensures dollars { IfOk result (λ both. both.1 ≡ dollars_of options.now (users_below [] lines.now) (first_traced [] lines.now)) }
{
    let users = users_of(alloc, lines)?;
    let process = first_traced(&mut NameIndex::new(alloc), lines)?;
    let ids = user_ids(alloc, users.as_slice())?;
    Ok((ids, dollars_of(alloc, options, users.as_slice(), process)?))
}

/// The environment that policies and the filters of replies are read with: users and groups of all lines, of each name the first, the
/// three texts of the first traced process, and the emulation. A process that is refused is skipped.
pub fn environment_of(
    alloc: Global,
    options: &Options,
    lines: &[ScriptLine],
    emulation: Emulation,
) -> Result<Env, AllocError>
    ensures { IfOk result (λ env. env ≡ environment_of options.now lines.now emulation) }
{
    let (users, dollars) = users_and_dollars(alloc, options, lines)?;
    Ok(Env {
        users,
        groups: group_ids(alloc, lines)?,
        dollars,
        elevate: options.ids.is_some(),
        learn: learns(options.mode),
        emulation,
    })
}

ghost use Rattle.std.specs.Prelude.{◌≡◌, ℕ, option_copied, IfOk, OnOk};
ghost use Rattle.std.specs.List.{list_any};
ghost use Rattle.st_base.specs.Numbered.{item_at_number};
ghost use Rattle.st_effects.specs.Changes.{owner_after, owner_after_change};
ghost use Rattle.st_law.specs.Processes.{first_process};
ghost use Rattle.st_law.specs.Threads.{first_owner};
ghost use Rattle.st_audit.specs.Ledger.{owner_in, row_in};
ghost use Rattle.st_audit.specs.Rows.{changes_row, row_after, row_after_change, printed_row};

use st_base::{Pid, Text, Tid};
use st_law::Input;
use st_trace::Change;
use std::alloc::{AllocError, Global};
use std::collections::BTreeMap;
use std::marker::Model;

/// What an audit needs of a process: whether it is traced, and its policy.
#[derive(Drop)]
pub struct Row<'a> {
    traced: bool,
    policy: &'a [u8],
}

impl<'a> Model for Row<'a> {
    ghost use Rattle.st_audit.specs.Rows.{Row, row_with};

    ghost Value = { Row };

    ghost view = { λ r. row_with r.traced r.policy.now };
}

impl<'a> Row<'a> {
    /// Whether policies apply to the process.
    pub fn is_traced(&self) -> bool
        ensures { result ≡ self.now.traced }
    {
        self.traced
    }

    /// The binary whose policy applies to the process.
    pub fn policy(&self) -> &'a [u8]
        ensures { result.now ≡ self.now.policy }
    {
        self.policy
    }

    // A copy with its own memory.
    fn kept(&self, alloc: Global) -> Result<KeptRow, AllocError>
        ensures { IfOk result (λ row. row ≡ self.now) }
    {
        Ok(KeptRow {
            traced: self.traced,
            policy: Text::of(alloc, self.policy)?,
        })
    }
}

/// What is kept of a process whose row was changed.
#[derive(Drop)]
pub struct KeptRow {
    traced: bool,
    policy: Text,
}

impl Model for KeptRow {
    ghost use Rattle.st_audit.specs.Rows.{Row, row_with};

    ghost Value = { Row };

    ghost view = { λ r. row_with r.traced r.policy };
}

impl KeptRow {
    // What an audit needs of the process.
    fn row(&self) -> Row<'_>
        ensures { result ≡ self.now }
    {
        Row {
            traced: self.traced,
            policy: self.policy.bytes(),
        }
    }
}

/// The item with a number, counted from 1.
pub fn item_at_number<T>(items: &[T], number: u32) -> Option<&T>
    ensures { option_copied result ≡ item_at_number items.now number }
{
    let index = number.checked_sub(1)?;
    items.get(index as usize)
}

// The process that a thread starts in; 0 if a fork starts the thread.
fn first_owner(input: &Input, tid: Tid) -> Pid
    ensures { result ≡ first_owner input.now tid }
{
    match item_at_number(input.start.threads.as_slice(), tid) {
        Some(row) => row.process.unwrap_or(0),
        None => 0,
    }
}

// The row of a process before the first entry.
fn first_row(input: &Input, pid: Pid) -> Row<'_>
    ensures { result ≡ printed_row (first_process input.now pid) }
{
    match item_at_number(input.start.processes.as_slice(), pid) {
        Some(row) => Row {
            traced: row.traced,
            policy: row.binary.bytes(),
        },
        None => Row {
            traced: false,
            policy: b"",
        },
    }
}

/// The process of a thread, 0 before the thread starts; the map has the threads that forks have started.
pub fn owner_of(input: &Input, owners: &BTreeMap<Tid, Pid>, tid: Tid) -> Pid
    ensures { result ≡ owner_in input.now owners.now tid }
{
    match owners.get(&tid) {
        Some(pid) => *pid,
        None => first_owner(input, tid),
    }
}

/// What an audit needs of a process; the map has the processes whose rows were changed.
pub fn row_of<'a>(input: &'a Input, rows: &'a BTreeMap<Pid, KeptRow>, pid: Pid) -> Row<'a>
    ensures { result ≡ row_in input.now rows.now pid }
{
    match rows.get(&pid) {
        Some(kept) => kept.row(),
        None => first_row(input, pid),
    }
}

// Updates the map of the threads that forks have started by a change. A thread starts once.
fn note_started(
    input: &Input,
    owners: &mut BTreeMap<Tid, Pid>,
    change: &Change,
) -> Result<(), AllocError>
    ensures { OnOk result ((t : ℕ) → owner_in input.now owners.new t ≡ owner_after_change t (owner_in input.now owners.old t) change.now) }
{
    if let Change::Forked { pid, tid, .. } = change
        && owner_of(input, owners, *tid) == 0
    {
        owners.insert(*tid, *pid)?;
    }
    Ok(())
}

/// Updates the map of the threads that forks have started by changes.
pub fn note_owners(
    input: &Input,
    owners: &mut BTreeMap<Tid, Pid>,
    changes: &[Change],
) -> Result<(), AllocError>
    ensures { OnOk result ((t : ℕ) → owner_in input.now owners.new t ≡ owner_after t (owner_in input.now owners.old t) changes.now) }
{
    for change in changes {
        note_started(input, owners, change)?;
    }
    Ok(())
}

// Whether a change gives a process another row.
fn changes_row(change: &Change) -> bool
    ensures { result ≡ changes_row change.now }
{
    matches!(change, Change::Forked { .. } | Change::Policy(_))
}

// Whether one of these changes gives a process another row.
fn changes_some(changes: &[Change]) -> bool
    ensures { result ≡ list_any changes_row changes.now }
{
    changes.iter().any(|change| changes_row(change))
}

// Updates the map of rows by a change that process `pid` makes; `parent` is the row that this process had before its changes.
fn note_row(
    alloc: Global,
    input: &Input,
    rows: &mut BTreeMap<Pid, KeptRow>,
    pid: Pid,
    parent: &KeptRow,
    change: &Change,
) -> Result<(), AllocError>
    ensures { OnOk result ((p : ℕ) → row_in input.now rows.new p ≡ row_after_change parent.now pid p (row_in input.now rows.old p) change.now) }
{
    match change {
        Change::Forked { pid: child, .. } => {
            let row = parent.row().kept(alloc)?;
            rows.insert(*child, row)?;
        }
        Change::Policy(binary) => {
            let row = KeptRow {
                traced: row_of(input, rows, pid).is_traced(),
                policy: binary.copy(alloc)?,
            };
            rows.insert(pid, row)?;
        }
        _ => {}
    }
    Ok(())
}

/// Updates the map of rows by changes that a process makes: a child has the row that its parent had before these changes.
pub fn note_rows(
    alloc: Global,
    input: &Input,
    rows: &mut BTreeMap<Pid, KeptRow>,
    pid: Pid,
    changes: &[Change],
) -> Result<(), AllocError>
    ensures { OnOk result ((p : ℕ) → row_in input.now rows.new p ≡ row_after (row_in input.now rows.old pid) pid p (row_in input.now rows.old p) changes.now) }
{
    if !changes_some(changes) {
        return Ok(());
    }
    let parent = row_of(input, rows, pid).kept(alloc)?;
    for change in changes {
        note_row(alloc, input, rows, pid, &parent, change)?;
    }
    Ok(())
}

ghost use Rattle.std.specs.Prelude.{◌≡◌, ◌≢◌, ◌^◌, ◌<◌, ◌≤◌, ℕ, List, [], None, Some, Ok, Err, length, IfOk, IfErr, OnOk};
ghost use Rattle.st_emulation.specs.declared.emulation.Emulation.{Emulation};
ghost use Rattle.st_filter.specs.Policies.{filters_in};
ghost use Rattle.st_filter.specs.declared.set.TheConstants.{MOST_FILTERS};
ghost use Rattle.st_law.specs.declared.input.Options.{Options};
ghost use Rattle.st_reached.specs.Scripts.{IsBounded};
ghost use Rattle.st_script.specs.Bounds.{IsWithinBounds};
ghost use Rattle.st_script.specs.Startable.{IsRunnableScript};
ghost use Rattle.st_script.specs.declared.reading.ReadScript.{ReadScript};
ghost use Rattle.st_script_names.specs.Environment.{environment_of};
ghost use Rattle.st_script_faults.specs.Faults.{filters_after, first_fault, first_of, no_filters, script_fault, script_lexical_fault};
ghost use Rattle.st_script_names.specs.Names.{no_names};
ghost use Rattle.st_script.specs.Reading.{object_name, started_process, with_row, with_rows, only_threads, start_of, script_with, read_lines, script_in};

use crate::bodies::threads_in;
use st_base::{Sequence, Text};
use st_emulation::Emulation;
use st_filter::{BinaryPolicy, Reply};
use st_grammar::Env;
use st_law::Options;
use st_lex::{LexFault, tokens};
use st_model::NewNode;
use st_names::AbsName;
use st_script_faults::faults::{Whole, first_fault, whole_of};
use st_script_faults::{ScriptFault, ScriptFilters};
use st_statements::lines::looked_at;
use st_statements::{ScriptLine, ScriptProcess, Statement, lines_of_tokens};
use st_trace::{ProcessRow, Start, ThreadRow, TreeRow};
use std::alloc::{AllocError, Global};

/// A script that was read.
#[derive(Debug, Drop)]
pub struct ReadScript {
    /// The start of its run: as the text says it, until it is made native.
    pub start: Start,
    /// The environment that policies are read with.
    pub env: Env,
    /// The operator's replies, in order.
    pub replies: Sequence<Reply>,
    /// The policies that reloads put in force, counted from 1.
    pub blocks: Sequence<BinaryPolicy>,
}

// The name that a path spells, or the root's if the path is empty.
fn name_of_path(alloc: Global, path: &Text) -> Result<AbsName, AllocError>
    ensures { IfOk result (λ name. name ≡ object_name path.now) }
{
    AbsName::of_parts(alloc, &path.bytes()[path.len().min(1)..])
}

// The row of an object at a path.
fn tree_row(alloc: Global, path: &Text, new: NewNode) -> Result<TreeRow, AllocError>
    ensures { IfOk result (λ row. row ≡ record { name = object_name path.now; new = new }) }
{
    let name = name_of_path(alloc, path)?;
    Ok(TreeRow { name, new })
}

// The row of a process, as a run starts with it.
fn started_process(alloc: Global, process: ScriptProcess) -> Result<ProcessRow, AllocError>
    ensures { IfOk result (λ row. row ≡ started_process process) }
{
    let ScriptProcess {
        traced,
        binary,
        uid,
        gid,
        cwd,
        ..
    } = process;
    let cwd = AbsName::of(alloc, cwd.bytes())?;
    Ok(ProcessRow {
        traced,
        binary,
        uid,
        gid,
        cwd,
    })
}

// Adds the row of a line, if it has one other than a thread's.
fn move_row(alloc: Global, start: &mut Start, line: ScriptLine) -> Result<(), AllocError>
    ensures { OnOk result (start.new ≡ with_row start.old line.says) }
{
    let ScriptLine { says, .. } = line;
    match says {
        Some(Statement::User(user)) => start.users.push(user),
        Some(Statement::Group(group)) => start.groups.push(group),
        Some(Statement::Object { path, new }) => {
            let row = tree_row(alloc, &path, new)?;
            start.tree.push(row)
        }
        Some(Statement::Process(process)) => {
            let row = started_process(alloc, process)?;
            start.processes.push(row)
        }
        _ => Ok(()),
    }
}

// Adds the rows of lines other than those of threads. What the lines hold is moved, and not copied.
fn move_rows(alloc: Global, start: &mut Start, lines: Vec<ScriptLine>) -> Result<(), AllocError>
    ensures { OnOk result (start.new ≡ with_rows start.old lines.items) }
{
    for line in lines {
        move_row(alloc, start, line)?;
    }
    Ok(())
}

// A start with these threads alone.
fn only_threads(alloc: Global, threads: Sequence<ThreadRow>) -> Start
    ensures { result ≡ only_threads threads }
{
    Start {
        users: Sequence::new(alloc),
        groups: Sequence::new(alloc),
        tree: Sequence::new(alloc),
        processes: Sequence::new(alloc),
        threads,
    }
}

// The start of a script's run.
fn start_of(alloc: Global, lines: Vec<ScriptLine>) -> Result<Start, AllocError>
    ensures { IfOk result (λ start. start ≡ start_of lines.items) }
{
    let mut start = only_threads(alloc, threads_in(alloc, lines.as_slice())?);
    move_rows(alloc, &mut start, lines)?;
    Ok(start)
}

// What lines without a fault are read as, with their replies and their policies.
#[tactic(auto, using(crate::proofs::FiltersRead::replies_are, crate::proofs::FiltersRead::blocks_are))]
fn script_with(
    alloc: Global,
    env: Env,
    lines: Vec<ScriptLine>,
    filters: ScriptFilters,
) -> Result<ReadScript, AllocError>
    requires { filters ≡ filters_after env no_filters lines.items }
    ensures { IfOk result (λ script. script ≡ script_with env lines.items) }
{
    let start = start_of(alloc, lines)?;
    let (replies, blocks) = filters.into_parts();
    Ok(ReadScript {
        start,
        env,
        replies,
        blocks,
    })
}

// The replies and the policies of lines, unless one of them has a fault or this lexical fault follows them.
fn faultless_filters(
    alloc: Global,
    whole: &Whole,
    broken: Option<LexFault>,
    lines: &[ScriptLine],
) -> Result<ScriptFilters, ScriptFault>
    ensures faultless { IfOk result (λ filters. first_of (first_fault whole.now no_names lines.now) (script_lexical_fault broken) ≡ None) }
    ensures filters { IfOk result (λ filters. filters ≡ filters_after whole.now.env no_filters lines.now) }
    ensures fault { IfErr result (λ f. f ≢ ScriptFault.NoMemory → first_of (first_fault whole.now no_names lines.now) (script_lexical_fault broken) ≡ Some f) }
{
    let mut filters = ScriptFilters::new(alloc);
    match first_fault(alloc, whole, lines, &mut filters)? {
        Some(fault) => Err(fault),
        None => match broken {
            Some(fault) => Err(ScriptFault::Lex(fault)),
            None => Ok(filters),
        },
    }
}

// The environment, the replies and the policies of lines, unless one of them has a fault or this lexical fault follows them.
fn env_and_filters(
    alloc: Global,
    options: &Options,
    broken: Option<LexFault>,
    lines: &[ScriptLine],
    emulation: Emulation,
) -> Result<(Env, ScriptFilters), ScriptFault>
    ensures faultless { IfOk result (λ both. script_fault options.now broken lines.now emulation ≡ None) }
    ensures env { IfOk result (λ both. both.0 ≡ environment_of options.now lines.now emulation) }
    ensures filters { IfOk result (λ both. both.1 ≡ filters_after both.0 no_filters lines.now) }
    ensures fault { IfErr result (λ f. f ≢ ScriptFault.NoMemory → script_fault options.now broken lines.now emulation ≡ Some f) }
{
    let whole = whole_of(alloc, broken.is_some(), options, lines, emulation)?;
    let filters = faultless_filters(alloc, &whole, broken, lines);
    let env = whole.into_env();
    Ok((env, filters?))
}

// What lines are read as, if this lexical fault, or none, follows them.
fn read_lines(
    alloc: Global,
    options: &Options,
    broken: Option<LexFault>,
    lines: Vec<ScriptLine>,
    emulation: Emulation,
) -> Result<ReadScript, ScriptFault>
    ensures ok { IfOk result (λ script. read_lines options.now broken lines.items emulation ≡ Ok script) }
    ensures fault { IfErr result (λ f. f ≢ ScriptFault.NoMemory → read_lines options.now broken lines.items emulation ≡ Err f) }
{
    let (env, filters) = env_and_filters(alloc, options, broken, lines.as_slice(), emulation)?;
    Ok(script_with(alloc, env, lines, filters)?)
}

/// Reads a script whose filters are for an emulation: the start as it is written, the environment that policies are read with, the
/// operator's replies, and the policies that reloads put in force. Otherwise the fault is that of the first line that has one. If the line
/// has several, it is the first kind of them, and a lexical fault before all others.
pub fn read_script(
    alloc: Global,
    text: &[u8],
    options: &Options,
    emulation: Emulation,
) -> Result<ReadScript, ScriptFault>
    requires { length text.now < 2 ^ 32 }
    ensures ok { IfOk result (λ script. script_in text.now options.now emulation ≡ Ok script) }
    ensures fault { IfErr result (λ f. f ≢ ScriptFault.NoMemory → script_in text.now options.now emulation ≡ Err f) }
    ensures bounds { IfOk result IsWithinBounds }
    ensures few_filters { IfOk result (λ script. filters_in script.blocks ≤ MOST_FILTERS) }
    ensures few_policies { IfOk result (λ script. length script.blocks < 2 ^ 31) }
    ensures can_start { IfOk result IsRunnableScript }
    ensures bounded { IfOk result (λ script. IsBounded script.start) }
{
    let lexed = tokens(alloc, text)?;
    let lines = lines_of_tokens(alloc, text, looked_at(&lexed))?;
    read_lines(alloc, options, lexed.fault, lines, emulation)
}

/// A run can start with a script that was read, under any policies and with one to eight workers.
pub fn what_is_read_can_start()
    ensures { (text : List ℕ) (options : Options) (emulation : Emulation) (script : ReadScript) → script_in text options emulation ≡ Ok script → IsRunnableScript script }
{}

/// A script that was read isn't too long, stores into memory only, and starts each thread in at most one way.
pub fn what_is_read_is_bounded()
    ensures { (text : List ℕ) (options : Options) (emulation : Emulation) (script : ReadScript) → script_in text options emulation ≡ Ok script → IsBounded script.start }
{}

ghost use Rattle.std.specs.Prelude.{◌≡◌, ◌^◌, ◌≤◌, ℕ, List, Some, None, [], IfOk, OnOk, option_copied};
ghost use Rattle.std.specs.List.{list_any};
ghost use Rattle.st_script_faults.specs.Faults.{row_value, replied_binary, HasBinaryOf, with_line, filters_after, is_end, ends_body, opens_body, expects_other, is_unknown, is_started, is_duplicate, is_large, exceeds, is_too_many, reloads_while_learning, row_fault, first_fault, with_thread_name, threads_after, with_started, started_after, whole_of};
ghost use Rattle.st_script_faults.specs.FirstFault.{IsFirstScriptFault};
ghost use Rattle.st_script_faults.specs.Faults as spec;
ghost use Rattle.st_script_names.specs.Names.{no_names, with_statement};
ghost use Rattle.st_script_faults.specs.declared.fault.ScriptFault.{ScriptFault};
ghost use Rattle.st_statements.specs.declared.statement.ScriptLine.{ScriptLine};
ghost use Rattle.st_filter.specs.declared.set.TheConstants.{MOST_FILTERS};
ghost use Rattle.st_statements.specs.Parts.{is_long};
ghost use Rattle.st_script_names.specs.declared.limits.TheConstants.{MOST_INSTRUCTIONS};

use crate::fault::ScriptFault;
use crate::row_value::{RowValue, row_value};
use crate::script_filters::ScriptFilters;
use st_base::Text;
use st_emulation::Emulation;
use st_filter::MOST_FILTERS;
use st_grammar::Env;
use st_law::Options;
use st_model::{LONGEST_FILE, LONGEST_TEXT};
use st_script_names::environment::environment_of;
use st_script_names::limits::{MOST_INSTRUCTIONS, MOST_PROCESSES, MOST_THREADS, MOST_TREE_ROWS};
use st_script_names::names::{NameIndex, NamesAbove, directory_of, store_count};
use st_statements::parts::is_long;
use st_statements::{ScriptLine, Statement};
use st_trace::NewKind;
use std::alloc::{AllocError, Global};
use std::marker::Model;

/// What each row is read with, from the whole script.
#[derive(Drop)]
pub struct Whole<'a> {
    /// Whether a lexical fault cuts the script off.
    pub is_cut: bool,
    pub threads: NameIndex<'a>,
    /// The threads that start in a process.
    pub started: NameIndex<'a>,
    pub env: Env,
}

impl<'a> Model for Whole<'a> {
    ghost use Rattle.st_script_faults.specs.Faults.{WholeScript};

    ghost Value = { WholeScript };

    ghost view = { λ w. record { is_cut = w.is_cut; threads = w.threads; started = w.started; env = w.env } };
}

impl Whole<'_> {
    /// The environment of the script's policies.
    pub fn into_env(self) -> Env
        ensures { result ≡ self.entry.env }
    {
        let Whole { env, .. } = self;
        env
    }
}

fn is_end(says: &Option<Statement>) -> bool
    ensures { result ≡ is_end says.now }
{
    matches!(says, Some(Statement::End))
}

/// Whether a line ends the body of a thread.
pub fn ends_body(line: &ScriptLine) -> bool
    ensures { result ≡ ends_body line.now }
{
    is_end(&line.says)
}

// Whether a line below ends a body.
fn is_closed(below: &[ScriptLine]) -> bool
    ensures { result ≡ list_any ends_body below.now }
{
    for line in below {
        if ends_body(line) {
            return true;
        }
    }
    false
}

// Whether a row opens a body.
fn opens_body(statement: &Statement) -> bool
    ensures { result ≡ opens_body statement.now }
{
    matches!(
        statement,
        Statement::Thread { .. } | Statement::Policy { .. }
    )
}

// A body that is left open, or a reply, a policy or a filter that isn't valid. Only the body of a thread or a policy is gone through.
fn expects_other(
    whole: &Whole,
    below: &[ScriptLine],
    statement: &Statement,
    value: &RowValue,
) -> bool
    requires { value.now ≡ row_value whole.now.env statement.now }
    ensures { result ≡ expects_other whole.now below.now statement.now }
{
    (opens_body(statement) && !whole.is_cut && !is_closed(below)) || value.is_invalid()
}

// An object without its directory, a thread without its process, a reload without its policy, or, unless the script is cut off, a fork of a
// thread that doesn't exist.
fn is_unknown(whole: &Whole, above: &NamesAbove, statement: &Statement) -> bool
    ensures { result ≡ is_unknown whole.now above.now statement.now }
{
    match statement {
        Statement::Object { path, .. } => !above.is_directory(directory_of(path.bytes())),
        Statement::Thread {
            process: Some(process),
            ..
        } => !above.processes.has(process.bytes()),
        Statement::Reload(name) => !above.policies.has(name.bytes()),
        Statement::Fork(name) => !whole.is_cut && !whole.threads.has(name.bytes()),
        _ => false,
    }
}

// Whether a thread starts in a process, or by a fork above.
fn is_started(whole: &Whole, above: &NamesAbove, name: &Text) -> bool
    ensures { result ≡ is_started whole.now above.now name.now }
{
    whole.started.has(name.bytes()) || above.forked.has(name.bytes())
}

// A name that is defined again, or a fork of a thread that is started already.
fn is_duplicate(whole: &Whole, above: &NamesAbove, statement: &Statement) -> bool
    ensures { result ≡ is_duplicate whole.now above.now statement.now }
{
    match statement {
        Statement::User(user) => above.users.has(user.name.bytes()),
        Statement::Group(group) => above.groups.has(group.name.bytes()),
        Statement::Object { path, .. } => above.paths.has(path.bytes()),
        Statement::Process(process) => above.processes.has(process.name.bytes()),
        Statement::Thread { name, .. } => above.threads.has(name.bytes()),
        Statement::Policy { name, .. } => above.policies.has(name.bytes()),
        Statement::Fork(name) => is_started(whole, above, name),
        _ => false,
    }
}

// A content or a target of too many bytes.
fn is_large(kind: &NewKind) -> bool
    ensures { result ≡ is_large kind.now }
{
    match kind {
        NewKind::Dir => false,
        NewKind::File(content) => content.len() as u64 > LONGEST_FILE,
        NewKind::Link(target) => target.len() > LONGEST_TEXT,
    }
}

// Whether this many more instructions are too many.
fn exceeds(above: &NamesAbove, count: u64) -> bool
    requires few { above.now.instructions ≤ MOST_INSTRUCTIONS }
    requires small { count ≤ 2 ^ 60 }
    ensures { result ≡ exceeds above.now count }
{
    above.instructions + count > MOST_INSTRUCTIONS
}

// Whether a binary is too long, if there is one.
fn is_long_binary(binary: Option<&Text>) -> bool
    ensures { (name : List ℕ) → option_copied binary.entry ≡ Some name → result ≡ is_long name }
{
    match binary {
        Some(binary) => is_long(binary.bytes()),
        None => false,
    }
}

// Too many rows, instructions or filters, or too many bytes, up to this row.
fn is_too_many(above: &NamesAbove, statement: &Statement, value: &RowValue) -> bool
    requires { above.now.instructions ≤ MOST_INSTRUCTIONS }
    ensures { (whole : spec.WholeScript) → HasBinaryOf (replied_binary value.now) whole.env statement.now → result ≡ is_too_many whole above.now statement.now }
{
    match statement {
        Statement::Object { path, new } => {
            above.paths.len() >= MOST_TREE_ROWS || is_long(path.bytes()) || is_large(&new.kind)
        }
        Statement::Process(process) => {
            above.processes.len() >= MOST_PROCESSES
                || is_long(process.binary.bytes())
                || is_long(process.cwd.bytes())
        }
        Statement::Thread { .. } => above.threads.len() >= MOST_THREADS,
        Statement::Reply { .. } => is_long_binary(value.replied_binary()),
        Statement::Filter(_) => above.filters >= MOST_FILTERS,
        Statement::Store(_, _) => exceeds(above, 1),
        Statement::Put(_, bytes) => exceeds(above, store_count(bytes.bytes())),
        Statement::Call(_, _) => exceeds(above, 1),
        Statement::Fork(_) => exceeds(above, 1),
        Statement::Reload(_) => exceeds(above, 1),
        _ => false,
    }
}

// A reload while policies are learnt.
fn reloads_while_learning(whole: &Whole, statement: &Statement) -> bool
    ensures { result ≡ reloads_while_learning whole.now statement.now }
{
    match statement {
        Statement::Reload(_) => whole.env.learn,
        _ => false,
    }
}

// A row of a script: the number of its line, what it says, and the lines below it.
#[derive(Clone, Copy)]
struct ScriptRow<'a> {
    line: u32,
    statement: &'a Statement,
    below: &'a [ScriptLine],
}

// The fault of a row that is read as this value: the first kind that applies.
fn fault_with(
    whole: &Whole,
    above: &NamesAbove,
    row: &ScriptRow,
    value: &RowValue,
) -> Option<ScriptFault>
    requires few { above.now.instructions ≤ MOST_INSTRUCTIONS }
    requires value { value.now ≡ row_value whole.now.env row.now.statement.now }
    ensures { result ≡ row_fault whole.now above.now row.now.below.now row.now.line row.now.statement.now }
{
    if expects_other(whole, row.below, row.statement, value) {
        return Some(ScriptFault::Expected(row.line));
    }
    if is_unknown(whole, above, row.statement) {
        return Some(ScriptFault::UnknownName(row.line));
    }
    if is_duplicate(whole, above, row.statement) {
        return Some(ScriptFault::Duplicate(row.line));
    }
    if is_too_many(above, row.statement, value) {
        return Some(ScriptFault::TooMany(row.line));
    }
    if reloads_while_learning(whole, row.statement) {
        return Some(ScriptFault::ReloadWithLearn(row.line));
    }
    None
}

// The fault of a row. What it is read as is found once, and added to these filters.
fn fault_of(
    alloc: Global,
    whole: &Whole,
    above: &NamesAbove,
    row: &ScriptRow,
    found: &mut ScriptFilters,
) -> Result<Option<ScriptFault>, AllocError>
    requires { above.now.instructions ≤ MOST_INSTRUCTIONS }
    ensures fault { IfOk result (λ fault. fault ≡ row_fault whole.now above.now row.now.below.now row.now.line row.now.statement.now) }
    ensures found { OnOk result (found.new ≡ with_line whole.now.env found.old (Some row.now.statement.now)) }
{
    let value = row_value(alloc, &whole.env, row.statement)?;
    let fault = fault_with(whole, above, row, &value);
    found.add(alloc, value)?;
    Ok(fault)
}

// The fault of a row. If it has none, its names are added to those above, and what it is read as to these filters.
fn take_row<'a>(
    alloc: Global,
    whole: &Whole,
    above: &mut NamesAbove<'a>,
    row: &ScriptRow<'a>,
    found: &mut ScriptFilters,
) -> Result<Option<ScriptFault>, AllocError>
    requires instructions { above.old.instructions ≤ MOST_INSTRUCTIONS }
    requires filters { above.old.filters ≤ MOST_FILTERS }
    ensures fault { IfOk result (λ fault. fault ≡ row_fault whole.now above.old row.now.below.now row.now.line row.now.statement.now) }
    ensures names { IfOk result (λ fault. fault ≡ None → above.new ≡ with_statement above.old row.now.statement.now) }
    ensures few { IfOk result (λ fault. fault ≡ None → above.new.instructions ≤ MOST_INSTRUCTIONS) }
    ensures few_filters { IfOk result (λ fault. fault ≡ None → above.new.filters ≤ MOST_FILTERS) }
    ensures found { IfOk result (λ fault. fault ≡ None → found.new ≡ with_line whole.now.env found.old (Some row.now.statement.now)) }
{
    let fault = fault_of(alloc, whole, above, row, found)?;
    if fault.is_none() {
        above.add(row.statement)?;
    }
    Ok(fault)
}

// The fault of the first line that has one, given the names above. If none has one, what all are read as is added to these filters.
fn fault_among<'a>(
    alloc: Global,
    whole: &Whole,
    above: &mut NamesAbove<'a>,
    lines: &'a [ScriptLine],
    found: &mut ScriptFilters,
) -> Result<Option<ScriptFault>, AllocError>
    requires instructions { above.old.instructions ≤ MOST_INSTRUCTIONS }
    requires filters { above.old.filters ≤ MOST_FILTERS }
    ensures fault { IfOk result (λ fault. fault ≡ first_fault whole.now above.old lines.now) }
    ensures found { IfOk result (λ fault. fault ≡ None → found.new ≡ filters_after whole.now.env found.old lines.now) }
{
    let mut rest = lines;
    while let Some((line, below)) = rest.split_first() {
        let Some(statement) = &line.says else {
            return Ok(Some(ScriptFault::Expected(line.number)));
        };
        let row = ScriptRow {
            line: line.number,
            statement,
            below,
        };
        let fault = take_row(alloc, whole, above, &row, found)?;
        if fault.is_some() {
            return Ok(fault);
        }
        rest = below;
    }
    Ok(None)
}

/// The fault of the first line that has one. If none has one, the replies and the policies of all are added to these filters.
pub fn first_fault(
    alloc: Global,
    whole: &Whole,
    lines: &[ScriptLine],
    found: &mut ScriptFilters,
) -> Result<Option<ScriptFault>, AllocError>
    ensures fault { IfOk result (λ fault. fault ≡ first_fault whole.now no_names lines.now) }
    ensures found { IfOk result (λ fault. fault ≡ None → found.new ≡ filters_after whole.now.env found.old lines.now) }
{
    let mut above = NamesAbove::new(alloc);
    fault_among(alloc, whole, &mut above, lines, found)
}

fn add_thread<'a>(names: &mut NameIndex<'a>, says: &'a Option<Statement>) -> Result<(), AllocError>
    ensures { OnOk result (names.new ≡ with_thread_name names.old says.now) }
{
    match says {
        Some(Statement::Thread { name, .. }) => names.add(name.bytes()),
        _ => Ok(()),
    }
}

/// The threads of lines, in order.
pub fn threads_of<'a>(alloc: Global, lines: &'a [ScriptLine]) -> Result<NameIndex<'a>, AllocError>
    ensures { IfOk result (λ names. names ≡ threads_after [] lines.now) }
{
    let mut names = NameIndex::new(alloc);
    for line in lines {
        add_thread(&mut names, &line.says)?;
    }
    Ok(names)
}

fn add_started<'a>(names: &mut NameIndex<'a>, says: &'a Option<Statement>) -> Result<(), AllocError>
    ensures { OnOk result (names.new ≡ with_started names.old says.now) }
{
    match says {
        Some(
            Statement::Thread {
                name,
                process: Some(_),
            },
        ) => names.add(name.bytes()),
        _ => Ok(()),
    }
}

// The threads of lines that start in a process, in order.
fn started_of<'a>(alloc: Global, lines: &'a [ScriptLine]) -> Result<NameIndex<'a>, AllocError>
    ensures { IfOk result (λ names. names ≡ started_after [] lines.now) }
{
    let mut names = NameIndex::new(alloc);
    for line in lines {
        add_started(&mut names, &line.says)?;
    }
    Ok(names)
}

/// What the rows of a script are read with, from the whole script.
pub fn whole_of<'a>(
    alloc: Global,
    is_cut: bool,
    options: &Options,
    lines: &'a [ScriptLine],
    emulation: Emulation,
) -> Result<Whole<'a>, AllocError>
    ensures { IfOk result (λ whole. whole ≡ whole_of is_cut options.now lines.now emulation) }
{
    Ok(Whole {
        is_cut,
        threads: threads_of(alloc, lines)?,
        started: started_of(alloc, lines)?,
        env: environment_of(alloc, options, lines, emulation)?,
    })
}

/// The fault of lines is the fault of one of them, given the rows above and below it, and no line above it has a fault.
pub fn the_fault_is_the_first()
    ensures { (whole : spec.WholeScript) (lines : List ScriptLine) (fault : ScriptFault) → first_fault whole no_names lines ≡ Some fault → IsFirstScriptFault whole no_names lines fault }
{}

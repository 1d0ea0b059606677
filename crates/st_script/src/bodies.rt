ghost use Rattle.std.specs.Prelude.{◌≡◌, ◌^◌, ◌<◌, ◌++◌, [], slice_index, option_map, option_copied, IfOk, OnOk};
ghost use Rattle.st_model.specs.Memory.{word_of};
ghost use Rattle.st_script.specs.Reading.{stores, instructions_said, body_in, thread_said, thread_with, with_process_name, processes_after, with_policy_name, policy_names_after, body_names, threads_in};

use st_base::{Sequence, Text};
use st_script_faults::faults::{ends_body, threads_of};
use st_script_names::names::{NameIndex, store_count};
use st_statements::lines::saturated;
use st_statements::{ScriptLine, Statement};
use st_trace::{Instr, ThreadRow};
use std::alloc::{AllocError, Global};
use std::marker::Model;

// The names that instructions have the numbers of.
#[derive(Drop)]
struct BodyNames<'a> {
    threads: NameIndex<'a>,
    policies: NameIndex<'a>,
}

impl<'a> Model for BodyNames<'a> {
    ghost use Rattle.st_script.specs.Reading as reading;

    ghost Value = { reading.BodyNames };

    ghost view = { λ n. record { threads = n.threads; policies = n.policies } };
}

fn byte_at(bytes: &[u8], at: usize) -> u8
    ensures { result ≡ slice_index bytes.now at }
{
    if at < bytes.len() { bytes[at] } else { 0 }
}

// A word of a text that zeros follow.
fn word_at(bytes: &[u8], place: usize) -> u64
    requires { place < 2 ^ 60 }
    ensures { result ≡ word_of (slice_index bytes.now) place }
{
    let at = 8 * place;
    u64::from_le_bytes([
        byte_at(bytes, at),
        byte_at(bytes, at + 1),
        byte_at(bytes, at + 2),
        byte_at(bytes, at + 3),
        byte_at(bytes, at + 4),
        byte_at(bytes, at + 5),
        byte_at(bytes, at + 6),
        byte_at(bytes, at + 7),
    ])
}

// Adds the stores of a text and a zero byte, filled with zeros to whole words.
fn push_stores(body: &mut Sequence<Instr>, first: u32, bytes: &[u8]) -> Result<(), AllocError>
    ensures { OnOk result (body.new ≡ body.old ++ stores first bytes.now) }
{
    for i in 0..store_count(bytes) {
        let place = saturated(u64::from(first) + i);
        body.push(Instr::Store(place, word_at(bytes, i as usize)))?;
    }
    Ok(())
}

// Adds the instructions of a line.
fn push_said(
    body: &mut Sequence<Instr>,
    names: &BodyNames,
    says: &Option<Statement>,
) -> Result<(), AllocError>
    ensures { OnOk result (body.new ≡ body.old ++ instructions_said names.now says.now) }
{
    match says {
        Some(Statement::Store(place, word)) => body.push(Instr::Store(*place, *word)),
        Some(Statement::Put(first, bytes)) => push_stores(body, *first, bytes.bytes()),
        Some(Statement::Call(call, regs)) => body.push(Instr::Call(*call, *regs)),
        Some(Statement::Fork(name)) => {
            body.push(Instr::Fork(names.threads.number_of(name.bytes())))
        }
        Some(Statement::Reload(name)) => {
            body.push(Instr::Reload(names.policies.number_of(name.bytes())))
        }
        _ => Ok(()),
    }
}

// How many instructions a line says.
fn count_said(says: &Option<Statement>) -> usize {
    match says {
        Some(Statement::Put(_, bytes)) => store_count(bytes.bytes()) as usize,
        _ => 1,
    }
}

// How many instructions the lines up to the next `end` say. Room for them is reserved once.
fn body_count(lines: &[ScriptLine]) -> usize {
    let mut count: usize = 0;
    for line in lines {
        if ends_body(line) {
            break;
        }
        count = count.saturating_add(count_said(&line.says));
    }
    count
}

// The body of a thread: the instructions of the lines below it up to the next `end`.
fn body_in(
    alloc: Global,
    names: &BodyNames,
    lines: &[ScriptLine],
) -> Result<Sequence<Instr>, AllocError>
    ensures { IfOk result (λ body. body ≡ body_in names.now lines.now) }
{
    let mut body = Sequence::with_capacity(alloc, body_count(lines))?;
    for line in lines {
        if ends_body(line) {
            return Ok(body);
        }
        push_said(&mut body, names, &line.says)?;
    }
    Ok(body)
}

// The process that the thread of a line starts in, if it starts in one; nothing if the line isn't a thread's.
fn thread_said(says: &Option<Statement>) -> Option<Option<&Text>>
    ensures { option_map option_copied result ≡ thread_said says.now }
{
    match says {
        Some(Statement::Thread { process, .. }) => Some(process.as_ref()),
        _ => None,
    }
}

// A thread in one of these processes, with this body.
fn thread_with(processes: &NameIndex, process: Option<&Text>, body: Sequence<Instr>) -> ThreadRow
    ensures { result ≡ thread_with processes.now (option_copied process.entry) body }
{
    match process {
        Some(process) => ThreadRow {
            process: Some(processes.number_of(process.bytes())),
            body,
        },
        None => ThreadRow {
            process: None,
            body,
        },
    }
}

fn add_process<'a>(names: &mut NameIndex<'a>, says: &'a Option<Statement>) -> Result<(), AllocError>
    ensures { OnOk result (names.new ≡ with_process_name names.old says.now) }
{
    match says {
        Some(Statement::Process(process)) => names.add(process.name.bytes()),
        _ => Ok(()),
    }
}

// The processes of lines, in order.
fn processes_of<'a>(alloc: Global, lines: &'a [ScriptLine]) -> Result<NameIndex<'a>, AllocError>
    ensures { IfOk result (λ names. names ≡ processes_after [] lines.now) }
{
    let mut names = NameIndex::new(alloc);
    for line in lines {
        add_process(&mut names, &line.says)?;
    }
    Ok(names)
}

fn add_policy<'a>(names: &mut NameIndex<'a>, says: &'a Option<Statement>) -> Result<(), AllocError>
    ensures { OnOk result (names.new ≡ with_policy_name names.old says.now) }
{
    match says {
        Some(Statement::Policy { name, .. }) => names.add(name.bytes()),
        _ => Ok(()),
    }
}

// The policies of lines, in order.
fn policies_of<'a>(alloc: Global, lines: &'a [ScriptLine]) -> Result<NameIndex<'a>, AllocError>
    ensures { IfOk result (λ names. names ≡ policy_names_after [] lines.now) }
{
    let mut names = NameIndex::new(alloc);
    for line in lines {
        add_policy(&mut names, &line.says)?;
    }
    Ok(names)
}

// The threads and the policies of lines.
fn body_names<'a>(alloc: Global, lines: &'a [ScriptLine]) -> Result<BodyNames<'a>, AllocError>
    ensures { IfOk result (λ names. names ≡ body_names lines.now) }
{
    Ok(BodyNames {
        threads: threads_of(alloc, lines)?,
        policies: policies_of(alloc, lines)?,
    })
}

// The threads of lines, given the script's processes, and its threads and policies.
fn threads_among(
    alloc: Global,
    processes: &NameIndex,
    names: &BodyNames,
    lines: &[ScriptLine],
) -> Result<Sequence<ThreadRow>, AllocError>
    ensures { IfOk result (λ rows. rows ≡ threads_in processes.now names.now lines.now) }
{
    let mut rows = Sequence::new(alloc);
    let mut rest = lines;
    while let Some((line, below)) = rest.split_first() {
        if let Some(process) = thread_said(&line.says) {
            let body = body_in(alloc, names, below)?;
            rows.push(thread_with(processes, process, body))?;
        }
        rest = below;
    }
    Ok(rows)
}

/// The threads of a script's lines, each with its body.
pub fn threads_in(alloc: Global, lines: &[ScriptLine]) -> Result<Sequence<ThreadRow>, AllocError>
    ensures { IfOk result (λ rows. rows ≡ threads_in (processes_after [] lines.now) (body_names lines.now) lines.now) }
{
    let processes = processes_of(alloc, lines)?;
    let names = body_names(alloc, lines)?;
    threads_among(alloc, &processes, &names, lines)
}

ghost use Rattle.std.specs.Prelude.{◌≡◌, ◌++◌, [], List, OnOk};
ghost use Rattle.st_calls.specs.Call.{rule_of};
ghost use Rattle.st_law.specs.Inputs.{IsStartable};
ghost use Rattle.st_law.specs.Numbers.{IsLawfulByNumber};
ghost use Rattle.st_law.specs.declared.input.Input.{Input};
ghost use Rattle.st_trace.specs.declared.entry.Entry.{Entry};
ghost use Rattle.st_audit.specs.AuditText.{GrowsWithTheRun, audit, audit_by_number, call_line, ending_text};
ghost use Rattle.st_audit.specs.How.{args_used, is_logged, parts_of, seq_of_decision};
ghost use Rattle.st_audit.specs.Ledger.{kept_line, owner_in, row_in};
ghost use Rattle.st_audit.specs.Recording.{IsAuditOf, emulation_by};
ghost use Rattle.st_audit.specs.FromHistory.{audit_from_history};

use crate::concern::concerns_call;
use crate::decided::{Decided, RunFilters};
use crate::entered::EnteredCall;
use crate::how::How;
use crate::ledger::Ledger;
use crate::line::{Caller, Ending, append_call_line};
use crate::process::{owner_of, row_of};
use st_base::{Seq, Text, Tid};
use st_calls::{ArgText, Rule};
use st_compile::Compiled;
use st_emulation::Emulation;
use st_law::Input;
use st_learn::Session;
use st_report::Recorder;
use st_trace::{CallResult, Cause, Entry};
use std::alloc::{AllocError, Global};

// The arguments that are printed of a call that was made: its own if it was held, otherwise none.
fn args_used(seq: Option<Seq>, args: &[ArgText]) -> &[ArgText]
    ensures { result.now ≡ args_used seq args.now }
{
    match seq {
        Some(_) => args,
        None => &[],
    }
}

// The arguments that were judged.
fn parts_of<'a>(decided: &Option<Decided<'a>>) -> &'a [ArgText]
    ensures { result.now ≡ parts_of decided.now }
{
    match decided {
        Some(decided) => decided.parts(),
        None => &[],
    }
}

// Whether the filter that decided asks for a mark.
fn is_logged(decided: &Option<Decided<'_>>) -> bool
    ensures { result ≡ is_logged decided.now }
{
    match decided {
        Some(decided) => decided.marks().logs,
        None => false,
    }
}

// The number of the message whose copies are printed; `None` after a fault.
fn seq_printed(seq: Option<Seq>, cause: &Cause) -> Option<Seq>
    ensures { result ≡ seq_of_decision seq cause.now }
{
    match cause {
        Cause::Fault => None,
        _ => seq,
    }
}

// What lines are printed by: the input of a run, what is kept of the run, and the emulation.
#[derive(Clone, Copy)]
struct PrintedBy<'a> {
    input: &'a Input,
    ledger: &'a Ledger,
    emulation: Emulation,
}

// Appends the line of a thread's call, if the thread's process is traced.
fn append_traced(
    text: &mut Text,
    by: &PrintedBy<'_>,
    tid: Tid,
    entered: EnteredCall,
    ending: &Ending<'_>,
) -> Result<(), AllocError>
    ensures { OnOk result (text.new ≡ text.old ++ call_line by.now.input.now (row_in by.now.input.now by.now.ledger.now.rows) (owner_in by.now.input.now by.now.ledger.now.owners tid) tid entered.call entered.regs (ending_text ending.now.args.now ending.now.how ending.now.outcome ending.now.log by.now.emulation) by.now.emulation) }
{
    let pid = owner_of(by.input, &by.ledger.owners, tid);
    let row = row_of(by.input, &by.ledger.rows, pid);
    if !row.is_traced() {
        return Ok(());
    }
    let caller = Caller {
        pid,
        tid,
        policy: row.policy(),
        rule: Rule::of(entered.call, &entered.regs, by.input.options.aliasing),
    };
    append_call_line(text, &caller, ending, by.emulation)
}

// Appends what an entry prints.
fn append_line(
    alloc: Global,
    text: &mut Text,
    by: &PrintedBy<'_>,
    filters: &RunFilters<'_, '_, '_>,
    entry: &Entry,
) -> Result<(), AllocError>
    ensures { OnOk result (text.new ≡ text.old ++ kept_line by.now.input.now filters.now.policies.now filters.now.session.now.filters by.now.ledger.now entry.now by.now.emulation) }
{
    match entry {
        Entry::Used {
            tid,
            seq,
            call,
            regs,
            args,
            ids,
            result: outcome,
            ..
        } => {
            let decided = by.ledger.decided(filters, *seq);
            let ending = Ending {
                args: args_used(*seq, args.as_slice()),
                how: How::used(*seq, &decided, *ids),
                outcome: *outcome,
                log: is_logged(&decided),
            };
            let called = EnteredCall {
                call: *call,
                regs: *regs,
            };
            append_traced(text, by, *tid, called, &ending)
        }
        Entry::Denied {
            tid,
            seq,
            errno,
            cause,
        } => match by.ledger.entered.get(tid) {
            Some(called) => {
                let decided = by.ledger.decided(filters, seq_printed(*seq, cause));
                let ending = Ending {
                    args: parts_of(&decided),
                    how: How::denied(alloc, *seq, cause)?,
                    outcome: CallResult::Failed(*errno),
                    log: is_logged(&decided),
                };
                append_traced(text, by, *tid, *called, &ending)
            }
            None => Ok(()),
        },
        _ => Ok(()),
    }
}

// The emulation of Linux, or the native one.
fn emulation_by(linux: bool) -> Emulation
    ensures { result ≡ emulation_by linux }
{
    if linux {
        Emulation::Linux
    } else {
        Emulation::Native
    }
}

/// Records the audit of a run: a line for each call that a traced process made or was denied. Each such call adds one line to the
/// text. The audit is by the names and the numbers of Linux if `LINUX` is true.
#[derive(Drop)]
pub struct AuditRecorder<const LINUX: bool> {
    // What is kept of the entries that were recorded.
    ledger: Ledger,
    text: Text,
}

impl<const LINUX: bool> AuditRecorder<LINUX> {
    /// The audit of no entries, which takes no memory.
    pub fn new(alloc: Global) -> Self
        ensures { (i : Input) → IsAuditOf result i [] (emulation_by LINUX) }
    {
        AuditRecorder {
            ledger: Ledger::new(alloc),
            text: Text::new(alloc),
        }
    }

    /// The audit of the run whose entries were recorded: that of the drawings of their numbers.
    pub fn into_text(self) -> Text
        ensures printed { (i : Input) (trace : List Entry) → IsAuditOf self.entry i trace (emulation_by LINUX) → result ≡ audit_from_history i trace (emulation_by LINUX) }
        ensures audit { (i : Input) (trace : List Entry) → IsAuditOf self.entry i trace (emulation_by LINUX) → IsStartable i → IsLawfulByNumber i trace → result ≡ audit_by_number i trace (emulation_by LINUX) }
    {
        self.text
    }
}

impl<const LINUX: bool> Recorder for AuditRecorder<LINUX> {
    ghost has_noted = { λ recorder i trace. IsAuditOf recorder i trace (emulation_by LINUX) };

    fn note(
        &mut self,
        alloc: Global,
        input: &Input,
        compiled: &Compiled<'_>,
        session: &Session<'_>,
        entry: &Entry,
    ) -> Result<(), AllocError> {
        if !concerns_call(entry) {
            return Ok(());
        }
        let filters = RunFilters {
            policies: &*compiled,
            session: &*session,
        };
        let by = PrintedBy {
            input: &*input,
            ledger: &self.ledger,
            emulation: emulation_by(LINUX),
        };
        append_line(alloc, &mut self.text, &by, &filters, entry)?;
        self.ledger.note(alloc, input, entry)
    }
}

/// The audit of a longer run begins with that of the shorter one.
pub fn longer_runs_extend_the_audit()
    ensures drawings { GrowsWithTheRun audit }
    ensures numbers { GrowsWithTheRun audit_by_number }
{}

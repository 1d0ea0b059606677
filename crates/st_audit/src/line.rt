ghost use Rattle.std.specs.Prelude.{◌≡◌, ◌++◌, flat_map, OnOk};
ghost use Rattle.st_audit.specs.AuditText.{audit_result, caller_text, ending_text, linux_result, log_text, printed_arg};

use crate::how::{How, append_how};
use st_base::{Pid, Text, Tid};
use st_calls::{ArgText, Rule, append_index};
use st_emulation::Emulation;
use st_lex::quote;
use st_linux::linux_number;
use st_report::append_result;
use st_trace::CallResult;
use std::alloc::AllocError;

/// Who makes a call, and the policy and the rule that judge the call.
#[derive(Clone, Copy)]
pub struct Caller<'a> {
    pub pid: Pid,
    pub tid: Tid,
    pub policy: &'a [u8],
    pub rule: Rule,
}

/// What a line says of a call: its arguments, how it was made or denied, its result, and whether it is marked.
#[derive(Drop)]
pub struct Ending<'a> {
    pub args: &'a [ArgText],
    pub how: How,
    pub outcome: CallResult,
    pub log: bool,
}

fn append_caller(
    text: &mut Text,
    caller: &Caller<'_>,
    emulation: Emulation,
) -> Result<(), AllocError>
    ensures { OnOk result (text.new ≡ text.old ++ caller_text caller.now.pid caller.now.tid caller.now.policy.now caller.now.rule emulation) }
{
    text.append_number(u64::from(caller.pid))?;
    text.push(b'.')?;
    text.append_number(u64::from(caller.tid))?;
    text.push(b' ')?;
    quote(caller.policy, text)?;
    text.push(b' ')?;
    text.append(emulation.prefix())?;
    text.append(caller.rule.word())
}

// Appends a blank and an argument.
fn append_printed_arg(text: &mut Text, arg: &ArgText) -> Result<(), AllocError>
    ensures { OnOk result (text.new ≡ text.old ++ printed_arg arg.now) }
{
    text.push(b' ')?;
    text.append(arg.label.word())?;
    append_index(arg.index, text)?;
    text.push(b'=')?;
    quote(arg.text.bytes(), text)
}

// Appends arguments, each after a blank.
fn append_printed_args(text: &mut Text, args: &[ArgText]) -> Result<(), AllocError>
    ensures { OnOk result (text.new ≡ text.old ++ flat_map printed_arg args.now) }
{
    for arg in args {
        append_printed_arg(text, arg)?;
    }
    Ok(())
}

// The mark for a filter that asks for one.
fn log_word(log: bool) -> &'static [u8]
    ensures { result.now ≡ log_text log }
{
    if log { b" log" } else { b"" }
}

// Appends a result as Linux returns it: a value, or an error as `-` and its number there.
fn append_linux_result(text: &mut Text, outcome: CallResult) -> Result<(), AllocError>
    ensures { OnOk result (text.new ≡ text.old ++ linux_result outcome) }
{
    match outcome {
        CallResult::Value(number) => text.append_number(number),
        CallResult::Failed(errno) => {
            text.push(b'-')?;
            text.append_number(u64::from(linux_number(errno)))
        }
    }
}

// Appends a result: a value or an error's name, and under Linux as it returns it.
fn append_outcome(
    text: &mut Text,
    outcome: CallResult,
    emulation: Emulation,
) -> Result<(), AllocError>
    ensures { OnOk result (text.new ≡ text.old ++ audit_result outcome emulation) }
{
    match emulation {
        Emulation::Native => append_result(text, outcome),
        Emulation::Linux => append_linux_result(text, outcome),
    }
}

fn append_ending(
    text: &mut Text,
    ending: &Ending<'_>,
    emulation: Emulation,
) -> Result<(), AllocError>
    ensures { OnOk result (text.new ≡ text.old ++ ending_text ending.now.args.now ending.now.how ending.now.outcome ending.now.log emulation) }
{
    append_printed_args(text, ending.args)?;
    text.push(b' ')?;
    append_how(text, &ending.how)?;
    text.append(b" = ")?;
    append_outcome(text, ending.outcome, emulation)?;
    text.append(log_word(ending.log))?;
    text.push(b'\n')
}

/// Appends the line of a call, by the names and the numbers of an emulation.
pub fn append_call_line(
    text: &mut Text,
    caller: &Caller<'_>,
    ending: &Ending<'_>,
    emulation: Emulation,
) -> Result<(), AllocError>
    ensures { OnOk result (text.new ≡ text.old ++ (caller_text caller.now.pid caller.now.tid caller.now.policy.now caller.now.rule emulation ++ ending_text ending.now.args.now ending.now.how ending.now.outcome ending.now.log emulation)) }
{
    append_caller(text, caller, emulation)?;
    append_ending(text, ending, emulation)
}

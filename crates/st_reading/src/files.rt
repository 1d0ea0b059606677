ghost use Rattle.std.specs.Prelude.{◌≡◌, ◌≢◌, ◌≤◌, ◌<◌, ◌+◌, ◌^◌, [], ◌∷◌, ◌++◌, length, map, IfOk, IfErr, OnErr};
ghost use Rattle.st_outside.specs.Files.{CanHold};
ghost use Rattle.st_outside.specs.declared.files.TheConstants.{FILE_LIMIT};
ghost use Rattle.st_filter.specs.Policies.{filters_in};
ghost use Rattle.st_filter.specs.declared.set.TheConstants.{MOST_FILTERS};
ghost use Rattle.st_reading.specs.Files.{FetchRefused, ScriptEnds, PolicyEnds, PoliciesEnd, InputEnds, ScheduleEnds, TraceEnds};

use crate::input::{input_with, made_native};
use crate::refusal::{Refusal, Which};
use st_base::Text;
use st_emulation::Emulation;
use st_filter::PolicySet;
use st_grammar::{Env, PolicyFault};
use st_law::{Input, Options, ReadSchedule};
use st_outside::{FetchFault, Files};
use st_policy::read_policies;
use st_schedule::read_schedule;
use st_script::{ReadScript, read_script};
use st_script_faults::ScriptFault;
use std::alloc::Global;

// The whole content of a file.
fn fetch<F: Files>(alloc: Global, files: &mut F, name: &Text, which: Which) -> Result<Text, Refusal>
    ensures contents { F.contents files.new ≡ F.contents files.old }
    ensures asked { F.asked files.new ≡ F.asked files.old ++ name.now ∷ [] }
    ensures content { IfOk result (λ text. CanHold (F.contents files.old name.now) text) }
    ensures within { IfOk result (λ text. length text ≤ FILE_LIMIT) }
    ensures refused { IfErr result (FetchRefused (F.contents files.old name.now) which (F.faults files.old) (F.faults files.new)) }
    ensures quiet { result ≢ Err Refusal.ReadFault → F.faults files.new ≡ F.faults files.old }
{
    match files.fetch(alloc, name) {
        Ok(text) => Ok(text),
        Err(FetchFault::Failed) => Err(Refusal::ReadFault),
        Err(FetchFault::Missing) => Err(Refusal::Missing(which)),
        Err(FetchFault::TooLong) => Err(Refusal::TooLong(which)),
        Err(FetchFault::NoMemory) => Err(Refusal::NoMemory),
    }
}

/// Fetches a script whose filters are for an emulation, and reads it.
pub(crate) fn read_script_file<F: Files>(
    alloc: Global,
    files: &mut F,
    name: &Text,
    options: &Options,
    emulation: Emulation,
) -> Result<ReadScript, Refusal>
    ensures contents { F.contents files.new ≡ F.contents files.old }
    ensures asked { F.asked files.new ≡ F.asked files.old ++ name.now ∷ [] }
    ensures ends { ScriptEnds (F.contents files.old name.now) options.now emulation (F.faults files.old) (F.faults files.new) result }
    ensures few_filters { IfOk result (λ script. filters_in script.blocks ≤ MOST_FILTERS) }
    ensures few_policies { IfOk result (λ script. length script.blocks < 2 ^ 31) }
    ensures quiet { result ≢ Err Refusal.ReadFault → F.faults files.new ≡ F.faults files.old }
{
    let text = fetch(alloc, files, name, Which::Script)?;
    match read_script(alloc, text.bytes(), options, emulation) {
        Ok(script) => Ok(script),
        Err(ScriptFault::NoMemory) => Err(Refusal::NoMemory),
        Err(fault) => Err(Refusal::Script(fault)),
    }
}

// Fetches policy file `number` and reads it after the policies of the files before it.
fn read_policy_file<F: Files>(
    alloc: Global,
    files: &mut F,
    env: &Env,
    number: u32,
    name: &Text,
    policies: &mut PolicySet,
) -> Result<(), Refusal>
    ensures contents { F.contents files.new ≡ F.contents files.old }
    ensures asked { F.asked files.new ≡ F.asked files.old ++ name.now ∷ [] }
    ensures ends { PolicyEnds (F.contents files.old name.now) env.now policies.old number (F.faults files.old) (F.faults files.new) policies.new result }
    ensures same { OnErr result (policies.new ≡ policies.old) }
    ensures quiet { result ≢ Err Refusal.ReadFault → F.faults files.new ≡ F.faults files.old }
{
    let text = fetch(alloc, files, name, Which::Policy(number))?;
    match read_policies(alloc, text.bytes(), env, policies) {
        Ok(()) => Ok(()),
        Err(refused) => match refused.fault {
            PolicyFault::NoMemory => Err(Refusal::NoMemory),
            _ => Err(Refusal::Policy(number, refused)),
        },
    }
}

/// Fetches policy files and reads them in order, each after the policies of the files before it.
pub(crate) fn read_policy_files<F: Files>(
    alloc: Global,
    files: &mut F,
    env: &Env,
    names: &[&Text],
) -> Result<PolicySet, Refusal>
    requires { length names.now ≤ 8 }
    ensures contents { F.contents files.new ≡ F.contents files.old }
    ensures ends { PoliciesEnd (F.contents files.old) env.now (map (λ name. name.now) names.now) (F.faults files.old) (F.faults files.new) (F.asked files.old) (F.asked files.new) result }
    ensures quiet { result ≢ Err Refusal.ReadFault → F.faults files.new ≡ F.faults files.old }
{
    let mut policies = PolicySet::new(alloc);
    let mut number = 0;
    for name in names {
        number += 1;
        read_policy_file(alloc, files, env, number, name, &mut policies)?;
    }
    Ok(policies)
}

/// What an input is read from.
pub(crate) struct InputWords<'w, 'a> {
    /// The names of the policy files, in order.
    pub policies: &'w [&'a Text],
    pub script: &'a Text,
    pub options: Options,
    pub emulation: Emulation,
}

/// Fetches the files that an input is read from, and reads them: the script, whose start is made native, then each policy file.
pub(crate) fn read_input<F: Files>(
    alloc: Global,
    files: &mut F,
    words: InputWords<'_, '_>,
) -> Result<Input, Refusal>
    requires { length words.policies.now ≤ 8 }
    ensures contents { F.contents files.new ≡ F.contents files.old }
    ensures ends { InputEnds (F.contents files.old) (record { policies = map (λ name. name.now) words.entry.policies.now; script = words.entry.script.now; options = words.entry.options; emulation = words.entry.emulation }) (F.faults files.old) (F.faults files.new) (F.asked files.old) (F.asked files.new) result }
    ensures quiet { result ≢ Err Refusal.ReadFault → F.faults files.new ≡ F.faults files.old }
{
    let InputWords {
        policies,
        script,
        options,
        emulation,
    } = words;
    let script = read_script_file(alloc, files, script, &options, emulation)?;
    let native = made_native(alloc, script)?;
    let policies = read_policy_files(alloc, files, &native.env, policies)?;
    Ok(input_with(alloc, policies, options, native))
}

/// Fetches a schedule and reads it.
pub(crate) fn read_schedule_file<F: Files>(
    alloc: Global,
    files: &mut F,
    name: &Text,
) -> Result<ReadSchedule, Refusal>
    ensures contents { F.contents files.new ≡ F.contents files.old }
    ensures asked { F.asked files.new ≡ F.asked files.old ++ name.now ∷ [] }
    ensures ends { ScheduleEnds (F.contents files.old name.now) (F.faults files.old) (F.faults files.new) result }
    ensures quiet { result ≢ Err Refusal.ReadFault → F.faults files.new ≡ F.faults files.old }
{
    let text = fetch(alloc, files, name, Which::Schedule)?;
    Ok(read_schedule(alloc, text.bytes())?)
}

/// Fetches a printed trace.
pub(crate) fn fetch_trace<F: Files>(
    alloc: Global,
    files: &mut F,
    name: &Text,
) -> Result<Text, Refusal>
    ensures contents { F.contents files.new ≡ F.contents files.old }
    ensures asked { F.asked files.new ≡ F.asked files.old ++ name.now ∷ [] }
    ensures ends { TraceEnds (F.contents files.old name.now) (F.faults files.old) (F.faults files.new) result }
    ensures within { IfOk result (λ text. length text ≤ FILE_LIMIT) }
    ensures quiet { result ≢ Err Refusal.ReadFault → F.faults files.new ≡ F.faults files.old }
{
    fetch(alloc, files, name, Which::Trace)
}

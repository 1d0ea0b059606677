// Reads the generated policy and script, as the files of a command are read.
ghost use Rattle.std.specs.Prelude.{◌≡◌, ◌<◌, ◌≤◌, ◌^◌, [], length, Ok, IfOk, IfErr};
ghost use Rattle.st_filter.specs.Policies.{filters_in};
ghost use Rattle.st_filter.specs.declared.set.TheConstants.{MOST_FILTERS};
ghost use Rattle.st_grammar.specs.Grammar.{Reads};
ghost use Rattle.st_generator.specs.Policy.{generated_policy};
ghost use Rattle.st_generator.specs.Script.{generated_script};
ghost use Rattle.st_reached.specs.Runnable.{CanRun};
ghost use Rattle.st_script.specs.Reading.{script_in};
ghost use Rattle.st_script.specs.Startable.{IsRunnableScript};
ghost use Rattle.st_generated_run.specs.Generated.{generated_options, IsInputOf, RefusesInput, RefusesPolicy, RefusesScript};

use st_emulation::Emulation;
use st_filter::PolicySet;
use st_generator::law::how_long_a_generated_script_is;
use st_generator::{gen_script, generated_policy};
use st_grammar::{Env, PolicyFault};
use st_law::{Input, Mode, Options};
use st_policy::read_policies;
use st_reading::{Refusal, input_with};
use st_script::policies::{
    what_is_read_grants_no_ids_for_setting, what_is_reloaded_grants_no_ids_for_setting,
    what_is_replied_grants_no_ids_for_setting,
};
use st_script::{ReadScript, read_script};
use st_script_faults::ScriptFault;
use std::alloc::Global;

// The options of a generated run.
fn generated_options() -> Options
    ensures { result ≡ generated_options }
{
    Options {
        mode: Mode::Enforce,
        inherit: false,
        aliasing: true,
        ids: None,
        workers: 1,
    }
}

// Reads a script for a generated run.
fn script_of(alloc: Global, text: &[u8]) -> Result<ReadScript, Refusal>
    requires { length text.now < 2 ^ 32 }
    ensures script { IfOk result (λ script. script_in text.now generated_options Emulation.Native ≡ Ok script) }
    ensures few_filters { IfOk result (λ script. filters_in script.blocks ≤ MOST_FILTERS) }
    ensures few_policies { IfOk result (λ script. length script.blocks < 2 ^ 31) }
    ensures can_start { IfOk result IsRunnableScript }
    ensures refused { IfErr result (RefusesScript text.now) }
{
    match read_script(alloc, text, &generated_options(), Emulation::Native) {
        Ok(script) => Ok(script),
        Err(ScriptFault::NoMemory) => Err(Refusal::NoMemory),
        Err(fault) => Err(Refusal::Script(fault)),
    }
}

// Reads a policy for a generated run, with the script's environment.
fn policies_of(alloc: Global, text: &[u8], env: &Env) -> Result<PolicySet, Refusal>
    requires { length text.now < 2 ^ 32 }
    ensures policies { IfOk result (λ policies. Reads text.now env.now [] policies) }
    ensures refused { IfErr result (RefusesPolicy text.now env.now) }
{
    let mut policies = PolicySet::new(alloc);
    match read_policies(alloc, text, env, &mut policies) {
        Ok(()) => Ok(policies),
        Err(refused) => match refused.fault {
            PolicyFault::NoMemory => Err(Refusal::NoMemory),
            _ => Err(Refusal::Policy(1, refused)),
        },
    }
}

// The input that a policy and a script mean for a generated run.
fn input_of(alloc: Global, policy: &[u8], text: &[u8]) -> Result<Input, Refusal>
    requires policy { length policy.now < 2 ^ 32 }
    requires script { length text.now < 2 ^ 32 }
    ensures meant { IfOk result (IsInputOf policy.now text.now) }
    ensures can_run { IfOk result CanRun }
    ensures refused { IfErr result (RefusesInput policy.now text.now) }
{
    what_is_read_grants_no_ids_for_setting();
    what_is_replied_grants_no_ids_for_setting();
    what_is_reloaded_grants_no_ids_for_setting();
    let script = script_of(alloc, text)?;
    let read = policies_of(alloc, policy, &script.env)?;
    Ok(input_with(alloc, read, generated_options(), script))
}

/// The input that the generated policy and script mean.
pub(crate) fn generated_input(alloc: Global, rounds: u32) -> Result<Input, Refusal>
    requires { rounds ≤ 512 }
    ensures generated { IfOk result (IsInputOf generated_policy (generated_script rounds)) }
    ensures can_run { IfOk result CanRun }
    ensures refused { IfErr result (RefusesInput generated_policy (generated_script rounds)) }
{
    how_long_a_generated_script_is();
    let text = gen_script(alloc, rounds)?;
    input_of(alloc, generated_policy(), text.bytes())
}

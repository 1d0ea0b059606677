// The input of a run, from what was read.
ghost use Rattle.std.specs.Prelude.{◌≡◌, ◌≤◌, ◌<◌, ◌^◌, length, IfOk, OnOk};
ghost use Rattle.st_filter.specs.Policies.{filters_in};
ghost use Rattle.st_filter.specs.declared.set.TheConstants.{MOST_FILTERS};
ghost use Rattle.st_script.specs.Startable.{input_as_written, made_native, native_start};

use st_emulation::Emulation;
use st_filter::{Policies, PolicySet};
use st_law::{Input, Options};
use st_linux::to_native;
use st_script::ReadScript;
use st_trace::Start;
use std::alloc::{AllocError, Global};

// Makes a start native, if it is for Linux.
fn make_native(alloc: Global, start: &mut Start, emulation: Emulation) -> Result<(), AllocError>
    ensures { OnOk result (start.new ≡ native_start emulation start.old) }
{
    match emulation {
        Emulation::Native => Ok(()),
        Emulation::Linux => to_native(alloc, start),
    }
}

/// A script whose start is made native, if it was read for Linux.
pub(crate) fn made_native(alloc: Global, script: ReadScript) -> Result<ReadScript, AllocError>
    ensures { IfOk result (λ native. native ≡ made_native script) }
{
    let ReadScript {
        start,
        env,
        replies,
        blocks,
    } = script;
    let mut start = start;
    make_native(alloc, &mut start, env.emulation)?;
    Ok(ReadScript {
        start,
        env,
        replies,
        blocks,
    })
}

/// The input of a run that begins with a script's start as it is: the script, with these policies beside its own, and options. It takes no
/// memory.
pub fn input_with(alloc: Global, policies: PolicySet, options: Options, script: ReadScript) -> Input
    requires filters { filters_in script.blocks ≤ MOST_FILTERS }
    requires few { length script.blocks < 2 ^ 31 }
    ensures { result ≡ input_as_written policies options script }
{
    let ReadScript {
        start,
        replies,
        blocks,
        ..
    } = script;
    Input {
        policies: Policies::new(alloc, policies, blocks),
        start,
        replies,
        options,
    }
}

// Reads what `run` names. Its choices aren't read: threads make them.
ghost use Rattle.std.specs.Prelude.{◌≡◌, ◌≢◌};
ghost use Rattle.st_command.specs.Reading.{IsRunWithinLimits};
ghost use Rattle.st_reading.specs.RunMeaning.{EndsReadingRun};

use crate::files::{InputWords, read_input};
use crate::refusal::Refusal;
use st_command::RunWords;
use st_law::Input;
use st_outside::Files;
use std::alloc::Global;

/// Fetches the files that `run` names and reads them as `step` does: the script, then each policy file.
pub fn read_run<F: Files>(
    alloc: Global,
    run: &RunWords<'_>,
    files: &mut F,
) -> Result<Input, Refusal>
    requires { IsRunWithinLimits run.now }

    // The answer is what `run` means, and the names that were asked for are its names, in order, up to the file that the answer is about.
    ensures ends { EndsReadingRun (F.contents files.old) run.now (F.faults files.old) (F.faults files.new) (F.asked files.old) (F.asked files.new) result }

    // The files stay as they are, and the count of faults rises only with a read fault.
    ensures contents { F.contents files.new ≡ F.contents files.old }
    ensures quiet { result ≢ Err Refusal.ReadFault → F.faults files.new ≡ F.faults files.old }
{
    read_input(
        alloc,
        files,
        InputWords {
            policies: run.policies.as_slice(),
            script: run.script,
            options: run.options,
            emulation: run.emulation,
        },
    )
}

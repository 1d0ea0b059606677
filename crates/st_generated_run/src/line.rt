ghost use Rattle.std.specs.Prelude.{◌≡◌, ◌≤◌, [], IfOk, IfErr};
ghost use Rattle.st_audit.specs.Summary.{summary_text};
ghost use Rattle.st_generator.specs.Policy.{generated_policy};
ghost use Rattle.st_generator.specs.Script.{generated_script};
ghost use Rattle.st_reached.specs.Runnable.{CanRun};
ghost use Rattle.st_generated_run.specs.Generated.{rested_run, IsGeneratedLine, RefusesInput};

use crate::input::generated_input;
use st_audit::SummaryRecorder;
use st_base::Text;
use st_kernel::Kernel;
use st_law::Input;
use st_reading::Refusal;
use std::alloc::{AllocError, Global};

// The summary of a run from its start until it rests. It borrows the kernel, so that the kernel is dropped in one place.
fn summary_at_rest(alloc: Global, kernel: &mut Kernel<'_>) -> Result<Text, AllocError>
    requires none { kernel.old.choices ≡ [] }
    ensures { IfOk result (λ line. line ≡ summary_text (rested_run kernel.old.input)) }
{
    let mut recorder = SummaryRecorder::new();
    kernel.rest(alloc, &mut recorder)?;
    recorder.text(alloc)
}

// The summary of the run of an input.
fn summary_of_run(alloc: Global, input: &Input) -> Result<Text, AllocError>
    requires { CanRun input.now }
    ensures { IfOk result (λ line. line ≡ summary_text (rested_run input.now)) }
{
    let mut kernel = Kernel::start(alloc, input)?;
    summary_at_rest(alloc, &mut kernel)
}

/// The line that is written of the generated run of so many rounds. The texts are refused as files of a command are.
pub fn generated_line(alloc: Global, rounds: u32) -> Result<Text, Refusal>
    requires { rounds ≤ 512 }
    ensures line { IfOk result (IsGeneratedLine rounds) }
    ensures refused { IfErr result (RefusesInput generated_policy (generated_script rounds)) }
{
    let input = generated_input(alloc, rounds)?;
    Ok(summary_of_run(alloc, &input)?)
}

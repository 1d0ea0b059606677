ghost use Rattle.std.specs.Prelude.{◌≡◌, List, false, reverse};
ghost use Rattle.st_command.specs.Command.{StepWords};
ghost use Rattle.st_command.specs.Reading.{command_in, IsWithinLimits};
ghost use Rattle.st_command.specs.Words.{Word};
ghost use Rattle.st_command.specs.declared.command.Command.TheVariants.{Step};
ghost use Rattle.st_command.specs.declared.given.Print.TheVariants as print;
ghost use Rattle.st_emulation.specs.declared.emulation.Emulation.{Emulation};
ghost use Rattle.st_law.specs.Machine.{run};
ghost use Rattle.st_law.specs.declared.input.Input.{Input};
ghost use Rattle.st_law.specs.declared.input.Mode.TheVariants.{Learn};
ghost use Rattle.st_law.specs.declared.input.ReadSchedule.{ReadSchedule};
ghost use Rattle.st_printing.specs.Canon.{canon};
ghost use Rattle.st_reading.specs.Meaning.{Contents, AreFilesKnown, Means, Runs};
ghost use Rattle.st_top.specs.Ends.{IsTraceOfBytes, names_asked};
ghost use Rattle.st_top.specs.Learning.{PermitsWhatWasMade, policies_after};
ghost use Rattle.st_top.specs.Outcome.{CommandOutcome, WordsHaveOutcome, is_stop, printed};
ghost use Rattle.st_trace.specs.declared.entry.Choice.{Choice};

use st_learn::law::what_was_made_is_permitted_by_what_was_learnt;
use st_reading::law::{what_is_meant_to_be_replayed_can_run, what_is_meant_to_run_can_run};

/// Over known files words have exactly one outcome, besides the files at which reading may stop. A trace that is replayed is of bytes, as
/// each file is.
pub fn words_have_one_outcome()
    ensures some { (words : List Word) (contents : Contents) → AreFilesKnown contents (names_asked (command_in words)) → IsTraceOfBytes contents (command_in words) → (outcome : CommandOutcome) × (is_stop outcome ≡ false) × WordsHaveOutcome words contents outcome }
    ensures one { (words : List Word) (contents : Contents) (a b : CommandOutcome) → AreFilesKnown contents (names_asked (command_in words)) → is_stop a ≡ false → is_stop b ≡ false →
        WordsHaveOutcome words contents a → WordsHaveOutcome words contents b → a ≡ b }
{
    what_is_meant_to_be_replayed_can_run();
}

/// Each held call that a run which learns has made is permitted, under the ids that it was made under, by the policies that `step` writes
/// of the run if it is asked for them. These policies alone suffice.
pub fn what_was_made_is_permitted_by_what_is_written()
    ensures written { (input : Input) (choices : List Choice) (emulation : Emulation) → printed print.Policy input choices emulation ≡ canon (policies_after input choices) emulation }
    ensures permitted { (contents : Contents) (step : StepWords) (input : Input) (schedule : ReadSchedule) → IsWithinLimits (Step step) → step.options.mode ≡ Learn → Means contents (Step step) (Runs input schedule) →
        (choices : List Choice) → PermitsWhatWasMade input (policies_after input choices) (reverse (run input choices)) }
{
    what_is_meant_to_run_can_run();
    what_was_made_is_permitted_by_what_was_learnt();
}

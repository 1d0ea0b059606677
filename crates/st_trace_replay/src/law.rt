ghost use Rattle.std.specs.Prelude.{◌≡◌, ℕ, List, Option};
ghost use Rattle.st_law.specs.Inputs.{IsStartable};
ghost use Rattle.st_law.specs.declared.input.Input.{Input};
ghost use Rattle.st_law.specs.Numbers.{IsLawfulByNumber};
ghost use Rattle.st_written.specs.Normal.{HasNormalDirectories, HaveTypes};
ghost use Rattle.st_written.specs.Written.{IsText};
ghost use Rattle.st_report.specs.TraceText.{trace_text};
ghost use Rattle.st_trace.specs.declared.entry.Entry.{Entry};
ghost use Rattle.st_trace_replay.specs.Replayed.{IsLawfulText, IsReplayed};

/// A printed trace is lawful, or breaks at exactly one line.
pub fn a_printed_trace_breaks_at_one_line()
    ensures one { (input : Input) (text : List ℕ) (a b : Option ℕ) → IsReplayed input text a → IsReplayed input text b → a ≡ b }
    ensures some { (input : Input) → IsStartable input → (text : List ℕ) → IsText text → (line : Option ℕ) × IsReplayed input text line }
{}

/// What is printed of a trace that is lawful by the numbers of its messages is lawful when it is replayed, if the script's processes start in
/// directories with normal names. The entries have the values of their types, as those of each run have.
pub fn what_is_printed_of_a_lawful_trace_is_lawful()
    ensures { (input : Input) → HasNormalDirectories input → (trace : List Entry) → IsLawfulByNumber input trace → HaveTypes trace → IsLawfulText input (trace_text trace) }
{}

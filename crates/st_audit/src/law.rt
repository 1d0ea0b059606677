ghost use Rattle.std.specs.Prelude.{◌≡◌, ◌≤◌, ℕ, List, option_map};
ghost use Rattle.st_emulation.specs.declared.emulation.Emulation.{Emulation};
ghost use Rattle.st_trace.specs.declared.entry.Entry.{Entry};
ghost use Rattle.st_law.specs.declared.input.Input.{Input};
ghost use Rattle.st_law.specs.Inputs.{IsStartable};
ghost use Rattle.st_law.specs.Lawful.{Lawful};
ghost use Rattle.st_law.specs.Numbers.{drawings_at, drawn, drawn_back, numbered};
ghost use Rattle.st_law.specs.Threads.{History};
ghost use Rattle.st_audit.specs.AuditText.{audit, audit_by_number};
ghost use Rattle.st_audit.specs.FromHistory.{answer_as, applied_answer};
ghost use Rattle.st_audit.specs.PolicyText.{policy_text};
ghost use Rattle.st_audit.specs.Summary.{summary_of};

/// The numbers of messages don't change what is printed of a run: the audit and the policies of the numbers of a lawful trace are those of
/// the trace. What is recorded under a number that was drawn is what is recorded of its last drawing.
pub fn numbers_print_as_their_drawings()
    ensures audit { (input : Input) → IsStartable input → (trace : List Entry) → Lawful input trace → (emulation : Emulation) → audit_by_number input (numbered input trace) emulation ≡ audit input trace emulation }
    ensures policies { (input : Input) → IsStartable input → (trace : List Entry) → Lawful input trace → (emulation : Emulation) → policy_text input (drawn (numbered input trace)) emulation ≡ policy_text input trace emulation }
    ensures answers { (h : History) (n : ℕ) → 1 ≤ (drawings_at h).drawing_of n → applied_answer h n ≡ option_map (answer_as n) (applied_answer (drawn_back h) ((drawings_at h).drawing_of n)) }
{}

/// The summary of a trace doesn't depend on the numbers of messages: it is the same of numbers, of their drawings, and of the numbers of
/// drawings.
pub fn a_summary_counts_no_numbers()
    ensures drawn { (trace : List Entry) → summary_of (drawn trace) ≡ summary_of trace }
    ensures numbered { (input : Input) (trace : List Entry) → summary_of (numbered input trace) ≡ summary_of trace }
{}

ghost use Rattle.std.specs.Prelude.{◌≡◌, ◌↔◌, ◌≤◌, ◌++◌, ◌∷◌, ℕ, [], List, Some, true, Ok};
ghost use Rattle.std.specs.List.{All};
ghost use Rattle.st_base.specs.declared.ids.Ids.{Ids};
ghost use Rattle.st_calls.specs.Argument.{args_of};
ghost use Rattle.st_calls.specs.declared.argument.ArgText.{ArgText};
ghost use Rattle.st_calls.specs.declared.call.SysCall.{SysCall};
ghost use Rattle.st_calls.specs.declared.judged.Snapshot.{Snapshot};
ghost use Rattle.st_emulation.specs.declared.emulation.Emulation.{Emulation};
ghost use Rattle.st_filter.specs.Formula.{FilterValue};
ghost use Rattle.st_filter.specs.Policies.{PoliciesValue, filters_in};
ghost use Rattle.st_filter.specs.declared.set.BinaryPolicy.{BinaryPolicy};
ghost use Rattle.st_filter.specs.declared.set.TheConstants.{MOST_FILTERS};
ghost use Rattle.st_law.specs.History.{looking_back, session_at};
ghost use Rattle.st_law.specs.Inputs.{IsStartable};
ghost use Rattle.st_law.specs.Lawful.{IsLawfulBack};
ghost use Rattle.st_law.specs.Sessions.{SessionFilter, learnt_filter};
ghost use Rattle.st_law.specs.State.{snapshot_in};
ghost use Rattle.st_law.specs.Threads.{History};
ghost use Rattle.st_law.specs.declared.input.Input.{Input};
ghost use Rattle.st_law.specs.declared.input.Mode.TheVariants.{Learn};
ghost use Rattle.st_law.specs.declared.input.Options.{Options};
ghost use Rattle.st_learn.specs.Learnt.{HaveSameVersions, NoneAsksInForce, learnt_in, learnt_policies};
ghost use Rattle.st_printing.specs.Canon.{canon};
ghost use Rattle.st_grammar.specs.Grammar.{Reads};
ghost use Rattle.st_grammar.specs.OneFilter.{ReadsFilter};
ghost use Rattle.st_reread.specs.Readable.{AreTextBytes, WasRead, HasPlainDollars, HasSmallIds};
ghost use Rattle.st_grammar.specs.declared.env.Env.{Env};
ghost use Rattle.st_relearn.specs.Plain.{AreArguments, AreWritableCopies, HasPlainTexts};
ghost use Rattle.st_relearn.specs.Relearnt.{AreWritableInForce, HasWritableBlocks, HasWritableReplies, IsWritableKept, ReadsAndPermits, learnt_policy_text};
ghost use Rattle.st_relearn.specs.Scripts.{HasPlainScript};
ghost use Rattle.st_relearn.specs.Writable.{AreWritable, IsWritableBinary, IsWritableFilter};
ghost use Rattle.st_script.specs.Reading.{script_in};
ghost use Rattle.st_script.specs.Startable.{input_with};
ghost use Rattle.st_script.specs.declared.reading.ReadScript.{ReadScript};
ghost use Rattle.st_trace.specs.declared.entry.CallResult.{CallResult};
ghost use Rattle.st_trace.specs.declared.entry.Change.{Change};
ghost use Rattle.st_trace.specs.declared.entry.Entry.TheVariants.{Used};

use st_grammar::{reading_is_one, what_is_read_is_a_filter};
use st_learn::law::what_was_made_is_permitted_by_what_was_learnt;
use st_script::reading::what_is_read_can_start;

/// Policies that can be written are read again from their canonical text.
pub fn what_can_be_written_is_read_again()
    ensures { (env : Env) (set : List BinaryPolicy) → AreWritable env set → Reads (canon set env.emulation) env [] set }
{}

/// Policies can be written exactly when they were read from texts.
pub fn what_was_read_is_what_can_be_written()
    ensures { (env : Env) (set : List BinaryPolicy) → HasPlainDollars env → HasSmallIds env → WasRead env set ↔ AreWritable env set }
{}

/// A filter that was read alone, as a reply is, can be written.
pub fn a_reply_can_be_written()
    ensures { (env : Env) (text : List ℕ) (f : FilterValue) → ReadsFilter text env f → AreTextBytes text → HasPlainDollars env → HasSmallIds env → IsWritableFilter env f }
{}

/// A filter that was learnt can be written if the parts of its copies are the arguments of their rule and can be quoted.
pub fn what_is_learnt_can_be_written()
    ensures { (env : Env) (s : Snapshot) → AreArguments (args_of s.rule) s.parts → IsWritableFilter env (learnt_filter s) }
{}

/// The canonical text of policies, with the filters in force and what a session has added to them, is read again as the same policies, if
/// they, the filters in force, the binaries that were changed and the session's filters can be written and there are not too many filters
/// in all.
pub fn learnt_text_is_read_again()
    ensures { (env : Env) (policies : PoliciesValue) (versions : List ℕ → ℕ) (changed : List (List ℕ)) (session : List SessionFilter) → AreWritable env policies.read → AreWritableInForce env policies versions → All IsWritableBinary changed → All (IsWritableKept env) session → filters_in (learnt_policies policies versions changed session) ≤ MOST_FILTERS → Reads (canon (learnt_policies policies versions changed session) env.emulation) env [] (learnt_policies policies versions changed session) }
{}

/// Each copy that a lawful run makes has the arguments of its rule, and the arguments and the binary of its policy can be written, if the
/// texts of the script can be quoted.
pub fn what_a_run_copies_can_be_written()
    ensures { (input : Input) → IsStartable input → HasPlainTexts input.start → (h : History) → IsLawfulBack input h → (q : ℕ) (s : Snapshot) → snapshot_in (looking_back input h) q ≡ Some s → AreWritableCopies s }
{}

/// Each filter that a lawful run adds can be written, if the texts of the script can be quoted and its replies can be written. So can the
/// filters in force and the binaries whose policies it has changed, if the policies that were read and those of the script can be written.
pub fn what_a_run_adds_can_be_written()
    ensures session { (env : Env) (input : Input) → IsStartable input → HasPlainTexts input.start → HasWritableReplies env input → (h : History) → IsLawfulBack input h → All (IsWritableKept env) (session_at input h) }
    ensures in_force { (env : Env) (input : Input) → IsStartable input → AreWritable env input.policies.read → HasWritableBlocks env input → (h : History) → IsLawfulBack input h → AreWritableInForce env input.policies (looking_back input h).versions }
    ensures changed { (env : Env) (input : Input) → IsStartable input → HasPlainTexts input.start → HasWritableBlocks env input → (h : History) → IsLawfulBack input h → All IsWritableBinary (looking_back input h).changed }
{}

/// The policies in force with what a run has added, written and read again, permit each held call that the run has made, under the ids that
/// it was made under, as long as no policy was reloaded since. This needs that no filter in force asks, that all filters can be written, and
/// that there are not too many in all.
pub fn what_is_read_again_permits_what_was_made()
    ensures { (env : Env) (input : Input) → IsStartable input → HasPlainTexts input.start → HasWritableReplies env input → HasWritableBlocks env input → AreWritable env input.policies.read → (later earlier : History) (t q : ℕ) (call : SysCall) (regs : List ℕ) (args : List ArgText) (ids : Ids) (result : CallResult) (changes : List Change) → NoneAsksInForce input.policies (looking_back input (later ++ Used t (Some q) call regs args ids result changes ∷ earlier)).versions → HaveSameVersions (looking_back input earlier) (looking_back input (later ++ Used t (Some q) call regs args ids result changes ∷ earlier)) → IsLawfulBack input (later ++ Used t (Some q) call regs args ids result changes ∷ earlier) → filters_in (learnt_in input (looking_back input (later ++ Used t (Some q) call regs args ids result changes ∷ earlier))) ≤ MOST_FILTERS → ReadsAndPermits (learnt_policy_text input (looking_back input (later ++ Used t (Some q) call regs args ids result changes ∷ earlier)) env.emulation) env (looking_back input earlier) q ids }
{
    what_was_made_is_permitted_by_what_was_learnt();
    reading_is_one();
}

/// If filters are learnt, the policies that were read, with what the run has added, are written and read again with the names, ids and
/// texts that they were read with. The result permits each held call that the run has made, under the ids that it was made under, unless
/// there are too many filters in all.
pub fn learnt_text_permits_what_was_made()
    ensures { (env : Env) (input : Input) → IsStartable input → HasPlainTexts input.start → input.options.mode ≡ Learn → env.learn ≡ true → HasPlainDollars env → HasSmallIds env → WasRead env input.policies.read → (later earlier : History) (t q : ℕ) (call : SysCall) (regs : List ℕ) (args : List ArgText) (ids : Ids) (result : CallResult) (changes : List Change) → IsLawfulBack input (later ++ Used t (Some q) call regs args ids result changes ∷ earlier) → filters_in (learnt_in input (looking_back input (later ++ Used t (Some q) call regs args ids result changes ∷ earlier))) ≤ MOST_FILTERS → ReadsAndPermits (learnt_policy_text input (looking_back input (later ++ Used t (Some q) call regs args ids result changes ∷ earlier)) env.emulation) env (looking_back input earlier) q ids }
{
    what_was_made_is_permitted_by_what_was_learnt();
    reading_is_one();
}

/// A script that was read has texts that can be quoted, ids of 32 bits, and replies and policies that can be written.
pub fn what_a_script_says_can_be_written()
    ensures { (text : List ℕ) (options : Options) (emulation : Emulation) (script : ReadScript) → AreTextBytes text → script_in text options emulation ≡ Ok script → HasPlainScript script }
{
    what_is_read_is_a_filter();
}

/// If a script and policies were read and filters are learnt, the policies with what the run has added are written and read again with the
/// same names and texts. The result permits each held call that the run has made, under the ids that it was made under, unless there are
/// too many filters in all.
pub fn what_a_script_learns_permits_what_was_made()
    ensures { (text : List ℕ) (options : Options) (emulation : Emulation) (script : ReadScript) (policies : List BinaryPolicy) → AreTextBytes text → script_in text options emulation ≡ Ok script → options.mode ≡ Learn → 1 ≤ options.workers → options.workers ≤ 8 → WasRead script.env policies → (later earlier : History) (t q : ℕ) (call : SysCall) (regs : List ℕ) (args : List ArgText) (ids : Ids) (result : CallResult) (changes : List Change) → IsLawfulBack (input_with policies options script) (later ++ Used t (Some q) call regs args ids result changes ∷ earlier) → filters_in (learnt_in (input_with policies options script) (looking_back (input_with policies options script) (later ++ Used t (Some q) call regs args ids result changes ∷ earlier))) ≤ MOST_FILTERS → ReadsAndPermits (learnt_policy_text (input_with policies options script) (looking_back (input_with policies options script) (later ++ Used t (Some q) call regs args ids result changes ∷ earlier)) script.env.emulation) script.env (looking_back (input_with policies options script) earlier) q ids }
{
    what_was_made_is_permitted_by_what_was_learnt();
    reading_is_one();
    what_is_read_is_a_filter();
    what_is_read_can_start();
}

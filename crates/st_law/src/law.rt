ghost use Rattle.std.specs.Prelude.{◌≡◌, ◌≢◌, ◌≤◌, ◌↔◌, ℕ, Bool, true, false, List, [], ◌∷◌, ◌++◌, length, reverse, Option, Some, None};
ghost use Rattle.st_base.specs.declared.errno.Errno.{Errno};
ghost use Rattle.st_base.specs.declared.ids.Ids.{Ids};
ghost use Rattle.st_calls.specs.declared.argument.ArgText.{ArgText};
ghost use Rattle.st_calls.specs.declared.call.SysCall.{SysCall};
ghost use Rattle.st_calls.specs.declared.judged.Snapshot.{Snapshot};
ghost use Rattle.st_calls.specs.declared.judged.Verdict.{Verdict};
ghost use Rattle.st_calls.specs.declared.judged.Verdict.TheVariants.{Permit, Refuse, Unmatched};
ghost use Rattle.st_calls.specs.declared.rule.Rule.{Rule};
ghost use Rattle.st_filter.specs.Formula.{FilterValue};
ghost use Rattle.st_filter.specs.Judging.{holds, verdict};
ghost use Rattle.st_model.specs.Tree.{Tree};
ghost use Rattle.st_names.specs.Name.{Components};
ghost use Rattle.st_names.specs.declared.seen.SeenText.{SeenText};
ghost use Rattle.st_effects.specs.Progress.{ArgRequest};
ghost use Rattle.st_trace.specs.declared.entry.CallResult.{CallResult};
ghost use Rattle.st_trace.specs.declared.entry.Cause.TheVariants.{Filter};
ghost use Rattle.st_trace.specs.declared.entry.Change.{Change};
ghost use Rattle.st_trace.specs.declared.entry.Choice.{Choice};
ghost use Rattle.st_trace.specs.declared.entry.Entry.{Entry};
ghost use Rattle.st_trace.specs.declared.entry.Entry.TheVariants.{Answered, Denied, Learned, Reloaded, Used};
ghost use Rattle.st_trace.specs.declared.start.Instr.{Instr};
ghost use Rattle.st_law.specs.declared.input.Input.{Input};
ghost use Rattle.st_law.specs.declared.input.ReadSchedule.{ReadSchedule};
ghost use Rattle.st_law.specs.Arguments.{Surroundings, link_met, link_on_way};
ghost use Rattle.st_law.specs.Entries.{Reloads};
ghost use Rattle.st_law.specs.History.{looking_back, session_at};
ghost use Rattle.st_law.specs.Inputs.{IsStartable};
ghost use Rattle.st_law.specs.Lawful.{IsLawful, IsLawfulBack, Lawful};
ghost use Rattle.st_law.specs.Laws.{HaveEqualArguments, AreHeldCalls, HasBegun, IsRested, IsStale, IsPassedBy, IsProcessLive, IsUsedAsAnswered};
ghost use Rattle.st_law.specs.Links.{IsLinkFound, IsFirstLinkInWay};
ghost use Rattle.st_law.specs.Machine.{entry_of, history, run, state_of_run, IsEnabled};
ghost use Rattle.st_law.specs.Numbers.{drawings_at, drawn, drawn_entry, numbered_entry, numbered_in, numbers_at};
ghost use Rattle.st_law.specs.OneStep.{AreTakenInOneStep};
ghost use Rattle.st_law.specs.Schedules.{Choices, most_steps, played, rest_from, steps_for};
ghost use Rattle.st_law.specs.Sessions.{SessionFilter, decision, learnt_filter};
ghost use Rattle.st_law.specs.Splits.{NoneTouches};
ghost use Rattle.st_law.specs.State.{State, decision_in, snapshot_in, system_of};
ghost use Rattle.st_law.specs.Threads.{History, body_of, has_ended_at, left_at, owner_at};
ghost use Rattle.st_law.specs.Recorded.{choice_of, recorded_choices};

/// Every run of the machine is lawful, for every startable input and every list of choices.
pub fn every_run_is_lawful()
    ensures { (input : Input) → IsStartable input → (choices : List Choice) → Lawful input (run input choices) }
{}

/// The law and the machine agree: a trace is lawful exactly when it is the run of the choices that it implies, and so exactly when it is
/// the run of some choices. Each choice that a lawful trace implies is enabled at its turn, and adds that entry. An entry after a lawful
/// history is lawful exactly when the choice that it implies adds it.
pub fn the_law_is_the_machine()
    ensures both { (input : Input) → IsStartable input → (trace : List Entry) → Lawful input trace ↔ (run input (recorded_choices input trace) ≡ trace) }
    ensures runs { (input : Input) → IsStartable input → (trace : List Entry) → Lawful input trace ↔ ((choices : List Choice) × (run input choices ≡ trace)) }
    ensures enabled { (input : Input) → IsStartable input → (front rest : List Entry) (e : Entry) → Lawful input (front ++ e ∷ rest) → entry_of input (state_of_run input (recorded_choices input front)) (choice_of input (looking_back input (reverse front)) e) ≡ Some e }
    ensures one { (input : Input) → IsStartable input → (h : History) → IsLawfulBack input h → (e : Entry) → IsLawful input (looking_back input h) e ↔ (entry_of input (looking_back input h) (choice_of input (looking_back input h) e) ≡ Some e) }
{}

/// Every prefix of a lawful trace is lawful: a run that was cut short is a run.
pub fn every_prefix_is_lawful()
    ensures { (input : Input) (front rest : List Entry) → Lawful input (front ++ rest) → Lawful input front }
{}

/// A trace is numbered entry by entry: one more entry changes no number before it. The way back goes entry by entry as well.
pub fn numbers_are_given_entry_by_entry()
    ensures numbered { (circle : ℕ) (input : Input) (trace : List Entry) (e : Entry) → numbered_in circle input (trace ++ e ∷ []) ≡ numbered_in circle input trace ++ numbered_entry (numbers_at circle input (e ∷ reverse trace)).number_of e ∷ [] }
    ensures drawn { (trace : List Entry) (e : Entry) → drawn (trace ++ e ∷ []) ≡ drawn trace ++ drawn_entry (drawings_at (reverse trace)) e ∷ [] }
{}

/// An answer that isn't applied changes nothing except that its worker becomes idle.
pub fn a_stale_answer_changes_nothing()
    ensures { (input : Input) (h : History) (w : ℕ) (s : Snapshot) (v : Verdict) → IsStale input h w (Answered w s v false) }
{}

/// After an applied answer, the copies of its number stay those that were judged. If the call of that number is made, it is made with
/// exactly these copies and, if the answer decided, under the ids that it granted. If the answer decided and a filter denies the call, the
/// answer named this filter and this error.
pub fn an_answer_is_final()
    ensures copies { (input : Input) → IsStartable input → (later earlier : History) (w : ℕ) (s : Snapshot) (v : Verdict) → IsLawfulBack input (later ++ Answered w s v true ∷ earlier) → snapshot_in (looking_back input (later ++ Answered w s v true ∷ earlier)) s.seq ≡ Some s }
    ensures used { (input : Input) → IsStartable input → (later earlier : History) (w : ℕ) (s : Snapshot) (v : Verdict) (t : ℕ) (call : SysCall) (regs : List ℕ) (args : List ArgText) (ids : Ids) (result : CallResult) (changes : List Change) → IsLawfulBack input (Used t (Some s.seq) call regs args ids result changes ∷ (later ++ Answered w s v true ∷ earlier)) → IsUsedAsAnswered s v call regs args ids }
    ensures denied { (input : Input) → IsStartable input → (later earlier : History) (w : ℕ) (s : Snapshot) (v : Verdict) (t : ℕ) (errno : Errno) (n : ℕ) → IsLawfulBack input (Denied t (Some s.seq) errno (Filter n) ∷ (later ++ Answered w s v true ∷ earlier)) → v ≢ Unmatched → v ≡ Refuse n errno }
{}

/// If the filters in force decide, the session's filters don't matter. The session's list of filters grows only at its end. A call that was
/// decided once, by whichever filter, is decided in the same way until the policy of its binary is reloaded.
pub fn a_decision_is_final()
    ensures read { (read session : List FilterValue) (s : Snapshot) (v : Verdict) → verdict read s ≡ v → v ≢ Unmatched → decision read session s ≡ v }
    ensures grows { (input : Input) (later earlier : History) → (more : List SessionFilter) × (session_at input (later ++ earlier) ≡ session_at input earlier ++ more) }
    ensures stays { (input : Input) (later earlier : History) (s : Snapshot) → NoneTouches (Reloads input s.policy) later earlier → decision_in input (looking_back input earlier) s ≢ Unmatched → decision_in input (looking_back input (later ++ earlier)) s ≡ decision_in input (looking_back input earlier) s }
{}

/// A reload that is refused has no changes, and changes nothing except that its thread goes past the instruction.
pub fn a_refused_reload_changes_nothing()
    ensures none { (input : Input) (h : History) (t n : ℕ) (changes : List Change) → IsLawful input (looking_back input h) (Reloaded t n false changes) → changes ≡ [] }
    ensures passed { (input : Input) (h : History) (t n : ℕ) → IsPassedBy input h t (Reloaded t n false []) }
{}

/// The filter that is learnt from copies holds of exactly the calls that have each of these arguments with its text, and so of the copies
/// themselves. Once it is learnt, the decision on the copies is a permit by the filter of this number, under their own ids.
pub fn what_is_learnt_permits()
    ensures holds { (s : Snapshot) → holds (learnt_filter s) s ≡ true }
    ensures exactly { (s u : Snapshot) → (holds (learnt_filter s) u ≡ true) ↔ HaveEqualArguments u.parts s.parts }
    ensures number { (input : Input) → IsStartable input → (h : History) (q n : ℕ) (s : Snapshot) → IsLawfulBack input (Learned q n ∷ h) → snapshot_in (looking_back input h) q ≡ Some s → decision_in input (looking_back input (Learned q n ∷ h)) s ≡ Permit n s.ids }
{}

/// A call takes effect only if no link is in its way: `link_met` is the first such link. The names on the way to a name are its proper
/// prefixes, and the name itself if a link in its place is followed. Of several names of a call, the first that has a link on its way
/// counts.
pub fn the_first_link_in_the_way_counts()
    ensures on_way { (tree : Tree) (follow : Bool) (name : Components) → IsLinkFound tree follow name (link_on_way tree follow name) }
    ensures call { (tree : Tree) (rule : Rule) (call : SysCall) (regs : List ℕ) (args : List ArgText) → IsFirstLinkInWay tree rule call regs args (link_met tree rule call regs args) }
{}

/// If a schedule gives choices, each of them is enabled at its turn: the run has one entry for each.
pub fn each_choice_of_a_schedule_is_enabled()
    ensures { (input : Input) (schedule : ReadSchedule) (choices : List Choice) → played input schedule ≡ Choices choices → length (run input choices) ≡ length choices }
{}

/// A call sees the processes that exist and haven't ended, and the calls held by threads that aren't dying, in the order of the threads.
pub fn what_a_call_sees()
    ensures live { (input : Input) (st : State) (p : ℕ) → ((system_of input st).is_live p ≡ true) ↔ IsProcessLive input st p }
    ensures held { (input : Input) (st : State) → AreHeldCalls input st (system_of input st).held }
{}

/// A call that isn't held takes the arguments, or the fault, that a worker would get by copying and looking while nothing changes.
pub fn one_step_takes_what_a_worker_would()
    ensures { (asked : ArgRequest) (around : Surroundings) → (words : ℕ → List ℕ) × (lookups : ℕ → List SeenText) × AreTakenInOneStep asked around words lookups }
{}

/// The instructions that a thread has stored, entered and reloaded so far, in order, followed by those that it has left, are its body.
pub fn a_thread_goes_through_its_body()
    ensures { (input : Input) (h : History) (t : ℕ) → IsLawfulBack input h → (begun : List Instr) × HasBegun t h begun × (begun ++ left_at input h t ≡ body_of input t) }
{}

/// As long as some started thread hasn't ended, some choice is enabled.
pub fn some_choice_is_enabled()
    ensures { (input : Input) → IsStartable input → (choices : List Choice) (t : ℕ) → owner_at input (history input (reverse choices)) t ≢ 0 → has_ended_at (history input (reverse choices)) t ≡ false → (c : Choice) × IsEnabled input (state_of_run input choices) c }
{}

/// A run has at most 10,000 x (n + 64 x m + 1) + r steps, for n instructions, m of them calls that set ids or reloads, and r replies. At most
/// 10,000 of these steps are for any one number. After the choices that `rest` gives, no choice is enabled, whatever was chosen before them.
pub fn every_run_ends()
    ensures steps { (input : Input) → IsStartable input → (choices : List Choice) → length (run input choices) ≤ most_steps input }
    ensures number { (input : Input) → IsStartable input → (q : ℕ) (h : History) → IsLawfulBack input h → steps_for q h ≤ 10000 }
    ensures rest { (input : Input) → IsStartable input → (choices : List Choice) (count : ℕ) → most_steps input ≤ count → IsRested input (rest_from count input (state_of_run input choices) choices) }
{}

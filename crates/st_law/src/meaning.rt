ghost use Rattle.std.specs.Prelude.{◌≡◌, ◌≢◌, ◌↔◌, ℕ, true, false, List, [], ◌∷◌, ◌++◌, length, Option, Some, None, ◌+◌};
ghost use Rattle.st_base.specs.Numbered.{item_at_number};
ghost use Rattle.st_base.specs.declared.errno.Errno.{Errno};
ghost use Rattle.st_base.specs.declared.ids.Ids.{Ids};
ghost use Rattle.st_calls.specs.Call.{rule_of};
ghost use Rattle.st_calls.specs.declared.argument.ArgText.{ArgText};
ghost use Rattle.st_calls.specs.declared.call.SysCall.{SysCall};
ghost use Rattle.st_calls.specs.declared.judged.Snapshot.{Snapshot};
ghost use Rattle.st_calls.specs.declared.judged.Verdict.TheVariants.{Unmatched};
ghost use Rattle.st_calls.specs.declared.rule.FastAnswer.TheVariants as answer;
ghost use Rattle.st_calls.specs.declared.rule.Rule.{Rule};
ghost use Rattle.st_filter.specs.Formula.{FilterValue};
ghost use Rattle.st_filter.specs.Judging.{verdict, verdict_from};
ghost use Rattle.st_filter.specs.Policies.{binary_of_block, filters_in_force};
ghost use Rattle.st_model.specs.Process.{Process};
ghost use Rattle.st_trace.specs.declared.entry.CallResult.{CallResult};
ghost use Rattle.st_trace.specs.declared.entry.Cause.{Cause};
ghost use Rattle.st_trace.specs.declared.entry.Change.{Change};
ghost use Rattle.st_trace.specs.declared.entry.Entry.TheVariants.{Denied, Entered, Used};
ghost use Rattle.st_trace.specs.declared.entry.Way.TheVariants.{Barred, Fast};
ghost use Rattle.st_trace.specs.declared.start.ProcessRow.{ProcessRow};
ghost use Rattle.st_trace.specs.declared.start.Start.{Start};
ghost use Rattle.st_trace.specs.declared.start.ThreadRow.{ThreadRow};
ghost use Rattle.st_law.specs.declared.input.Input.{Input};
ghost use Rattle.st_law.specs.Bars.{IsDeniedByBar, IsEnteredSince, answer_at};
ghost use Rattle.st_law.specs.Inputs.{IsStartable};
ghost use Rattle.st_law.specs.Lawful.{IsLawfulBack};
ghost use Rattle.st_law.specs.Links.{IsFirstLinkInWay};
ghost use Rattle.st_law.specs.Loaded.{IsLoaded};
ghost use Rattle.st_law.specs.Meaning.{AreArgumentsOf, AreCopies, AreKeptFor, ConsolesBegin, IsAsking, IsWorkerAt, IsFirstFilter, IsLoadExplained, IsSystemOfState, IsMadeWith, IsNextReply, IsPlainDenial, IsPlainPermit, IsWordAt, IsWorker, ProcessBegins, ThreadBegins, TreeBegins};
ghost use Rattle.st_law.specs.Messages.{Head};
ghost use Rattle.st_law.specs.Processes.{first_descriptors, first_tree};
ghost use Rattle.st_law.specs.Sessions.{session_filters};
ghost use Rattle.st_law.specs.State.{State, answer_in, arguments_now, decision_in, filter_count, is_head_under, is_question, is_worker, link_now, may_reload, next_reply, request_of, snapshot_in, system_of, word_for, worker_at};
ghost use Rattle.st_law.specs.Threads.{History, body_of, first_owner};

/// A run begins as the rows of its script and its options say: the threads, the processes, the file tree and the descriptors.
pub fn a_run_begins_as_its_script_says()
    ensures threads { (i : Input) (t : ℕ) (row : ThreadRow) → item_at_number i.start.threads t ≡ Some row → ThreadBegins i t row }
    ensures no_thread { (i : Input) (t : ℕ) → item_at_number i.start.threads t ≡ None → (first_owner i t ≡ 0) × (body_of i t ≡ []) }
    ensures processes { (i : Input) (p : ℕ) (row : ProcessRow) → item_at_number i.start.processes p ≡ Some row → ProcessBegins i p row }
    ensures tree { (i : Input) → TreeBegins i.start.tree (first_tree i) }
    ensures descriptors { (i : Input) → ConsolesBegin (length i.start.processes) (first_descriptors i) }
{}

/// A worker is at the number that it has claimed, as long as the number is live or all its arguments are complete. It copies the word in
/// the memory of the number's process. The copies of a number are those of its head, with the arguments that its words and lookups give.
pub fn what_a_worker_is_at()
    ensures workers { (i : Input) (w : ℕ) → (is_worker i w ≡ true) ↔ IsWorker i w }
    ensures number { (st : State) (w q : ℕ) → (worker_at st w ≡ Some q) ↔ IsWorkerAt st w q }
    ensures word { (st : State) (q place : ℕ) (head : Head) → (st.messages q).head ≡ Some head → IsWordAt (st.memory (st.processes head.pid).space) place (word_for st q place) }
    ensures copies { (st : State) (q : ℕ) (s : Snapshot) → (snapshot_in st q ≡ Some s) ↔ AreCopies st q s }
{}

/// The kernel permits or refuses by itself exactly when the first filter is a plain permit or a plain deny.
pub fn what_the_kernel_answers_by_itself()
    ensures permits { (i : Input) (st : State) (process : Process) (call : SysCall) (regs : List ℕ) → (answer_in i st process call regs ≡ answer.Permit) ↔ ((f : FilterValue) × IsFirstFilter i st process.policy (rule_of call regs i.options.aliasing) f × IsPlainPermit f) }
    ensures refuses { (i : Input) (st : State) (process : Process) (call : SysCall) (regs : List ℕ) (errno : Errno) → (answer_in i st process call regs ≡ answer.Refuse errno) ↔ ((f : FilterValue) × IsFirstFilter i st process.policy (rule_of call regs i.options.aliasing) f × IsPlainDenial errno f) }
{}

/// The filters in force decide, otherwise those of the session, which are numbered on. The count of filters of a policy and a rule
/// includes both.
pub fn what_the_filters_decide()
    ensures read { (i : Input) (st : State) (s : Snapshot) → verdict (filters_in_force i.policies s.policy (st.versions s.policy) s.rule) s ≢ Unmatched → decision_in i st s ≡ verdict (filters_in_force i.policies s.policy (st.versions s.policy) s.rule) s }
    ensures session { (i : Input) (st : State) (s : Snapshot) → verdict (filters_in_force i.policies s.policy (st.versions s.policy) s.rule) s ≡ Unmatched → decision_in i st s ≡ verdict_from (1 + length (filters_in_force i.policies s.policy (st.versions s.policy) s.rule)) (session_filters st.session s.policy s.rule) s }
    ensures count { (i : Input) (st : State) (s : Snapshot) → (n : ℕ) × AreKeptFor s.policy s.rule st.session n × (filter_count i st s ≡ length (filters_in_force i.policies s.policy (st.versions s.policy) s.rule) + n) }
{}

/// Which numbers are questions, and which reply is given next.
pub fn what_the_operator_is_asked()
    ensures question { (i : Input) (st : State) (q : ℕ) → (is_question i st q ≡ true) ↔ IsAsking i st q }
    ensures reply { (i : Input) (st : State) (policy : List ℕ) (rule : Rule) → IsNextReply i st policy rule (next_reply i st policy rule) }
{}

/// What a call is made with, which system it sees, which link is in its way, and the arguments of a call that copies and looks in one step.
pub fn what_a_call_is_made_with()
    ensures request { (i : Input) (st : State) (t : ℕ) (regs : List ℕ) (args : List ArgText) (ids : Ids) → IsMadeWith i st t regs args ids (request_of i st t regs args ids) }
    ensures link { (i : Input) (st : State) (call : SysCall) (regs : List ℕ) (args : List ArgText) → IsFirstLinkInWay st.tree (rule_of call regs i.options.aliasing) call regs args (link_now i st call regs args) }
    ensures system { (i : Input) (st : State) → IsSystemOfState st (system_of i st) }
    ensures arguments { (i : Input) (st : State) (t : ℕ) (call : SysCall) (regs : List ℕ) → AreArgumentsOf i st t call regs (arguments_now i st t call regs) }
{}

/// A process may reload a policy exactly if it is untraced and its effective user is 0. A reload renews the held calls under the policy of
/// the binary that the script's policy of its number is for.
pub fn what_a_reload_needs()
    ensures process { (process : Process) → (may_reload process ≡ true) ↔ (process.traced ≡ false) × (process.ids.euid ≡ 0) }
    ensures under { (i : Input) (n : ℕ) (head : Head) → (is_head_under i n (Some head) ≡ true) ↔ (binary_of_block i.policies n ≡ Some head.policy) }
{}

/// A call is barred if the kernel refuses it when it is entered, and this answer is final, whatever is reloaded meanwhile. The call is never
/// made, and its denial has the error of that answer.
pub fn a_bar_is_final()
    ensures refused { (i : Input) (t n : ℕ) (call : SysCall) (regs : List ℕ) (h : History) → IsLawfulBack i (Entered t call regs (Barred n) ∷ h) → (errno : Errno) × (answer_at i h t call regs ≡ answer.Refuse errno) }
    ensures unmade { (i : Input) → IsStartable i → (t n : ℕ) (call : SysCall) (regs : List ℕ) (later earlier : History) → IsEnteredSince i t call regs (Barred n) later earlier → (seq : Option ℕ) (made : SysCall) (given : List ℕ) (args : List ArgText) (ids : Ids) (result : CallResult) (changes : List Change) → IsLawfulBack i (Used t seq made given args ids result changes ∷ (later ++ Entered t call regs (Barred n) ∷ earlier)) → ⊥ }
    ensures denied { (i : Input) → IsStartable i → (t n : ℕ) (call : SysCall) (regs : List ℕ) (later earlier : History) → IsEnteredSince i t call regs (Barred n) later earlier → (seq : Option ℕ) (errno : Errno) (cause : Cause) → IsLawfulBack i (Denied t seq errno cause ∷ (later ++ Entered t call regs (Barred n) ∷ earlier)) → IsDeniedByBar i t call regs earlier seq errno cause }
{}

/// A call is fast if the kernel permits it when it is entered, and this answer is final, whatever is reloaded meanwhile: the call is never
/// denied.
pub fn a_fast_call_is_never_denied()
    ensures permitted { (i : Input) (t : ℕ) (call : SysCall) (regs : List ℕ) (h : History) → IsLawfulBack i (Entered t call regs Fast ∷ h) → answer_at i h t call regs ≡ answer.Permit }
    ensures undenied { (i : Input) (t : ℕ) (call : SysCall) (regs : List ℕ) (later earlier : History) → IsEnteredSince i t call regs Fast later earlier → (seq : Option ℕ) (errno : Errno) (cause : Cause) → IsLawfulBack i (Denied t seq errno cause ∷ (later ++ Entered t call regs Fast ∷ earlier)) → ⊥ }
{}

/// What a load without a lock can give: 0 or a word that a thread of the process stores there by its body. Where the loading thread has
/// stored there, it is a word that a thread of the process stores there, and where besides no other thread does, it is its own last store.
pub fn what_a_load_gives()
    ensures { (start : Start) (t made place word : ℕ) → IsLoaded start t made place word ↔ IsLoadExplained start t made place word }
{}

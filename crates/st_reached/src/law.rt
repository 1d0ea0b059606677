ghost use Rattle.std.specs.List.{Contains, fold};
ghost use Rattle.std.specs.Prelude.{◌≡◌, ◌≢◌, ◌≤◌, ◌<◌, ◌↔◌, ◌||◌, ℕ, suc, ◌+◌, Bool, true, false, List, ◌∷◌, ◌++◌, length, map, reverse, Option, Some, None};
ghost use Rattle.st_base.specs.declared.ids.Ids.{Ids};
ghost use Rattle.st_calls.specs.declared.argument.ArgText.{ArgText};
ghost use Rattle.st_calls.specs.declared.call.SysCall.{SysCall};
ghost use Rattle.st_filter.specs.Policies.{binary_of_block};
ghost use Rattle.st_trace.specs.declared.entry.CallResult.{CallResult};
ghost use Rattle.st_trace.specs.declared.entry.Change.{Change};
ghost use Rattle.st_trace.specs.declared.entry.Change.TheVariants.{Renewed};
ghost use Rattle.st_trace.specs.declared.entry.Choice.{Choice};
ghost use Rattle.st_trace.specs.declared.entry.Entry.{Entry};
ghost use Rattle.st_trace.specs.declared.entry.Entry.TheVariants.{Reloaded, Used};
ghost use Rattle.st_law.specs.declared.input.Input.{Input};
ghost use Rattle.st_law.specs.declared.input.Mode.TheVariants.{Learn};
ghost use Rattle.st_law.specs.History.{looking_back};
ghost use Rattle.st_law.specs.Inputs.{IsStartable};
ghost use Rattle.st_law.specs.Lawful.{IsLawfulBack, Lawful};
ghost use Rattle.st_law.specs.Machine.{entry_of, run, state_after, state_of_run, thread_entry, worker_entry};
ghost use Rattle.st_law.specs.Messages.{Head, posted_at};
ghost use Rattle.st_law.specs.Numbers.{IsLawfulByNumber, NamesDrawing, Numbers, drawn, in_use_now, is_in_use, is_kept, next_number, number_drawn, numbered, numbered_entry, numbered_in, numbers_after_change, numbers_at};
ghost use Rattle.st_law.specs.Processes.{process_count};
ghost use Rattle.st_law.specs.Schedules.{instruction_count};
ghost use Rattle.st_law.specs.State.{State, is_live, thread_count};
ghost use Rattle.st_law.specs.Threads.{History, thread_of};
ghost use Rattle.st_reached.specs.Grants.{AllUngranted, RepliesUngranted};
ghost use Rattle.st_reached.specs.Reached.{AllHeldLive, ForksStartNew, LiveNumbersAreOwn, SetsOwnIds, life_after, most_numbers};
ghost use Rattle.st_reached.specs.Reloading.{AreRenewedUnder, IsLiveUnder};
ghost use Rattle.st_reached.specs.Scripts.{StartOnce};
ghost use Rattle.st_reached.specs.Waiting.{IsStill, IsStillWorker, wakes};

/// In every state that a run reaches, a live number is that of its thread's held call. Which numbers are live after one more entry is a
/// function of the entry.
pub fn live_numbers_are_their_threads_own()
    ensures own { (input : Input) → IsStartable input → (choices : List Choice) → LiveNumbersAreOwn (state_of_run input choices) }
    ensures life { (input : Input) → IsStartable input → (choices : List Choice) (c : Choice) (e : Entry) → entry_of input (state_of_run input choices) c ≡ Some e → (other : ℕ) → is_live (state_after input (state_of_run input choices) e) other ≡ life_after (state_of_run input choices) e other }
{}

/// In every state that a run reaches, a call that a thread holds has a live number, which is posted as the thread's own, unless the thread
/// is dying.
pub fn a_held_call_has_a_live_number()
    ensures { (input : Input) → IsStartable input → (choices : List Choice) → AllHeldLive (state_of_run input choices) }
{}

/// In every state that a run reaches, the message of a live number is that of its thread's process, and has the version of its policy that is
/// in force.
pub fn a_live_message_has_the_version_in_force()
    ensures process { (input : Input) → IsStartable input → (choices : List Choice) (q : ℕ) (head : Head) → is_live (state_of_run input choices) q ≡ true → ((state_of_run input choices).messages q).head ≡ Some head → head.pid ≡ ((state_of_run input choices).threads head.tid).owner }
    ensures version { (input : Input) → IsStartable input → (choices : List Choice) (q : ℕ) (head : Head) → is_live (state_of_run input choices) q ≡ true → ((state_of_run input choices).messages q).head ≡ Some head → head.version ≡ (state_of_run input choices).versions head.policy }
{}

/// A reload that is done renews exactly the live messages under the policy of its binary, those that were answered or faulted included, each
/// once and in the order of the threads. The new messages have the version that it puts in force.
pub fn a_reload_renews_the_messages_under_its_policy()
    ensures renewed { (input : Input) → IsStartable input → (h : History) (t n : ℕ) (changes : List Change) (binary : List ℕ) → IsLawfulBack input (Reloaded t n true changes ∷ h) → binary_of_block input.policies n ≡ Some binary → AreRenewedUnder input h binary changes }
    ensures version { (input : Input) → IsStartable input → (h : History) (t n : ℕ) (changes : List Change) (binary : List ℕ) → IsLawfulBack input (Reloaded t n true changes ∷ h) → binary_of_block input.policies n ≡ Some binary → (q : ℕ) (head : Head) → IsLiveUnder input (Reloaded t n true changes ∷ h) binary q head → head.version ≡ n }
{}

/// Where policies are learnt nothing is reloaded: each binary keeps the policy that was read.
pub fn learning_reloads_nothing()
    ensures { (input : Input) → IsStartable input → input.options.mode ≡ Learn → (h : History) → IsLawfulBack input h → (binary : List ℕ) → (looking_back input h).versions binary ≡ 0 }
{}

/// No run draws more than n + 64 x m numbers, for n instructions, m of them calls that set ids or reloads: so the script bounds the numbers.
pub fn few_numbers_are_drawn()
    ensures { (input : Input) → IsStartable input → (choices : List Choice) → (state_of_run input choices).posted ≤ most_numbers input }
{}

/// Besides those that exist from the start, no run makes more processes, or more spaces, than its script has instructions.
pub fn few_processes_and_memories_are_made()
    ensures processes { (input : Input) → IsStartable input → (choices : List Choice) → (state_of_run input choices).next_process ≤ suc (process_count input) + instruction_count input }
    ensures memories { (input : Input) → IsStartable input → (choices : List Choice) → (state_of_run input choices).next_space ≤ suc (process_count input) + instruction_count input }
{}

/// In every state that a run reaches, a pending fork names a thread that hasn't started, if each thread of the script can start in at most
/// one way.
pub fn a_fork_starts_a_new_thread()
    ensures { (input : Input) → IsStartable input → StartOnce input.start → (choices : List Choice) → ForksStartNew (state_of_run input choices) }
{}

/// A call that sets ids is made under its process's own ids, if no filter and no reply for it grants ids.
pub fn own_ids_for_setting()
    ensures { (input : Input) → IsStartable input → AllUngranted input.policies → RepliesUngranted input.replies → (choices : List Choice) → SetsOwnIds input (state_of_run input choices) }
{}

/// In every state that a run reaches, a thread adds no entry exactly when it is still: it hasn't started, or it has ended, or it isn't
/// dying and holds a call whose message was neither faulted nor answered, or is a question for the operator.
pub fn threads_that_are_still()
    ensures { (input : Input) → IsStartable input → (choices : List Choice) (t : ℕ) → (thread_entry input (state_of_run input choices) t ≡ None) ↔ IsStill input (state_of_run input choices) t }
{}

/// In every state that a run reaches, a thread that is still stays still after each entry that isn't its own and doesn't wake it. So it
/// adds no entry after it either.
pub fn what_stays_still()
    ensures { (input : Input) → IsStartable input → (choices : List Choice) (c : Choice) (e : Entry) → entry_of input (state_of_run input choices) c ≡ Some e
        → (t : ℕ) → IsStill input (state_of_run input choices) t → thread_of e ≢ t → wakes (state_of_run input choices) e t ≡ false → IsStill input (state_after input (state_of_run input choices) e) t }
{}

/// In every state that a run reaches, a worker adds no entry exactly when no worker has its number, or it is idle and no number waits.
pub fn workers_that_are_idle()
    ensures { (input : Input) → IsStartable input → (choices : List Choice) (w : ℕ) → (worker_entry input (state_of_run input choices) w ≡ None) ↔ IsStillWorker input (state_of_run input choices) w }
{}

/// At most 72 drawings are in use in a state, one for each thread and one for each worker; and no more are while a call or a reload
/// renews one after the other, the one that is renewed among them. Each of them was made, and each drawing that an entry names is in use before it. A drawing that
/// isn't in use any more is never in use again. What is in use is live, or a worker is ready with it.
pub fn few_drawings_are_in_use()
    ensures few { (input : Input) → IsStartable input → (h : History) → IsLawfulBack input h → (drawings : List ℕ) × (length drawings ≤ 72) × ((q : ℕ) → is_in_use input (looking_back input h) q ≡ true → Contains drawings q) }
    ensures renewals { (input : Input) → IsStartable input → (circle : ℕ) (h : History) (t : ℕ) (seq : Option ℕ) (call : SysCall) (regs : List ℕ) (args : List ArgText) (ids : Ids) (result : CallResult) (before : List Change) (old new : ℕ) (later : List Change)
        → IsLawfulBack input (Used t seq call regs args ids result (before ++ Renewed old new ∷ later) ∷ h)
        → (drawings : List ℕ) × (length drawings ≤ 72) × ((q : ℕ) → (fold (numbers_after_change circle (is_kept input (looking_back input h))) (in_use_now input (looking_back input h) (numbers_at circle input h)) before).in_use q ≡ true → Contains drawings q) }
    ensures reloads { (input : Input) → IsStartable input → (circle : ℕ) (h : History) (t n : ℕ) (done : Bool) (before : List Change) (old new : ℕ) (later : List Change)
        → IsLawfulBack input (Reloaded t n done (before ++ Renewed old new ∷ later) ∷ h)
        → (drawings : List ℕ) × (length drawings ≤ 72) × ((q : ℕ) → (fold (numbers_after_change circle (is_kept input (looking_back input h))) (in_use_now input (looking_back input h) (numbers_at circle input h)) before).in_use q ≡ true → Contains drawings q) }
    ensures made { (input : Input) → IsStartable input → (h : History) → IsLawfulBack input h → (q : ℕ) → is_in_use input (looking_back input h) q ≡ true → (1 ≤ q) × (q ≤ posted_at h) }
    ensures named { (input : Input) → IsStartable input → (h : History) (e : Entry) → IsLawfulBack input (e ∷ h) → (q : ℕ) → NamesDrawing q e → is_in_use input (looking_back input h) q ≡ true }
    ensures ends { (input : Input) → IsStartable input → (h : History) (e : Entry) → IsLawfulBack input (e ∷ h) → (q : ℕ) → q ≤ posted_at h → is_in_use input (looking_back input (e ∷ h)) q ≡ true → is_in_use input (looking_back input h) q ≡ true }
    ensures kept { (input : Input) (st : State) (q : ℕ) → is_in_use input st q ≡ (is_live st q || is_kept input st q) }
{}

/// The number that a drawing gets is the first one of the circle, after the number of the drawing before it, that no drawing in use has:
/// whatever tells which numbers are in use gives the same.
pub fn a_number_is_drawn_past_those_in_use()
    ensures { (circle : ℕ) (numbers : Numbers) (taken : ℕ → Bool) → ((q : ℕ) → numbers.in_use q ≡ true → (1 ≤ q) × (q ≤ numbers.last)) → ((n : ℕ) → (taken n ≡ true) ↔ ((q : ℕ) × (numbers.in_use q ≡ true) × (numbers.number_of q ≡ n)))
        → number_drawn circle numbers ≡ next_number circle taken (numbers.number_of numbers.last) }
{}

/// In a circle that has more numbers than there are threads and workers, each drawing in use has a number of the circle, no two of them have
/// the same, and a drawing keeps its number: it has the same in all entries of a trace. So the drawings of a lawful trace come back from its
/// numbers; those of a startable input come back from numbers up to 65,535.
pub fn a_number_means_one_drawing()
    ensures range { (circle : ℕ) (input : Input) → IsStartable input → thread_count input + input.options.workers < circle → (h : History) → IsLawfulBack input h → (q : ℕ) → is_in_use input (looking_back input h) q ≡ true
        → (1 ≤ (numbers_at circle input h).number_of q) × ((numbers_at circle input h).number_of q ≤ circle) }
    ensures one { (circle : ℕ) (input : Input) → IsStartable input → thread_count input + input.options.workers < circle → (h : History) → IsLawfulBack input h → (p q : ℕ) → is_in_use input (looking_back input h) p ≡ true → is_in_use input (looking_back input h) q ≡ true
        → (numbers_at circle input h).number_of p ≡ (numbers_at circle input h).number_of q → p ≡ q }
    ensures keeps { (circle : ℕ) (input : Input) → IsStartable input → thread_count input + input.options.workers < circle → (q : ℕ) (later earlier : History) → IsLawfulBack input (later ++ earlier) → q ≤ posted_at earlier
        → (numbers_at circle input (later ++ earlier)).number_of q ≡ (numbers_at circle input earlier).number_of q }
    ensures whole { (circle : ℕ) (input : Input) → IsStartable input → thread_count input + input.options.workers < circle → (trace : List Entry) → Lawful input trace
        → numbered_in circle input trace ≡ map (numbered_entry (numbers_at circle input (reverse trace)).number_of) trace }
    ensures circle { (circle : ℕ) (input : Input) → IsStartable input → thread_count input + input.options.workers < circle → (trace : List Entry) → Lawful input trace → drawn (numbered_in circle input trace) ≡ trace }
    ensures back { (input : Input) → IsStartable input → (trace : List Entry) → Lawful input trace → drawn (numbered input trace) ≡ trace }
{}

/// A trace of numbers is lawful exactly when its numbers are those of a run.
pub fn lawful_numbers_are_those_of_a_run()
    ensures { (input : Input) → IsStartable input → (trace : List Entry) → IsLawfulByNumber input trace ↔ ((choices : List Choice) × (numbered input (run input choices) ≡ trace)) }
{}

ghost use Rattle.std.specs.Prelude.{◌≡◌, ◌≢◌, ◌++◌, ℕ, suc, true, List, [], ◌∷◌, length, None};
ghost use Rattle.std.specs.List.{range_with_len};
ghost use Rattle.st_calls.specs.declared.rule.FastAnswer.TheVariants as answer;
ghost use Rattle.st_effects.specs.Changes.{tree_after};
ghost use Rattle.st_law.specs.Bars.{GivesAnswer};
ghost use Rattle.st_law.specs.Entries.{AnswersTo, Claims, Closes, Forks, GivesByte, GivesChanged, GivesCwd, GivesFault, GivesHead, GivesIds, GivesLeft, GivesLookups, GivesNextProcess, GivesNextSpace, GivesNumber, GivesPending, GivesPolicy, GivesSession, GivesSpace, GivesTable, GivesTraced, GivesTurn, GivesVersion, GivesWords, IsEnd, LeavesDying, LivesSince, Posts, Replies, Starts, TouchesByte, TouchesNumber, changes_so_far, numbers_so_far};
ghost use Rattle.st_law.specs.History.{answer_kept_at, changed_at, descriptors_at, is_replied_at, looking_back, session_at};
ghost use Rattle.st_law.specs.Inputs.{IsStartable};
ghost use Rattle.st_law.specs.Lawful.{IsLawfulBack};
ghost use Rattle.st_law.specs.Messages.{Head, fault_at, head_at, is_answered_at, is_claimed_at, is_closed_at, lookups_at, posted_at, turn_at, words_at};
ghost use Rattle.st_law.specs.Processes.{byte_at, first_descriptors, first_process, first_tree, next_process_at, next_space_at, process_at, process_count, tree_at};
ghost use Rattle.st_law.specs.Splits.{IsLastChanged, IsLastGiven, IsLastOf, IsTrueAfter, NoneTouches};
ghost use Rattle.st_law.specs.State.{is_live};
ghost use Rattle.st_law.specs.Threads.{History, body_of, first_owner, has_ended_at, is_dying_at, left_at, number_at, owner_at, pending_at};
ghost use Rattle.st_law.specs.Versions.{version_at};
ghost use Rattle.st_law.specs.declared.input.Input.{Input};
ghost use Rattle.st_trace.specs.declared.entry.Entry.{Entry};

/// The state of a thread, read off the entries. Its process is the first that it was started in. It goes through its body. It holds its
/// call under the number that the call was entered with, or was renewed as, and keeps the kernel's own answer to the call that it entered last.
/// It is dying, or has ended, exactly after an entry that makes it so.
pub fn a_thread_is_its_history()
    ensures first_process { (i : Input) (t : ℕ) → owner_at i [] t ≡ first_owner i t }
    ensures started { (i : Input) (t pid : ℕ) (later earlier : History) (e : Entry) → owner_at i earlier t ≡ 0 → Starts t pid e → pid ≢ 0 → owner_at i (later ++ e ∷ earlier) t ≡ pid }
    ensures not_started { (i : Input) (t : ℕ) (later earlier : History) → NoneTouches (Forks t) later earlier → owner_at i (later ++ earlier) t ≡ owner_at i earlier t }
    ensures started_once { (i : Input) (t : ℕ) (later earlier : History) → owner_at i earlier t ≢ 0 → owner_at i (later ++ earlier) t ≡ owner_at i earlier t }
    ensures left { (i : Input) (t : ℕ) → IsLastOf (λ h. left_at i h t) (body_of i t) (GivesLeft i t) }
    ensures pending { (i : Input) (t : ℕ) → IsLastOf (λ h. pending_at i h t) None (GivesPending i t) }
    ensures answer { (i : Input) (t : ℕ) → IsLastOf (λ h. answer_kept_at i h t) answer.Ask (GivesAnswer i t) }
    ensures number { (t : ℕ) → IsLastGiven (λ h. number_at h t) 0 (TouchesNumber t) (GivesNumber t) }
    ensures dying { (i : Input) (t : ℕ) → IsTrueAfter (λ h. is_dying_at i h t) (LeavesDying i t) }
    ensures ended { (t : ℕ) → IsTrueAfter (λ h. has_ended_at h t) (IsEnd t) }
{}

/// The state of a process, read off the changes: each part has the value that the last change of this part gave it. The same holds of the
/// numbers of the next process and of the next space.
pub fn a_process_is_its_history()
    ensures traced { (i : Input) (p : ℕ) → IsLastChanged (λ h. (process_at i h p).traced) (first_process i p).traced (GivesTraced i p) }
    ensures policy { (i : Input) (p : ℕ) → IsLastChanged (λ h. (process_at i h p).policy) (first_process i p).policy (GivesPolicy i p) }
    ensures ids { (i : Input) (p : ℕ) → IsLastChanged (λ h. (process_at i h p).ids) (first_process i p).ids (GivesIds i p) }
    ensures directory { (i : Input) (p : ℕ) → IsLastChanged (λ h. (process_at i h p).cwd) (first_process i p).cwd (GivesCwd i p) }
    ensures memory { (i : Input) (p : ℕ) → IsLastChanged (λ h. (process_at i h p).space) (first_process i p).space (GivesSpace i p) }
    ensures next_process { (i : Input) → IsLastChanged (next_process_at i) (suc (process_count i)) GivesNextProcess }
    ensures next_memory { (i : Input) → IsLastChanged (next_space_at i) (suc (process_count i)) GivesNextSpace }
{}

/// A byte of memory has the value that was last written there, 0 before. The file tree is the first one with all changes so far, in order.
/// The descriptors are those that the last successful call, or the last end of a process, left.
pub fn memory_and_files_are_what_was_written()
    ensures byte { (i : Input) (s b : ℕ) → IsLastGiven (λ h. byte_at i h s b) 0 (TouchesByte i s b) (GivesByte i s b) }
    ensures tree { (i : Input) (h : History) → tree_at i h ≡ tree_after (first_tree i) (changes_so_far h) }
    ensures descriptors { (i : Input) → IsLastOf (descriptors_at i) (first_descriptors i) (GivesTable i) }
{}

/// The state of a number's message and of a worker's turn, read off the entries.
pub fn a_message_is_its_history()
    ensures head { (i : Input) (q : ℕ) → IsLastGiven (λ h. head_at i h q) None (Posts q) (GivesHead i q) }
    ensures posted { (h : History) → posted_at h ≡ length (numbers_so_far h) }
    ensures claimed { (q : ℕ) → IsTrueAfter (λ h. is_claimed_at h q) (Claims q) }
    ensures words { (q j : ℕ) → IsLastOf (λ h. words_at h q j) [] (GivesWords q j) }
    ensures lookups { (q j : ℕ) → IsLastOf (λ h. lookups_at h q j) [] (GivesLookups q j) }
    ensures fault { (q : ℕ) → IsLastOf (λ h. fault_at h q) None (GivesFault q) }
    ensures answered { (q : ℕ) → IsTrueAfter (λ h. is_answered_at h q) (AnswersTo q) }
    ensures closed { (q : ℕ) → IsTrueAfter (λ h. is_closed_at h q) (Closes q) }
    ensures turn { (w : ℕ) → IsLastOf (λ h. turn_at h w) None (GivesTurn w) }
{}

/// The version of a binary's policy is the number of the last reload for it that was done, 0 before.
pub fn the_version_is_that_of_the_last_reload()
    ensures { (i : Input) (binary : List ℕ) → IsLastOf (λ h. version_at i h binary) 0 (GivesVersion i binary) }
{}

/// A session only grows, by one filter at a time, and a reply that was given stays given. The policies that were changed stand in the order in
/// which they got their first filter of the session or their first reload.
pub fn a_session_only_grows()
    ensures session { (i : Input) → IsLastOf (session_at i) [] (GivesSession i) }
    ensures replied { (n : ℕ) → IsTrueAfter (λ h. is_replied_at h n) (Replies n) }
    ensures changed { (i : Input) → IsLastOf (changed_at i) [] (GivesChanged i) }
{}

/// Numbers are 1, 2, 3 and so on, in the order in which they are posted: none is skipped and none is repeated.
pub fn numbers_come_in_order()
    ensures { (i : Input) (h : History) → IsLawfulBack i h → numbers_so_far h ≡ range_with_len 1 (posted_at h) }
{}

/// A number is live exactly from the entry that posts it until its call is made or denied, it is renewed, or its thread is dying.
pub fn a_number_lives_since_it_was_posted()
    ensures since { (i : Input) (h : History) (q : ℕ) → is_live (looking_back i h) q ≡ true → (head : Head) × LivesSince i q head h }
    ensures lives { (i : Input) → IsStartable i → (h : History) → IsLawfulBack i h → (q : ℕ) (head : Head) → LivesSince i q head h → is_live (looking_back i h) q ≡ true }
{}

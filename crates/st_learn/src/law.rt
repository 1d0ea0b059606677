ghost use Rattle.std.specs.Prelude.{◌≡◌, ◌++◌, ◌∷◌, ℕ, List, Some};
ghost use Rattle.std.specs.List.{All};
ghost use Rattle.st_base.specs.declared.ids.Ids.{Ids};
ghost use Rattle.st_calls.specs.declared.argument.ArgText.{ArgText};
ghost use Rattle.st_calls.specs.declared.call.SysCall.{SysCall};
ghost use Rattle.st_calls.specs.declared.judged.Snapshot.{Snapshot};
ghost use Rattle.st_filter.specs.Judging.{verdict};
ghost use Rattle.st_filter.specs.Policies.{PoliciesValue, filters_in_force, read_filters};
ghost use Rattle.st_law.specs.History.{looking_back};
ghost use Rattle.st_law.specs.Lawful.{IsLawfulBack};
ghost use Rattle.st_law.specs.Threads.{History};
ghost use Rattle.st_law.specs.declared.input.Input.{Input};
ghost use Rattle.st_trace.specs.declared.entry.CallResult.{CallResult};
ghost use Rattle.st_trace.specs.declared.entry.Change.{Change};
ghost use Rattle.st_trace.specs.declared.entry.Entry.TheVariants.{Used};
ghost use Rattle.st_learn.specs.Permitted.{IsPermittedBy};
ghost use Rattle.st_law.specs.Sessions.{SessionFilter, decision, session_filters};
ghost use Rattle.st_learn.specs.Learnt.{AreChanged, HaveSameVersions, IsForItsRule, NoneAsksInForce, learnt_in, learnt_policies};

/// If no filter in force asks, the policies with the filters in force and a session's decide on each call by themselves, as the filters in force
/// and then the session's do.
pub fn learnt_policies_decide_alike()
    ensures { (policies : PoliciesValue) (versions : List ℕ → ℕ) (changed : List (List ℕ)) (session : List SessionFilter) (s : Snapshot) → NoneAsksInForce policies versions → All IsForItsRule session → AreChanged changed versions session → verdict (read_filters (learnt_policies policies versions changed session) s.policy s.rule) s ≡ decision (filters_in_force policies s.policy (versions s.policy) s.rule) (session_filters session s.policy s.rule) s }
{}

/// If no filter in force asks, the policies with the run's session by themselves permit each held call that a run has made, under the ids that
/// it was made under, as long as no policy was reloaded since.
pub fn what_was_made_is_permitted_by_what_was_learnt()
    ensures { (input : Input) → (later earlier : History) (t q : ℕ) (call : SysCall) (regs : List ℕ) (args : List ArgText) (ids : Ids) (result : CallResult) (changes : List Change) → NoneAsksInForce input.policies (looking_back input (later ++ Used t (Some q) call regs args ids result changes ∷ earlier)).versions → HaveSameVersions (looking_back input earlier) (looking_back input (later ++ Used t (Some q) call regs args ids result changes ∷ earlier)) → IsLawfulBack input (later ++ Used t (Some q) call regs args ids result changes ∷ earlier) → IsPermittedBy (learnt_in input (looking_back input (later ++ Used t (Some q) call regs args ids result changes ∷ earlier))) (looking_back input earlier) q ids }
{}

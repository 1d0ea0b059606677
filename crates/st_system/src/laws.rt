ghost use Rattle.std.specs.Prelude.{◌≡◌, ◌≢◌, ℕ, Bool, true, false, List};
ghost use Rattle.st_calls.specs.Call.{rule_of};
ghost use Rattle.st_calls.specs.declared.argument.ArgText.{ArgText};
ghost use Rattle.st_calls.specs.declared.call.SysCall.{SysCall};
ghost use Rattle.st_effects.specs.Progress.{Ready, progress};
ghost use Rattle.st_effects.specs.System.{Request};
ghost use Rattle.st_law.specs.State.{State, arguments_now};
ghost use Rattle.st_law.specs.declared.input.Input.{Input};
ghost use Rattle.st_model.specs.Processes.{is_running};
ghost use Rattle.st_names.specs.Name.{Components};
ghost use Rattle.st_names.specs.declared.seen.SeenText.{SeenText};
ghost use Rattle.st_system.specs.Fit.{AreFit};
ghost use Rattle.st_system.specs.Steps.{AppendsRenewals};
ghost use Rattle.st_system.specs.System.{IsSystem, Parts};

/// A call has the same result whether calls are held or not. After the changes of a call that has set ids, the held calls of its process
/// are renewed.
pub fn calls_that_set_ids_renew()
    ensures { (i : Input) (st : State) (call : SysCall) (request : Request) → AppendsRenewals i st call request }
{}

/// Complete arguments are fit for their call: those of a call that is made in one step, and the copies of a held call.
pub fn arguments_are_fit()
    ensures unheld { (i : Input) (st : State) (tid : ℕ) (call : SysCall) (regs : List ℕ) (args : List ArgText) → arguments_now i st tid call regs ≡ Ready args → AreFit call args }
    ensures held { (cwd : Components) (call : SysCall) (regs : List ℕ) (aliasing : Bool) (words : ℕ → List ℕ) (lookups : ℕ → List SeenText) (args : List ArgText) → progress (record { rule = rule_of call regs aliasing; call = call; regs = regs; cwd = cwd }) words lookups ≡ Ready args → AreFit call args }
{}

/// A thread that has started and hasn't ended in the state of the law's machine is running.
pub fn started_threads_run()
    ensures { (i : Input) (st : State) (parts : Parts) (tid : ℕ) → IsSystem i st parts → (st.threads tid).owner ≢ 0 → (st.threads tid).ended ≡ false → is_running parts.processes tid ≡ true }
{}

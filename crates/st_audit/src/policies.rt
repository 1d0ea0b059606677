// The policies after a run, with the filters in force and those that its session added.
ghost use Rattle.std.specs.Prelude.{◌≡◌, List, reverse, IfOk};
ghost use Rattle.st_law.specs.History.{looking_back};
ghost use Rattle.st_learn.specs.SessionIn.{IsSessionIn};
ghost use Rattle.st_trace.specs.declared.entry.Entry.{Entry};
ghost use Rattle.st_audit.specs.PolicyText.{policy_text};

use crate::learnt::print_learnt;
use st_base::Text;
use st_emulation::Emulation;
use st_law::Input;
use st_learn::Session;
use std::alloc::{AllocError, Global};

/// The canonical text of the policies after a run of this input with this session: the filters in force, then those that the run added.
/// The policies that were read come first, in order, then those of the other binaries that a reload or the session gave some, in the
/// order of the first entry that did. Calls and rules have the emulation's names.
pub fn policies_text(
    alloc: Global,
    input: &Input,
    session: &Session<'_>,
    emulation: Emulation,
) -> Result<Text, AllocError>
    ensures { IfOk result (λ text. (trace : List Entry) → IsSessionIn (looking_back input.now (reverse trace)) session.now → text ≡ policy_text input.now trace emulation) }
{
    print_learnt(alloc, &input.policies, session, emulation)
}

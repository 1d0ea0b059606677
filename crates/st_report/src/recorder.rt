ghost use Rattle.std.specs.Prelude.{◌≡◌, ◌++◌, ◌∷◌, [], ⊤, List, reverse, OnOk};
ghost use Rattle.st_law.specs.History.{session_at};
ghost use Rattle.st_law.specs.Numbers.{drawn};
ghost use Rattle.st_law.specs.declared.input.Input.{Input};
ghost use Rattle.st_trace.specs.declared.entry.Entry.{Entry};

use st_compile::Compiled;
use st_law::Input;
use st_learn::Session;
use st_trace::Entry;
use std::alloc::{AllocError, Global};

/// What records a run, entry by entry. So no more of a run is kept than its output needs.
pub trait Recorder {
    /// Whether exactly these entries of a run of this input were recorded, in order.
    ghost has_noted: { Self → Input → List Entry → Type 0 };

    /// Records the next entry of a run of this input, whose policies are given compiled too. The entries have the numbers of their
    /// messages. The session is the one after the drawings of these numbers, those of that entry included.
    fn note(
        &mut self,
        alloc: Global,
        input: &Input,
        compiled: &Compiled<'_>,
        session: &Session<'_>,
        entry: &Entry,
    ) -> Result<(), AllocError>
        requires { compiled.now ≡ input.now.policies }
        ensures { OnOk result ((trace : List Entry) → session.now.filters ≡ session_at input.now (reverse (drawn (trace ++ entry.now ∷ []))) → has_noted self.old input.now trace → has_noted self.new input.now (trace ++ entry.now ∷ [])) };
}

/// Records nothing.
#[derive(Debug, Drop)]
pub struct NoRecorder;

impl Recorder for NoRecorder {
    ghost has_noted = { λ _ _ _. ⊤ };

    fn note(
        &mut self,
        _alloc: Global,
        _input: &Input,
        _compiled: &Compiled<'_>,
        _session: &Session<'_>,
        _entry: &Entry,
    ) -> Result<(), AllocError> {
        Ok(())
    }
}

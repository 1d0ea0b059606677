// The operator's step: it answers the least question.
ghost use Rattle.std.specs.Prelude.{◌≡◌, OnOk, OnErr};
ghost use Rattle.st_decide.specs.Machine.{IsStep, SameState};
ghost use Rattle.st_trace.specs.declared.entry.Choice.TheVariants.{Operator};

use crate::machine::Machine;
use crate::placing::{leave, leave_none};
use st_trace::Entry;
use std::alloc::{AllocError, Global};

impl<'a> Machine<'a> {
    /// Lets the operator answer the least question. Stores the entry that this adds in `added`, or none if there is no question. If memory
    /// runs out, the abstract state is unchanged.
    pub fn ask(&mut self, alloc: Global, added: &mut Option<Entry>) -> Result<(), AllocError>
        ensures step { OnOk result (IsStep self.old Operator added.new self.new) }
        ensures err { OnErr result (SameState self.old self.new) }
        ensures place { OnErr result (added.new ≡ added.old) }
        ensures input { self.new.input ≡ self.old.input }
    {
        let Some(drawing) = self.view().least_question() else {
            leave_none(added);
            return Ok(());
        };
        let copies = self.workers.snapshot(drawing).share()?;
        let entry = self
            .operator
            .answer(alloc, self.input, &mut self.answers, copies.get())?;
        leave(added, entry);
        Ok(())
    }
}

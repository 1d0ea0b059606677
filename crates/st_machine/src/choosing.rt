// Choices: each is made by its thread, its worker or the operator.
ghost use Rattle.std.specs.Prelude.{◌≡◌, OnOk, OnErr};
ghost use Rattle.st_decide.specs.Machine.{IsStep, SameState};
ghost use Rattle.st_trace.specs.declared.entry.Choice.TheVariants as choices;

use crate::machine::Machine;
use crate::placing::leave_none;
use st_base::Worker;
use st_trace::{Choice, Entry};
use std::alloc::{AllocError, Global};

impl<'a> Machine<'a> {
    // Moves the worker of this number, if it exists.
    fn serve_if(
        &mut self,
        alloc: Global,
        worker: Worker,
        added: &mut Option<Entry>,
    ) -> Result<(), AllocError>
        ensures step { OnOk result (IsStep self.old (choices.Worker worker) added.new self.new) }
        ensures err { OnErr result (SameState self.old self.new) }
        ensures place { OnErr result (added.new ≡ added.old) }
        ensures input { self.new.input ≡ self.old.input }
    {
        if worker < 1 || worker > self.workers.workers() {
            leave_none(added);
            return Ok(());
        }
        self.serve(alloc, worker, added)
    }

    /// Makes a choice and stores the entry that this adds in `added`, or none if the choice isn't enabled. If memory runs out, the abstract
    /// state is unchanged.
    pub fn choose(
        &mut self,
        alloc: Global,
        choice: Choice,
        added: &mut Option<Entry>,
    ) -> Result<(), AllocError>
        ensures step { OnOk result (IsStep self.old choice added.new self.new) }
        ensures err { OnErr result (SameState self.old self.new) }
        ensures place { OnErr result (added.new ≡ added.old) }
        ensures input { self.new.input ≡ self.old.input }
    {
        match choice {
            Choice::Thread(tid) => self.move_thread(alloc, tid, added),
            Choice::Worker(worker) => self.serve_if(alloc, worker, added),
            Choice::Operator => self.ask(alloc, added),
        }
    }
}

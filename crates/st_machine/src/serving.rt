// The steps of workers. Each changes the messages as its entry says, and stores the entry in the caller's `added`.
ghost use Rattle.std.specs.Prelude.{◌≡◌, ◌<◌, ℕ, Some, OnOk, OnErr};
ghost use Rattle.st_decide.specs.Machine.{HasTask, IsStep, SameState};
ghost use Rattle.st_steps.specs.Serving.{is_applied, IsVerdictFor};
ghost use Rattle.st_messages.specs.Messages.{HasWorker};
ghost use Rattle.st_trace.specs.declared.entry.Choice.TheVariants.{Worker};
ghost use Rattle.st_workers.specs.declared.task.Task.TheVariants as tasks;

use crate::machine::Machine;
use crate::placing::{leave, leave_none};
use st_base::{Drawing, Errno, Pid, Worker};
use st_calls::Verdict;
use st_messages::Delivered;
use st_trace::Entry;
use st_workers::Task;
use std::alloc::{AllocError, Global};

// What a worker copies: the word with an index in the memory of this process, for a part of a message.
#[derive(Clone, Copy, Debug)]
struct WordToCopy {
    drawing: Drawing,
    pid: Pid,
    part: u32,
    place: u32,
}

// The name that a worker looks at next, for a part of a message.
#[derive(Clone, Copy, Debug)]
struct NameToLook {
    drawing: Drawing,
    part: u32,
}

// Whether an answer was applied.
fn is_applied(delivered: Delivered) -> bool
    ensures { result ≡ is_applied delivered }
{
    match delivered {
        Delivered::Applied => true,
        Delivered::Stale => false,
    }
}

impl<'a> Machine<'a> {
    /// Moves a worker and stores the entry that this adds in `added`, or none if the worker has nothing to do. If memory runs out, the
    /// abstract state is unchanged.
    pub fn serve(
        &mut self,
        alloc: Global,
        worker: Worker,
        added: &mut Option<Entry>,
    ) -> Result<(), AllocError>
        requires { HasWorker self.old.workers.calls worker }
        ensures step { OnOk result (IsStep self.old (Worker worker) added.new self.new) }
        ensures err { OnErr result (SameState self.old self.new) }
        ensures place { OnErr result (added.new ≡ added.old) }
        ensures input { self.new.input ≡ self.old.input }
    {
        match self.workers.task(worker) {
            Task::Rest => {
                leave_none(added);
                Ok(())
            }
            Task::Claim => self.claim(alloc, worker, added),
            Task::Copy {
                drawing,
                pid,
                part,
                place,
            } => {
                let asked = WordToCopy {
                    drawing,
                    pid,
                    part,
                    place,
                };
                self.copy(alloc, worker, asked, added)
            }
            Task::Look { drawing, part } => self.look(
                alloc,
                worker,
                NameToLook { drawing, part },
                added,
            ),
            Task::Fault { drawing, errno } => {
                self.fault(worker, drawing, errno, added);
                Ok(())
            }
            Task::Answer => {
                self.answer_of(worker, added);
                Ok(())
            }
        }
    }

    // Lets an idle worker claim the least waiting drawing.
    fn claim(
        &mut self,
        alloc: Global,
        worker: Worker,
        added: &mut Option<Entry>,
    ) -> Result<(), AllocError>
        requires { HasTask self.old worker tasks.Claim }
        ensures step { OnOk result (IsStep self.old (Worker worker) added.new self.new) }
        ensures err { OnErr result (SameState self.old self.new) }
        ensures place { OnErr result (added.new ≡ added.old) }
        ensures input { self.new.input ≡ self.old.input }
    {
        let drawing = self.workers.claim(alloc, worker)?;
        let seq = self.workers.seq(drawing);
        leave(added, Entry::Claimed { worker, seq });
        Ok(())
    }

    // Lets a worker copy a word of its message's process.
    fn copy(
        &mut self,
        alloc: Global,
        worker: Worker,
        asked: WordToCopy,
        added: &mut Option<Entry>,
    ) -> Result<(), AllocError>
        requires { HasTask self.old worker (tasks.Copy asked.drawing asked.pid asked.part asked.place) }
        ensures step { OnOk result (IsStep self.old (Worker worker) added.new self.new) }
        ensures err { OnErr result (SameState self.old self.new) }
        ensures place { OnErr result (added.new ≡ added.old) }
        ensures input { self.new.input ≡ self.old.input }
    {
        let word = self.system.word(asked.pid, asked.place);
        let seq = self.workers.seq(asked.drawing);
        self.workers.copy(alloc, worker, word)?;
        leave(
            added,
            Entry::Copied {
                seq,
                part: asked.part,
                place: asked.place,
                word,
            },
        );
        Ok(())
    }

    // Lets a worker look at the next name of its message.
    fn look(
        &mut self,
        alloc: Global,
        worker: Worker,
        asked: NameToLook,
        added: &mut Option<Entry>,
    ) -> Result<(), AllocError>
        requires { HasTask self.old worker (tasks.Look asked.drawing asked.part) }
        ensures step { OnOk result (IsStep self.old (Worker worker) added.new self.new) }
        ensures err { OnErr result (SameState self.old self.new) }
        ensures place { OnErr result (added.new ≡ added.old) }
        ensures input { self.new.input ≡ self.old.input }
    {
        let seq = self.workers.seq(asked.drawing);
        let name = self.workers.look_name(alloc, worker)?;
        let seen = self.system.look(&name);
        let text = seen.copy(alloc)?;
        self.workers.look(alloc, worker, seen)?;
        leave(
            added,
            Entry::Looked {
                seq,
                part: asked.part,
                name,
                seen: text,
            },
        );
        Ok(())
    }

    // Lets a worker mark its message as faulted with this error.
    fn fault(&mut self, worker: Worker, drawing: Drawing, errno: Errno, added: &mut Option<Entry>)
        requires { HasTask self.old worker (tasks.Fault drawing errno) }
        ensures step { IsStep self.old (Worker worker) added.new self.new }
        ensures input { self.new.input ≡ self.old.input }
    {
        let seq = self.workers.seq(drawing);
        self.workers.fault(worker);
        leave(added, Entry::Faulted { seq, errno });
    }

    // Lets a ready worker answer with the verdict of the policies on its copies, at their version.
    fn answer_of(&mut self, worker: Worker, added: &mut Option<Entry>)
        requires task { HasTask self.old worker tasks.Answer }
        requires worker { HasWorker self.old.workers.calls worker }
        ensures step { IsStep self.old (Worker worker) added.new self.new }
        ensures input { self.new.input ≡ self.old.input }
    {
        let copies = self.workers.copies(worker);
        let verdict = self.answers.compiled().decide(copies);
        self.answer(worker, verdict, added);
    }

    /// Lets a ready worker answer with a verdict, which is that of the policies on its copies, at their version, and stores the entry that
    /// this adds in `added`. It takes no memory.
    pub fn answer(&mut self, worker: Worker, verdict: Verdict, added: &mut Option<Entry>)
        requires task { HasTask self.old worker tasks.Answer }
        requires verdict { IsVerdictFor self.old worker verdict }
        ensures step { IsStep self.old (Worker worker) added.new self.new }
        ensures input { self.new.input ≡ self.old.input }
    {
        let (_, snapshot, delivered) = self.workers.answer(worker, verdict);
        leave(
            added,
            Entry::Answered {
                worker,
                snapshot,
                verdict,
                applied: is_applied(delivered),
            },
        );
    }
}

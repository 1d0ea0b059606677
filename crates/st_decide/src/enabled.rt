// Whether a choice would add an entry, without making it. It takes no memory.
ghost use Rattle.std.specs.Prelude.{◌≡◌, ℕ, true, is_some, IfSome};
ghost use Rattle.st_law.specs.Machine.{thread_entry, worker_entry};
ghost use Rattle.st_law.specs.State.{State, is_live};
ghost use Rattle.st_decide.specs.Enabled.{is_faulted_or_answered, is_work};
ghost use Rattle.st_decide.specs.Machine.{Refines};
ghost use Rattle.st_decide.specs.Questions.{CanBeMadeOrDenied};
ghost use Rattle.st_messages.specs.Messages.{thread_of_drawing, HasWorker};
ghost use Rattle.st_reached.specs.Waiting.{is_message_by};

use crate::view::View;
use st_base::{Drawing, Tid, Worker};
use st_messages::MsgState;
use st_workers::Task;

// Whether a message was faulted or answered.
fn has_come(state: Option<MsgState>) -> bool
    ensures { result ≡ is_faulted_or_answered state }
{
    match state {
        Some(MsgState::Answered(_) | MsgState::Faulted(_)) => true,
        Some(MsgState::Waiting | MsgState::Claimed(_)) | None => false,
    }
}

// Whether a worker has something to do.
fn is_work(task: Task) -> bool
    ensures { result ≡ is_work task }
{
    match task {
        Task::Rest => false,
        Task::Claim | Task::Copy { .. } | Task::Look { .. } | Task::Fault { .. } | Task::Answer =>
            true,
    }
}

impl<'v, 'a> View<'v, 'a> {
    /// Whether a thread can move: it has started, hasn't ended, and waits neither for its held call nor for the operator.
    pub fn can_move(&self, tid: Tid) -> bool
        ensures { (st : State) → Refines self.now st → result ≡ is_some (thread_entry self.now.input st tid) }
    {
        let Some(thread) = self.thread(tid) else {
            return false;
        };
        let Some(_) = self.system.pid_of(tid) else {
            return false;
        };
        if thread.has_ended() {
            return false;
        }
        match thread.drawing_held() {
            Some(drawing) => self.is_over(drawing),
            None => true,
        }
    }

    // Whether a held call can be made or denied: its message was faulted or answered, and is no question.
    fn is_over(&self, drawing: Drawing) -> bool
        ensures { (st : State) → Refines self.now st → CanBeMadeOrDenied self.now.input st drawing result }
    {
        if !has_come(self.workers.state(drawing)) {
            return false;
        }
        !self.is_question(drawing)
    }

    /// The thread that holds the call of a drawing, if the drawing is live.
    pub fn holder(&self, drawing: Drawing) -> Option<Tid>
        ensures thread { result ≡ thread_of_drawing self.now.workers.calls drawing }
        ensures law { IfSome result (λ tid. (st : State) → Refines self.now st → (t : ℕ) → is_message_by st t drawing ≡ true → t ≡ tid) }
        ensures live { (st : State) → Refines self.now st → is_some result ≡ is_live st drawing }
    {
        self.workers.thread(drawing)
    }

    /// Whether a worker can move: it is at some drawing, or a drawing is waiting.
    pub fn can_serve(&self, worker: Worker) -> bool
        requires { HasWorker self.now.workers.calls worker }
        ensures { (st : State) → Refines self.now st → result ≡ is_some (worker_entry self.now.input st worker) }
    {
        is_work(self.workers.task(worker))
    }
}

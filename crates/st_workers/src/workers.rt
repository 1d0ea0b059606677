ghost use Rattle.std.specs.Prelude.{◌≡◌, ◌<◌, ◌≤◌, ◌-◌, ◌^◌, ◌↔◌, ℕ, suc, Bool, true, false, List, [], All, length, Option, Some, None, IsSome, is_some, IfSome, IfOk, OnOk, OnErr};
ghost use Rattle.st_workers.specs.declared.turn.Turn.TheVariants.{Idle, Ready, Working};
ghost use Rattle.st_base.specs.declared.errno.Errno.{Errno};
ghost use Rattle.st_calls.specs.declared.call.SysCall.{SysCall};
ghost use Rattle.st_filter.specs.Judged.{verdict_under};
ghost use Rattle.st_law.specs.Machine.{first_state, worker_entry};
ghost use Rattle.st_law.specs.Messages.{new_head};
ghost use Rattle.st_law.specs.State.{State, is_live as is_live_in, snapshot_in, Message};
ghost use Rattle.st_law.specs.declared.input.Input.{Input};
ghost use Rattle.st_lookaside.specs.Need.{IsShort};
ghost use Rattle.st_lookaside.specs.Slots.{slot_at};
ghost use Rattle.st_law.specs.Numbers.{drawn_as, largest_number, no_numbers, without_replaced};
ghost use Rattle.st_messages.specs.Messages.{calls_after_cancel, calls_after_let_go, calls_after_post, calls_after_renew, drawing_of, is_claimed, is_kept, is_live_drawing, message_state, next_seq, seq_of, thread_of_drawing, with_state, HasNoDrawing, HasWorker};
ghost use Rattle.st_messages.specs.declared.message.Delivered.TheVariants.{Applied, Stale};
ghost use Rattle.st_messages.specs.declared.message.MsgState.TheVariants.{Answered, Claimed, Faulted};
ghost use Rattle.st_model.specs.Tree.{look};
ghost use Rattle.st_names.specs.Name.{Components};
ghost use Rattle.st_names.specs.Seen.{seen_text};
ghost use Rattle.st_trace.specs.declared.entry.Entry.TheVariants as entry;
ghost use Rattle.st_trace.specs.declared.entry.Way.TheVariants.{Held};
ghost use Rattle.st_workers.specs.Refinement.{drawn_copies, head_of, messages_renewed, RepresentsMachineMessages, ChangesLife, RepresentsAfterEntry, IsMessageStateOf, HasAnswer, IsHeldBy, RepresentsMessages, RepresentsMessagesAfter, RenewsLife, SameWorkersState};
ghost use Rattle.st_workers.specs.Leaving.{is_claimer_ready, HasLeft};
ghost use Rattle.st_workers.specs.Numbers.{seq_if, AreFew, AreReady, CarriesNumbers, HasNumbers, IsReadyWith, KeepsNumbers};
ghost use Rattle.st_workers.specs.Tasks.{task_of, IsBusy, IsCopy, IsFault, IsLook, IsTask, CanServe};
ghost use Rattle.st_workers.specs.UnderWay.{turn_of_worker};
ghost use Rattle.st_workers.specs.declared.task.Task.TheVariants.{Answer, Claim, Copy, Fault, Look as LookAt};

use crate::filling;
use crate::task::Task;
use crate::turn::{Turn, put_turn};
use st_base::{Drawing, Seq, Shared, Tid, Worker};
use st_calls::{Snapshot, Verdict};
use st_lookaside::{Head, NewNumber, Next, Renewal, Slots};
use st_messages::{Delivered, Messages, MsgState};
use st_names::{AbsName, Seen};
use std::alloc::{AllocError, Global};
use std::marker::Model;

/// The messages under way, and the workers that serve them.
#[derive(Debug)]
pub struct Workers {
    messages: Messages,
    slots: Slots,
    // Worker w is at index w - 1.
    turns: Vec<Turn>,
}

// Written out, so that another crate that drops one calls this, and doesn't drop its parts one by one.
impl Drop for Workers {
    fn drop(self) {
        let Self {
            messages: _,
            slots: _,
            turns: _,
        } = self;
    }
}

impl Model for Workers {
    ghost use Rattle.st_workers.specs.UnderWay.{UnderWay};

    ghost Value = { UnderWay };

    ghost view = { λ w. record { calls = w.messages; slots = w.slots; turns = w.turns.items } };

    ghost use Rattle.st_workers.specs.Numbers.{AreNumbered};
    ghost use Rattle.st_workers.specs.Refinement.{AreValidWorkers};

    ghost invariant = { λ w. AreValidWorkers (record { calls = w.messages; slots = w.slots; turns = w.turns.items }) × AreNumbered (record { calls = w.messages; slots = w.slots; turns = w.turns.items }) };
}

// So many idle workers.
fn idle(alloc: Global, workers: u32) -> Result<Vec<Turn>, AllocError>
    ensures count { IfOk result (λ turns. length turns.items ≡ workers) }
    ensures idle { IfOk result (λ turns. All (λ turn. turn ≡ Idle) turns.items) }
{
    let mut turns = Vec::new(alloc);
    for _ in 0..workers {
        turns.push(Turn::Idle)?;
    }
    Ok(turns)
}

// Makes the worker that claimed a message of this state idle, unless it is ready, and returns whether it is.
fn leave(turns: &mut [Turn], state: Option<MsgState>) -> bool
    requires { (worker : ℕ) → state ≡ Some (Claimed worker) → (1 ≤ worker) × (worker ≤ length turns.old) }
    ensures left { HasLeft turns.old state turns.new }
    ensures count { length turns.new ≡ length turns.old }
    ensures ready { result ≡ is_claimer_ready turns.old state }
{
    let Some(state) = state else {
        return false;
    };
    let MsgState::Claimed(worker) = state else {
        return false;
    };
    let turn = &mut turns[worker as usize - 1];
    match turn {
        Turn::Idle => false,
        Turn::Working(_) => {
            put_turn(turn, Turn::Idle);
            false
        }
        Turn::Ready(_, _) => true,
    }
}

// Answers a message. Where it has ended, the number that its worker kept isn't in use any more.
fn deliver(messages: &mut Messages, drawing: Drawing, verdict: Verdict) -> Delivered
    requires { is_claimed messages.old drawing ≡ false → is_kept messages.old drawing ≡ true }
    ensures applied { (result ≡ Applied) ↔ (is_claimed messages.old drawing ≡ true) }
    ensures ok { result ≡ Applied → messages.new ≡ with_state messages.old drawing (Answered verdict) }
    ensures stale { result ≡ Stale → messages.new ≡ calls_after_let_go messages.old drawing }
{
    let delivered = messages.answer(drawing, verdict);
    if let Delivered::Stale = delivered {
        messages.let_go(drawing);
    }
    delivered
}

impl Workers {
    /// No messages, and so many idle workers.
    pub fn new(alloc: Global, workers: u32) -> Result<Self, AllocError>
        ensures workers { IfOk result (λ kept. kept.calls.workers ≡ workers) }
        ensures next { IfOk result (λ kept. kept.calls.next ≡ 1) }
        ensures none { IfOk result (λ kept. kept.calls.live ≡ []) }
        ensures numbers { IfOk result (λ kept. HasNumbers no_numbers kept.calls) }
        ensures kept { IfOk result (λ kept. (i : Input) → workers ≡ i.options.workers → RepresentsMessages i (first_state i) (is_live_in (first_state i)) kept) }
    {
        Ok(Workers {
            messages: Messages::new(alloc, workers)?,
            slots: Slots::new(alloc),
            turns: idle(alloc, workers)?,
        })
    }

    /// How many workers there are; their numbers begin at 1.
    pub fn workers(&self) -> u32
        ensures { result ≡ self.now.calls.workers }
    {
        self.messages.workers()
    }

    /// The drawing that the next call of `post` or `renew` returns.
    pub fn next_drawing(&self) -> Drawing
        ensures { result ≡ self.now.calls.next }
    {
        self.messages.next_drawing()
    }

    /// How far a message has come; none iff the drawing isn't live.
    pub fn state(&self, drawing: Drawing) -> Option<MsgState>
        ensures state { result ≡ message_state self.now.calls drawing }
        ensures law { (i : Input) (st : State) → RepresentsMessages i st (is_live_in st) self.now → IsMessageStateOf i st drawing result }
    {
        self.messages.state(drawing)
    }

    /// The thread whose held call has a live drawing; none if the drawing isn't live.
    pub fn thread(&self, drawing: Drawing) -> Option<Tid>
        ensures thread { result ≡ thread_of_drawing self.now.calls drawing }
        ensures law { IfSome result (λ tid. (i : Input) (st : State) → RepresentsMessages i st (is_live_in st) self.now → IsHeldBy st drawing tid) }
        ensures live { (i : Input) (st : State) → RepresentsMessages i st (is_live_in st) self.now → is_some result ≡ is_live_in st drawing }
    {
        self.messages.thread(drawing)
    }

    /// The message of a live drawing.
    pub fn head(&self, drawing: Drawing) -> &Head
        requires { is_live_drawing self.now.calls drawing ≡ true }
        ensures head { IfSome (slot_at self.now.slots drawing) (λ slot. result.now ≡ slot.head) }
        ensures law { IfSome (thread_of_drawing self.now.calls drawing) (λ tid. (i : Input) (st : State) → RepresentsMessages i st (is_live_in st) self.now → (st.messages drawing).head ≡ Some (head_of tid result.now)) }
    {
        self.slots.slot(drawing).head()
    }

    /// The turn of a worker.
    pub fn turn(&self, worker: Worker) -> &Turn
        requires { HasWorker self.now.calls worker }
        ensures { turn_of_worker self.now worker ≡ Some result.now }
    {
        &self.turns[worker as usize - 1]
    }

    /// The copies that a ready worker answers.
    pub fn copies(&self, worker: Worker) -> &Snapshot
        requires worker { HasWorker self.now.calls worker }
        requires task { task_of self.now worker ≡ Answer }
        ensures { (drawing : ℕ) × (turn_of_worker self.now worker ≡ Some (Ready drawing result.now)) }
    {
        let Turn::Ready(_, copies) = &self.turns[worker as usize - 1] else {
            unreachable!()
        };
        copies.get()
    }

    /// What a worker does next.
    #[inline]
    pub fn task(&self, worker: Worker) -> Task
        requires { HasWorker self.now.calls worker }
        ensures task { result ≡ task_of self.now worker }
        ensures there { CanServe self.now.calls result }
        ensures law { (i : Input) (st : State) → RepresentsMessages i st (is_live_in st) self.now → IsTask i st self.now worker result }
    {
        match &self.turns[worker as usize - 1] {
            Turn::Idle => match self.messages.least_waiting() {
                Some(_) => Task::Claim,
                None => Task::Rest,
            },
            Turn::Working(drawing) => {
                let slot = self.slots.slot(*drawing);
                filling::task_at(*drawing, slot.head().pid, slot.next())
            }
            Turn::Ready(_, _) => Task::Answer,
        }
    }

    /// The number that the next message has.
    pub fn next_seq(&self) -> Seq
        requires { AreFew self.now.calls }
        ensures { result ≡ next_seq self.now.calls }
    {
        self.messages.next_seq()
    }

    /// The number of a drawing in use.
    pub fn seq(&self, drawing: Drawing) -> Seq
        requires { is_some (seq_of self.now.calls drawing) ≡ true }
        ensures seq { seq_of self.now.calls drawing ≡ Some result }
        ensures given { drawing < self.now.calls.next }
    {
        let Some(seq) = self.messages.seq(drawing) else {
            unreachable!()
        };
        seq
    }

    /// The number of a live drawing, if there is one.
    pub fn seq_if(&self, drawing: Option<Drawing>) -> Option<Seq>
        requires { IfSome drawing (λ q. is_live_drawing self.now.calls q ≡ true) }
        ensures { result ≡ seq_if self.now.calls drawing }
    {
        match drawing {
            Some(drawing) => Some(self.seq(drawing)),
            None => None,
        }
    }

    /// The drawing in use that has this number; none iff the number isn't in use.
    pub fn drawing(&self, seq: Seq) -> Option<Drawing>
        ensures { result ≡ drawing_of self.now.calls seq }
    {
        self.messages.drawing(seq)
    }

    /// Posts the held call of a thread that has none, under the next drawing. If memory runs out, the abstract state is unchanged.
    pub fn post(&mut self, alloc: Global, tid: Tid, head: Head) -> Result<Drawing, AllocError>
        requires drawing { head.drawing ≡ self.old.calls.next }
        requires seq { head.seq ≡ next_seq self.old.calls }
        requires thread { HasNoDrawing self.old.calls tid }
        requires room { self.old.calls.next < 2 ^ 64 - 1 }
        requires few { AreFew self.old.calls }
        requires short { IsShort head.cwd }
        ensures drawing { IfOk result (λ drawing. drawing ≡ self.old.calls.next) }
        ensures workers { self.new.calls.workers ≡ self.old.calls.workers }
        ensures calls { OnOk result (self.new.calls ≡ calls_after_post self.old.calls tid) }
        ensures numbers { OnOk result (CarriesNumbers (drawn_as largest_number self.old.calls.next) self.old.calls self.new.calls) }
        ensures unchanged { OnErr result (self.new.calls ≡ self.old.calls) }
        ensures kept { OnOk result ((i : Input) (st : State) (alive later : ℕ → Bool) (call : SysCall) (regs : List ℕ) → RepresentsMessages i st alive self.old → head_of tid head ≡ new_head i tid (st.threads tid).owner (st.processes (st.threads tid).owner) (st.versions (st.processes (st.threads tid).owner).policy) call regs → ChangesLife alive (suc st.posted) true later → RepresentsMessagesAfter i st (entry.Entered tid call regs (Held (suc st.posted))) later self.new) }
        ensures err { OnErr result (SameWorkersState self.old self.new) }
    {
        let drawing = head.drawing;
        self.slots.reserve(alloc, head)?;
        match self.messages.post(tid) {
            Ok(drawing) => Ok(drawing),
            Err(error) => {
                self.slots.drop_of(drawing);
                Err(error)
            }
        }
    }

    /// Lets an idle worker claim the least waiting drawing, and returns it. If memory runs out, nothing changes.
    pub fn claim(&mut self, alloc: Global, worker: Worker) -> Result<Drawing, AllocError>
        requires { task_of self.old worker ≡ Claim }
        ensures calls { IfOk result (λ drawing. self.new.calls ≡ with_state self.old.calls drawing (Claimed worker)) }
        ensures live { IfOk result (λ drawing. is_live_drawing self.new.calls drawing ≡ true) }
        ensures seqs { (q : ℕ) → seq_of self.new.calls q ≡ seq_of self.old.calls q }
        ensures workers { self.new.calls.workers ≡ self.old.calls.workers }
        ensures numbers { CarriesNumbers (λ numbers. numbers) self.old.calls self.new.calls }
        ensures law { IfOk result (λ drawing. (i : Input) (st : State) → RepresentsMessages i st (is_live_in st) self.old → worker_entry i st worker ≡ Some (entry.Claimed worker drawing)) }
        ensures kept { IfOk result (λ drawing. RepresentsAfterEntry self.old (entry.Claimed worker drawing) self.new) }
        ensures err { OnErr result (self.new ≡ self.old) }
    {
        let Some(drawing) = self.messages.least_waiting() else {
            unreachable!()
        };
        let turn = filling::turn_for(&mut self.slots, alloc, drawing)?;
        put_turn(&mut self.turns[worker as usize - 1], turn);
        self.messages.claim(worker);
        Ok(drawing)
    }

    // The drawing that a worker is at.
    fn drawing_at(&self, worker: Worker) -> Drawing
        requires { IsBusy (task_of self.now worker) }
        ensures { turn_of_worker self.now worker ≡ Some (Working result) }
    {
        let Turn::Working(drawing) = &self.turns[worker as usize - 1] else {
            unreachable!()
        };
        *drawing
    }

    /// Takes the word that a worker's task asks it to copy. If memory runs out, the abstract state is unchanged.
    pub fn copy(&mut self, alloc: Global, worker: Worker, word: u64) -> Result<(), AllocError>
        requires { IsCopy (task_of self.old worker) }
        ensures calls { self.new.calls ≡ self.old.calls }
        ensures kept { OnOk result ((drawing pid part place : ℕ) → task_of self.old worker ≡ Copy drawing pid part place → RepresentsAfterEntry self.old (entry.Copied drawing part place word) self.new) }
        ensures err { OnErr result (SameWorkersState self.old self.new) }
    {
        let drawing = self.drawing_at(worker);
        let turn = &mut self.turns[worker as usize - 1];
        filling::take_word(&mut self.slots, turn, alloc, drawing, word)
    }

    /// The name that a worker's task asks it to look at. The walk of that name is readied, and the abstract state is unchanged.
    pub fn look_name(&mut self, alloc: Global, worker: Worker) -> Result<AbsName, AllocError>
        requires { IsLook (task_of self.old worker) }
        ensures stands { SameWorkersState self.old self.new }
        ensures task { task_of self.new worker ≡ task_of self.old worker }
        ensures calls { self.new.calls ≡ self.old.calls }
        ensures law { IfOk result (λ name. (i : Input) (st : State) (drawing part : ℕ) → RepresentsMessages i st (is_live_in st) self.old → task_of self.old worker ≡ LookAt drawing part → worker_entry i st worker ≡ Some (entry.Looked drawing part name (look st.tree name))) }
    {
        let drawing = self.drawing_at(worker);
        self.slots.next_name(alloc, drawing)
    }

    /// Takes the answer to a worker's look at its name. If memory runs out, the abstract state is unchanged.
    pub fn look(&mut self, alloc: Global, worker: Worker, seen: Seen<'_>) -> Result<(), AllocError>
        requires { IsLook (task_of self.old worker) }
        ensures calls { self.new.calls ≡ self.old.calls }
        ensures kept { OnOk result ((drawing part : ℕ) (name : Components) → task_of self.old worker ≡ LookAt drawing part → RepresentsAfterEntry self.old (entry.Looked drawing part name (seen_text seen.entry)) self.new) }
        ensures err { OnErr result (SameWorkersState self.old self.new) }
    {
        let drawing = self.drawing_at(worker);
        let turn = &mut self.turns[worker as usize - 1];
        filling::take_look(&mut self.slots, turn, alloc, drawing, seen)
    }

    /// Marks the message of a worker as faulted with the error that its task names, and makes the worker idle. It takes no memory.
    pub fn fault(&mut self, worker: Worker)
        requires { IsFault (task_of self.old worker) }
        ensures workers { self.new.calls.workers ≡ self.old.calls.workers }
        ensures numbers { CarriesNumbers (λ numbers. numbers) self.old.calls self.new.calls }
        ensures calls { (drawing : ℕ) (errno : Errno) → task_of self.old worker ≡ Fault drawing errno → self.new.calls ≡ with_state self.old.calls drawing (Faulted errno) }
        ensures kept { (drawing : ℕ) (errno : Errno) → task_of self.old worker ≡ Fault drawing errno → RepresentsAfterEntry self.old (entry.Faulted drawing errno) self.new }
    {
        let drawing = self.drawing_at(worker);
        let Next::Fault(errno) = self.slots.next(drawing) else {
            unreachable!()
        };
        put_turn(&mut self.turns[worker as usize - 1], Turn::Idle);
        self.messages.fault(drawing, errno);
    }

    /// Answers with the verdict on a worker's copies, returns these and the drawing of their message, and makes the worker idle. The answer
    /// is applied iff the message is live. It takes no memory.
    pub fn answer(
        &mut self,
        worker: Worker,
        verdict: Verdict,
    ) -> (Drawing, Shared<Snapshot>, Delivered)
        requires { task_of self.old worker ≡ Answer }
        ensures copies { turn_of_worker self.old worker ≡ Some (Ready result.0 result.1) }
        ensures seq { seq_of self.old.calls result.0 ≡ Some result.1.seq }
        ensures applied { (result.2 ≡ Applied) ↔ (is_live_drawing self.old.calls result.0 ≡ true) }
        ensures lives { (i : Input) (st : State) (alive : ℕ → Bool) → RepresentsMessages i st alive self.old → is_live_drawing self.old.calls result.0 ≡ alive result.0 }
        ensures workers { self.new.calls.workers ≡ self.old.calls.workers }
        ensures calls { result.2 ≡ Applied → self.new.calls ≡ with_state self.old.calls result.0 (Answered verdict) }
        ensures stale { result.2 ≡ Stale → self.new.calls ≡ calls_after_let_go self.old.calls result.0 }
        ensures numbers { CarriesNumbers (without_replaced (is_live_drawing self.old.calls) result.0) self.old.calls self.new.calls }
        ensures kept { (i : Input) (st : State) (alive : ℕ → Bool) → RepresentsMessages i st alive self.old → verdict ≡ verdict_under i.policies result.1 → RepresentsMessagesAfter i st (entry.Answered worker (drawn_copies result.0 result.1) verdict (alive result.0)) alive self.new }
    {
        let turn = std::mem::replace(&mut self.turns[worker as usize - 1], Turn::Idle);
        let Turn::Ready(drawing, copies) = turn else {
            unreachable!()
        };
        let delivered = deliver(&mut self.messages, drawing, verdict);
        (drawing, copies, delivered)
    }

    /// The copies of an answered message.
    pub fn snapshot(&self, drawing: Drawing) -> &Shared<Snapshot>
        requires { HasAnswer (message_state self.now.calls drawing) }
        ensures law { (i : Input) (st : State) → RepresentsMessages i st (is_live_in st) self.now → snapshot_in st drawing ≡ Some (drawn_copies drawing result.now) }
        ensures seq { seq_of self.now.calls drawing ≡ Some result.now.seq }
    {
        self.slots.copies(drawing)
    }

    /// Ends a live drawing, because its call is made or denied, or its thread is dying. A worker at this drawing becomes idle, unless it is
    /// ready: then it still answers, but too late. It takes no memory.
    pub fn cancel(&mut self, drawing: Drawing)
        requires { is_live_drawing self.old.calls drawing ≡ true }
        ensures calls { (keeps : Bool) × (self.new.calls ≡ calls_after_cancel self.old.calls drawing keeps) }
        ensures numbers { (ready : ℕ → Bool) → AreReady ready self.old → CarriesNumbers (without_replaced ready drawing) self.old.calls self.new.calls }
        ensures fewer { KeepsNumbers self.old.calls self.new.calls }
        ensures ready { (q : ℕ) → IsReadyWith self.new q ↔ IsReadyWith self.old q }
        ensures kept { (i : Input) (messages : ℕ → Message) (turns : ℕ → Option ℕ) (alive later : ℕ → Bool) (posted : ℕ) → RepresentsMachineMessages i messages turns alive posted self.old → ChangesLife alive drawing false later → RepresentsMachineMessages i messages turns later posted self.new }
    {
        let keeps = leave(&mut self.turns, self.messages.state(drawing));
        self.messages.cancel(drawing, keeps);
        self.slots.drop_of(drawing);
    }

    /// Ends a live drawing, as `cancel` does, and posts its call again under the next drawing, which it returns, with the ids, the directory
    /// and the version of this renewal. Nothing that was copied or seen is kept. It takes no memory.
    pub fn renew(&mut self, drawing: Drawing, renewal: Renewal) -> Drawing
        requires live { is_live_drawing self.old.calls drawing ≡ true }
        requires room { self.old.calls.next < 2 ^ 64 - 1 }
        requires few { AreFew self.old.calls }
        requires short { IsShort renewal.cwd }
        ensures drawing { result ≡ self.old.calls.next }
        ensures seq { seq_of self.new.calls result ≡ Some (next_seq self.old.calls) }
        ensures workers { self.new.calls.workers ≡ self.old.calls.workers }
        ensures calls { (keeps : Bool) × (self.new.calls ≡ calls_after_renew self.old.calls drawing keeps) }
        ensures few { AreFew self.new.calls }
        ensures numbers { (ready : ℕ → Bool) → AreReady ready self.old → CarriesNumbers (λ numbers. without_replaced ready drawing (drawn_as largest_number self.old.calls.next numbers)) self.old.calls self.new.calls }
        ensures ready { (q : ℕ) → IsReadyWith self.new q ↔ IsReadyWith self.old q }
        ensures kept { (i : Input) (messages : ℕ → Message) (turns : ℕ → Option ℕ) (alive later : ℕ → Bool) (posted : ℕ) → RepresentsMachineMessages i messages turns alive posted self.old → RenewsLife alive drawing (suc posted) later → RepresentsMachineMessages i (messages_renewed renewal drawing (suc posted) messages) turns later (suc posted) self.new }
    {
        let keeps = leave(&mut self.turns, self.messages.state(drawing));
        let seq = self.messages.next_seq();
        let fresh = self.messages.renew(drawing, keeps);
        let new = NewNumber {
            drawing: fresh,
            seq,
        };
        self.slots.renew(drawing, new, renewal);
        fresh
    }
}

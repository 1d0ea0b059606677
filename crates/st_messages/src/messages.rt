ghost use Rattle.std.specs.Prelude.{◌≡◌, ◌≢◌, ℕ, ◌-◌, ◌^◌, ◌<◌, ◌≤◌, ◌↔◌, [], Some, None, true, false, length, get_or, IsNone, IfSome, IfOk, OnOk, OnErr};
ghost use Rattle.st_messages.specs.declared.message.Delivered.TheVariants.{Applied, Stale};
ghost use Rattle.st_messages.specs.declared.message.Message.{Message};
ghost use Rattle.st_messages.specs.declared.message.MsgState.TheVariants.{Waiting, Claimed, Answered, Faulted};
ghost use Rattle.st_messages.specs.Messages.{count_in_use, drawing_of, first_waiting, is_claimed, is_in_use, is_kept, is_live_drawing, message_state, most_in_use, next_seq, seq_left, seq_of, thread_of_drawing, with_state, calls_after_post, calls_after_cancel, calls_after_let_go, calls_after_renew, AreValidCalls, ChangesKept, ChangesSeq, ChangesState, HasNoDrawing, IsInCircle, IsLeastWaiting, HasWorker, RenewsSeq, RenewsState};

use crate::kept::{KeptNumber, KeptNumbers};
use crate::message::{Delivered, Message, MsgState};
use crate::{circle, live};
use st_base::{Drawing, Errno, Seq, Tid, Worker};
use st_calls::Verdict;
use std::alloc::{AllocError, Global};
use std::collections::VecDeque;
use std::marker::Model;

/// The messages of held calls. Each has a drawing, from 1 in the order of posting, that is used once, and a number, which comes again when
/// it is no longer in use. The least waiting drawing is claimed first.
#[derive(Debug, Drop)]
pub struct Messages {
    workers: u32,
    next: Drawing,
    last: Seq,
    // So many numbers after the last one are known to be free.
    ahead: Seq,
    // In the order of their drawings. A thread has at most one, so there are few, however long the run is.
    live: VecDeque<Message>,
    kept: KeptNumbers,
}

impl Model for Messages {
    ghost use Rattle.st_messages.specs.Messages.{HeldCalls};

    ghost Value = { HeldCalls };

    ghost view = { λ m. record { workers = m.workers; next = m.next; greatest = 65535; last = m.last; live = m.live.items; kept = m.kept } };

    ghost use Rattle.st_messages.specs.Circle.{AreFreeAhead};
    ghost use Rattle.st_messages.specs.Messages.{seqs_in, AreValidCalls};

    ghost invariant = { λ m. AreValidCalls (record { workers = m.workers; next = m.next; greatest = 65535; last = m.last; live = m.live.items; kept = m.kept }) × AreFreeAhead 65535 (seqs_in m.live.items m.kept) m.last m.ahead };
}

impl Messages {
    /// No messages, for so many workers.
    pub fn new(alloc: Global, workers: u32) -> Result<Self, AllocError>
        ensures workers { IfOk result (λ calls. calls.workers ≡ workers) }
        ensures next { IfOk result (λ calls. calls.next ≡ 1) }
        ensures greatest { IfOk result (λ calls. calls.greatest ≡ 65535) }
        ensures last { IfOk result (λ calls. calls.last ≡ 0) }
        ensures live { IfOk result (λ calls. calls.live ≡ []) }
        ensures kept { IfOk result (λ calls. calls.kept ≡ []) }
        ensures valid { IfOk result (λ calls. AreValidCalls calls) }
    {
        let kept = KeptNumbers::new(alloc)?;
        Ok(Messages {
            workers,
            next: 1,
            last: 0,
            ahead: Seq::MAX - 1,
            live: VecDeque::new(alloc),
            kept,
        })
    }

    /// How many workers there are; their numbers begin at 1.
    pub fn workers(&self) -> u32
        ensures { result ≡ self.now.workers }
    {
        self.workers
    }

    /// The drawing that the next call of `post` or `renew` returns.
    pub fn next_drawing(&self) -> Drawing
        ensures drawing { result ≡ self.now.next }
        ensures valid { AreValidCalls self.now }
    {
        self.next
    }

    /// The number that the next call of `post` or `renew` draws.
    pub fn next_seq(&self) -> Seq
        requires { count_in_use self.now ≤ most_in_use }
        ensures seq { result ≡ next_seq self.now }
        ensures circle { IsInCircle self.now result }
        ensures free { is_in_use self.now result ≡ false }
    {
        circle::draw(&self.live, &self.kept, self.last, self.ahead).seq
    }

    /// Whether a number is in use: that of a live drawing, or one that a ready worker keeps.
    pub fn in_use(&self, seq: Seq) -> bool
        ensures value { result ≡ is_in_use self.now seq }
        ensures exact { (result ≡ true) ↔ ((drawing : ℕ) × (seq_of self.now drawing ≡ Some seq)) }
    {
        circle::is_in_use(&self.live, &self.kept, seq)
    }

    /// The number of a drawing in use; none if the drawing isn't in use.
    pub fn seq(&self, drawing: Drawing) -> Option<Seq>
        ensures { result ≡ seq_of self.now drawing }
    {
        match live::message_of(&self.live, drawing) {
            Some(message) => Some(message.seq),
            None => Some(self.kept.of(drawing)?.seq),
        }
    }

    /// The drawing in use that has this number; none iff the number isn't in use.
    pub fn drawing(&self, seq: Seq) -> Option<Drawing>
        ensures value { result ≡ drawing_of self.now seq }
        ensures exact { (drawing : ℕ) → (result ≡ Some drawing) ↔ (seq_of self.now drawing ≡ Some seq) }
    {
        circle::drawing_with(&self.live, &self.kept, seq)
    }

    /// How far a message has come; none iff the drawing isn't live.
    #[inline]
    pub fn state(&self, drawing: Drawing) -> Option<MsgState>
        ensures state { result ≡ message_state self.now drawing }
        ensures given { IfSome result (λ _. drawing < self.now.next) }
        ensures worker { IfSome result (λ state. (worker : ℕ) → state ≡ Claimed worker → HasWorker self.now worker) }
    {
        Some(live::message_of(&self.live, drawing)?.state)
    }

    /// The thread of a live drawing; none if the drawing isn't live.
    #[inline]
    pub fn thread(&self, drawing: Drawing) -> Option<Tid>
        ensures { result ≡ thread_of_drawing self.now drawing }
    {
        Some(live::message_of(&self.live, drawing)?.tid)
    }

    // Changes the state of the message at an index, and returns its drawing.
    fn set_state_at(&mut self, place: usize, state: MsgState) -> Drawing
        requires place { place < length self.old.live }
        requires worker { (worker : ℕ) → state ≡ Claimed worker → HasWorker self.old worker }
        ensures drawing { (default : Message) → result ≡ (get_or self.old.live place default).drawing }
        ensures calls { self.new ≡ with_state self.old result state }
        ensures states { ChangesState self.old result (Some state) self.new }
    {
        let message = &mut self.live[place];
        message.state = state;
        message.drawing
    }

    // Changes the state of a live message.
    fn set_state(&mut self, drawing: Drawing, state: MsgState)
        requires live { is_live_drawing self.old drawing ≡ true }
        requires worker { (worker : ℕ) → state ≡ Claimed worker → HasWorker self.old worker }
        ensures calls { self.new ≡ with_state self.old drawing state }
        ensures states { ChangesState self.old drawing (Some state) self.new }
    {
        if let Some(place) = live::place_of(&self.live, drawing) {
            self.set_state_at(place, state);
        }
    }

    /// Posts the held call of a thread that has none, and returns its drawing. If memory runs out, nothing changes.
    pub fn post(&mut self, tid: Tid) -> Result<Drawing, AllocError>
        requires thread { HasNoDrawing self.old tid }
        requires room { self.old.next < 2 ^ 64 - 1 }
        requires few { count_in_use self.old ≤ most_in_use }
        ensures drawing { IfOk result (λ drawing. drawing ≡ self.old.next) }
        ensures fresh { message_state self.old self.old.next ≡ None }
        ensures ok { OnOk result (self.new ≡ calls_after_post self.old tid) }
        ensures thread { OnOk result (thread_of_drawing self.new self.old.next ≡ Some tid) }
        ensures states { OnOk result (ChangesState self.old self.old.next (Some Waiting) self.new) }
        ensures seqs { OnOk result (ChangesSeq self.old self.old.next (Some (next_seq self.old)) self.new) }
        ensures err { OnErr result (self.new ≡ self.old) }
    {
        let drawn = circle::draw(&self.live, &self.kept, self.last, self.ahead);
        let drawing = self.next;
        self.live.push_back(Message {
            drawing,
            seq: drawn.seq,
            tid,
            state: MsgState::Waiting,
        })?;
        self.next = drawing + 1;
        self.last = drawn.seq;
        self.ahead = drawn.ahead;
        Ok(drawing)
    }

    /// Lets a worker claim the least waiting drawing, and returns it; none iff no drawing is waiting. It takes no memory.
    pub fn claim(&mut self, worker: Worker) -> Option<Drawing>
        requires { HasWorker self.old worker }
        ensures none { IsNone result ↔ ((drawing : ℕ) → message_state self.old drawing ≢ Some Waiting) }
        ensures least { IfSome result (λ drawing. IsLeastWaiting self.old drawing) }
        ensures first { result ≡ first_waiting self.old }
        ensures ok { IfSome result (λ drawing. self.new ≡ with_state self.old drawing (Claimed worker)) }
        ensures states { IfSome result (λ drawing. ChangesState self.old drawing (Some (Claimed worker)) self.new) }
        ensures unchanged { result ≡ None → self.new ≡ self.old }
    {
        let place = live::waiting_place(&self.live)?;
        Some(self.set_state_at(place, MsgState::Claimed(worker)))
    }

    /// The least waiting drawing, which is claimed next; none iff no drawing is waiting.
    pub fn least_waiting(&self) -> Option<Drawing>
        ensures first { result ≡ first_waiting self.now }
        ensures none { IsNone result ↔ ((drawing : ℕ) → message_state self.now drawing ≢ Some Waiting) }
        ensures least { IfSome result (λ drawing. IsLeastWaiting self.now drawing) }
        ensures live { IfSome result (λ drawing. is_live_drawing self.now drawing ≡ true) }
    {
        Some(live::first_waiting(&self.live)?.drawing)
    }

    /// Marks a claimed message as faulted with the error of a copy or a look. It takes no memory.
    pub fn fault(&mut self, drawing: Drawing, errno: Errno)
        requires { is_claimed self.old drawing ≡ true }
        ensures calls { self.new ≡ with_state self.old drawing (Faulted errno) }
        ensures states { ChangesState self.old drawing (Some (Faulted errno)) self.new }
    {
        self.set_state(drawing, MsgState::Faulted(errno));
    }

    /// Answers a message. The answer is stale, and nothing changes, iff the drawing isn't live, isn't claimed, or is already answered or
    /// faulted. It takes no memory.
    pub fn answer(&mut self, drawing: Drawing, verdict: Verdict) -> Delivered
        ensures applied { (result ≡ Applied) ↔ (is_claimed self.old drawing ≡ true) }
        ensures ok { result ≡ Applied → self.new ≡ with_state self.old drawing (Answered verdict) }
        ensures states { result ≡ Applied → ChangesState self.old drawing (Some (Answered verdict)) self.new }
        ensures stale { result ≡ Stale → self.new ≡ self.old }
    {
        let Some(MsgState::Claimed(_)) = self.state(drawing) else {
            return Delivered::Stale;
        };
        self.set_state(drawing, MsgState::Answered(verdict));
        Delivered::Applied
    }

    /// Ends a live drawing, and posts its call again under the next drawing, which it returns. If a ready worker keeps the number of the old
    /// drawing, it stays in use. It takes no memory.
    pub fn renew(&mut self, drawing: Drawing, kept: bool) -> Drawing
        requires live { is_live_drawing self.old drawing ≡ true }
        requires room { self.old.next < 2 ^ 64 - 1 }
        requires few { count_in_use self.old ≤ most_in_use }
        ensures drawing { result ≡ self.old.next }
        ensures calls { self.new ≡ calls_after_renew self.old drawing kept }
        ensures thread { thread_of_drawing self.new result ≡ thread_of_drawing self.old drawing }
        ensures fresh { message_state self.old self.old.next ≡ None }
        ensures states { RenewsState self.old drawing self.old.next self.new }
        ensures seqs { RenewsSeq self.old drawing kept self.new }
        ensures kept { ChangesKept self.old drawing kept self.new }
    {
        let drawn = circle::draw(&self.live, &self.kept, self.last, self.ahead);
        let message = live::take(&mut self.live, drawing);
        self.kept.add_if(
            kept,
            KeptNumber {
                drawing: message.drawing,
                seq: message.seq,
            },
        );
        let fresh = self.next;
        self.next = fresh + 1;
        self.last = drawn.seq;
        self.ahead = drawn.ahead;
        self.live.push_back_reserved(Message {
            drawing: fresh,
            seq: drawn.seq,
            tid: message.tid,
            state: MsgState::Waiting,
        });
        fresh
    }

    /// Ends a live drawing, because its call is made or denied, or its thread is dying. If a ready worker keeps its number, that stays in
    /// use. It takes no memory.
    pub fn cancel(&mut self, drawing: Drawing, kept: bool)
        requires { is_live_drawing self.old drawing ≡ true }
        ensures calls { self.new ≡ calls_after_cancel self.old drawing kept }
        ensures states { ChangesState self.old drawing None self.new }
        ensures seqs { ChangesSeq self.old drawing (seq_left self.old drawing kept) self.new }
        ensures kept { ChangesKept self.old drawing kept self.new }
    {
        let message = live::take(&mut self.live, drawing);
        self.kept.add_if(
            kept,
            KeptNumber {
                drawing: message.drawing,
                seq: message.seq,
            },
        );
    }

    /// Ends the use of a number that a worker kept of an ended drawing. It takes no memory.
    pub fn let_go(&mut self, drawing: Drawing)
        requires { is_kept self.old drawing ≡ true }
        ensures calls { self.new ≡ calls_after_let_go self.old drawing }
        ensures seqs { ChangesSeq self.old drawing None self.new }
        ensures kept { ChangesKept self.old drawing false self.new }
    {
        self.kept.remove(drawing);
    }
}

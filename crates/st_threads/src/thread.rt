ghost use Rattle.std.specs.Prelude.{◌≡◌, drop, true, None};
ghost use Rattle.st_law.specs.State.{child_of_pending};
ghost use Rattle.st_law.specs.Threads.{child_of_next};
ghost use Rattle.st_threads.specs.Thread.{first_row, drawing_held, row_entered};
ghost use Rattle.st_threads.specs.Ways.{drawn_way};

use crate::way::CallWay;
use st_base::{Drawing, Tid};
use st_calls::{FastAnswer, SysCall};
use st_trace::Instr;
use std::marker::Model;

/// A call that a thread has entered, and that is neither made nor denied yet.
#[derive(Clone, Copy, Debug)]
pub struct PendingCall {
    pub call: SysCall,
    pub regs: [u64; 6],
    pub way: CallWay,
    /// The thread that it starts; 0 if it is no fork of the body.
    pub child: Tid,
}

impl Model for PendingCall {
    ghost use Rattle.st_law.specs.Threads as law;
    ghost use Rattle.st_threads.specs.Ways.{drawn_way, way_again, way_in_code};

    ghost Value = { law.PendingCall };

    ghost view = { λ p. record { call = p.call; regs = p.regs; way = drawn_way p.way; child = p.child } };

    ghost inverse = { λ p. record { call = p.call; regs = p.regs; way = way_in_code p.way; child = p.child } };

    ghost inverse_ok = { λ p _. (λ k. record { call = p.call; regs = p.regs; way = way_again p.way k; child = p.child }) };
}

/// How far a thread has come. Its process is kept by the system.
#[derive(Debug, Drop)]
pub struct Thread<'a> {
    left: &'a [Instr],
    pending: Option<PendingCall>,
    answer: FastAnswer,
    drawing: Drawing,
    dying: bool,
    ended: bool,
}

impl<'a> Model for Thread<'a> {
    ghost use Rattle.st_threads.specs.Thread.{ThreadRow};

    ghost Value = { ThreadRow };

    ghost view = { λ t. record { left = t.left.now; pending = t.pending; answer = t.answer; number = t.drawing; dying = t.dying; ended = t.ended } };
}

// The instructions after the first one.
fn rest_of<'a>(body: &'a [Instr]) -> &'a [Instr]
    ensures { result.now ≡ drop 1 body.now }
{
    match body {
        [_, rest @ ..] => rest,
        [] => body,
    }
}

// The thread that the first instruction starts; 0 if it is no fork.
fn child_of(body: &[Instr]) -> Tid
    ensures { result ≡ child_of_next body.now }
{
    match body {
        [Instr::Fork(child), ..] => *child,
        _ => 0,
    }
}

impl<'a> Thread<'a> {
    /// A thread before its first step.
    pub fn new(body: &'a [Instr]) -> Self
        ensures { result ≡ first_row body.now }
    {
        Thread {
            left: body,
            pending: None,
            answer: FastAnswer::Permit,
            drawing: 0,
            dying: false,
            ended: false,
        }
    }

    /// The instructions left.
    pub fn left(&self) -> &'a [Instr]
        ensures { result.now ≡ self.now.left }
    {
        self.left
    }

    /// The pending call.
    pub fn pending(&self) -> Option<PendingCall>
        ensures { result ≡ self.now.pending }
    {
        self.pending
    }

    /// The kernel's own answer to its barred call, as it was when the call was entered.
    pub fn answer(&self) -> FastAnswer
        ensures { result ≡ self.now.answer }
    {
        self.answer
    }

    /// The drawing of its held call.
    pub fn drawing(&self) -> Drawing
        ensures { result ≡ self.now.number }
    {
        self.drawing
    }

    /// The drawing of the call that it holds. A dying thread holds none.
    pub fn drawing_held(&self) -> Option<Drawing>
        ensures { result ≡ drawing_held self.now }
    {
        if self.dying {
            return None;
        }
        match self.pending?.way {
            CallWay::Held(_) => Some(self.drawing),
            CallWay::Fast | CallWay::Barred(_) | CallWay::Untraced => None,
        }
    }

    /// The thread that its pending call starts; 0 if it is no fork of the body.
    pub fn child(&self) -> Tid
        ensures { result ≡ child_of_pending self.now.pending }
    {
        match self.pending {
            Some(entered) => entered.child,
            None => 0,
        }
    }

    /// Whether it is dying: it can only end.
    pub fn is_dying(&self) -> bool
        ensures { result ≡ self.now.dying }
    {
        self.dying
    }

    /// Whether it has ended.
    pub fn has_ended(&self) -> bool
        ensures { result ≡ self.now.ended }
    {
        self.ended
    }

    /// Goes on after its next instruction.
    pub fn go_on(&mut self)
        ensures { self.new ≡ record self.old { left = drop 1 self.old.left } }
    {
        self.left = rest_of(self.left);
    }

    /// Enters the call of its next instruction, and goes on after it. A held call has the drawing of its message, and a barred one keeps
    /// this answer of the kernel.
    pub fn enter(&mut self, call: SysCall, regs: [u64; 6], way: CallWay, answer: FastAnswer)
        ensures { self.new ≡ row_entered self.old call regs (drawn_way way) answer }
    {
        if let CallWay::Held(drawing) = way {
            self.drawing = drawing;
        }
        self.pending = Some(PendingCall {
            call,
            regs,
            way,
            child: child_of(self.left),
        });
        self.answer = answer;
        self.left = rest_of(self.left);
    }

    /// Ends the pending call, because it was made or denied.
    pub fn close(&mut self)
        ensures { self.new ≡ record self.old { pending = None } }
    {
        self.pending = None;
    }

    /// Gives the call that it holds a new drawing.
    pub fn renew(&mut self, drawing: Drawing)
        ensures { self.new ≡ record self.old { number = drawing } }
    {
        self.drawing = drawing;
    }

    /// Makes it dying: it can only end.
    pub fn die(&mut self)
        ensures { self.new ≡ record self.old { dying = true } }
    {
        self.dying = true;
    }

    /// It ends.
    pub fn end(&mut self)
        ensures { self.new ≡ record self.old { ended = true } }
    {
        self.ended = true;
    }
}

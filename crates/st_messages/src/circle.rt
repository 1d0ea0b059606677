ghost use Rattle.std.specs.Prelude.{◌≡◌, ◌≤◌, ◌+◌, ◌<◌, suc, false, length, if◌then◌else◌, nat_lt};
ghost use Rattle.st_messages.specs.Circle.{distance, first_free, is_among, AreFreeAhead};
ghost use Rattle.st_messages.specs.Messages.{drawing_in, seqs_in};

use crate::kept::KeptNumbers;
use crate::live;
use crate::message::Message;
use st_base::{Drawing, Seq};
use std::collections::VecDeque;

/// A number that is drawn, and how many after it are known to be free.
#[derive(Clone, Copy, Debug, PartialEq, Eq)]
pub struct Drawn {
    pub seq: Seq,
    pub ahead: Seq,
}

// The number after this one in the circle.
#[inline]
fn number_after(number: Seq) -> Seq
    ensures { result ≡ (if nat_lt number 65535 then suc number else 1) }
{
    if number < Seq::MAX { number + 1 } else { 1 }
}

/// Whether a number is in use.
pub fn is_in_use(live: &VecDeque<Message>, kept: &KeptNumbers, seq: Seq) -> bool
    ensures { result ≡ is_among (seqs_in live.now.items kept.now) seq }
{
    live::message_with(live, seq).is_some() || kept.with(seq).is_some()
}

/// The drawing of the live message or the kept number that has this number.
pub fn drawing_with(live: &VecDeque<Message>, kept: &KeptNumbers, seq: Seq) -> Option<Drawing>
    ensures { result ≡ drawing_in live.now.items kept.now seq }
{
    match live::message_with(live, seq) {
        Some(message) => Some(message.drawing),
        None => Some(kept.with(seq)?.drawing),
    }
}

/// The first number after this one in the circle that isn't in use. It looks at no more numbers than one more than are in use.
pub fn first_free(live: &VecDeque<Message>, kept: &KeptNumbers, last: Seq) -> Seq
    requires { length live.now.items + length kept.now < 65535 }
    ensures { result ≡ first_free 65535 (seqs_in live.now.items kept.now) last }
{
    let mut seq = number_after(last);
    for _ in 0..live.len() + kept.len() {
        if !is_in_use(live, kept, seq) {
            return seq;
        }
        seq = number_after(seq);
    }
    seq
}

/// How many steps of the circle it is from one number to another.
pub fn steps_to(last: Seq, seq: Seq) -> Seq
    ensures { result ≡ distance 65535 last seq }
{
    if last < seq {
        seq - last
    } else {
        Seq::MAX - last + seq
    }
}

// Draws a number when none is known to be free.
#[inline(never)]
fn search(live: &VecDeque<Message>, kept: &KeptNumbers, last: Seq) -> Drawn
    requires { length live.now.items + length kept.now < 65535 }
    ensures seq { result.seq ≡ first_free 65535 (seqs_in live.now.items kept.now) last }
    ensures ahead { AreFreeAhead 65535 (seqs_in live.now.items kept.now) result.seq result.ahead }
{
    let seq = first_free(live, kept, last);
    let nearest = live::nearest(live, seq).min(kept.nearest(seq));
    Drawn {
        seq,
        ahead: nearest.saturating_sub(1),
    }
}

/// Draws the first number after this one that isn't in use. It looks at those in use only where no more are known to be free: once for each
/// of them in 65,535 draws at most.
#[inline]
pub fn draw(live: &VecDeque<Message>, kept: &KeptNumbers, last: Seq, ahead: Seq) -> Drawn
    requires few { length live.now.items + length kept.now < 65535 }
    requires ahead { AreFreeAhead 65535 (seqs_in live.now.items kept.now) last ahead }
    ensures seq { result.seq ≡ first_free 65535 (seqs_in live.now.items kept.now) last }
    ensures ahead { AreFreeAhead 65535 (seqs_in live.now.items kept.now) result.seq result.ahead }
{
    if ahead == 0 {
        search(live, kept, last)
    } else {
        Drawn {
            seq: number_after(last),
            ahead: ahead - 1,
        }
    }
}

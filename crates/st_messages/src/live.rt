ghost use Rattle.std.specs.Prelude.{◌≡◌, ◌<◌, ℕ, IfSome, Some, true, is_some, find, length};
ghost use Rattle.std.specs.List.{position};
ghost use Rattle.std.specs.VecDeque.{deque_capacity};
ghost use Rattle.st_messages.specs.Circle.{nearest};
ghost use Rattle.st_messages.specs.declared.message.Message.{Message};
ghost use Rattle.st_messages.specs.Messages.{has_seq, is_message_of, is_unclaimed, message_in, without_drawing, AreBetween};

use crate::circle;
use crate::message::{Message, MsgState};
use st_base::{Drawing, Seq};
use std::collections::VecDeque;

// The index of the message of this drawing, if it is its drawing less that of the first message. Calls usually end in the order in which
// they were entered, and then it is.
#[inline]
fn guess_of(live: &VecDeque<Message>, drawing: Drawing) -> Option<usize>
    requires { (to : ℕ) × AreBetween 1 live.now.items to }
    ensures { IfSome result (λ place. position (is_message_of drawing) live.now.items ≡ Some place) }
{
    let first = live.front()?;
    let place = drawing.checked_sub(first.drawing)? as usize;
    if place == 0 {
        return Some(0);
    }
    let message = live.get(place)?;
    if message.drawing == drawing {
        Some(place)
    } else {
        None
    }
}

// The same for any message, in logarithmic time.
#[inline(never)]
fn search_of(live: &VecDeque<Message>, drawing: Drawing) -> Option<usize>
    requires { (to : ℕ) × AreBetween 1 live.now.items to }
    ensures { result ≡ position (is_message_of drawing) live.now.items }
{
    let place = live.partition_point(|message| message.drawing < drawing);
    let message = live.get(place)?;
    if message.drawing == drawing {
        Some(place)
    } else {
        None
    }
}

// The index of the last message, if it is of this drawing. A thread whose calls are answered at once goes on while others wait, and then it
// is.
#[inline]
fn last_of(live: &VecDeque<Message>, drawing: Drawing) -> Option<usize>
    requires { (to : ℕ) × AreBetween 1 live.now.items to }
    ensures { IfSome result (λ place. position (is_message_of drawing) live.now.items ≡ Some place) }
{
    let last = live.back()?;
    if last.drawing == drawing {
        Some(live.len() - 1)
    } else {
        None
    }
}

/// The index of the message of this drawing.
#[inline]
pub fn place_of(live: &VecDeque<Message>, drawing: Drawing) -> Option<usize>
    requires { (to : ℕ) × AreBetween 1 live.now.items to }
    ensures { result ≡ position (is_message_of drawing) live.now.items }
{
    if let Some(place) = guess_of(live, drawing) {
        return Some(place);
    }
    match last_of(live, drawing) {
        Some(place) => Some(place),
        None => search_of(live, drawing),
    }
}

/// The message of this drawing, if it is live.
#[inline(always)]
pub fn message_of(live: &VecDeque<Message>, drawing: Drawing) -> Option<Message>
    requires { (to : ℕ) × AreBetween 1 live.now.items to }
    ensures { result ≡ message_in live.now.items drawing }
{
    let place = place_of(live, drawing)?;
    Some(live[place])
}

/// The message of this number, if it is live.
pub fn message_with(live: &VecDeque<Message>, seq: Seq) -> Option<Message>
    ensures { result ≡ find (has_seq seq) live.now.items }
{
    live.iter().copied().find(|message| message.seq == seq)
}

/// How many steps of the circle it is from a number to the nearest of a live message; once round if there is none.
pub fn nearest(live: &VecDeque<Message>, last: Seq) -> Seq
    ensures { result ≡ nearest (λ (message : Message). message.seq) 65535 last live.now.items }
{
    let mut nearest = Seq::MAX;
    for i in 0..live.len() {
        nearest = nearest.min(circle::steps_to(last, live[i].seq));
    }
    nearest
}

// Whether no worker has claimed a message.
fn is_waiting(message: &Message) -> bool
    ensures { result ≡ is_unclaimed message.now }
{
    matches!(message.state, MsgState::Waiting)
}

/// The index of the first waiting message.
pub fn waiting_place(live: &VecDeque<Message>) -> Option<usize>
    ensures { result ≡ position is_unclaimed live.now.items }
{
    live.iter().position(is_waiting)
}

/// The first waiting message.
pub fn first_waiting(live: &VecDeque<Message>) -> Option<Message>
    ensures { result ≡ find is_unclaimed live.now.items }
{
    live.iter().copied().find(|message| is_waiting(message))
}

/// Removes a live message and returns it, which leaves room for another. The first to be posted usually ends first, and then no other is
/// moved.
pub fn take(live: &mut VecDeque<Message>, drawing: Drawing) -> Message
    requires there { is_some (message_in live.old.items drawing) ≡ true }
    requires ordered { (to : ℕ) × AreBetween 1 live.old.items to }
    ensures message { message_in live.old.items drawing ≡ Some result }
    ensures others { live.new.items ≡ without_drawing live.old.items drawing }
    ensures room { length live.new.items < deque_capacity live.new }
{
    let Some(place) = place_of(live, drawing) else {
        unreachable!()
    };
    let Some(message) = live.remove(place) else {
        unreachable!()
    };
    message
}

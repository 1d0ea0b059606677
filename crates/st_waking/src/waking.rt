// Which threads an entry may wake, so that the others needn't be asked again whether they can move.
ghost use Rattle.std.specs.Prelude.{◌≡◌, ◌⊎◌, ◌==◌, ◌≤◌, ◌<◌, ℕ, suc, true, false, length};
ghost use Rattle.std.specs.List.{list_any};
ghost use Rattle.st_decide.specs.Holding.{is_same_rule, message_held};
ghost use Rattle.st_messages.specs.Messages.{drawing_of};
ghost use Rattle.st_reached.specs.Waiting.{wakes_all};
ghost use Rattle.st_waking.specs.Waking.{alike_woken, holder_woken, is_asleep, is_woken, thread_if, woken_by};

use st_base::{Drawing, Seq, Tid};
use st_decide::View;
use st_lookaside::Head;
use st_machine::Machine;
use st_trace::{Change, Entry};

/// Which threads may be able to move after an entry, and couldn't before.
#[derive(Clone, Copy, Debug, PartialEq, Eq)]
pub enum Woken {
    Nobody,
    One(Tid),
    /// The threads that hold calls of the same policy and rule as the message of this drawing.
    SameRule(Drawing),
    Everybody,
}

// Whether a change may allow any thread to move: a process ends, runs another binary, or has a child.
fn wakes_all(change: &Change) -> bool
    ensures { result ≡ wakes_all change.now }
{
    matches!(
        change,
        Change::Forked { .. } | Change::Execed { .. } | Change::Dying(_)
    )
}

// Whether one of these changes may allow any thread to move.
fn wakes_some(changes: &[Change]) -> bool
    ensures { result ≡ list_any wakes_all changes.now }
{
    changes.iter().any(|change| wakes_all(change))
}

// The thread that holds the call of a number, or all threads if the holder isn't known.
fn holder(machine: &Machine<'_>, seq: Seq) -> Woken
    ensures { result ≡ holder_woken (thread_if machine.now.workers.calls (drawing_of machine.now.workers.calls seq)) }
{
    let view = machine.view();
    let Some(drawing) = view.workers.drawing(seq) else {
        return Woken::Everybody;
    };
    match view.holder(drawing) {
        Some(tid) => Woken::One(tid),
        None => Woken::Everybody,
    }
}

// The threads that hold calls of the same policy and rule as the message of a number, or all threads if the message isn't known.
fn alike(machine: &Machine<'_>, seq: Seq) -> Woken
    ensures { result ≡ alike_woken (drawing_of machine.now.workers.calls seq) }
{
    match machine.view().workers.drawing(seq) {
        Some(drawing) => Woken::SameRule(drawing),
        None => Woken::Everybody,
    }
}

/// Which threads an entry may wake, according to the machine after it. Most entries wake nobody, and then no view of it is made.
pub fn woken_by(machine: &Machine<'_>, entry: &Entry) -> Woken
    ensures { result ≡ woken_by machine.now.workers.calls entry.now }
{
    match entry {
        Entry::Used { changes, .. } => {
            if wakes_some(changes.as_slice()) {
                Woken::Everybody
            } else {
                Woken::Nobody
            }
        }
        Entry::Faulted { seq, .. } => holder(machine, *seq),
        Entry::Answered {
            snapshot,
            applied,
            ..
        } => {
            if *applied {
                holder(machine, snapshot.get().seq)
            } else {
                Woken::Nobody
            }
        }
        Entry::Learned { seq, .. } | Entry::Replied { seq, .. } => alike(machine, *seq),
        _ => Woken::Nobody,
    }
}

// Marks the thread of this number as awake, if it exists.
fn mark_awake(tid: Tid, asleep: &mut [bool])
    ensures count { length asleep.new ≡ length asleep.old }
    ensures before { (place : ℕ) → is_asleep asleep.new place ≡ true → is_asleep asleep.old place ≡ true }
    ensures awake { (place : ℕ) → is_asleep asleep.new place ≡ true → (suc place == tid) ≡ false }
    ensures others { (place : ℕ) → is_asleep asleep.old place ≡ true → (suc place == tid) ≡ false → is_asleep asleep.new place ≡ true }
{
    if tid > 0 && tid as usize <= asleep.len() {
        asleep[tid as usize - 1] = false;
    }
}

// The first thread before `first` that holds a call of the same policy and rule as a message; otherwise `first`.
fn first_alike(machine: &View<'_, '_>, message: &Head, first: Tid) -> Tid
    requires { 1 ≤ first }
    ensures from { 1 ≤ result }
    ensures to { result ≤ first }
    ensures here { (result ≡ first) ⊎ (is_same_rule message.now (message_held machine.now result) ≡ true) }
    ensures before { (t : ℕ) → 1 ≤ t → t < result → is_same_rule message.now (message_held machine.now t) ≡ false }
{
    for tid in 1..first {
        if machine.holds_alike(tid, message) {
            return tid;
        }
    }
    first
}

// Marks the threads that hold calls of the same policy and rule as a message as awake. None of them is before `from`.
fn wake_alike(machine: &View<'_, '_>, message: &Head, from: Tid, asleep: &mut [bool])
    requires from { 1 ≤ from }
    requires before { (t : ℕ) → 1 ≤ t → t < from → is_same_rule message.now (message_held machine.now t) ≡ false }
    ensures count { length asleep.new ≡ length asleep.old }
    ensures before { (place : ℕ) → is_asleep asleep.new place ≡ true → is_asleep asleep.old place ≡ true }
    ensures woken { (place : ℕ) → is_asleep asleep.new place ≡ true → is_same_rule message.now (message_held machine.now (suc place)) ≡ false }
    ensures others { (place : ℕ) → is_asleep asleep.old place ≡ true → is_same_rule message.now (message_held machine.now (suc place)) ≡ false → is_asleep asleep.new place ≡ true }
{
    for tid in from..machine.thread_count() + 1 {
        if machine.holds_alike(tid, message) {
            mark_awake(tid, asleep);
        }
    }
}

impl Woken {
    /// The new cursor after threads were woken, if it was at `first`: the first woken thread before `first`, or `first` if there is none.
    pub fn cursor(self, machine: &Machine<'_>, first: Tid) -> Tid
        requires { 1 ≤ first }
        ensures from { 1 ≤ result }
        ensures to { result ≤ first }
        ensures here { (result ≡ first) ⊎ (is_woken machine.now self result ≡ true) }
        ensures before { (t : ℕ) → 1 ≤ t → t < result → is_woken machine.now self t ≡ false }
    {
        match self {
            Woken::Nobody => first,
            Woken::One(0) => first,
            Woken::One(tid) => first.min(tid),
            Woken::SameRule(drawing) => {
                let view = machine.view();
                match view.message(drawing) {
                    Some(message) => first_alike(&view, message, first),
                    None => 1,
                }
            }
            Woken::Everybody => 1,
        }
    }

    /// Marks the woken threads as awake. None of them is before `from`. Thread t is at index t - 1.
    pub fn wake(self, machine: &Machine<'_>, from: Tid, asleep: &mut [bool])
        requires from { 1 ≤ from }
        requires before { (t : ℕ) → 1 ≤ t → t < from → is_woken machine.now self t ≡ false }
        ensures count { length asleep.new ≡ length asleep.old }
        ensures before { (place : ℕ) → is_asleep asleep.new place ≡ true → is_asleep asleep.old place ≡ true }
        ensures woken { (place : ℕ) → is_asleep asleep.new place ≡ true → is_woken machine.now self (suc place) ≡ false }
        ensures others { (place : ℕ) → is_asleep asleep.old place ≡ true → is_woken machine.now self (suc place) ≡ false → is_asleep asleep.new place ≡ true }
    {
        match self {
            Woken::Nobody => {}
            Woken::One(tid) => mark_awake(tid, asleep),
            Woken::SameRule(drawing) => {
                let view = machine.view();
                match view.message(drawing) {
                    Some(message) => wake_alike(&view, message, from, asleep),
                    None => asleep.fill(false),
                }
            }
            Woken::Everybody => asleep.fill(false),
        }
    }
}

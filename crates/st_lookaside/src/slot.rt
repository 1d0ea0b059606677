ghost use Rattle.std.specs.Prelude.{◌≡◌, ◌<◌, ℕ, true, false, not, All, map, get_or, length, position, Option, Some, None, IfSome, IsNone, IfOk, OnOk, OnErr};
ghost use Rattle.st_calls.specs.Argument.{args_of};
ghost use Rattle.st_lookaside.specs.Head.{arg_request};
ghost use Rattle.st_lookaside.specs.Need.{is_finished, IsShort};
ghost use Rattle.st_lookaside.specs.Part.{filled_of, nothing_filled, IsCopyOf, IsPart};
ghost use Rattle.st_lookaside.specs.declared.need.Need.TheVariants as need;
ghost use Rattle.st_lookaside.specs.declared.part.Part.{Part};
ghost use Rattle.st_model.specs.declared.limits.TheConstants.{SPACE_WORDS};
ghost use Rattle.st_lookaside.specs.Slot.{AreNotBegun, IsLastBegun};
ghost use Rattle.st_names.specs.Seen.{seen_text};
ghost use Rattle.st_names.specs.declared.seen.SeenText.{SeenText};
ghost use Rattle.st_effects.specs.Progress.{Look, Ready};

use crate::head::{Head, NewNumber, Renewal};
use crate::need::Need;
use crate::part::Part;
use st_base::{Errno, Sequence, Shared};
use st_calls::{ArgText, Snapshot, args_of};
use st_names::{AbsName, Seen};
use std::alloc::{AllocError, Global};
use std::marker::Model;

/// What a message needs next. Its arguments are numbered from 0 in their order.
#[derive(Clone, Copy, Debug, PartialEq, Eq)]
pub enum Next {
    /// For this argument, the word with this index in memory.
    Word(u32, u32),
    /// For this argument, a look at the next name of its walk.
    Look(u32),
    /// Nothing: an argument has this fault.
    Fault(Errno),
    /// Nothing: all arguments are complete.
    Ready,
}

/// A message under way, and what is copied and seen for its arguments. The cost of a word or a look doesn't depend on the others.
#[derive(Debug, Drop)]
pub struct Slot {
    head: Head,
    parts: Vec<Part>,
    // The message with the texts of its arguments, if it was sealed.
    sealed: Option<Shared<Snapshot>>,
}

impl Model for Slot {
    ghost use Rattle.std.specs.Prelude.{is_some};
    ghost use Rattle.st_lookaside.specs.Slot as slot;
    ghost use Rattle.st_lookaside.specs.Slot.{kept_slot, IsSlotWith};

    ghost Value = { slot.Slot };

    ghost view = { λ s. kept_slot s.head s.parts.items (is_some s.sealed) };

    ghost invariant = { λ s. IsSlotWith s.head s.parts.items s.sealed };
}

// The first argument that isn't finished.
fn unfinished(parts: &[Part]) -> Option<usize>
    ensures { result ≡ position (λ part. not (is_finished part.need)) parts.now }
{
    parts.iter().position(|part| !part.is_finished())
}

// The last argument of which a word is copied.
fn last_begun(parts: &[Part]) -> Option<usize>
    ensures some { IfSome result (IsLastBegun parts.now) }
    ensures none { IsNone result → AreNotBegun parts.now 0 }
{
    let mut at = parts.len();
    while at > 0 {
        at -= 1;
        if parts[at].is_begun() {
            return Some(at);
        }
    }
    None
}

// Begins all arguments anew.
fn restart(parts: &mut [Part], head: &Head)
    requires parts { (k : ℕ) (d : Part) → k < length parts.old → IsCopyOf (arg_request head.now) (get_or parts.old k d).spec (get_or parts.old k d).copying }
    requires short { IsShort head.now.cwd }
    ensures parts { All (IsPart (arg_request head.now)) parts.new }
    ensures specs { map (λ part. part.spec) parts.new ≡ map (λ part. part.spec) parts.old }
    ensures filled { All (λ part. filled_of part ≡ nothing_filled) parts.new }
{
    for part in parts {
        part.restart(head);
    }
}

impl Slot {
    ghost use Rattle.st_lookaside.specs.Slot as slot;
    ghost use Rattle.st_lookaside.specs.Slot.{after_look, after_word, new_slot, next_need, part_next, slot_progress, renewed, sealed_slot, snapshot_with, IsInOrder, IsInside, IsLookNext, HasAllArguments, IsWordNext};

    /// A message of which nothing is copied or seen, with room for every word.
    pub fn new(alloc: Global, head: Head) -> Result<Self, AllocError>
        requires { IsShort head.cwd }
        ensures { IfOk result (λ slot. slot ≡ new_slot head) }
    {
        let specs = args_of(head.rule);
        let mut parts = Vec::with_capacity(alloc, specs.len())?;
        for spec in specs {
            parts.push(Part::begin(alloc, &head, *spec)?)?;
        }
        Ok(Slot {
            head,
            parts,
            sealed: None,
        })
    }

    /// The head of the message.
    pub fn head(&self) -> &Head
        ensures { result.now ≡ self.now.head }
    {
        &self.head
    }

    /// What the message needs next.
    pub fn next(&self) -> Next
        ensures value { result ≡ next_need (slot_progress self.now) }
        ensures inside { IsInside result }
    {
        let Some(j) = unfinished(&self.parts) else {
            return Next::Ready;
        };
        match self.parts[j].need {
            Need::Word(place) => Next::Word(j as u32, place),
            Need::Look => Next::Look(j as u32),
            Need::Fault(errno) => Next::Fault(errno),
            Need::Nothing => unreachable!(),
        }
    }

    /// Appends the word that is needed next, and returns what is needed after it. It takes no memory.
    pub fn fill(&mut self, word: u64) -> Next
        requires { IsWordNext (slot_progress self.old) }
        ensures slot { self.new ≡ after_word self.old word }
        ensures next { result ≡ next_need (slot_progress (after_word self.old word)) }
        ensures order { IsInOrder self.old }
    {
        let Some(j) = unfinished(&self.parts) else {
            unreachable!()
        };
        let part = &mut self.parts[j];
        part.fill(&self.head, word);
        // Usually it needs one more word. Then the other arguments need not be looked at.
        if let Need::Word(place) = part.need {
            return Next::Word(j as u32, place);
        }
        self.next()
    }

    /// The name that is looked at next. Its walk is readied, and what is copied and seen is unchanged.
    pub fn next_name(&mut self, alloc: Global) -> Result<AbsName, AllocError>
        requires { IsLookNext (slot_progress self.old) }
        ensures same { self.new ≡ self.old }
        ensures name { IfOk result (λ name. slot_progress self.old ≡ Look (part_next (slot_progress self.old)) name) }
    {
        let Some(j) = unfinished(&self.parts) else {
            unreachable!()
        };
        let part = &mut self.parts[j];
        part.next_name(alloc, &self.head)
    }

    /// Appends the answer to the look at the next name, and returns what is needed after it. If memory runs out, no answer is appended.
    pub fn take_look(&mut self, alloc: Global, seen: Seen<'_>) -> Result<Next, AllocError>
        requires { IsLookNext (slot_progress self.old) }
        ensures slot { OnOk result (self.new ≡ after_look self.old (seen_text seen.entry)) }
        ensures next { IfOk result (λ next. next ≡ next_need (slot_progress (after_look self.old (seen_text seen.entry)))) }
        ensures head { self.new.head ≡ self.old.head }
        ensures order { IsInOrder self.old }
        ensures err { OnErr result (self.new ≡ self.old) }
    {
        let Some(j) = unfinished(&self.parts) else {
            unreachable!()
        };
        let part = &mut self.parts[j];
        part.take_look(alloc, &self.head, seen)?;
        // Usually it needs one more look. Then the other arguments need not be looked at.
        if let Need::Look = part.need {
            return Ok(Next::Look(j as u32));
        }
        Ok(self.next())
    }

    /// Undoes the last `fill` or `take_look`, at the cost of what was copied or seen before it. The walk is no longer readied.
    pub fn take_back(&mut self)
        ensures head { self.new.head ≡ self.old.head }
        ensures word { (before : slot.Slot) (word : ℕ) → IsInOrder before → IsWordNext (slot_progress before) → self.old ≡ after_word before word → self.new ≡ before }
        ensures look { (before : slot.Slot) (seen : SeenText) → IsInOrder before → IsLookNext (slot_progress before) → self.old ≡ after_look before seen → self.new ≡ before }
    {
        self.sealed = None;
        if let Some(j) = last_begun(&self.parts) {
            let part = &mut self.parts[j];
            part.take_back(&self.head);
        }
    }

    // Makes the message with the texts of its arguments.
    fn snapshot(&self, alloc: Global) -> Result<Snapshot, AllocError>
        requires { HasAllArguments (slot_progress self.now) }
        ensures args { IfOk result (λ snapshot. slot_progress self.now ≡ Ready snapshot.parts) }
        ensures head { IfOk result (λ snapshot. snapshot ≡ snapshot_with self.now.head snapshot.parts) }
    {
        let mut args = Sequence::new(alloc);
        for part in &self.parts {
            args.push(part.arg(alloc, &self.head)?)?;
        }
        let head = &self.head;
        Ok(Snapshot {
            seq: head.seq,
            pid: head.pid,
            ids: head.ids,
            policy: head.policy.share()?,
            version: head.version,
            rule: head.rule,
            call: head.call,
            regs: head.regs,
            parts: args,
        })
    }

    /// The message with the texts of its arguments, as they were copied and looked up, which was made when it was sealed.
    pub fn copies(&self) -> &Shared<Snapshot>
        requires { self.now.is_sealed ≡ true }
        ensures args { slot_progress self.now ≡ Ready result.now.parts }
        ensures head { result.now ≡ snapshot_with self.now.head result.now.parts }
    {
        let Some(copies) = &self.sealed else {
            unreachable!()
        };
        copies
    }

    /// Makes the message with the texts of its arguments, and keeps it here until something is undone or the message begins anew, so that
    /// it is made only once. If memory runs out, nothing changes.
    pub fn seal(&mut self, alloc: Global) -> Result<Shared<Snapshot>, AllocError>
        requires { HasAllArguments (slot_progress self.old) }
        ensures same { self.new.head ≡ self.old.head }
        ensures ok { OnOk result (self.new ≡ sealed_slot self.old) }
        ensures err { OnErr result (self.new ≡ self.old) }
        ensures args { IfOk result (λ snapshot. slot_progress self.old ≡ Ready snapshot.parts) }
        ensures head { IfOk result (λ snapshot. snapshot ≡ snapshot_with self.old.head snapshot.parts) }
    {
        if let Some(copies) = &self.sealed {
            return copies.share();
        }
        let copies = Shared::new(alloc, self.snapshot(alloc)?)?;
        self.sealed = Some(copies.share()?);
        Ok(copies)
    }

    /// Begins anew under this drawing and its number, with the ids, the directory and the version of this renewal, in the existing room.
    pub fn renew(&mut self, new: NewNumber, renewal: Renewal)
        requires { IsShort renewal.cwd }
        ensures { self.new ≡ renewed self.old new.drawing new.seq renewal }
    {
        self.head.drawing = new.drawing;
        self.head.seq = new.seq;
        self.head.ids = renewal.ids;
        self.head.cwd = renewal.cwd;
        self.head.version = renewal.version;
        self.sealed = None;
        restart(&mut self.parts, &self.head);
    }
}

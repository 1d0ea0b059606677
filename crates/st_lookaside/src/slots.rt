ghost use Rattle.std.specs.Prelude.{◌≡◌, ◌<◌, ◌≤◌, ℕ, true, [], Some, None, IsSome, IfSome, IfOk, IfErr, OnOk, OnErr, length, slice_index_or, insert, remove};
ghost use Rattle.std.specs.VecDeque.{deque_capacity};
ghost use Rattle.st_effects.specs.Progress.{Look, Ready};
ghost use Rattle.st_lookaside.specs.Need.{IsShort};
ghost use Rattle.st_lookaside.specs.Slot as slot;
ghost use Rattle.st_lookaside.specs.Slot.{after_look, after_word, new_slot, next_need, part_next, slot_progress, renewed, sealed_slot, snapshot_with, IsInOrder, IsInside, IsLookNext, HasAllArguments, IsWordNext};
ghost use Rattle.st_lookaside.specs.Slots.{key_at, slot_at, AreAscending, ChangesSlot, IsKeyAt, IsGap, RenewsSlot};
ghost use Rattle.st_names.specs.Seen.{seen_text};
ghost use Rattle.st_names.specs.declared.seen.SeenText.{SeenText};

use crate::head::{Head, NewNumber, Renewal};
use crate::slot::{Next, Slot};
use slab::Slab;
use st_base::{Drawing, Shared};
use st_calls::Snapshot;
use st_names::{AbsName, Seen};
use std::alloc::{AllocError, Global};
use std::collections::VecDeque;
use std::marker::Model;

/// The drawing of a message, and the key of its slot.
#[derive(Clone, Copy, Debug)]
struct SlotKey {
    drawing: Drawing,
    key: usize,
}

/// The messages under way by their drawings, and what is copied and seen for each. A message is found in logarithmic time. A thread has at
/// most one, so there are few. No slot is moved when another begins, is renewed or ends.
#[derive(Debug, Drop)]
pub struct Slots {
    // In the order of their drawings. The first to begin usually ends first, and then no other is moved.
    keys: VecDeque<SlotKey>,
    slab: Slab<Slot>,
}

impl Model for Slots {
    ghost use Rattle.std.specs.Prelude.{List};
    ghost use Rattle.st_lookaside.specs.Slot as slot;
    ghost use Rattle.st_lookaside.specs.Slots.{slots_of, HasSlots};

    ghost Value = { List slot.Slot };

    ghost view = { λ s. slots_of s.slab s.keys.items };

    ghost invariant = { λ s. HasSlots s.slab s.keys.items };
}

// The index of the key of this drawing, if it is the drawing less the first drawing. Calls usually end in the order in which they were
// entered, and then it is. If few are under way, it usually is the first.
#[inline]
fn guess_of(keys: &VecDeque<SlotKey>, drawing: Drawing) -> Option<usize>
    ensures { IfSome result (IsKeyAt keys.now.items drawing) }
{
    let first = keys.front()?;
    let place = drawing.checked_sub(first.drawing)? as usize;
    if place == 0 {
        return Some(0);
    }
    if keys.get(place)?.drawing == drawing {
        Some(place)
    } else {
        None
    }
}

// The same for any key, in logarithmic time.
#[inline(never)]
fn search_of(keys: &VecDeque<SlotKey>, drawing: Drawing) -> Result<usize, usize>
    requires { AreAscending keys.now.items }
    ensures found { IfOk result (IsKeyAt keys.now.items drawing) }
    ensures missing { IfErr result (IsGap keys.now.items drawing) }
{
    keys.binary_search_by_key(&drawing, |key| key.drawing)
}

// The index of the last key, if it is of this drawing. A thread whose calls are answered at once goes on while others wait, and then it is.
#[inline]
fn last_of(keys: &VecDeque<SlotKey>, drawing: Drawing) -> Option<usize>
    ensures { IfSome result (IsKeyAt keys.now.items drawing) }
{
    if keys.back()?.drawing == drawing {
        Some(keys.len() - 1)
    } else {
        None
    }
}

// The index of the key of this drawing, or the index at which it would be inserted.
#[inline]
fn place_of(keys: &VecDeque<SlotKey>, drawing: Drawing) -> Result<usize, usize>
    requires { AreAscending keys.now.items }
    ensures found { IfOk result (IsKeyAt keys.now.items drawing) }
    ensures missing { IfErr result (IsGap keys.now.items drawing) }
{
    if let Some(place) = guess_of(keys, drawing) {
        return Ok(place);
    }
    match last_of(keys, drawing) {
        Some(place) => Ok(place),
        None => search_of(keys, drawing),
    }
}

// The index at which the key of a drawing without one is inserted, if it isn't the end.
#[inline(never)]
fn gap_within(keys: &VecDeque<SlotKey>, drawing: Drawing) -> usize
    requires ascending { AreAscending keys.now.items }
    requires free { key_at keys.now.items drawing ≡ None }
    ensures { IsGap keys.now.items drawing result }
{
    let Err(place) = search_of(keys, drawing) else {
        unreachable!()
    };
    place
}

// The index at which the key of a drawing without one is inserted. The drawings of new messages ascend, so it usually is the end.
#[inline]
fn gap_of(keys: &VecDeque<SlotKey>, drawing: Drawing) -> usize
    requires ascending { AreAscending keys.now.items }
    requires free { key_at keys.now.items drawing ≡ None }
    ensures { IsGap keys.now.items drawing result }
{
    let Some(last) = keys.back() else {
        return 0;
    };
    if last.drawing < drawing {
        keys.len()
    } else {
        gap_within(keys, drawing)
    }
}

// The key of the slot of this drawing, if its index is the drawing less the first drawing.
#[inline]
fn guessed_key(keys: &VecDeque<SlotKey>, drawing: Drawing) -> Option<usize>
    requires { AreAscending keys.now.items }
    ensures { IfSome result (λ key. key_at keys.now.items drawing ≡ Some key) }
{
    let first = keys.front()?;
    let place = drawing.checked_sub(first.drawing)? as usize;
    let guessed = keys.get(place)?;
    if guessed.drawing == drawing {
        Some(guessed.key)
    } else {
        None
    }
}

// The key of the slot of a drawing that has one.
#[inline(never)]
fn key_within(keys: &VecDeque<SlotKey>, drawing: Drawing) -> usize
    requires ascending { AreAscending keys.now.items }
    requires some { IsSome (key_at keys.now.items drawing) }
    ensures { key_at keys.now.items drawing ≡ Some result }
{
    if let Some(key) = guessed_key(keys, drawing) {
        return key;
    }
    if let Some(place) = last_of(keys, drawing) {
        return keys[place].key;
    }
    let Ok(place) = search_of(keys, drawing) else {
        unreachable!()
    };
    keys[place].key
}

// The same. If few are under way, it usually is the first, which is found without a call.
#[inline(always)]
fn key_of(keys: &VecDeque<SlotKey>, drawing: Drawing) -> usize
    requires ascending { AreAscending keys.now.items }
    requires some { IsSome (key_at keys.now.items drawing) }
    ensures { key_at keys.now.items drawing ≡ Some result }
{
    match keys.front() {
        Some(first) if first.drawing == drawing => first.key,
        _ => key_within(keys, drawing),
    }
}

// Removes the key at an index, which leaves room for another.
fn take_out(keys: &mut VecDeque<SlotKey>, place: usize) -> usize
    requires { place < length keys.old.items }
    ensures items { keys.new.items ≡ remove keys.old.items place }
    ensures value { (d : SlotKey) → result ≡ (slice_index_or keys.old.items place d).key }
    ensures room { length keys.new.items < deque_capacity keys.new }
{
    let Some(taken) = keys.remove(place) else {
        unreachable!()
    };
    taken.key
}

// Inserts the key of a drawing at an index, for which there is room.
fn put_in(keys: &mut VecDeque<SlotKey>, place: usize, drawing: Drawing, key: usize)
    requires place { place ≤ length keys.old.items }
    requires room { length keys.old.items < deque_capacity keys.old }
    ensures { keys.new.items ≡ insert keys.old.items place (record { drawing = drawing; key = key }) }
{
    let Ok(()) = keys.insert(place, SlotKey { drawing, key }) else {
        unreachable!()
    };
}

impl Slots {
    /// No slots. It takes no memory.
    pub fn new(alloc: Global) -> Self
        ensures { result ≡ [] }
    {
        Slots {
            keys: VecDeque::new(alloc),
            slab: Slab::new(alloc),
        }
    }

    /// Begins a message of which nothing is copied or seen, with room for every word. If memory runs out, nothing changes.
    pub fn reserve(&mut self, alloc: Global, head: Head) -> Result<(), AllocError>
        requires free { slot_at self.old head.drawing ≡ None }
        requires short { IsShort head.cwd }
        ensures ok { OnOk result (ChangesSlot self.old head.drawing (Some (new_slot head)) self.new) }
        ensures err { OnErr result (self.new ≡ self.old) }
    {
        let drawing = head.drawing;
        let place = gap_of(&self.keys, drawing);
        self.keys.reserve(1)?;
        let slot = Slot::new(alloc, head)?;
        let Ok(key) = self.slab.insert(slot) else {
            return Err(AllocError);
        };
        put_in(&mut self.keys, place, drawing, key);
        Ok(())
    }

    /// The slot of a drawing that has one.
    pub fn slot(&self, drawing: Drawing) -> &Slot
        requires { IsSome (slot_at self.now drawing) }
        ensures { slot_at self.now drawing ≡ Some result.now }
    {
        &self.slab[key_of(&self.keys, drawing)]
    }

    /// What a message needs next.
    pub fn next(&self, drawing: Drawing) -> Next
        requires { IsSome (slot_at self.now drawing) }
        ensures value { IfSome (slot_at self.now drawing) (λ slot. result ≡ next_need (slot_progress slot)) }
        ensures inside { IsInside result }
    {
        self.slot(drawing).next()
    }

    /// Appends the word that a message needs next, and returns what it needs after it. It takes no memory.
    pub fn fill(&mut self, drawing: Drawing, word: u64) -> Next
        requires slot { IsSome (slot_at self.old drawing) }
        requires next { IfSome (slot_at self.old drawing) (λ slot. IsWordNext (slot_progress slot)) }
        ensures slot { IfSome (slot_at self.old drawing) (λ slot. ChangesSlot self.old drawing (Some (after_word slot word)) self.new) }
        ensures next { IfSome (slot_at self.old drawing) (λ slot. result ≡ next_need (slot_progress (after_word slot word))) }
        ensures order { IfSome (slot_at self.old drawing) IsInOrder }
    {
        let slot = &mut self.slab[key_of(&self.keys, drawing)];
        slot.fill(word)
    }

    /// The name that a message looks at next. Its walk is readied, and what is copied and seen is unchanged.
    pub fn next_name(&mut self, alloc: Global, drawing: Drawing) -> Result<AbsName, AllocError>
        requires slot { IsSome (slot_at self.old drawing) }
        requires next { IfSome (slot_at self.old drawing) (λ slot. IsLookNext (slot_progress slot)) }
        ensures same { self.new ≡ self.old }
        ensures name { IfOk result (λ name. IfSome (slot_at self.old drawing) (λ slot. slot_progress slot ≡ Look (part_next (slot_progress slot)) name)) }
    {
        let slot = &mut self.slab[key_of(&self.keys, drawing)];
        slot.next_name(alloc)
    }

    /// Appends the answer to the look at a message's next name, and returns what it needs after it. If memory runs out, no answer is
    /// appended.
    pub fn take_look(
        &mut self,
        alloc: Global,
        drawing: Drawing,
        seen: Seen<'_>,
    ) -> Result<Next, AllocError>
        requires slot { IsSome (slot_at self.old drawing) }
        requires next { IfSome (slot_at self.old drawing) (λ slot. IsLookNext (slot_progress slot)) }
        ensures slot { OnOk result (IfSome (slot_at self.old drawing) (λ slot. ChangesSlot self.old drawing (Some (after_look slot (seen_text seen.entry))) self.new)) }
        ensures next { IfOk result (λ next. IfSome (slot_at self.old drawing) (λ slot. next ≡ next_need (slot_progress (after_look slot (seen_text seen.entry))))) }
        ensures order { IfSome (slot_at self.old drawing) IsInOrder }
        ensures err { OnErr result (self.new ≡ self.old) }
    {
        let slot = &mut self.slab[key_of(&self.keys, drawing)];
        slot.take_look(alloc, seen)
    }

    /// A sealed message with the texts of its arguments, as they were copied and looked up.
    pub fn copies(&self, drawing: Drawing) -> &Shared<Snapshot>
        requires slot { IsSome (slot_at self.now drawing) }
        requires sealed { IfSome (slot_at self.now drawing) (λ slot. slot.is_sealed ≡ true) }
        ensures args { IfSome (slot_at self.now drawing) (λ slot. slot_progress slot ≡ Ready result.now.parts) }
        ensures head { IfSome (slot_at self.now drawing) (λ slot. result.now ≡ snapshot_with slot.head result.now.parts) }
    {
        self.slot(drawing).copies()
    }

    /// Makes a message with the texts of its arguments, and keeps it until something is undone or the message begins anew, so that it is
    /// made only once. If memory runs out, nothing changes.
    pub fn seal(&mut self, alloc: Global, drawing: Drawing) -> Result<Shared<Snapshot>, AllocError>
        requires slot { IsSome (slot_at self.old drawing) }
        requires ready { IfSome (slot_at self.old drawing) (λ slot. HasAllArguments (slot_progress slot)) }
        ensures ok { OnOk result (IfSome (slot_at self.old drawing) (λ slot. ChangesSlot self.old drawing (Some (sealed_slot slot)) self.new)) }
        ensures err { OnErr result (self.new ≡ self.old) }
        ensures args { IfOk result (λ snapshot. IfSome (slot_at self.old drawing) (λ slot. slot_progress slot ≡ Ready snapshot.parts)) }
        ensures head { IfOk result (λ snapshot. IfSome (slot_at self.old drawing) (λ slot. snapshot ≡ snapshot_with slot.head snapshot.parts)) }
    {
        let slot = &mut self.slab[key_of(&self.keys, drawing)];
        slot.seal(alloc)
    }

    /// Undoes the last `fill` or `take_look` of a message. Its walk is no longer readied. It takes no memory.
    pub fn take_back(&mut self, drawing: Drawing)
        requires { IsSome (slot_at self.old drawing) }
        ensures only { IfSome (slot_at self.old drawing) (λ was. (after : slot.Slot) × (after.head ≡ was.head) × ChangesSlot self.old drawing (Some after) self.new) }
        ensures word { (before : slot.Slot) (word : ℕ) → IsInOrder before → IsWordNext (slot_progress before) → slot_at self.old drawing ≡ Some (after_word before word) → ChangesSlot self.old drawing (Some before) self.new }
        ensures look { (before : slot.Slot) (seen : SeenText) → IsInOrder before → IsLookNext (slot_progress before) → slot_at self.old drawing ≡ Some (after_look before seen) → ChangesSlot self.old drawing (Some before) self.new }
    {
        let slot = &mut self.slab[key_of(&self.keys, drawing)];
        slot.take_back();
    }

    /// Begins a message anew under a drawing that has no slot and its number, with the ids, the directory and the version of this renewal,
    /// in the existing room. Its old drawing then has no slot.
    pub fn renew(&mut self, old: Drawing, new: NewNumber, renewal: Renewal)
        requires slot { IsSome (slot_at self.old old) }
        requires free { slot_at self.old new.drawing ≡ None }
        requires short { IsShort renewal.cwd }
        ensures { IfSome (slot_at self.old old) (λ slot. RenewsSlot self.old old new.drawing (renewed slot new.drawing new.seq renewal) self.new) }
    {
        let Ok(place) = place_of(&self.keys, old) else {
            unreachable!()
        };
        let key = take_out(&mut self.keys, place);
        let slot = &mut self.slab[key];
        slot.renew(new, renewal);
        let place = gap_of(&self.keys, new.drawing);
        put_in(&mut self.keys, place, new.drawing, key);
    }

    /// Ends the slot of a drawing. It takes no memory.
    pub fn drop_of(&mut self, drawing: Drawing)
        requires { IsSome (slot_at self.old drawing) }
        ensures { ChangesSlot self.old drawing None self.new }
    {
        let Ok(place) = place_of(&self.keys, drawing) else {
            unreachable!()
        };
        let key = take_out(&mut self.keys, place);
        let _ = self.slab.remove(key);
    }
}

// Takes one more word or look for a message, and updates the turn of its worker.
ghost use Rattle.std.specs.Prelude.{◌≡◌, ℕ, true, Some, IsSome, IfSome, IfOk, OnOk, OnErr};
ghost use Rattle.st_effects.specs.Progress.{Progress};
ghost use Rattle.st_lookaside.specs.Slot.{after_look, after_word, next_need, sealed_slot, slot_progress, IsInOrder, IsInside, IsLookNext, HasAllArguments, IsWordNext, Slot};
ghost use Rattle.st_lookaside.specs.Slots.{slot_at, ChangesSlot};
ghost use Rattle.st_messages.specs.Messages.{is_live_drawing, HeldCalls};
ghost use Rattle.st_names.specs.Seen.{seen_text};
ghost use Rattle.st_names.specs.declared.seen.SeenText.{SeenText};
ghost use Rattle.st_workers.specs.Filling.{sealed_if_ready, AreSame, IsTurnFor};
ghost use Rattle.st_workers.specs.Tasks.{task_at, CanServe};
ghost use Rattle.st_workers.specs.declared.turn.Turn.TheVariants.{Ready, Working};

use crate::task::Task;
use crate::turn::{Turn, put_turn};
use st_base::{Drawing, Pid, Shared};
use st_calls::Snapshot;
use st_lookaside::{Next, Slots};
use st_names::Seen;
use std::alloc::{AllocError, Global};

/// What a worker does next at a message of this process, by what the message needs next.
pub fn task_at(drawing: Drawing, pid: Pid, next: Next) -> Task
    ensures task { (progress : Progress) → next ≡ next_need progress → result ≡ task_at drawing pid progress }
    ensures there { (calls : HeldCalls) → is_live_drawing calls drawing ≡ true → IsInside next → CanServe calls result }
{
    match next {
        Next::Word(part, place) => Task::Copy {
            drawing,
            pid,
            part,
            place,
        },
        Next::Look(part) => Task::Look { drawing, part },
        Next::Fault(errno) => Task::Fault { drawing, errno },
        Next::Ready => Task::Answer,
    }
}

/// The turn of the worker of a message. If the message is complete, it is sealed. If memory runs out, nothing changes.
#[inline]
pub fn turn_for(slots: &mut Slots, alloc: Global, drawing: Drawing) -> Result<Turn, AllocError>
    requires { IsSome (slot_at slots.old drawing) }
    ensures slot { OnOk result (IfSome (slot_at slots.old drawing) (λ slot. ChangesSlot slots.old drawing (Some (sealed_if_ready slot)) slots.new)) }
    ensures err { OnErr result (slots.new ≡ slots.old) }
    ensures turn { IfOk result (λ turn. IfSome (slot_at slots.old drawing) (λ slot. IsTurnFor drawing slot turn)) }
{
    if let Next::Ready = slots.next(drawing) {
        return Ok(Turn::Ready(drawing, slots.seal(alloc, drawing)?));
    }
    Ok(Turn::Working(drawing))
}

// Seals a message that its last word or look has completed. If memory runs out, that word or look is undone.
fn seal_last(
    slots: &mut Slots,
    alloc: Global,
    drawing: Drawing,
) -> Result<Shared<Snapshot>, AllocError>
    requires slot { IsSome (slot_at slots.old drawing) }
    requires ready { IfSome (slot_at slots.old drawing) (λ slot. HasAllArguments (slot_progress slot)) }
    ensures slot { OnOk result (IfSome (slot_at slots.old drawing) (λ slot. ChangesSlot slots.old drawing (Some (sealed_slot slot)) slots.new)) }
    ensures turn { IfOk result (λ copies. IfSome (slot_at slots.old drawing) (λ slot. IsTurnFor drawing slot (Ready drawing copies))) }
    ensures word { OnErr result ((before : Slot) (word : ℕ) → IsInOrder before → IsWordNext (slot_progress before) → slot_at slots.old drawing ≡ Some (after_word before word) → ChangesSlot slots.old drawing (Some before) slots.new) }
    ensures look { OnErr result ((before : Slot) (seen : SeenText) → IsInOrder before → IsLookNext (slot_progress before) → slot_at slots.old drawing ≡ Some (after_look before seen) → ChangesSlot slots.old drawing (Some before) slots.new) }
{
    match slots.seal(alloc, drawing) {
        Ok(copies) => Ok(copies),
        Err(error) => {
            slots.take_back(drawing);
            Err(error)
        }
    }
}

/// Takes the word that a message needs next. If the message is then complete, it is sealed, and its worker's turn is to answer; otherwise
/// the turn is unchanged. If memory runs out, nothing is taken.
pub fn take_word(
    slots: &mut Slots,
    turn: &mut Turn,
    alloc: Global,
    drawing: Drawing,
    word: u64,
) -> Result<(), AllocError>
    requires slot { IsSome (slot_at slots.old drawing) }
    requires next { IfSome (slot_at slots.old drawing) (λ slot. IsWordNext (slot_progress slot)) }
    requires turn { turn.old ≡ Working drawing }
    ensures slot { OnOk result (IfSome (slot_at slots.old drawing) (λ slot. ChangesSlot slots.old drawing (Some (sealed_if_ready (after_word slot word))) slots.new)) }
    ensures turn { OnOk result (IfSome (slot_at slots.old drawing) (λ slot. IsTurnFor drawing (after_word slot word) turn.new)) }
    ensures err { OnErr result (AreSame slots.old slots.new) }
    ensures stays { OnErr result (turn.new ≡ turn.old) }
{
    if let Next::Ready = slots.fill(drawing, word) {
        put_turn(
            turn,
            Turn::Ready(drawing, seal_last(slots, alloc, drawing)?),
        );
    }
    Ok(())
}

/// Takes the answer to the look at a message's next name. If the message is then complete, it is sealed, and its worker's turn is to
/// answer; otherwise the turn is unchanged. If memory runs out, nothing is taken.
pub fn take_look(
    slots: &mut Slots,
    turn: &mut Turn,
    alloc: Global,
    drawing: Drawing,
    seen: Seen<'_>,
) -> Result<(), AllocError>
    requires slot { IsSome (slot_at slots.old drawing) }
    requires next { IfSome (slot_at slots.old drawing) (λ slot. IsLookNext (slot_progress slot)) }
    requires turn { turn.old ≡ Working drawing }
    ensures slot { OnOk result (IfSome (slot_at slots.old drawing) (λ slot. ChangesSlot slots.old drawing (Some (sealed_if_ready (after_look slot (seen_text seen.entry)))) slots.new)) }
    ensures turn { OnOk result (IfSome (slot_at slots.old drawing) (λ slot. IsTurnFor drawing (after_look slot (seen_text seen.entry)) turn.new)) }
    ensures err { OnErr result (AreSame slots.old slots.new) }
    ensures stays { OnErr result (turn.new ≡ turn.old) }
{
    if let Next::Ready = slots.take_look(alloc, drawing, seen)? {
        put_turn(
            turn,
            Turn::Ready(drawing, seal_last(slots, alloc, drawing)?),
        );
    }
    Ok(())
}

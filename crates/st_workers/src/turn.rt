// The turns of workers, and how one is replaced. Dropping the old turn has a case for each kind of turn, so it is done only here.
ghost use Rattle.std.specs.Prelude.{◌≡◌};

use st_base::{Drawing, Shared};
use st_calls::Snapshot;

/// What a worker is at.
#[derive(Debug, Drop)]
pub enum Turn {
    /// Nothing.
    Idle,
    /// The message of this drawing, which isn't complete.
    Working(Drawing),
    /// The answer to the message of this drawing, with its copies, which were sealed in the step that completed them.
    Ready(Drawing, Shared<Snapshot>),
}

// Replaces a turn.
#[inline(always)]
pub(crate) fn put_turn(place: &mut Turn, turn: Turn)
    ensures { place.new ≡ turn }
{
    *place = turn;
}

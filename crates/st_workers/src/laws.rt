ghost use Rattle.st_workers.specs.Laws.{ClosingIsNotKept, OthersHaveNoDrawing, WorkersLeaveLife};

/// A worker's step changes for no drawing whether it is live. Whether a message is closed is kept only as whether it is live. A thread that
/// no live message is of has no drawing.
pub fn what_is_kept()
    ensures life { WorkersLeaveLife }
    ensures closing { ClosingIsNotKept }
    ensures threads { OthersHaveNoDrawing }
{}

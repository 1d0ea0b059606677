ghost use Rattle.st_procs.specs.Laws.{BinariesAreOwn, ChildrenAreLikeParents, DirectoriesAreOwn, IdsAreOwn, ProcessesEndWithLastThread, NewProcessesAreLive, StartsAdd};

/// A call changes the row of one process alone, a child starts as its parent is, and a process ends with its last thread.
pub fn rows_stay_apart()
    ensures starts { StartsAdd }
    ensures children { ChildrenAreLikeParents }
    ensures binaries { BinariesAreOwn }
    ensures ids { IdsAreOwn }
    ensures directories { DirectoriesAreOwn }
    ensures live { NewProcessesAreLive }
    ensures ended { ProcessesEndWithLastThread }
{}

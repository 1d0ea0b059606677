ghost use Rattle.st_fds.specs.Laws.{ChildrenShare, DuplicatesShare, OffsetsAreShared, OthersStay};

/// Descriptors made by dup(2) and fork(2) share the open file: an offset changes for all descriptors that refer to the file, and
/// for no others.
pub fn open_files_are_shared()
    ensures duplicates { DuplicatesShare }
    ensures children { ChildrenShare }
    ensures offsets { OffsetsAreShared }
    ensures others { OthersStay }
{}

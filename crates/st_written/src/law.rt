ghost use Rattle.std.specs.Prelude.{List};
ghost use Rattle.st_law.specs.Lawful.{Lawful};
ghost use Rattle.st_law.specs.declared.input.Input.{Input};
ghost use Rattle.st_trace.specs.declared.entry.Entry.{Entry};
ghost use Rattle.st_written.specs.Normal.{HasNormalDirectories, HaveTypes};
ghost use Rattle.st_written.specs.Written.{AreEntries};

/// Each lawful trace is of entries that traces are written of, if the script's processes start in directories with normal names. The entries
/// have the values of their types, as those of each run have.
pub fn lawful_traces_can_be_written()
    ensures { (input : Input) → HasNormalDirectories input → (trace : List Entry) → Lawful input trace → HaveTypes trace → AreEntries trace }
{}

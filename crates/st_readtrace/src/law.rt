ghost use Rattle.std.specs.Prelude.{◌≡◌, List, None};
ghost use Rattle.st_law.specs.Lawful.{Lawful};
ghost use Rattle.st_law.specs.declared.input.Input.{Input};
ghost use Rattle.st_report.specs.TraceText.{entry_text, trace_text};
ghost use Rattle.st_trace.specs.declared.entry.Entry.{Entry};
ghost use Rattle.st_readtrace.specs.Lines.{IsReadAs};
ghost use Rattle.st_written.specs.Normal.{HasNormalDirectories, HaveTypes};
ghost use Rattle.st_written.specs.Written.{AreEntries, IsEntry};
ghost use Rattle.st_readtrace.specs.declared.trace.ReadTrace.{ReadTrace};

/// No two entries are printed as the same line.
pub fn no_two_entries_have_one_line()
    ensures { (one other : Entry) → IsEntry one → IsEntry other → entry_text one ≡ entry_text other → one ≡ other }
{}

/// What is printed of a trace is read again as exactly its entries, without a bad line.
pub fn printed_traces_are_read_again()
    ensures { (trace : List Entry) (read : ReadTrace) → AreEntries trace → IsReadAs (trace_text trace) read → read ≡ record { entries = trace; bad = None } }
{}

/// What is printed of a lawful trace is read again as exactly its entries, without a bad line, if the script's processes start in directories
/// with normal names. The entries have the values of their types, as those of each run have.
pub fn lawful_traces_are_read_again()
    ensures { (input : Input) → HasNormalDirectories input → (trace : List Entry) → Lawful input trace → HaveTypes trace → (read : ReadTrace) → IsReadAs (trace_text trace) read → read ≡ record { entries = trace; bad = None } }
{}

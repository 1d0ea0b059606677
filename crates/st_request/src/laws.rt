ghost use Rattle.std.specs.Prelude.{◌≡◌, ℕ, List};
ghost use Rattle.st_effects.specs.Changes.{tree_after};
ghost use Rattle.st_effects.specs.System.{System};
ghost use Rattle.st_memory.specs.Memory.{byte_in, next_space, Memories};
ghost use Rattle.st_model.specs.DescriptorCalls.{table_after_start};
ghost use Rattle.st_model.specs.Descriptors.{Table};
ghost use Rattle.st_model.specs.Processes.{is_process_live, next_pid, process_at, Processes};
ghost use Rattle.st_model.specs.Tree.{Tree};
ghost use Rattle.st_trace.specs.declared.entry.Change.{Change};
ghost use Rattle.st_request.specs.Outcome.{assembled_system};
ghost use Rattle.st_request.specs.Processes.{AreProcessesAfter};
ghost use Rattle.st_request.specs.Ready.{AreValidOpenFiles};

/// The object of each open file was made and isn't a link. This stays so whatever calls change in the tree, and when a process
/// starts with the console.
pub fn open_files_stay_real()
    ensures changes { (tree : Tree) (table : Table) (changes : List Change) → AreValidOpenFiles tree table → AreValidOpenFiles (tree_after tree changes) table }
    ensures start { (tree : Tree) (table : Table) (pid : ℕ) → AreValidOpenFiles tree table → AreValidOpenFiles tree (table_after_start table pid) }
{}

/// The system that calls are made over has each of the given parts, and otherwise what it had.
pub fn a_system_has_its_parts()
    ensures tree { (system : System) (tree : Tree) (table : Table) (processes : Processes) (memories : Memories) → (assembled_system system tree table processes memories).tree ≡ tree }
    ensures table { (system : System) (tree : Tree) (table : Table) (processes : Processes) (memories : Memories) → (assembled_system system tree table processes memories).descriptors ≡ table }
    ensures processes { (system : System) (tree : Tree) (table : Table) (processes : Processes) (memories : Memories) (pid : ℕ) → (assembled_system system tree table processes memories).processes pid ≡ process_at processes pid }
    ensures live { (system : System) (tree : Tree) (table : Table) (processes : Processes) (memories : Memories) (pid : ℕ) → (assembled_system system tree table processes memories).is_live pid ≡ is_process_live processes pid }
    ensures next_process { (system : System) (tree : Tree) (table : Table) (processes : Processes) (memories : Memories) → (assembled_system system tree table processes memories).next_process ≡ next_pid processes }
    ensures memory { (system : System) (tree : Tree) (table : Table) (processes : Processes) (memories : Memories) (space b : ℕ) → (assembled_system system tree table processes memories).memory space b ≡ byte_in memories space b }
    ensures next_space { (system : System) (tree : Tree) (table : Table) (processes : Processes) (memories : Memories) → (assembled_system system tree table processes memories).next_space ≡ next_space memories }
    ensures held { (system : System) (tree : Tree) (table : Table) (processes : Processes) (memories : Memories) → (assembled_system system tree table processes memories).held ≡ system.held }
{}

/// A call that changes the processes as its changes say starts no thread and ends none, so the same processes are live.
pub fn the_same_processes_live()
    ensures { (old : Processes) (pid : ℕ) (changes : List Change) (new : Processes) → AreProcessesAfter old pid changes new → (p : ℕ) → is_process_live new p ≡ is_process_live old p }
{}

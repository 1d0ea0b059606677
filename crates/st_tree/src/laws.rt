ghost use Rattle.std.specs.Prelude.{◌≡◌, ◌++◌, ℕ, true, Some, None, drop, length, if◌then◌else◌};
ghost use Rattle.st_names.specs.Name.{Components};
ghost use Rattle.st_model.specs.Tree.{IsOrdered, Tree, is_prefix, number_of_name, rename, is_same_name, with_name, without_name};

/// Laws of the addition and of the removal of one name. After an addition the name has the number that it was given, after a removal
/// it has none. Every other name has the number that it had.
pub fn one_name_changes()
    ensures given { (tree : Tree) (name : Components) (number : ℕ) (other : Components) → number_of_name (with_name tree.names name number) other ≡ (if is_same_name name other then Some number else number_of_name tree.names other) }
    ensures taken { (tree : Tree) (name other : Components) → IsOrdered tree.names → number_of_name (without_name tree.names name) other ≡ (if is_same_name name other then None else number_of_name tree.names other) }
{}

/// A law of a rename to a new name that no name has as a prefix. Afterwards a name with the new name as a prefix has the number that
/// it had with the old name as its prefix. A name with the old name as a prefix has none, and every other name has the number that it
/// had.
pub fn rename_moves_names_below()
    ensures { (tree : Tree) (old new name : Components) → IsOrdered tree.names → ((other : Components) → is_prefix new other ≡ true → number_of_name tree.names other ≡ None) → number_of_name (rename tree old new).names name ≡ (if is_prefix new name then number_of_name tree.names (old ++ drop (length new) name) else if is_prefix old name then None else number_of_name tree.names name) }
{}

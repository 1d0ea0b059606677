ghost use Rattle.std.specs.Prelude.{◌≡◌, ◌≢◌, ℕ, suc, Some, [], length};
ghost use Rattle.st_names.specs.Name.{Components};
ghost use Rattle.st_model.specs.Tree.{Tree, Node, add_object, object_of, node_of, node_of_number};

/// Laws of the tree as a map of names. A new object has the next number and is found under its name. No other name and no other
/// object changes.
pub fn a_tree_is_a_map()
    ensures number { (tree : Tree) (name : Components) (node : Node) → name ≢ [] → object_of (add_object tree name node) name ≡ Some (suc (length tree.objects)) }
    ensures new { (tree : Tree) (name : Components) (node : Node) → name ≢ [] → node_of (add_object tree name node) name ≡ Some node }
    ensures names { (tree : Tree) (name other : Components) (node : Node) → other ≢ name → object_of (add_object tree name node) other ≡ object_of tree other }
    ensures objects { (tree : Tree) (name : Components) (node old : Node) (number : ℕ) → node_of_number tree number ≡ Some old → node_of_number (add_object tree name node) number ≡ Some old }
{}

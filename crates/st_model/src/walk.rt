ghost use Rattle.std.specs.Prelude.{◌≡◌, ◌≤◌, ℕ, Bool, false, List, ◌∷◌, ◌++◌, length, codes};
ghost use Rattle.st_names.specs.Name.{Components, parent, printed_name};
ghost use Rattle.st_model.specs.Tree.{Tree};
ghost use Rattle.st_model.specs.Walk.{Name, walk, needs_lookup, resolve};
ghost use Rattle.st_names.specs.declared.seen.SeenText.{SeenText};
ghost use Rattle.st_names.specs.declared.limits.TheConstants.{LONGEST_NAME};

/// Laws of walks. After a walk has ended with a name or a fault, later looks don't change its result. `..` leads to the parent
/// without a look. A resolved name is no longer than `LONGEST_NAME`.
pub fn a_walk_asks_in_order()
    ensures finished { (done rest : Components) (n : ℕ) (lookups more : List SeenText) (follow : Bool) → needs_lookup (walk done rest n lookups follow) ≡ false → walk done rest n (lookups ++ more) follow ≡ walk done rest n lookups follow }
    ensures up { (done rest : Components) (n : ℕ) (lookups : List SeenText) (follow : Bool) → walk done (codes ".." ∷ rest) n lookups follow ≡ walk (parent done) rest n lookups follow }
    ensures short { (done rest name : Components) (n : ℕ) (lookups : List SeenText) (follow : Bool) → walk done rest n lookups follow ≡ Name name → length (printed_name name) ≤ LONGEST_NAME }
{}

/// A law of resolution: over any tree, it ends with a name or a fault.
pub fn a_resolution_ends()
    ensures { (tree : Tree) (cwd : Components) (text : List ℕ) (follow : Bool) → needs_lookup (resolve tree cwd text follow) ≡ false }
{}

ghost use Rattle.std.specs.Prelude.{◌≡◌, ◌≤◌, ◌↔◌, ℕ, List, Ok, None};
ghost use Rattle.st_filter.specs.Formula.{FilterValue};
ghost use Rattle.st_filter.specs.Policies.{filters_in};
ghost use Rattle.st_filter.specs.declared.set.BinaryPolicy.{BinaryPolicy};
ghost use Rattle.st_filter.specs.declared.set.TheConstants.{MOST_FILTERS};
ghost use Rattle.st_grammar.specs.Reading.{fault_in};
ghost use Rattle.st_grammar.specs.Grammar.{Reads};
ghost use Rattle.st_grammar.specs.OneFilter.{ReadsFilter, filter_in};
ghost use Rattle.st_grammar.specs.declared.env.Env.{Env};

/// A text has at most one reading. It has a reading exactly when it has no fault.
pub fn reading_is_one()
    ensures one { (text : List ℕ) (env : Env) (old a b : List BinaryPolicy) → Reads text env old a → Reads text env old b → a ≡ b }
    ensures faultless { (text : List ℕ) (env : Env) (old : List BinaryPolicy) → filters_in old ≤ MOST_FILTERS →
        (fault_in text env old ≡ None) ↔ ((set : List BinaryPolicy) × Reads text env old set) }
{}

/// A text that is read as one filter is that filter by the grammar.
pub fn what_is_read_is_a_filter()
    ensures { (text : List ℕ) (env : Env) (filter : FilterValue) → filter_in text env ≡ Ok filter → ReadsFilter text env filter }
{}

ghost use Rattle.std.specs.Prelude.{◌≡◌, ◌≤◌, ◌++◌, ◌∷◌, ℕ, List, Some, Ok, Err, take};
ghost use Rattle.st_lex.specs.Pieces.{IsReadAs, Piece, Space, CanBeReadBack, piece_tokens, print, spelled_tokens};
ghost use Rattle.st_lex.specs.Tokens.{lexed_text};
ghost use Rattle.st_lex.specs.declared.token.Token as spec;
ghost use Rattle.st_filter.specs.Formula.{FilterValue};
ghost use Rattle.st_filter.specs.Policies.{filters_in};
ghost use Rattle.st_filter.specs.declared.set.BinaryPolicy.{BinaryPolicy};
ghost use Rattle.st_filter.specs.declared.set.TheConstants.{MOST_FILTERS};
ghost use Rattle.st_grammar.specs.Reading.{fault_in};
ghost use Rattle.st_grammar.specs.OneFilter.{ReadsFilter, filter_in};
ghost use Rattle.st_grammar.specs.declared.env.Env.{Env};
ghost use Rattle.st_grammar.specs.declared.fault.PolicyFault.{PolicyFault};
ghost use Rattle.st_fault_laws.specs.Cuts.{end_of_tokens};
ghost use Rattle.st_fault_laws.specs.FilterFault.{IsFirstFilterFault};
ghost use Rattle.st_fault_laws.specs.FirstFault.{IsFirstFault};

use st_grammar::what_is_read_is_a_filter;

/// The fault of a text is the first by the grammar: some text that is read begins with the tokens before it, none begins with the token
/// that doesn't fit as well, and the fault follows from what may occur at that place. No other fault is the first.
pub fn the_first_fault_is_the_grammars()
    ensures first { (text : List ℕ) (env : Env) (old : List BinaryPolicy) (fault : PolicyFault) → filters_in old ≤ MOST_FILTERS → fault_in text env old ≡ Some fault →
        IsFirstFault text env old fault }
    ensures once { (text : List ℕ) (env : Env) (old : List BinaryPolicy) (a b : PolicyFault) → filters_in old ≤ MOST_FILTERS →
        IsFirstFault text env old a → IsFirstFault text env old b → a ≡ b }
{}

/// The fault of a filter alone is that of a policy whose text has the filter after a header, moved by the header's length. But no blank
/// line and no header may come before a filter, and nothing may follow its line. No text has two such faults, and a text that is a filter
/// has none.
pub fn the_first_fault_of_a_filter_is_a_policys()
    ensures first { (text : List ℕ) (env : Env) (fault : PolicyFault) → filter_in text env ≡ Err fault → IsFirstFilterFault text env fault }
    ensures once { (text : List ℕ) (env : Env) (a b : PolicyFault) → IsFirstFilterFault text env a → IsFirstFilterFault text env b → a ≡ b }
    ensures none { (text : List ℕ) (env : Env) (filter : FilterValue) (fault : PolicyFault) → ReadsFilter text env filter → IsFirstFilterFault text env fault → ⊥ }
{}

/// A text that is a filter by the grammar is read as that filter.
pub fn what_is_a_filter_is_read()
    ensures { (text : List ℕ) (env : Env) (filter : FilterValue) → ReadsFilter text env filter → filter_in text env ≡ Ok filter }
{
    what_is_read_is_a_filter();
}

/// A text that is cut after one of its tokens, and continued with a blank and printed pieces, is read as its tokens up to there, then the
/// pieces.
pub fn a_cut_text_keeps_its_tokens()
    ensures { (text : List ℕ) (before after : List spec.Token) (pieces : List Piece) → (lexed_text text).tokens ≡ before ++ after → CanBeReadBack pieces →
        IsReadAs (take (end_of_tokens 0 before) text ++ print (Space ∷ pieces)) (spelled_tokens text before ++ piece_tokens pieces) }
{}

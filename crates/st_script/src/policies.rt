//! What holds of all policies and replies that are read.

ghost use Rattle.std.specs.Prelude.{◌≡◌, ℕ, List, Ok};
ghost use Rattle.st_emulation.specs.declared.emulation.Emulation.{Emulation};
ghost use Rattle.st_filter.specs.declared.set.BinaryPolicy.{BinaryPolicy};
ghost use Rattle.st_law.specs.declared.input.Options.{Options};
ghost use Rattle.st_grammar.specs.Grammar.{Reads};
ghost use Rattle.st_grammar.specs.declared.env.Env.{Env};
ghost use Rattle.st_reached.specs.Grants.{RepliesUngranted, SetIdsUngranted};
ghost use Rattle.st_script.specs.Reading.{script_in};
ghost use Rattle.st_script.specs.declared.reading.ReadScript.{ReadScript};

use st_grammar::what_is_read_is_a_filter;

/// Policies that are read grant no ids to a call that sets ids, if the policies that were read before grant none.
pub fn what_is_read_grants_no_ids_for_setting()
    ensures { (text : List ℕ) (env : Env) (old set : List BinaryPolicy) → Reads text env old set → SetIdsUngranted old → SetIdsUngranted set }
{}

/// Replies of a script that is read grant no ids to a call that sets ids.
pub fn what_is_replied_grants_no_ids_for_setting()
    ensures { (text : List ℕ) (options : Options) (emulation : Emulation) (script : ReadScript) → script_in text options emulation ≡ Ok script → RepliesUngranted script.replies }
{
    what_is_read_is_a_filter();
}

/// Policies of a script that is read grant no ids to a call that sets ids.
pub fn what_is_reloaded_grants_no_ids_for_setting()
    ensures { (text : List ℕ) (options : Options) (emulation : Emulation) (script : ReadScript) → script_in text options emulation ≡ Ok script → SetIdsUngranted script.blocks }
{
    what_is_read_is_a_filter();
}

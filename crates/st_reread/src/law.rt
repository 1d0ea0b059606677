ghost use Rattle.std.specs.Prelude.{List, []};
ghost use Rattle.st_filter.specs.declared.set.BinaryPolicy.{BinaryPolicy};
ghost use Rattle.st_grammar.specs.Grammar.{Reads};
ghost use Rattle.st_grammar.specs.declared.env.Env.{Env};
ghost use Rattle.st_printing.specs.Canon.{canon};
ghost use Rattle.st_reread.specs.Readable.{WasRead, HasPlainDollars, HasSmallIds};

/// The canonical text of policies that were read is read again as the same policies, with the names, ids and texts that they were read
/// with, and by the names of the same emulation, if the three texts have no zero byte and ids have 32 bits.
pub fn printed_policies_are_read_again()
    ensures { (env : Env) (set : List BinaryPolicy) → WasRead env set → HasPlainDollars env → HasSmallIds env → Reads (canon set env.emulation) env [] set }
{}

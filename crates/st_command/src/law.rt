ghost use Rattle.std.specs.Prelude.{◌≡◌, ◌↔◌, ℕ, List, Some, None};
ghost use Rattle.st_command.specs.Words.{Word};
ghost use Rattle.st_command.specs.Command.{RunWords};
ghost use Rattle.st_command.specs.Grammar.{SpellsCommand, SpellsRun, SpellsGen};
ghost use Rattle.st_command.specs.Reading.{command_in, run_of_words, gen_of_words};
ghost use Rattle.st_command.specs.declared.command.Command.{Command};

/// Words spell a command exactly when it is the command that is read from them. So they spell at most one.
pub fn words_spell_what_is_read()
    ensures { (words : List Word) (command : Command) → SpellsCommand words command ↔ (command_in words ≡ Some command) }
{}

/// Words spell a `run` exactly when it is the one that is read from them.
pub fn words_spell_the_run_that_is_read()
    ensures { (words : List Word) (run : RunWords) → SpellsRun words run ↔ (run_of_words words ≡ Some run) }
{}

/// Words spell a `gen` exactly when its rounds are those that are read from them.
pub fn words_spell_the_gen_that_is_read()
    ensures { (words : List Word) (rounds : ℕ) → SpellsGen words rounds ↔ (gen_of_words words ≡ Some rounds) }
{}

/// Words that spell a `run` or a `gen` spell nothing else.
pub fn words_spell_one_command()
    ensures run { (words : List Word) (run : RunWords) → SpellsRun words run → (command_in words ≡ None) × (gen_of_words words ≡ None) }
    ensures rounds { (words : List Word) (rounds : ℕ) → SpellsGen words rounds → command_in words ≡ None }
{}

ghost use Rattle.std.specs.Prelude.{ℕ, ◌+◌, ◌*◌, ◌≤◌, length};
ghost use Rattle.st_generator.specs.Script.{generated_script};

/// A generated script has at most 144 bytes for each round, and 300 more.
pub fn how_long_a_generated_script_is()
    ensures { (rounds : ℕ) → length (generated_script rounds) ≤ 144 * rounds + 300 }
{}

ghost use Rattle.std.specs.Prelude.{◌≡◌};
ghost use Rattle.st_generator.specs.Policy.{generated_policy};

/// The policy of each generated run: reading the status of what is in `/pub` is permitted, all else is denied.
pub fn generated_policy() -> &'static [u8]
    ensures { result.now ≡ generated_policy }
{
    b"Policy: /bin/gen, Emulation: native\nnative-fsread: filename match \"/pub/*\" then permit\nnative-fsread: true then deny[eacces]\n"
}

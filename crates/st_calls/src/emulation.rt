ghost use Rattle.std.specs.Prelude.{◌≡◌, [], ◌∷◌};
ghost use Rattle.st_calls.specs.Emulation.{emulation_word, emulation_prefix};

/// The emulation's word, as the header of a policy has it.
#[inline]
pub fn emulation_word() -> &'static [u8]
    ensures { result.now ≡ emulation_word }
{
    b"native"
}

/// What stands before the name of a call or a rule: the emulation's word and `-`.
#[inline]
pub fn emulation_prefix() -> &'static [u8]
    ensures { result.now ≡ emulation_prefix }
{
    b"native-"
}

/// The emulation's word is `native`, byte by byte.
pub fn the_emulation_is_native()
    ensures word { emulation_word ≡ 110 ∷ 97 ∷ 116 ∷ 105 ∷ 118 ∷ 101 ∷ [] }
    ensures prefix { emulation_prefix ≡ 110 ∷ 97 ∷ 116 ∷ 105 ∷ 118 ∷ 101 ∷ 45 ∷ [] }
{}

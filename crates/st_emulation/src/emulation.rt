ghost use Rattle.std.specs.Prelude.{◌≡◌, false, nat_eq, List, ℕ, [], ◌∷◌, ◌++◌};
ghost use Rattle.std.specs.List.{starts_with};
ghost use Rattle.st_calls.specs.Emulation.{emulation_prefix, emulation_word};
ghost use Rattle.st_emulation.specs.Words.{prefix_of, word_of};
ghost use Rattle.st_emulation.specs.declared.emulation.Emulation.TheVariants.{Linux, Native};

use st_calls::{emulation_prefix, emulation_word};

/// The system whose calls programs make: policies, replies and audits name calls by its word, and programs use its flags and numbers of errors.
#[derive(Clone, Copy, Debug, PartialEq, Eq)]
pub enum Emulation {
    Native,
    /// Linux: `--linux` of systrace(1).
    Linux,
}

impl Emulation {
    /// The emulation's word, as the header of a policy has it.
    #[inline]
    pub fn word(self) -> &'static [u8]
        ensures { result.now ≡ word_of self }
    {
        match self {
            Emulation::Native => emulation_word(),
            Emulation::Linux => b"linux",
        }
    }

    /// What stands before the name of a call or a rule: the emulation's word and `-`.
    #[inline]
    pub fn prefix(self) -> &'static [u8]
        ensures { result.now ≡ prefix_of self }
    {
        match self {
            Emulation::Native => emulation_prefix(),
            Emulation::Linux => b"linux-",
        }
    }
}

/// The words are `native`, as traces have it, and `linux`, byte by byte; a prefix is the word and `-`.
pub fn the_words_of_emulations()
    ensures native { word_of Native ≡ 110 ∷ 97 ∷ 116 ∷ 105 ∷ 118 ∷ 101 ∷ [] }
    ensures native_prefix { prefix_of Native ≡ 110 ∷ 97 ∷ 116 ∷ 105 ∷ 118 ∷ 101 ∷ 45 ∷ [] }
    ensures traced_word { word_of Native ≡ emulation_word }
    ensures traced_prefix { prefix_of Native ≡ emulation_prefix }
    ensures linux { word_of Linux ≡ 108 ∷ 105 ∷ 110 ∷ 117 ∷ 120 ∷ [] }
    ensures linux_prefix { prefix_of Linux ≡ 108 ∷ 105 ∷ 110 ∷ 117 ∷ 120 ∷ 45 ∷ [] }
{}

/// No word begins with both prefixes.
pub fn neither_prefix_begins_with_the_other()
    ensures native { (name : List ℕ) → starts_with nat_eq (prefix_of Native ++ name) (prefix_of Linux) ≡ false }
    ensures linux { (name : List ℕ) → starts_with nat_eq (prefix_of Linux ++ name) (prefix_of Native) ≡ false }
{}

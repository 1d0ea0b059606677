ghost use Rattle.std.specs.Prelude.{◌≡◌};

use st_base::{Sequence, Text};
use st_emulation::Emulation;
use st_lex::Dollars;
use std::alloc::Global;

/// A name of a user or a group, and its id.
#[derive(Debug, Drop)]
pub struct NamedId {
    pub name: Text,
    pub id: u32,
}

/// The environment that policies are read with.
#[derive(Debug, Drop)]
pub struct Env {
    pub users: Sequence<NamedId>,
    pub groups: Sequence<NamedId>,
    /// The texts that replace `$HOME`, `$USER` and `$CWD` in quoted texts.
    pub dollars: Dollars,
    /// Whether filters may grant ids: `-c` of systrace(1).
    pub elevate: bool,
    /// Whether policies are learnt, so that no filter may ask: `-A` of systrace(1).
    pub learn: bool,
    /// Whose word headers and the names of filters have.
    pub emulation: Emulation,
}

impl Env {
    ghost use Rattle.st_grammar.specs.Words.{no_env};

    /// No users and groups, empty texts, no grants, nothing learnt, the native emulation; it takes no memory.
    pub fn new(alloc: Global) -> Self
        ensures { result ≡ no_env }
    {
        Env {
            users: Sequence::new(alloc),
            groups: Sequence::new(alloc),
            dollars: Dollars {
                home: Text::new(alloc),
                user: Text::new(alloc),
                cwd: Text::new(alloc),
            },
            elevate: false,
            learn: false,
            emulation: Emulation::Native,
        }
    }
}

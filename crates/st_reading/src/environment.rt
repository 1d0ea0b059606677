ghost use Rattle.std.specs.Prelude.{◌≡◌, [], ◌∷◌, IfOk};
ghost use Rattle.st_reading.specs.Bare.{bare_env};

use st_base::{Sequence, Text};
use st_emulation::Emulation;
use st_grammar::{Env, NamedId};
use st_lex::Dollars;
use std::alloc::{AllocError, Global};

// A list of one name with the id 0.
fn only(alloc: Global, name: &[u8]) -> Result<Sequence<NamedId>, AllocError>
    ensures { IfOk result (λ rows. rows ≡ record { name = name.now; id = 0 } ∷ []) }
{
    let name = Text::of(alloc, name)?;
    let mut rows = Sequence::new(alloc);
    rows.push(NamedId { name, id: 0 })?;
    Ok(rows)
}

/// The environment that policies are read with without a script: the user `root` and the group `wheel`. With `elevate` filters may grant
/// ids.
pub fn bare_env(alloc: Global, elevate: bool, emulation: Emulation) -> Result<Env, AllocError>
    ensures { IfOk result (λ env. env ≡ bare_env elevate emulation) }
{
    Ok(Env {
        users: only(alloc, b"root")?,
        groups: only(alloc, b"wheel")?,
        dollars: Dollars {
            home: Text::of(alloc, b"/root")?,
            user: Text::of(alloc, b"root")?,
            cwd: Text::of(alloc, b"/")?,
        },
        elevate,
        learn: false,
        emulation,
    })
}

ghost use Rattle.std.specs.Prelude.{◌≡◌, IfOk};

use std::alloc::{AllocError, Global};
use std::marker::Model;
use std::sync::Arc;

/// A value that is stored once and that several records share, in any threads.
#[derive(Debug, Drop)]
pub struct Shared<T> {
    held: Arc<T>,
}

impl<T> Model for Shared<T> {
    ghost use Rattle.std.specs.Arc.{arc_value};

    ghost Value = { T };

    ghost view = { λ s. arc_value s.held };
}

impl<T: Drop> Shared<T> {
    /// A shared value that a single record holds so far.
    pub fn new(alloc: Global, value: T) -> Result<Self, AllocError>
        ensures { IfOk result (λ shared. shared ≡ value) }
    {
        match Arc::new(alloc, value) {
            Ok(held) => Ok(Shared { held }),
            Err(_) => Err(AllocError),
        }
    }

    /// The shared value.
    pub fn get(&self) -> &T
        ensures { result.now ≡ self.now }
    {
        &self.held
    }

    /// The same value for one more record. It allocates no memory, and fails only if the count of records can't be increased.
    pub fn share(&self) -> Result<Self, AllocError>
        ensures { IfOk result (λ shared. shared ≡ self.now) }
    {
        Ok(Shared {
            held: Arc::try_clone(&self.held)?,
        })
    }
}

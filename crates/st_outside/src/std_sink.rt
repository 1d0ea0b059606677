ghost use Rattle.std.specs.Prelude.{◌≡◌, None};

use crate::count::one_more;
use crate::sink::{Failed, Sink};
use std::marker::Model;

/// Standard output. The bytes written aren't known.
#[derive(Drop)]
pub struct StdSink<'a, R: Print> {
    rt: &'a R,
    faults: u64,
}

impl<'a, R: Print> Model for StdSink<'a, R> {
    ghost use Rattle.std.specs.Prelude.{ℕ};

    ghost Value = { ℕ };

    ghost view = { λ s. s.faults };
}

impl<'a, R: Print> StdSink<'a, R> {
    /// The standard output of this runtime.
    pub fn new(rt: &'a R) -> Self
        ensures { result ≡ 0 }
    {
        StdSink { rt, faults: 0 }
    }

    /// The number of faults so far, saturating at 2^64 - 1.
    pub fn faults(&self) -> u64
        ensures { result ≡ self.now }
    {
        self.faults
    }
}

impl<'a, R: Print> Sink for StdSink<'a, R> {
    ghost written = { λ _. None };

    ghost faults = { λ s. s };

    // The bytes go to the host at once, so that none of them stays in a buffer.
    fn write_piece(&mut self, piece: &[u8]) -> Result<usize, Failed> {
        match self.rt.write_some(piece) {
            Ok(taken) if taken > 0 => Ok(taken),
            _ => {
                self.faults = one_more(self.faults);
                Err(Failed)
            }
        }
    }
}

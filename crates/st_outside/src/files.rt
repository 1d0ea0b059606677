ghost use Rattle.std.specs.Prelude.{◌≡◌, ◌≢◌, ℕ, ◌≤◌, List, [], ◌∷◌, ◌++◌, length, IfOk};
ghost use Rattle.st_outside.specs.Count.{HasRisen};
ghost use Rattle.st_outside.specs.Files.{FileView, CanHold, CanLack, CanExceed, CanFit};

use st_base::Text;
use std::alloc::Global;
use thiserror::Error;

/// The greatest length of a file that a fetch returns, in bytes.
pub const FILE_LIMIT: u64 = 1_048_576;

/// Why a fetch returned no text.
#[derive(Clone, Copy, Debug, PartialEq, Eq, Drop, Error)]
pub enum FetchFault {
    /// Reading failed, and a fault was counted.
    #[error("reading failed")]
    Failed,
    /// No file has this name.
    #[error("no such file")]
    Missing,
    /// The file has more than `FILE_LIMIT` bytes.
    #[error("the file is too long")]
    TooLong,
    /// Out of memory for the text.
    #[error("out of memory")]
    NoMemory,
}

/// Files by name. The model has the content of each name as far as it is known, the names that were fetched in order, and a count of
/// faults that never decreases.
pub trait Files {
    ghost contents: { Self → List ℕ → FileView };

    ghost asked: { Self → List (List ℕ) };

    ghost faults: { Self → ℕ };

    /// Returns the whole content of the file with this name. The name is recorded as fetched even if the fetch fails.
    fn fetch(&mut self, alloc: Global, name: &Text) -> Result<Text, FetchFault>
        ensures contents { contents self.new ≡ contents self.old }
        ensures asked { asked self.new ≡ asked self.old ++ name.now ∷ [] }
        ensures content { IfOk result (λ text. CanHold (contents self.old name.now) text) }
        ensures within { IfOk result (λ text. length text ≤ FILE_LIMIT) }
        ensures missing { result ≡ Err FetchFault.Missing → CanLack (contents self.old name.now) }
        ensures too_long { result ≡ Err FetchFault.TooLong → CanExceed (contents self.old name.now) }
        ensures no_memory { result ≡ Err FetchFault.NoMemory → CanFit (contents self.old name.now) }
        ensures failed { result ≡ Err FetchFault.Failed → HasRisen (faults self.old) (faults self.new) }
        ensures quiet { result ≢ Err FetchFault.Failed → faults self.new ≡ faults self.old };
}

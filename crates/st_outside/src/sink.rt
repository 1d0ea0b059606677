ghost use Rattle.std.specs.Prelude.{◌≡◌, ℕ, ◌<◌, ◌≤◌, List, length, take, Option, IfOk, OnOk, OnErr};
ghost use Rattle.st_outside.specs.Count.{HasRisen};
ghost use Rattle.st_outside.specs.Sink.{Appends, AppendsPrefix};

use thiserror::Error;

/// A sink wrote nothing, and counted a fault.
#[derive(Clone, Copy, Debug, PartialEq, Eq, Drop, Error)]
#[error("writing failed")]
pub struct Failed;

/// Writes bytes in order. The model has the bytes written so far, if they are known, and a count of faults that never decreases.
pub trait Sink {
    ghost written: { Self → Option (List ℕ) };

    ghost faults: { Self → ℕ };

    /// Writes a prefix of the piece, at least one byte, and returns its length.
    fn write_piece(&mut self, piece: &[u8]) -> Result<usize, Failed>
        requires { 0 < length piece.now }
        ensures some { IfOk result (λ n. 0 < n) }
        ensures within { IfOk result (λ n. n ≤ length piece.now) }
        ensures taken { IfOk result (λ n. Appends (written self.old) (written self.new) (take n piece.now)) }
        ensures quiet { OnOk result (faults self.new ≡ faults self.old) }
        ensures failed { OnErr result (HasRisen (faults self.old) (faults self.new)) }
        ensures unwritten { OnErr result (written self.new ≡ written self.old) };
}

/// Writes the whole text, piece by piece. If it fails, it has written a proper prefix of the text.
pub fn write_all<S: Sink>(out: &mut S, text: &[u8]) -> Result<(), Failed>
    ensures ok { OnOk result (Appends (S.written out.old) (S.written out.new) text.now) }
    ensures quiet { OnOk result (S.faults out.new ≡ S.faults out.old) }
    ensures failed { OnErr result (HasRisen (S.faults out.old) (S.faults out.new)) }
    ensures front { OnErr result (AppendsPrefix (S.written out.old) (S.written out.new) text.now) }
{
    let mut done = 0;
    while done < text.len() {
        done += out.write_piece(&text[done..])?;
    }
    Ok(())
}

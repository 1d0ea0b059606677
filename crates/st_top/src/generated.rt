// Serves `gen`.
ghost use Rattle.std.specs.Prelude.{◌≡◌, ◌≢◌, ◌≤◌};
ghost use Rattle.st_top.specs.Generated.{EndsGenerated};

use crate::status::Status;
use st_generated_run::generated_line;
use st_outside::{Sink, write_all};
use std::alloc::Global;

/// Writes the line of the generated run of so many rounds.
pub fn serve_generated<S: Sink>(alloc: Global, rounds: u32, out: &mut S) -> Status
    requires { rounds ≤ 512 }
    ensures ends { EndsGenerated rounds (S.faults out.old) (S.faults out.new) (S.written out.old) (S.written out.new) result }
    ensures sink_quiet { result ≢ Status.WriteFault → S.faults out.new ≡ S.faults out.old }
{
    match generated_line(alloc, rounds) {
        Ok(line) => match write_all(out, line.bytes()) {
            Ok(()) => Status::Done,
            Err(_) => Status::WriteFault,
        },
        Err(refusal) => Status::from(refusal),
    }
}

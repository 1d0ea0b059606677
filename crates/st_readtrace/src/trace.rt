ghost use Rattle.std.specs.Prelude.{◌^◌, ◌<◌, length, IfOk};
ghost use Rattle.st_readtrace.specs.Lines.{IsReadAs};

use crate::reader::TraceReader;
use st_base::Sequence;
use st_fields::LineFault;
use st_trace::Entry;
use std::alloc::{AllocError, Global};

/// A printed trace as it is read.
#[derive(Debug, Drop)]
pub struct ReadTrace {
    /// The entries of all lines before the bad line, or of all lines if there is no bad line.
    pub entries: Sequence<Entry>,
    /// The first line that isn't an entry's, counted from 1.
    pub bad: Option<u32>,
}

/// Reads a printed trace, up to the first line that isn't an entry's. The last line may lack its newline.
pub fn read_trace(alloc: Global, text: &[u8]) -> Result<ReadTrace, AllocError>
    requires { length text.now < 2 ^ 32 }
    ensures { IfOk result (IsReadAs text.now) }
{
    let mut reader = TraceReader::new(alloc, text);
    let mut entries = Sequence::new(alloc);
    loop {
        match reader.next_entry(alloc) {
            Ok(Some(entry)) => entries.push(entry)?,
            Ok(None) => return Ok(ReadTrace { entries, bad: None }),
            Err(LineFault::NotInGrammar) => {
                let bad = Some(reader.lines() + 1);
                return Ok(ReadTrace { entries, bad });
            }
            Err(LineFault::NoMemory) => return Err(AllocError),
        }
    }
}

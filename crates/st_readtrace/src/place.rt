ghost use Rattle.std.specs.Prelude.{◌≤◌, length, IfOk};

use crate::entries::read_entry_by;
use st_base::Text;
use st_fields::{Fields, LineFault};
use st_report::append_entry;
use std::alloc::{AllocError, Global};

// How many bytes both texts begin with.
fn common_len(one: &[u8], other: &[u8]) -> usize
    ensures { result ≤ length other.now }
{
    for (index, &byte) in other.iter().enumerate() {
        if index >= one.len() || one[index] != byte {
            return index;
        }
    }
    other.len()
}

/// The place of a fault in a line that is no entry's: the first byte that isn't the printed one of the entry that the line seems to be, or the
/// start of the field that can't be read.
pub fn fault_place(alloc: Global, line: &[u8]) -> Result<usize, AllocError>
    ensures { IfOk result (λ place. place ≤ length line.now) }
{
    let mut fields = Fields::of(line);
    let word = fields.first_word();
    match read_entry_by(alloc, word, &mut fields) {
        Ok(entry) => {
            let mut printed = Text::new(alloc);
            append_entry(alloc, &mut printed, &entry)?;
            Ok(common_len(printed.bytes(), line))
        }
        Err(LineFault::NotInGrammar) => Ok(line.len().saturating_sub(fields.last_len())),
        Err(LineFault::NoMemory) => Err(AllocError),
    }
}

use crate::table::Limits;
use st_base::Text;
use st_diagnostics::line_of;
use st_outside::{MemoryFiles, MemorySink};
use st_top::{Status, systrace_plain};
use std::alloc::{AllocError, Global};

/// How a call ends: its status, the same as a text, what it writes, and the message that reports it.
#[derive(Drop)]
pub struct Ended {
    pub status: Status,
    pub shown: Text,
    pub written: MemorySink,
    pub known: Text,
}

/// The message for words that end with this status, if no file can be read.
pub fn tell_status(alloc: Global, words: &[Text], status: Status) -> Result<Text, AllocError> {
    let mut files = MemoryFiles::new(alloc);
    line_of(alloc, &mut files, words, status)
}

// A status as a text.
fn shown(alloc: Global, status: Status) -> Result<Text, AllocError> {
    let text = format!(in alloc; "= {status:?}")?;
    Text::of(alloc, text.as_bytes())
}

// Sets the limits of a sink's writes.
fn limit(sink: &mut MemorySink, limits: Limits) -> Result<(), AllocError> {
    sink.short_at(limits.short)?;
    sink.fail_at(limits.fail)
}

/// Calls the program with these words over these files.
pub fn call(
    alloc: Global,
    words: &[Text],
    files: &mut MemoryFiles,
    limits: Limits,
) -> Result<Ended, AllocError> {
    let mut written = MemorySink::new(alloc, limits.room)?;
    limit(&mut written, limits)?;
    let status = systrace_plain(alloc, words, files, &mut written);
    Ok(Ended {
        status,
        shown: shown(alloc, status)?,
        known: line_of(alloc, files, words, status)?,
        written,
    })
}

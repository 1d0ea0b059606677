// Runs by threads, and the same runs by `step`.
use st_base::Text;
use st_outside::{MemoryFiles, MemorySink};
use st_report::repeats_text;
use st_top::{Gate, Status, systrace_plain, systrace_run};
use std::alloc::{AllocError, Global};
use std::sync::Wait;
use std::thread::Threads;

// More than any text here has.
const ROOM: u32 = 100_000;
// The name of the file with the schedule.
const MADE: &[u8] = b"made";

/// A run that threads have made: its status, its text, and the schedule that it ended with, as a text.
#[derive(Drop)]
pub struct Made {
    pub status: Status,
    pub written: MemorySink,
    pub schedule: Text,
}

/// Makes the run of these words over these files.
pub fn make<G: Gate + Sync, T: Threads + Wait + Sync>(
    rt: &T,
    alloc: Global,
    words: &[Text],
    files: &mut MemoryFiles,
    gate: &G,
) -> Result<Made, AllocError> {
    let mut written = MemorySink::new(alloc, ROOM)?;
    let ended = systrace_run(rt, alloc, words, files, &mut written, gate);
    Ok(Made {
        status: ended.status,
        written,
        schedule: repeats_text(alloc, ended.schedule.choices.as_slice())?,
    })
}

// The words of `step` for those of `run`.
fn words_of_step(alloc: Global, words: &[Text]) -> Result<Vec<Text>, AllocError> {
    let mut all = Vec::new(alloc);
    all.push(Text::of(alloc, b"step")?)?;
    for word in words.iter().skip(1) {
        all.push(word.copy(alloc)?)?;
    }
    all.push(Text::of(alloc, MADE)?)?;
    Ok(all)
}

// Whether `step` ends with the same status and writes the same as a run, by its schedule and then these lines.
fn is_same_by(
    alloc: Global,
    words: &[Text],
    files: &mut MemoryFiles,
    made: &Made,
    lines: &[u8],
) -> Result<bool, AllocError> {
    let mut schedule = made.schedule.copy(alloc)?;
    schedule.append(lines)?;
    files.add(Text::of(alloc, MADE)?, schedule)?;
    let words = words_of_step(alloc, words)?;
    let mut written = MemorySink::new(alloc, ROOM)?;
    let status = systrace_plain(alloc, words.as_slice(), files, &mut written);
    Ok(status == made.status && written.bytes() == made.written.bytes())
}

/// Whether `step` makes the same run by its schedule, also if `rest` follows.
pub fn is_played_again(
    alloc: Global,
    words: &[Text],
    files: &mut MemoryFiles,
    made: &Made,
) -> Result<bool, AllocError> {
    Ok(
        is_same_by(alloc, words, files, made, b"")?
            && is_same_by(alloc, words, files, made, b"rest\n")?,
    )
}

ghost use Rattle.std.specs.Prelude.{◌+◌, ◌<◌, ◌^◌, Some, length, IfOk};
ghost use Rattle.st_reached.specs.Runnable.{CanRun};
ghost use Rattle.st_readtrace.specs.Lines.{IsLineOf};
ghost use Rattle.st_written.specs.Written.{IsEntry};
ghost use Rattle.st_trace_replay.specs.Replayed.{IsReplayed};
ghost use Rattle.st_trace_replay.specs.Steps.{IsCompared, IsNextLine};

use crate::mover::mover_of_line;
use st_base::{Text, is_same_text};
use st_fields::LineFault;
use st_law::Input;
use st_readtrace::TraceReader;
use st_replay::Replay;
use st_report::append_entry;
use st_same::is_same_entry;
use st_trace::Entry;
use st_written::is_written;
use std::alloc::{AllocError, Global};

/// What the next line of a printed trace is.
#[derive(Clone, Copy, Debug, PartialEq, Eq)]
pub enum NextLine {
    /// The line of an entry that is lawful after those before it.
    Lawful,
    /// This line, from 1, is no entry's, or its entry isn't lawful after those before it.
    Unlawful(u32),
    /// There is no line any more.
    End,
}

// Compares the next line with the one of the entry that the machine added, which is printed into a text that is kept for this.
fn compare_line(
    alloc: Global,
    reader: &mut TraceReader<'_>,
    line: &[u8],
    printed: &mut Text,
    added: &Entry,
) -> Result<NextLine, AllocError>
    requires lines { reader.old.lines + 1 < 2 ^ 32 }
    requires line { IsLineOf (Some line.now) reader.old.text }
    requires written { IsEntry added.now }
    ensures { IfOk result (λ next. IsCompared next reader.old reader.new added.now) }
{
    printed.truncate(0);
    append_entry(alloc, printed, added)?;
    if is_same_text(printed.bytes(), line) {
        reader.skip_line(line);
        Ok(NextLine::Lawful)
    } else {
        Ok(NextLine::Unlawful(reader.lines() + 1))
    }
}

// Compares the entry that the next line is with the one that the machine added.
fn compare_entry(
    alloc: Global,
    reader: &mut TraceReader<'_>,
    added: &Entry,
) -> Result<NextLine, AllocError>
    requires { reader.old.lines + 1 < 2 ^ 32 }
    ensures { IfOk result (λ next. IsCompared next reader.old reader.new added.now) }
{
    match reader.next_entry(alloc) {
        Ok(Some(entry)) => {
            if is_same_entry(&entry, added) {
                Ok(NextLine::Lawful)
            } else {
                Ok(NextLine::Unlawful(reader.lines()))
            }
        }
        Ok(None) => Ok(NextLine::End),
        Err(LineFault::NotInGrammar) => Ok(NextLine::Unlawful(reader.lines() + 1)),
        Err(LineFault::NoMemory) => Err(AllocError),
    }
}

// Replays the next line: the machine makes the choice that its first words tell, and the line is compared with the one of the entry that this
// adds. So no line is read as an entry, unless what the machine adds can't be printed as an entry's line.
fn replay_line(
    alloc: Global,
    reader: &mut TraceReader<'_>,
    replay: &mut Replay<'_>,
    printed: &mut Text,
    added: &mut Option<Entry>,
) -> Result<NextLine, AllocError>
    requires { reader.old.lines + 1 < 2 ^ 32 }
    ensures { IfOk result (λ next. IsNextLine next reader.old reader.new replay.old replay.new) }
{
    let Some(line) = reader.line() else {
        return Ok(NextLine::End);
    };
    let mover = match mover_of_line(line) {
        Ok(mover) => mover,
        Err(LineFault::NotInGrammar) => return Ok(NextLine::Unlawful(reader.lines() + 1)),
        Err(LineFault::NoMemory) => return Err(AllocError),
    };
    replay.advance(alloc, mover, added)?;
    match &*added {
        Some(entry) => {
            if is_written(entry) {
                compare_line(alloc, reader, line, printed, entry)
            } else {
                compare_entry(alloc, reader, entry)
            }
        }
        None => Ok(NextLine::Unlawful(reader.lines() + 1)),
    }
}

/// The first line of a printed trace, from 1, that is no entry's, or whose entry isn't lawful after those before it; none if the trace is
/// lawful. The last line may lack its newline.
pub fn first_unlawful_line(
    alloc: Global,
    input: &Input,
    text: &[u8],
) -> Result<Option<u32>, AllocError>
    requires can_run { CanRun input.now }
    requires within { length text.now < 2 ^ 32 }
    ensures { IfOk result (IsReplayed input.now text.now) }
{
    let mut reader = TraceReader::new(alloc, text);
    let mut replay = Replay::start(alloc, input)?;
    let mut printed = Text::new(alloc);
    // The entry of the last step. It stays here, so that no step drops one.
    let mut added = None;
    loop {
        match replay_line(alloc, &mut reader, &mut replay, &mut printed, &mut added)? {
            NextLine::Lawful => {}
            NextLine::Unlawful(line) => return Ok(Some(line)),
            NextLine::End => return Ok(None),
        }
    }
}

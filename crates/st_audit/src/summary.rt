// The summary of a run: how many calls it has, and how they ended.
ghost use Rattle.std.specs.Prelude.{◌≡◌, ◌+◌, ◌++◌, [], cond, IfOk, OnOk};
ghost use Rattle.st_audit.specs.Summary.{calls_text, count_field, is_call_denied, is_call_entered, is_call_failed, is_call_used, summary_line, summary_of, summary_with};

use st_base::Text;
use st_compile::Compiled;
use st_law::Input;
use st_learn::Session;
use st_report::Recorder;
use st_trace::{CallResult, Entry};
use std::alloc::{AllocError, Global};
use std::marker::Model;

/// How many entries a run has, and how many of them concern calls.
#[derive(Clone, Copy, Debug, PartialEq, Eq)]
pub struct Summary {
    /// Calls that were entered.
    pub calls: u64,
    /// Calls that were made.
    pub used: u64,
    /// Calls that were made and whose result is an error.
    pub failed: u64,
    /// Calls that were denied.
    pub denied: u64,
    /// All entries.
    pub entries: u64,
}

fn is_call_entered(entry: &Entry) -> bool
    ensures { result ≡ is_call_entered entry.now }
{
    match entry {
        Entry::Entered { .. } => true,
        _ => false,
    }
}

fn is_call_used(entry: &Entry) -> bool
    ensures { result ≡ is_call_used entry.now }
{
    match entry {
        Entry::Used { .. } => true,
        _ => false,
    }
}

// Whether an entry is a call that was made with an error as its result.
fn is_call_failed(entry: &Entry) -> bool
    ensures { result ≡ is_call_failed entry.now }
{
    match entry {
        Entry::Used {
            result: CallResult::Failed(_),
            ..
        } => true,
        _ => false,
    }
}

fn is_call_denied(entry: &Entry) -> bool
    ensures { result ≡ is_call_denied entry.now }
{
    match entry {
        Entry::Denied { .. } => true,
        _ => false,
    }
}

// A count with one more entry if the entry is counted. A count that doesn't fit in 64 bits is out of memory.
fn count_with(count: u64, counted: bool) -> Result<u64, AllocError>
    ensures { IfOk result (λ more. more ≡ count + cond counted 1 0) }
{
    if !counted {
        return Ok(count);
    }
    match count.checked_add(1) {
        Some(more) => Ok(more),
        None => Err(AllocError),
    }
}

// The summary with one more entry.
fn summary_with(summary: Summary, entry: &Entry) -> Result<Summary, AllocError>
    ensures { IfOk result (λ more. more ≡ summary_with summary entry.now) }
{
    Ok(Summary {
        calls: count_with(summary.calls, is_call_entered(entry))?,
        used: count_with(summary.used, is_call_used(entry))?,
        failed: count_with(summary.failed, is_call_failed(entry))?,
        denied: count_with(summary.denied, is_call_denied(entry))?,
        entries: count_with(summary.entries, true)?,
    })
}

// Appends a word and a count.
fn append_count(text: &mut Text, word: &[u8], count: u64) -> Result<(), AllocError>
    ensures { OnOk result (text.new ≡ text.old ++ count_field word.now count) }
{
    text.append(word)?;
    text.push(b' ')?;
    text.append_number(count)
}

// The text of a summary up to the calls that were denied.
fn calls_text(alloc: Global, summary: Summary) -> Result<Text, AllocError>
    ensures { IfOk result (λ text. text ≡ calls_text summary) }
{
    let mut text = Text::new(alloc);
    append_count(&mut text, b"calls", summary.calls)?;
    append_count(&mut text, b" used", summary.used)?;
    append_count(&mut text, b" failed", summary.failed)?;
    append_count(&mut text, b" denied", summary.denied)?;
    Ok(text)
}

/// Records the summary of a run. It takes the same memory for each run.
#[derive(Debug, Drop)]
pub struct SummaryRecorder {
    summary: Summary,
}

impl Model for SummaryRecorder {
    ghost use Rattle.st_audit.specs.declared.summary.Summary.{Summary};

    ghost Value = { Summary };

    ghost view = { λ recorder. recorder.summary };
}

impl SummaryRecorder {
    /// The summary of no entries.
    pub fn new() -> Self
        ensures { result ≡ summary_of [] }
    {
        SummaryRecorder {
            summary: Summary {
                calls: 0,
                used: 0,
                failed: 0,
                denied: 0,
                entries: 0,
            },
        }
    }

    /// The summary as a line of text.
    pub fn text(&self, alloc: Global) -> Result<Text, AllocError>
        ensures { IfOk result (λ text. text ≡ summary_line self.now) }
    {
        let mut text = calls_text(alloc, self.summary)?;
        append_count(&mut text, b" entries", self.summary.entries)?;
        text.push(b'\n')?;
        Ok(text)
    }
}

impl Recorder for SummaryRecorder {
    ghost has_noted = { λ summary _ trace. summary ≡ summary_of trace };

    fn note(
        &mut self,
        _alloc: Global,
        _input: &Input,
        _compiled: &Compiled<'_>,
        _session: &Session,
        entry: &Entry,
    ) -> Result<(), AllocError> {
        self.summary = summary_with(self.summary, entry)?;
        Ok(())
    }
}

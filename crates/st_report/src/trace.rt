ghost use Rattle.std.specs.Prelude.{◌≡◌, ◌++◌, [], List, IfOk};
ghost use Rattle.st_report.specs.TraceText.{trace_text};
ghost use Rattle.st_trace.specs.declared.entry.Entry.{Entry};

use crate::entry::append_entry;
use crate::recorder::Recorder;
use st_base::Text;
use st_compile::Compiled;
use st_law::Input;
use st_learn::Session;
use st_trace::Entry;
use std::alloc::{AllocError, Global};
use std::marker::Model;

/// Records the text of a trace. Each entry adds one line.
#[derive(Debug, Drop)]
pub struct TraceRecorder {
    text: Text,
}

impl Model for TraceRecorder {
    ghost use Rattle.std.specs.Prelude.{ℕ, List};

    ghost Value = { List ℕ };

    ghost view = { λ recorder. recorder.text };
}

impl TraceRecorder {
    /// The text of no entries, which takes no memory.
    pub fn new(alloc: Global) -> Self
        ensures { result ≡ [] }
    {
        TraceRecorder {
            text: Text::new(alloc),
        }
    }

    /// The text of the entries that were recorded.
    pub fn into_text(self) -> Text
        ensures { result ≡ self }
    {
        self.text
    }
}

impl Recorder for TraceRecorder {
    ghost has_noted = { λ text _ trace. text ≡ trace_text trace };

    fn note(
        &mut self,
        alloc: Global,
        _input: &Input,
        _compiled: &Compiled<'_>,
        _session: &Session<'_>,
        entry: &Entry,
    ) -> Result<(), AllocError> {
        append_entry(alloc, &mut self.text, entry)?;
        self.text.push(b'\n')
    }
}

/// The text of a longer trace is that of its prefix followed by that of the rest.
pub fn a_trace_is_printed_in_order()
    ensures { (front rest : List Entry) → trace_text (front ++ rest) ≡ trace_text front ++ trace_text rest }
{}

// Plays the lines of a schedule in order.
ghost use Rattle.std.specs.Prelude.{◌≡◌, ℕ, None, Some, OnOk};
ghost use Rattle.st_law.specs.Schedules.{BadLine, Choices, line_played, lines_played, repeated};
ghost use Rattle.st_kernel.specs.Kernel.{played_so_far, trace_of, Continues};

use crate::kernel::{Kernel, StepFault};
use st_law::{ReadSchedule, ScheduleLine, What};
use st_report::{Recorder, Repeat};
use st_trace::Entry;
use std::alloc::Global;
use thiserror::Error;

/// Why a schedule wasn't played to its end.
#[derive(Clone, Copy, Debug, PartialEq, Eq, Drop, Error)]
pub enum PlayFault {
    /// This line, counted from 1, isn't in the grammar, or asks for a choice that isn't enabled when it is played.
    #[error("line {0} can't be played")]
    BadLine(u32),
    #[error("out of memory")]
    NoMemory,
}

impl PlayFault {
    // The fault of a schedule whose line isn't played because of this fault of a step.
    fn at_line(line: u32, fault: StepFault) -> PlayFault
        ensures enabled { fault ≡ StepFault.NotEnabled → result ≡ PlayFault.BadLine line }
        ensures memory { fault ≡ StepFault.NoMemory → result ≡ PlayFault.NoMemory }
    {
        match fault {
            StepFault::NotEnabled => PlayFault::BadLine(line),
            StepFault::NoMemory => PlayFault::NoMemory,
        }
    }
}

impl Kernel<'_> {
    // Makes a choice several times in a row, and gives each entry to the recorder. Each is stored in `added` meanwhile.
    fn repeat<R: Recorder>(
        &mut self,
        alloc: Global,
        repeat: Repeat,
        added: &mut Option<Entry>,
        recorder: &mut R,
    ) -> Result<(), StepFault>
        ensures ok { OnOk result (repeated repeat.times repeat.choice self.old.input (played_so_far self.old) ≡ Some (played_so_far self.new)) }
        ensures not_enabled { result ≡ Err StepFault.NotEnabled → repeated repeat.times repeat.choice self.old.input (played_so_far self.old) ≡ None }
        ensures made { Continues self.old self.new }
        ensures input { self.new.input ≡ self.old.input }
        ensures noted { OnOk result (R.has_noted recorder.old self.old.input (trace_of self.old) → R.has_noted recorder.new self.new.input (trace_of self.new)) }
    {
        for _ in 0..repeat.times {
            self.advance(alloc, repeat.choice, added)?;
            let Some(entry) = &*added else { unreachable!() };
            recorder.note(alloc, self.input(), self.compiled(), self.session(), entry)?;
        }
        Ok(())
    }

    // Plays one line of a schedule.
    fn play_line<R: Recorder>(
        &mut self,
        alloc: Global,
        line: ScheduleLine,
        recorder: &mut R,
    ) -> Result<(), StepFault>
        ensures ok { OnOk result (line_played line.what line.count self.old.input (played_so_far self.old) ≡ Some (played_so_far self.new)) }
        ensures not_enabled { result ≡ Err StepFault.NotEnabled → line_played line.what line.count self.old.input (played_so_far self.old) ≡ None }
        ensures made { Continues self.old self.new }
        ensures input { self.new.input ≡ self.old.input }
        ensures noted { OnOk result (R.has_noted recorder.old self.old.input (trace_of self.old) → R.has_noted recorder.new self.new.input (trace_of self.new)) }
    {
        match line.what {
            What::Choose(choice) => {
                let repeat = Repeat {
                    choice,
                    times: line.count,
                };
                self.repeat(alloc, repeat, &mut None, recorder)
            }
            What::Rest => Ok(self.rest(alloc, recorder)?),
        }
    }

    /// Plays a schedule from the current state on, and gives each entry to the recorder. It ends at the first line that isn't in the
    /// grammar or asks for a choice that isn't enabled when it is played, or when memory runs out. The choices made until then remain.
    pub fn play<R: Recorder>(
        &mut self,
        alloc: Global,
        schedule: &ReadSchedule,
        recorder: &mut R,
    ) -> Result<(), PlayFault>
        ensures ok { OnOk result (lines_played schedule.now.lines schedule.now.bad self.old.input (played_so_far self.old) ≡ Choices self.new.choices) }
        ensures bad_line { (line : ℕ) → result ≡ Err (PlayFault.BadLine line) → lines_played schedule.now.lines schedule.now.bad self.old.input (played_so_far self.old) ≡ BadLine line }
        ensures made { Continues self.old self.new }
        ensures input { self.new.input ≡ self.old.input }
        ensures noted { OnOk result (R.has_noted recorder.old self.old.input (trace_of self.old) → R.has_noted recorder.new self.new.input (trace_of self.new)) }
    {
        for line in schedule.lines.as_slice() {
            self.play_line(alloc, *line, recorder)
                .map_err(|fault| PlayFault::at_line(line.line, fault))?;
        }
        match schedule.bad {
            Some(line) => Err(PlayFault::BadLine(line)),
            None => Ok(()),
        }
    }
}

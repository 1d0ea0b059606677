// Replays a printed trace.
ghost use Rattle.std.specs.Prelude.{◌<◌, ◌^◌, length};
ghost use Rattle.st_reached.specs.Runnable.{CanRun};
ghost use Rattle.st_top.specs.Ends.{ReplayShown};

use crate::status::Status;
use st_base::Text;
use st_law::Input;
use st_trace_replay::first_unlawful_line;
use std::alloc::Global;

/// What is written of a printed trace, if it is a lawful trace of this input.
pub fn text_of_replay(alloc: Global, input: &Input, trace: &[u8]) -> Result<Text, Status>
    requires can_run { CanRun input.now }
    requires within { length trace.now < 2 ^ 32 }
    ensures { ReplayShown input.now trace.now result }
{
    match first_unlawful_line(alloc, input, trace)? {
        None => Ok(Text::of(alloc, b"lawful\n")?),
        Some(line) => Err(Status::Illegal(line)),
    }
}

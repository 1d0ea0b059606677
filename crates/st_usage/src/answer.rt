ghost use Rattle.std.specs.Prelude.{◌≡◌, None, IsSome};
ghost use Rattle.st_command.specs.Reading.{command_in, gen_of_words, run_of_words};

use crate::usage::help_text;
use st_base::Text;
use std::alloc::{AllocError, Global};

const VERSION: &str = "systrace 0.1.0\n";

/// What is answered without a command.
#[derive(Clone, Copy)]
pub enum Answer {
    Help,
    Version,
}

/// Which answer words ask for: `--help` or `--version`, as the only word.
pub fn answer_of(words: &[Text]) -> Option<Answer>
    ensures no_command { IsSome result → command_in words.now ≡ None }
    ensures no_run { IsSome result → run_of_words words.now ≡ None }
    ensures no_gen { IsSome result → gen_of_words words.now ≡ None }
{
    let [word] = words else {
        return None;
    };
    if word.bytes() == b"--help".as_slice() {
        Some(Answer::Help)
    } else if word.bytes() == b"--version".as_slice() {
        Some(Answer::Version)
    } else {
        None
    }
}

/// What an answer prints.
pub fn answer_text(alloc: Global, answer: Answer) -> Result<Text, AllocError> {
    match answer {
        Answer::Help => help_text(alloc),
        Answer::Version => Text::of(alloc, VERSION.as_bytes()),
    }
}

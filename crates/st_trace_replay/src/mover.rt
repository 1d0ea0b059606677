ghost use Rattle.std.specs.Prelude.{◌≡◌};
ghost use Rattle.st_fields.specs.Reads.{Gives};
ghost use Rattle.st_trace_replay.specs.Movers.{tells_thread, tells_worker, tells_number, tells_operator, mover_by, mover_of_line};

use st_base::is_same_text;
use st_fields::{Fields, LineFault};
use st_replay::Mover;

// Whether a line that begins with this word is that of a thread's entry.
fn tells_thread(word: &[u8]) -> bool
    ensures { result ≡ tells_thread word.now }
{
    is_same_text(word, b"stored")
        || is_same_text(word, b"entered")
        || is_same_text(word, b"used")
        || is_same_text(word, b"denied")
        || is_same_text(word, b"ended")
        || is_same_text(word, b"reloaded")
}

// Whether a line that begins with this word names a worker.
fn tells_worker(word: &[u8]) -> bool
    ensures { result ≡ tells_worker word.now }
{
    is_same_text(word, b"claimed") || is_same_text(word, b"answered")
}

// Whether a line that begins with this word names the number that a worker is at.
fn tells_number(word: &[u8]) -> bool
    ensures { result ≡ tells_number word.now }
{
    is_same_text(word, b"copied") || is_same_text(word, b"looked") || is_same_text(word, b"faulted")
}

// Whether a line that begins with this word is that of the operator's entry.
fn tells_operator(word: &[u8]) -> bool
    ensures { result ≡ tells_operator word.now }
{
    is_same_text(word, b"replied") || is_same_text(word, b"learned")
}

// Who moves by a line, by its first word.
#[tactic(auto, unfolding(crate::specs::Movers::mover_by))]
fn mover_by(word: &[u8], fields: &mut Fields<'_>) -> Result<Mover, LineFault>
    ensures { Gives result (mover_by word.now fields.old) }
{
    if tells_thread(word) {
        let tid = fields.u32()?;
        Ok(Mover::Thread(tid))
    } else if tells_worker(word) {
        let worker = fields.u32()?;
        Ok(Mover::Worker(worker))
    } else if tells_number(word) {
        let seq = fields.u16()?;
        Ok(Mover::Number(seq))
    } else if tells_operator(word) {
        Ok(Mover::Operator)
    } else {
        Err(LineFault::NotInGrammar)
    }
}

/// Who moves by a line: only its first word and the number after it are read.
pub(crate) fn mover_of_line(line: &[u8]) -> Result<Mover, LineFault>
    ensures { Gives result (mover_of_line line.now) }
{
    let mut fields = Fields::of(line);
    let word = fields.first_word();
    mover_by(word, &mut fields)
}

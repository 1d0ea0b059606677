ghost use Rattle.std.specs.Prelude.{◌≡◌, ◌^◌, ◌<◌, length, IfOk};
ghost use Rattle.st_lex.specs.Rows.{rows};
ghost use Rattle.st_schedule.specs.Schedule.{times, schedule_count, asked, thread_line, worker_line, rest_line, schedule_line, schedule_lines, schedule_in};

use st_base::Sequence;
use st_law::{MOST_TIMES, ReadSchedule, ScheduleLine, What};
use st_lex::{Token, next_row, tokens};
use st_statements::lines::{line_of_fault, line_of_row, looked_at, saturated};
use st_statements::values::number_at;
use st_trace::Choice;
use std::alloc::{AllocError, Global};

fn times(number: u64) -> Option<u32>
    ensures { result ≡ times number }
{
    if 1 <= number && number <= u64::from(MOST_TIMES) {
        Some(number as u32)
    } else {
        None
    }
}

// The count that the tokens spell; once, if there is none.
fn count_in(text: &[u8], count: &[Token]) -> Option<u32>
    ensures { result ≡ schedule_count text.now count.now }
{
    match count {
        [] => Some(1),
        [count] => times(number_at(text, count)?),
        _ => None,
    }
}

fn asked(text: &[u8], line: u32, what: What, count: &[Token]) -> Option<ScheduleLine>
    ensures { result ≡ asked text.now line what count.now }
{
    let count = count_in(text, count)?;
    Some(ScheduleLine { what, count, line })
}

fn thread_line(text: &[u8], line: u32, more: &[Token]) -> Option<ScheduleLine>
    ensures { result ≡ thread_line text.now line more.now }
{
    let [number, count @ ..] = more else {
        return None;
    };
    let thread = saturated(number_at(text, number)?);
    asked(text, line, What::Choose(Choice::Thread(thread)), count)
}

fn worker_line(text: &[u8], line: u32, more: &[Token]) -> Option<ScheduleLine>
    ensures { result ≡ worker_line text.now line more.now }
{
    let [number, count @ ..] = more else {
        return None;
    };
    let worker = saturated(number_at(text, number)?);
    asked(text, line, What::Choose(Choice::Worker(worker)), count)
}

fn rest_line(line: u32, more: &[Token]) -> Option<ScheduleLine>
    ensures { result ≡ rest_line line more.now }
{
    if more.is_empty() {
        Some(ScheduleLine {
            what: What::Rest,
            count: 1,
            line,
        })
    } else {
        None
    }
}

/// The line of a schedule that a row spells: `thread N [COUNT]`, `worker N [COUNT]`, `operator [COUNT]`, or `rest`. A number of more than
/// 32 bits becomes the largest of 32 bits, which no thread and no worker has.
pub fn schedule_line(text: &[u8], row: &[Token]) -> Option<ScheduleLine>
    ensures { result ≡ schedule_line text.now row.now }
{
    let [keyword, more @ ..] = row else {
        return None;
    };
    if keyword.is_keyword(text, b"thread") {
        thread_line(text, keyword.line, more)
    } else if keyword.is_keyword(text, b"worker") {
        worker_line(text, keyword.line, more)
    } else if keyword.is_keyword(text, b"operator") {
        asked(text, keyword.line, What::Choose(Choice::Operator), more)
    } else if keyword.is_keyword(text, b"rest") {
        rest_line(keyword.line, more)
    } else {
        None
    }
}

// The lines up to the first that isn't in the grammar. If all are in it, the bad line is the given one, if any.
fn schedule_lines(
    alloc: Global,
    text: &[u8],
    bad: Option<u32>,
    tokens: &[Token],
) -> Result<ReadSchedule, AllocError>
    ensures { IfOk result (λ schedule. schedule ≡ schedule_lines text.now bad (rows tokens.now)) }
{
    let mut lines = Sequence::new(alloc);
    let mut rest = tokens;
    while let Some((row, following)) = next_row(rest) {
        let Some(line) = schedule_line(text, row) else {
            let bad = Some(line_of_row(row));
            return Ok(ReadSchedule { lines, bad });
        };
        lines.push(line)?;
        rest = following;
    }
    Ok(ReadSchedule { lines, bad })
}

/// The schedule of a text: its lines up to the first that isn't in the grammar, and the number of that line.
pub fn read_schedule(alloc: Global, text: &[u8]) -> Result<ReadSchedule, AllocError>
    requires { length text.now < 2 ^ 32 }
    ensures { IfOk result (λ schedule. schedule ≡ schedule_in text.now) }
{
    let lexed = tokens(alloc, text)?;
    let bad = line_of_fault(text, lexed.fault);
    schedule_lines(alloc, text, bad, looked_at(&lexed))
}

ghost use Rattle.std.specs.Prelude.{◌≡◌, ◌++◌, IfOk, OnOk};
ghost use Rattle.std.specs.List.{flat_map, range_with_len};
ghost use Rattle.st_generator.specs.Script.{access_line, directory_asked, file_asked, file_row, generated_script, put_line, round_lines, rounds_lines, thread_lines};

use st_base::Text;
use std::alloc::{AllocError, Global};

// Appends the row of a file in `/pub`.
fn append_file(text: &mut Text, number: u64) -> Result<(), AllocError>
    ensures { OnOk result (text.new ≡ text.old ++ file_row number) }
{
    text.append(b"file \"/pub/f")?;
    text.append_number(number)?;
    text.append(b"\" 0 0 644 \"x\"\n")
}

// Appends the rows of the five files.
fn append_files(text: &mut Text) -> Result<(), AllocError>
    ensures { OnOk result (text.new ≡ text.old ++ flat_map file_row (range_with_len 0 5)) }
{
    for number in 0..5 {
        append_file(text, number)?;
    }
    Ok(())
}

// The directory of the file that a thread asks for in a round: each third time the one that isn't there for it.
fn directory_asked(thread: u32, round: u32) -> &'static [u8]
    ensures { result.now ≡ directory_asked thread round }
{
    if (u64::from(round) + u64::from(thread)) % 3 == 0 {
        b"sec"
    } else {
        b"pub"
    }
}

// Appends the name of the file that a thread asks for in a round.
fn append_file_asked(text: &mut Text, thread: u32, round: u32) -> Result<(), AllocError>
    ensures { OnOk result (text.new ≡ text.old ++ file_asked thread round) }
{
    text.push(b'/')?;
    text.append(directory_asked(thread, round))?;
    text.append(b"/f")?;
    text.append_number((7 * u64::from(round) + u64::from(thread)) % 10)
}

// Appends the line that stores the name of the file of a round in the thread's memory.
fn append_put(text: &mut Text, thread: u32, round: u32) -> Result<(), AllocError>
    ensures { OnOk result (text.new ≡ text.old ++ put_line thread round) }
{
    text.append(b"put ")?;
    text.append_number(64 * u64::from(thread))?;
    text.append(b" \"")?;
    append_file_asked(text, thread, round)?;
    text.append(b"\"\n")
}

// Appends the line that asks whether the thread may read that file.
fn append_access(text: &mut Text, thread: u32) -> Result<(), AllocError>
    ensures { OnOk result (text.new ≡ text.old ++ access_line thread) }
{
    text.append(b"call access ")?;
    text.append_number(64 * u64::from(thread))?;
    text.append(b" 4\n")
}

// Appends a thread's lines of one round.
fn append_round(text: &mut Text, thread: u32, round: u32) -> Result<(), AllocError>
    ensures { OnOk result (text.new ≡ text.old ++ round_lines thread round) }
{
    append_put(text, thread, round)?;
    append_access(text, thread)
}

// Appends a thread's lines of all rounds.
fn append_rounds(text: &mut Text, rounds: u32, thread: u32) -> Result<(), AllocError>
    ensures { OnOk result (text.new ≡ text.old ++ rounds_lines rounds thread) }
{
    for round in 0..rounds {
        append_round(text, thread, round)?;
    }
    Ok(())
}

// Appends a thread.
fn append_thread(text: &mut Text, rounds: u32, thread: u32) -> Result<(), AllocError>
    ensures { OnOk result (text.new ≡ text.old ++ thread_lines rounds thread) }
{
    text.append(b"thread t")?;
    text.append_number(u64::from(thread))?;
    text.append(b" in g\n")?;
    append_rounds(text, rounds, thread)?;
    text.append(b"end\n")
}

// Appends the four threads.
fn append_threads(text: &mut Text, rounds: u32) -> Result<(), AllocError>
    ensures { OnOk result (text.new ≡ text.old ++ flat_map (thread_lines rounds) (range_with_len 1 4)) }
{
    for thread in 1..5 {
        append_thread(text, rounds, thread)?;
    }
    Ok(())
}

/// The script of the generated run of so many rounds: four threads of one process, each of which asks for a file in each round.
pub fn gen_script(alloc: Global, rounds: u32) -> Result<Text, AllocError>
    ensures { IfOk result (λ text. text ≡ generated_script rounds) }
{
    let mut text = Text::of(alloc, b"dir \"/pub\" 0 0 755\ndir \"/sec\" 0 0 755\n")?;
    append_files(&mut text)?;
    text.append(b"process g traced \"/bin/gen\" 1000 1000 \"/\"\n")?;
    append_threads(&mut text, rounds)?;
    Ok(text)
}

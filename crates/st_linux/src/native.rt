ghost use Rattle.std.specs.Prelude.{◌≡◌, map, IfOk, OnOk, OnErr};
ghost use Rattle.st_linux.specs.Native.{native_instruction, native_registers, native_row, to_native};

use crate::flags::native_flags;
use st_base::Sequence;
use st_calls::SysCall;
use st_trace::{Instr, Start, ThreadRow};
use std::alloc::{AllocError, Global};

// The registers of a call, as the kernel reads them.
fn native_registers(call: SysCall, mut regs: [u64; 6]) -> [u64; 6]
    ensures { result ≡ native_registers call regs }
{
    if let SysCall::Open = call {
        regs[1] = native_flags(regs[1]);
    }
    regs
}

fn native_instruction(instr: Instr) -> Instr
    ensures { result ≡ native_instruction instr }
{
    match instr {
        Instr::Call(call, regs) => Instr::Call(call, native_registers(call, regs)),
        other => other,
    }
}

// The row of a thread, with each instruction made native.
fn native_row(alloc: Global, row: &ThreadRow) -> Result<ThreadRow, AllocError>
    ensures { IfOk result (λ native. native ≡ native_row row.now) }
{
    let mut body = Sequence::with_capacity(alloc, row.body.len())?;
    for instr in row.body.as_slice() {
        body.push(native_instruction(*instr))?;
    }
    Ok(ThreadRow {
        process: row.process,
        body,
    })
}

// The rows of threads, with each instruction made native.
fn native_rows(alloc: Global, rows: &[ThreadRow]) -> Result<Sequence<ThreadRow>, AllocError>
    ensures { IfOk result (λ natives. natives ≡ map native_row rows.now) }
{
    let mut natives = Sequence::with_capacity(alloc, rows.len())?;
    for row in rows {
        natives.push(native_row(alloc, row)?)?;
    }
    Ok(natives)
}

/// Makes the instructions of a start whose opens have flags of Linux native. If out of memory, the start doesn't change.
pub fn to_native(alloc: Global, start: &mut Start) -> Result<(), AllocError>
    ensures ok { OnOk result (start.new ≡ to_native start.old) }
    ensures err { OnErr result (start.new ≡ start.old) }
{
    start.threads = native_rows(alloc, start.threads.as_slice())?;
    Ok(())
}

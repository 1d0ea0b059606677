//! Makes the runs of the tables that its words name by threads, and writes of each whether `step` makes the same run again by the schedule
//! that it ended with.
#![tactic(auto)]

mod again;
mod gate;
mod table;

use crate::table::Table;
use st_base::Text;
use st_outside::{Files, StdFiles, StdSink, write_all};
use std::alloc::{AllocError, Global};
use std::process::ExitCode;
use std::sync::Wait;
use std::thread::Threads;
use std::{env, rt};

// Serves the lines of a table, in order.
fn serve_lines<T: Threads + Wait + Sync>(
    rt: &T,
    table: &mut Table,
    text: &[u8],
) -> Result<(), AllocError> {
    for line in text.split(|byte| *byte == b'\n') {
        table.serve_line(rt, line)?;
    }
    Ok(())
}

// Serves the table of this name; if it can't be read, writes a line that says so.
fn serve_table<T: Threads + Wait + Sync + rt::Files>(
    rt: &T,
    alloc: Global,
    table: &mut Table,
    name: &[u8],
) -> Result<(), AllocError> {
    let name = Text::of(alloc, name)?;
    match StdFiles::new(rt).fetch(alloc, &name) {
        Ok(text) => serve_lines(rt, table, text.bytes()),
        Err(_) => table.write_line(b"no such table"),
    }
}

// The results of the runs of all tables.
fn serve_tables<T: Threads + Wait + Sync + rt::Env + rt::Files + AllocGlobal>(
    rt: &T,
) -> Result<Table, AllocError> {
    let mut table = Table::new(rt.alloc());
    if let Ok(names) = env::args(rt) {
        for name in names.skip(1) {
            serve_table(rt, rt.alloc(), &mut table, name.as_bytes())?;
        }
    }
    Ok(table)
}

fn main(rt: HostRuntime) -> ExitCode {
    match serve_tables(&rt) {
        Ok(table) => match write_all(&mut StdSink::new(&rt), table.written()) {
            Ok(()) => ExitCode::from(0),
            Err(_) => ExitCode::from(6),
        },
        Err(_) => ExitCode::from(7),
    }
}

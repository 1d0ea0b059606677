//! Makes the calls of the tables that its words name, and writes the result of each.
#![tactic(auto)]

mod call;
mod lines;
mod options;
mod statuses;
mod table;

use crate::table::Table;
use st_base::Text;
use st_outside::{Files, StdFiles, StdSink, write_all};
use std::alloc::{AllocError, Global};
use std::process::ExitCode;
use std::{env, rt};

// Serves the lines of a table, in order.
fn serve_lines(table: &mut Table, text: &[u8]) -> Result<(), AllocError> {
    for line in text.split(|byte| *byte == b'\n') {
        table.serve_line(line)?;
    }
    Ok(())
}

// Serves the table of this name; if it can't be read, writes a line that says so.
fn serve_table<R: rt::Files>(
    rt: &R,
    alloc: Global,
    table: &mut Table,
    name: &[u8],
) -> Result<(), AllocError> {
    let name = Text::of(alloc, name)?;
    match StdFiles::new(rt).fetch(alloc, &name) {
        Ok(text) => serve_lines(table, text.bytes()),
        Err(_) => table.write_line(b"no such table"),
    }
}

// The results of the calls of all tables.
fn serve_tables<R: rt::Env + rt::Files + AllocGlobal>(rt: &R) -> Result<Table, AllocError> {
    let mut table = Table::new(rt.alloc());
    if let Ok(names) = env::args(rt) {
        for name in names.skip(1) {
            serve_table(rt, rt.alloc(), &mut table, name.as_bytes())?;
        }
    }
    Ok(table)
}

fn main(rt: HostRuntime) -> ExitCode {
    match serve_tables(&rt) {
        Ok(table) => match write_all(&mut StdSink::new(&rt), table.written()) {
            Ok(()) => ExitCode::from(0),
            Err(_) => ExitCode::from(6),
        },
        Err(_) => ExitCode::from(7),
    }
}

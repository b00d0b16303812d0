// What the program settle does: it reads a tagged file from standard input and the published table from calendar.bin in the
// current folder, and prints the statement, or the one line of a refusal.
#![tactic(auto)]

mod standard_input;

use crate::standard_input::StandardInput;
use calendar::published_table::PublishedTable;
use settlement::whole_file;
use std::process::ExitCode;
use std::{fs, io};

const TABLE: &str = "calendar.bin";

// What cannot be read is a message, and nothing on standard output.
fn unreadable(rt: &impl Eprint, what: &str, error: io::Error) -> anyhow::Result<ExitCode> {
    eprintln!(rt; "settle: {what}: {error}")?;
    Ok(ExitCode::FAILURE)
}

pub fn settle(rt: HostRuntime) -> anyhow::Result<ExitCode> {
    let table = match fs::read(&rt, TABLE) {
        Ok(table) => table,
        Err(error) => return unreadable(&rt, TABLE, error),
    };
    let mut input = StandardInput(rt.stdin());
    match whole_file::settle(PublishedTable::new(&table), &mut input) {
        Ok(Ok(statement)) => {
            print!(rt; "{statement}")?;
            Ok(ExitCode::SUCCESS)
        }
        Ok(Err(fault)) => {
            println!(rt; "{fault}")?;
            Ok(ExitCode::FAILURE)
        }
        Err(error) => unreadable(&rt, "standard input", error),
    }
}

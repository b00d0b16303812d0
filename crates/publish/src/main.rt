// publish: a year's prices from standard input, and their published table to standard output.
#![tactic(auto)]

use anyhow::Context;
use publishing::published;
use std::io::{Read, Write};
use std::process::ExitCode;

fn publish(rt: &HostRuntime) -> anyhow::Result<()> {
    let mut text = Vec::new(rt.alloc());
    rt.stdin().read_to_end(&mut text).context("standard input")?;
    let table = published(&text, rt.alloc())?;
    rt.stdout().write_all(&table).context("standard output")
}

fn main(rt: HostRuntime) -> anyhow::Result<ExitCode> {
    if let Err(error) = publish(&rt) {
        eprintln!(rt; "publish: {error:#}")?;
        return Ok(ExitCode::FAILURE);
    }
    Ok(ExitCode::SUCCESS)
}

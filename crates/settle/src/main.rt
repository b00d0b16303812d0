// settle: a tagged file from standard input, settled by the published table in calendar.bin.
#![tactic(auto)]

use std::process::ExitCode;

fn main(rt: HostRuntime) -> anyhow::Result<ExitCode> {
    terminal::settle(rt)
}

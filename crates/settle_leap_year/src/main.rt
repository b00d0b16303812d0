// settle, run on a whole leap year of eight plants.
// A program of its own, since each is run on the one input that lies beside it.
#![tactic(auto)]

use std::process::ExitCode;

fn main(rt: HostRuntime) -> anyhow::Result<ExitCode> {
    terminal::settle(rt)
}

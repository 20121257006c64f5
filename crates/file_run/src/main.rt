//! The program, whose stored run here is of a machine from a file that gets stuck.
#![tactic(auto)]

use host_run::run_on_host;
use std::io;
use std::process::ExitCode;

fn main(rt: HostRuntime) -> io::Result<ExitCode> {
    run_on_host(rt)
}

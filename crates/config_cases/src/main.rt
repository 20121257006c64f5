//! Reads a configuration from each line, where `|` stands for a line feed, and prints what it means or why it is refused.
#![tactic(auto)]

mod show;

use sim_config::read_config;
use std::alloc::{AllocError, Global};
use std::io;

/// The bytes of a line, with line feeds in place of `|`.
fn config_of(alloc: Global, line: &str) -> Result<Vec<u8>, AllocError> {
    let mut config = Vec::new(alloc);
    for byte in line.as_bytes() {
        config.push(if *byte == b'|' { b'\n' } else { *byte })?;
    }
    Ok(config)
}

fn main(rt: HostRuntime) -> io::Result<()> {
    for line in rt.lines(rt.alloc()) {
        let config = config_of(rt.alloc(), line?.as_str())?;
        match read_config(rt.alloc(), &config) {
            Ok(plan) => show::plan(&rt, &plan)?,
            Err(fault) => println!(rt; "{fault}")?,
        }
    }
    Ok(())
}

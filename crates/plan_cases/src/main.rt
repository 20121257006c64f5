//! Reads a configuration from each line, where `|` stands for a line feed, and prints its plan, or why it has none. In place of the
//! name of a program's file stands the file itself, its bytes in hexadecimal digits.
#![tactic(auto)]

mod show;
#[cfg(test)]
mod tests;

use elf_load::{Image, Segments, load};
use plan_check::build;
use sim_base::Body;
use sim_config::{PlanText, read_config};
use std::alloc::{AllocError, Global};
use std::io;

/// The bytes of a line, with line feeds in place of `|`.
fn config_of(alloc: Global, line: &str) -> Result<Vec<u8>, AllocError> {
    let mut config = Vec::new(alloc);
    for byte in line.as_bytes() {
        config.push(if *byte == b'|' { b'\n' } else { *byte })?;
    }
    Ok(config)
}

/// A program without a segment.
fn no_program(alloc: Global) -> Image {
    Image {
        entry: 0,
        file: Body::of(Vec::new(alloc)),
        segments: Segments::of(Vec::new(alloc)),
    }
}

/// The program of a file whose bytes are spelled in hexadecimal digits; one without a segment where they spell none.
fn image_of(alloc: Global, digits: &[u8]) -> Image {
    match hex::decode(alloc, digits) {
        Ok(file) => match load(alloc, file) {
            Ok(image) => image,
            Err(_) => no_program(alloc),
        },
        Err(_) => no_program(alloc),
    }
}

/// The program of each table in order.
fn images_of(alloc: Global, text: &PlanText) -> Result<Vec<Image>, AllocError> {
    let mut images = Vec::new(alloc);
    for program in text.programs.items() {
        images.push(image_of(alloc, program.file.items()))?;
    }
    Ok(images)
}

fn plan(rt: &(impl Print + AllocGlobal), text: &PlanText) -> io::Result<()> {
    let alloc = rt.alloc();
    let images = images_of(alloc, text)?;
    if images.len() != text.programs.items().len() {
        return println!(rt; "no program for each table");
    }
    match build(alloc, text, &images) {
        Ok(plan) => show::plan(rt, &plan),
        Err(fault) => println!(rt; "{fault}"),
    }
}

fn main(rt: HostRuntime) -> io::Result<()> {
    for line in rt.lines(rt.alloc()) {
        let config = config_of(rt.alloc(), line?.as_str())?;
        match read_config(rt.alloc(), &config) {
            Ok(text) => plan(&rt, &text)?,
            Err(fault) => println!(rt; "config: {fault}")?,
        }
    }
    Ok(())
}

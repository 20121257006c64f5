//! Runs the program's call on the words of cases, and prints the status and what was written to either stream.
//!
//! A line of standard input is one of these; an empty line, and one that begins with `#`, says nothing.
//!
//! | Line | What it asks for |
//! |---|---|
//! | `shared NAME` | a file that is there in all later cases |
//! | `case TITLE` | a case of its own: without the files and failures of the case before |
//! | `file NAME` | a file that is there in this case |
//! | <code>&#124; LINE</code> | this line at the end of the last file |
//! | `hex DIGITS` | these bytes there |
//! | `+ NAME` | the bytes of another file there |
//! | `length N` | the last file cut to N bytes, or its last byte repeated |
//! | `out K`, `err K`, `read K` | the K-th write to this stream, or the K-th reading of a file, fails in each run of this case |
//! | `$ WORDS` | a run of these words, where `''` is the empty word |
#![tactic(auto)]

mod case;

ghost use Rattle.std.specs.Prelude.{◌≡◌, ◌<◌};

use case::Case;
use sim_base::Steps;
use sim_io::{Files, Sink};
use std::alloc::{AllocError, Global};
use std::io;
use std::marker::Brand;
use std::sync::ledger::{Blank, Ledger};
use top_run::{Status, plain};

/// The words of a line, which single spaces part.
fn words_of(alloc: Global, line: &str) -> Result<Vec<String>, AllocError> {
    let mut words = Vec::new(alloc);
    if line.is_empty() {
        return Ok(words);
    }
    for word in line.split(' ') {
        let text = if word == "''" { "" } else { word };
        words.push(String::from_str(alloc, text)?)?;
    }
    Ok(words)
}

fn run<L: Ledger, F: Files, K: Sink, E: Sink>(
    alloc: Global,
    blank: Blank,
    words: &[String],
    files: &mut F,
    out: &mut K,
    err: &mut E,
) -> Status
    requires name { blank.name ≡ L.name }
    requires parts { blank.parts ≡ L.parts }
    requires some { 0 < blank.parts }
{
    let mut steps: Steps<L> = Steps::open(blank);
    plain(alloc, words, files, out, err, &mut steps).unwrap()
}

/// Prints the status of a run, and how many bytes and which were written to standard output and to standard error.
fn print_left(rt: &impl Print, status: Status, out: &[u8], err: &[u8]) -> io::Result<()> {
    let (status, out_len, err_len) = (status.0, out.len(), err.len());
    println!(rt; "status {status}, out {out_len}, err {err_len}")?;
    print!(rt; "{}", std::str::from_utf8(out).unwrap_or("?"))?;
    print!(rt; "{}", std::str::from_utf8(err).unwrap_or("?"))
}

/// Runs these words in a case and prints what came.
fn show(rt: &(impl Print + AllocGlobal), case: &Case, line: &str) -> io::Result<()> {
    let alloc = rt.alloc();
    let words = words_of(alloc, line)?;
    let mut files = case.files(alloc)?;
    let mut out = case.out(alloc)?;
    let mut err = case.err(alloc)?;
    let status = run::<Brand, _, _, _>(
        alloc,
        Blank::new(1),
        &words,
        &mut files,
        &mut out,
        &mut err,
    );
    println!(rt; "$ {line}")?;
    print_left(rt, status, out.bytes(), err.bytes())
}

fn main(rt: HostRuntime) -> io::Result<()> {
    let alloc = rt.alloc();
    let mut case = Case::new(alloc);
    for line in rt.lines(alloc) {
        let line = line?;
        let line = line.as_str();
        let (word, rest) = line.split_once(' ').unwrap_or((line, ""));
        match word {
            "" | "#" => {}
            "case" => {
                case.begin();
                println!(rt; "{line}")?;
            }
            "$" => show(&rt, &case, rest)?,
            _ => case.follow(alloc, word, rest)?,
        }
    }
    Ok(())
}

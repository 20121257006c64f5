ghost use Rattle.std.specs.Prelude.{◌≡◌, ◌<◌};

use sim_base::Steps;
use sim_io::{Files, HostFiles, Sink, Stream};
use std::alloc::Global;
use std::marker::Brand;
use std::process::ExitCode;
use std::sync::ledger::{Blank, Ledger};
use std::{env, io};
use top_run::{Status, plain};

fn run<L: Ledger, F: Files, K: Sink, E: Sink>(
    alloc: Global,
    blank: Blank,
    words: &[String],
    files: &mut F,
    out: &mut K,
    err: &mut E,
) -> Status
    requires name { blank.name ≡ L.name }
    requires parts { blank.parts ≡ L.parts }
    requires some { 0 < blank.parts }
{
    let mut steps: Steps<L> = Steps::open(blank);
    plain(alloc, words, files, out, err, &mut steps).unwrap()
}

/// Runs the program on the host's words, without its own name, over the host's files, standard output and standard error. An error is
/// that of words which are not UTF-8 or find no memory.
pub fn run_on_host(rt: HostRuntime) -> io::Result<ExitCode> {
    let alloc = rt.alloc();
    let mut args = env::args(&rt)?;
    args.next();
    let words: Vec<String> = args.collect(alloc)?;
    let mut files = HostFiles::of(&rt);
    let mut out = Stream::of(rt.stdout());
    let mut err = Stream::of(rt.stderr());
    let status = run::<Brand, _, _, _>(
        alloc,
        Blank::new(1),
        &words,
        &mut files,
        &mut out,
        &mut err,
    );
    Ok(ExitCode::from(status.0))
}

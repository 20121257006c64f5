//! Reads a question and a configuration from each line, `T QUERY;CONFIG` with `|` for a line feed, runs the machine up to time T and
//! prints the body at the boundary behind it, or why there is none.
#![tactic(auto)]

ghost use Rattle.std.specs.Prelude.{◌≡◌, ◌<◌};

use elf_load::Image;
use part_kind::{LinkKind, Part};
use plan_check::build;
use plan_show::{Question, Unknown, query_of, show_plan};
use sim_base::{Body, OutOfMemory, Steps, Time};
use sim_config::{PlanText, read_config};
use std::alloc::{AllocError, Global};
use std::io;
use std::marker::Brand;
use std::sync::ledger::{Blank, Ledger};
use tick_law::Plan;
use world_query::Directory;

/// What a line asks: the time up to which its machine runs, in picoseconds, and the question.
#[derive(Drop)]
struct Asked {
    until: u64,
    question: Question,
}

/// What a line gives.
#[derive(Drop)]
enum Given {
    Body(Body),
    /// The machine has no such part or field.
    Unknown(Unknown),
    /// The line is not of this form, or its configuration is refused.
    Refused,
}

/// The bytes of a configuration, with line feeds in place of `|`.
fn config_of(alloc: Global, line: &str) -> Result<Vec<u8>, AllocError> {
    let mut config = Vec::new(alloc);
    for byte in line.as_bytes() {
        config.push(if *byte == b'|' { b'\n' } else { *byte })?;
    }
    Ok(config)
}

fn name_of(alloc: Global, word: Option<&str>) -> Result<Body, AllocError> {
    let text = Vec::from_slice(alloc, word.unwrap_or("").as_bytes())?;
    Ok(Body::of(text))
}

/// The question of these words, if they are one.
fn question_of(
    alloc: Global,
    word: &str,
    first: Option<&str>,
    second: Option<&str>,
) -> Result<Option<Question>, AllocError> {
    Ok(match word {
        "now" => Some(Question::Now),
        "parts" => Some(Question::Parts),
        "part" => Some(Question::Part(name_of(alloc, first)?)),
        "field" => Some(Question::Field(name_of(alloc, first)?, name_of(alloc, second)?)),
        "buffers" => Some(Question::Buffers),
        "progress" => Some(Question::Progress),
        "stuck" => Some(Question::Stuck),
        _ => None,
    })
}

fn asked_of(alloc: Global, head: &str) -> Result<Option<Asked>, AllocError> {
    let mut words = head.split(' ');
    let until = words.next().unwrap_or("").parse::<u64>();
    let (word, first, second) = (words.next().unwrap_or(""), words.next(), words.next());
    let question = question_of(alloc, word, first, second)?;
    match (until, question) {
        (Ok(until), Some(question)) if until <= 500_000_000_000 => {
            Ok(Some(Asked { until, question }))
        }
        _ => Ok(None),
    }
}

/// The plan of a configuration without programs, with this greatest time.
fn plan_of(alloc: Global, text: PlanText, until: u64) -> Option<Plan<Part, LinkKind>> {
    if !text.programs.items().is_empty() || until > 500_000_000_000 {
        return None;
    }
    let images: Vec<Image> = Vec::new(alloc);
    let text = PlanText {
        until: Time(until),
        ..text
    };
    build(alloc, &text, &images).ok()
}

fn shown<L: Ledger>(
    alloc: Global,
    blank: Blank,
    plan: Plan<Part, LinkKind>,
    question: &Question,
) -> Result<Given, OutOfMemory>
    requires name { blank.name ≡ L.name }
    requires parts { blank.parts ≡ L.parts }
    requires some { 0 < blank.parts }
{
    let directory = Directory::open(alloc, &plan)?;
    let query = match query_of(&directory, question) {
        Ok(query) => query,
        Err(unknown) => return Ok(Given::Unknown(unknown)),
    };
    let mut steps = Steps::<L>::open(blank);
    Ok(Given::Body(show_plan(alloc, plan, &query, &mut steps)?))
}

/// What is answered to a line.
fn answer_to(alloc: Global, line: &str) -> Result<Given, OutOfMemory> {
    let Some((head, config)) = line.split_once(';') else {
        return Ok(Given::Refused);
    };
    let Some(asked) = asked_of(alloc, head)? else {
        return Ok(Given::Refused);
    };
    let Ok(text) = read_config(alloc, &config_of(alloc, config)?) else {
        return Ok(Given::Refused);
    };
    match plan_of(alloc, text, asked.until) {
        Some(plan) => shown::<Brand>(alloc, Blank::new(1), plan, &asked.question),
        None => Ok(Given::Refused),
    }
}

fn main(rt: HostRuntime) -> io::Result<()> {
    for line in rt.lines(rt.alloc()) {
        match answer_to(rt.alloc(), line?.as_str()) {
            Ok(Given::Body(body)) => {
                println!(rt; "{}", std::str::from_utf8(body.items()).unwrap_or("?"))?
            }
            Ok(Given::Unknown(unknown)) => println!(rt; "unknown {unknown:?}")?,
            Ok(Given::Refused) => println!(rt; "refused")?,
            Err(_) => println!(rt; "no memory")?,
        }
    }
    Ok(())
}

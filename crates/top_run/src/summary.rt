ghost use Rattle.std.specs.Prelude.{◌≡◌, ◌%◌, ◌^◌, sum_by};
ghost use Rattle.state_view.specs.Report.{verdict_word};
ghost use Rattle.top_run.specs.Summary.{answered_by, moved_by, read_by, summary_of};

use itoa::Buffer;
use part_kind::{LinkKind, Part};
use state_view::RunEnd;
use tick_law::Verdict;
use trace_out::{Line, add};

/// How many requests of a part were answered, if it is an agent.
fn answered_by(part: &Part) -> u32
    ensures { result ≡ answered_by part.now }
{
    match part {
        Part::Agent(agent) => agent.answered(),
        Part::Relay(_) | Part::Memory(_) | Part::Core(_) | Part::Cache(_) => 0,
    }
}

/// The sum of the words that a part has read, modulo 2^32, if it is an agent.
fn read_by(part: &Part) -> u32
    ensures { result ≡ read_by part.now }
{
    match part {
        Part::Agent(agent) => agent.sum(),
        Part::Relay(_) | Part::Memory(_) | Part::Core(_) | Part::Cache(_) => 0,
    }
}

/// How many messages a link has moved.
fn moved_by(link: &LinkKind) -> u64
    ensures { result ≡ moved_by link.now }
{
    match link {
        LinkKind::Direct(direct) => direct.moved(),
    }
}

/// How many requests of the agents among these parts were answered.
fn answered(parts: &[Part]) -> u128
    ensures { result ≡ sum_by answered_by parts.now }
{
    let mut total: u128 = 0;
    for part in parts {
        total += u128::from(answered_by(part));
    }
    total
}

/// The sum of the words that the agents among these parts have read, modulo 2^32.
fn words_read(parts: &[Part]) -> u32
    ensures { result ≡ sum_by read_by parts.now % 2 ^ 32 }
{
    let mut total: u128 = 0;
    for part in parts {
        total += u128::from(read_by(part));
    }
    (total % 4_294_967_296) as u32
}

/// How many messages these links have moved.
fn moved(links: &[LinkKind]) -> u128
    ensures { result ≡ sum_by moved_by links.now }
{
    let mut total: u128 = 0;
    for link in links {
        total += u128::from(moved_by(link));
    }
    total
}

fn verdict_word(verdict: Verdict) -> &'static [u8]
    ensures { result.now ≡ verdict_word verdict }
{
    match verdict {
        Verdict::Finished => b"finished",
        Verdict::Stuck => b"stuck",
        Verdict::Cut => b"cut",
    }
}

/// The summary of a storm of so many agents: how its run ended, and what its parts and links have counted. It takes no memory.
pub fn summary_of(agents: u32, run: RunEnd, parts: &[Part], links: &[LinkKind]) -> Line
    ensures { result.items ≡ summary_of agents run parts.now links.now }
{
    let mut digits = Buffer::new();
    let mut lines = Line::new();
    add(&mut lines, b"storm ");
    add(&mut lines, digits.format(agents).as_bytes());
    add(&mut lines, b"\nverdict ");
    add(&mut lines, verdict_word(run.verdict));
    add(&mut lines, b"\nend ");
    add(&mut lines, digits.format(run.end.0).as_bytes());
    add(&mut lines, b"\nanswered ");
    add(&mut lines, digits.format(answered(parts)).as_bytes());
    add(&mut lines, b"\nmoved ");
    add(&mut lines, digits.format(moved(links)).as_bytes());
    add(&mut lines, b"\nsum ");
    add(&mut lines, digits.format(words_read(parts)).as_bytes());
    add(&mut lines, b"\n");
    lines
}

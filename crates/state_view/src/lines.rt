ghost use Rattle.std.specs.Prelude.{◌≡◌, ◌++◌, OnOk};
ghost use Rattle.state_view.specs.Report.{verdict_word, done_word, head_lines, relay_line, agent_line, memory_line, cause_word, core_counts, core_line, cache_counts, cache_line, direct_counts, direct_line, part_line, link_line};

use crate::run_end::RunEnd;
use crate::text::Text;
use cache_comp::Cache;
use direct_link::Direct;
use mem_ctrl::Memory;
use part_kind::{LinkKind, Part};
use port_msg::Cause;
use rv_core::Core;
use sim_base::{Name, OutOfMemory};
use tick_law::{Actor, Verdict};
use trace_out::{Line, add_cause};
use traffic_parts::{Agent, Relay};

fn verdict_word(verdict: Verdict) -> &'static [u8]
    ensures { result.now ≡ verdict_word verdict }
{
    match verdict {
        Verdict::Finished => b"finished",
        Verdict::Stuck => b"stuck",
        Verdict::Cut => b"cut",
    }
}

fn done_word(done: bool) -> &'static [u8]
    ensures { result.now ≡ done_word done }
{
    if done { b"done" } else { b"busy" }
}

/// The lines `verdict V`, `end T` and `budget B`.
pub fn put_head(text: &mut Text, run: RunEnd) -> Result<(), OutOfMemory>
    ensures { OnOk result (text.new ≡ text.old ++ head_lines run) }
{
    text.put(b"verdict ")?;
    text.put(verdict_word(run.verdict))?;
    text.put(b"\nend ")?;
    text.number(run.end.0)?;
    text.put(b"\nbudget ")?;
    text.number(run.budget.0)?;
    text.put(b"\n")
}

fn put_relay(text: &mut Text, name: &Name, relay: &Relay) -> Result<(), OutOfMemory>
    ensures { OnOk result (text.new ≡ text.old ++ relay_line name.now relay.now) }
{
    text.put(b"part ")?;
    text.put(name.text())?;
    text.put(b" relay ")?;
    text.put(done_word(relay.done()))?;
    text.put(b" sent ")?;
    text.number(relay.sent())?;
    text.put(b" ended ")?;
    text.number(relay.ended())?;
    text.put(b"\n")
}

fn put_agent(text: &mut Text, name: &Name, agent: &Agent) -> Result<(), OutOfMemory>
    ensures { OnOk result (text.new ≡ text.old ++ agent_line name.now agent.now) }
{
    text.put(b"part ")?;
    text.put(name.text())?;
    text.put(b" agent ")?;
    text.put(done_word(agent.done()))?;
    text.put(b" issued ")?;
    text.small_number(agent.issued())?;
    text.put(b" answered ")?;
    text.small_number(agent.answered())?;
    text.put(b" sum ")?;
    text.small_number(agent.sum())?;
    text.put(b"\n")
}

fn put_memory(text: &mut Text, name: &Name, memory: &Memory) -> Result<(), OutOfMemory>
    ensures { OnOk result (text.new ≡ text.old ++ memory_line name.now memory.now) }
{
    text.put(b"part ")?;
    text.put(name.text())?;
    text.put(b" memory ")?;
    text.put(done_word(memory.done()))?;
    text.put(b" served ")?;
    text.number(memory.served())?;
    text.put(b"\n")
}

/// Why a core halted, or `running`.
fn put_cause(text: &mut Text, cause: Option<Cause>) -> Result<(), OutOfMemory>
    ensures { OnOk result (text.new ≡ text.old ++ cause_word cause) }
{
    let Some(cause) = cause else {
        return text.put(b"running");
    };
    let mut word = Line::new();
    add_cause(&mut word, cause);
    text.put(word.as_slice())
}

fn put_core_counts(text: &mut Text, core: &Core) -> Result<(), OutOfMemory>
    ensures { OnOk result (text.new ≡ text.old ++ core_counts core.now) }
{
    text.put(b" pc ")?;
    text.hex(&core.pc().to_be_bytes())?;
    text.put(b" retired ")?;
    text.number(core.retired())?;
    text.put(b"\n")
}

fn put_core(text: &mut Text, name: &Name, core: &Core) -> Result<(), OutOfMemory>
    ensures { OnOk result (text.new ≡ text.old ++ core_line name.now core.now) }
{
    text.put(b"part ")?;
    text.put(name.text())?;
    text.put(b" core ")?;
    text.put(done_word(core.done()))?;
    text.put(b" ")?;
    put_cause(text, core.cause())?;
    put_core_counts(text, core)
}

fn put_cache_counts(text: &mut Text, cache: &Cache) -> Result<(), OutOfMemory>
    ensures { OnOk result (text.new ≡ text.old ++ cache_counts cache.now) }
{
    text.put(b" hits ")?;
    text.number(cache.hits())?;
    text.put(b" misses ")?;
    text.number(cache.misses())?;
    text.put(b"\n")
}

fn put_cache(text: &mut Text, name: &Name, cache: &Cache) -> Result<(), OutOfMemory>
    ensures { OnOk result (text.new ≡ text.old ++ cache_line name.now cache.now) }
{
    text.put(b"part ")?;
    text.put(name.text())?;
    text.put(b" cache ")?;
    text.put(done_word(cache.done()))?;
    put_cache_counts(text, cache)
}

fn put_counts(text: &mut Text, link: &Direct) -> Result<(), OutOfMemory>
    ensures { OnOk result (text.new ≡ text.old ++ direct_counts link.now) }
{
    text.put(b" direct moved ")?;
    text.number(link.moved())?;
    text.put(b" pointer ")?;
    text.small_number(link.pointer())?;
    text.put(b"\n")
}

fn put_direct(text: &mut Text, name: &Name, link: &Direct) -> Result<(), OutOfMemory>
    ensures { OnOk result (text.new ≡ text.old ++ direct_line name.now link.now) }
{
    text.put(b"link ")?;
    text.put(name.text())?;
    put_counts(text, link)
}

/// The line of a part.
pub fn put_part(text: &mut Text, name: &Name, part: &Part) -> Result<(), OutOfMemory>
    ensures { OnOk result (text.new ≡ text.old ++ part_line name.now part.now) }
{
    match part {
        Part::Relay(relay) => put_relay(text, name, relay),
        Part::Agent(agent) => put_agent(text, name, agent),
        Part::Memory(memory) => put_memory(text, name, memory),
        Part::Core(core) => put_core(text, name, core),
        Part::Cache(cache) => put_cache(text, name, cache),
    }
}

/// The line of a link.
pub fn put_link(text: &mut Text, name: &Name, link: &LinkKind) -> Result<(), OutOfMemory>
    ensures { OnOk result (text.new ≡ text.old ++ link_line name.now link.now) }
{
    match link {
        LinkKind::Direct(direct) => put_direct(text, name, direct),
    }
}

ghost use Rattle.std.specs.Prelude.{◌≡◌, ◌+◌, ◌≤◌, ◌++◌, length};
ghost use Rattle.arrayvec.specs.ArrayVec.{array_vec_len};
ghost use Rattle.rv_core.specs.Core.{cause_of};
ghost use Rattle.part_view.specs.Fields.{number_or_nothing, cause_or_nothing, register_fields, relay_fields, agent_fields, memory_fields, core_head, core_fields, cache_fields, kind_word, values, values_of};

use crate::shown::Shown;
use arrayvec::ArrayVec;
use cache_comp::Cache;
use mem_ctrl::Memory;
use part_kind::Part;
use rv_core::Core;
use traffic_parts::{Agent, Relay};

/// The most fields of a part.
pub const MOST_FIELDS: usize = 36;

/// How many registers a core has.
const REGISTERS: u8 = 32;

/// What the fields of a part show, in their order.
pub type Values = ArrayVec<Shown, MOST_FIELDS>;

/// The word of the part's kind.
pub fn kind_word(part: &Part) -> &'static str
    ensures { result.now ≡ kind_word part.now }
{
    match part {
        Part::Relay(_) => "relay",
        Part::Agent(_) => "agent",
        Part::Memory(_) => "memory",
        Part::Core(_) => "core",
        Part::Cache(_) => "cache",
    }
}

fn number_or_nothing(number: Option<u32>) -> Shown
    ensures { result ≡ number_or_nothing number }
{
    match number {
        Some(n) => Shown::Number(u64::from(n)),
        None => Shown::Nothing,
    }
}

fn cause_or_nothing(core: &Core) -> Shown
    ensures { result ≡ cause_or_nothing (cause_of core.now.stage) }
{
    match core.cause() {
        Some(cause) => Shown::Cause(cause),
        None => Shown::Nothing,
    }
}

/// `ended`, `holds` and `sent`.
fn relay_values(relay: &Relay) -> [Shown; 3]
    ensures { result ≡ values (relay_fields relay.now) }
{
    [
        Shown::Number(relay.ended()),
        number_or_nothing(relay.holds()),
        Shown::Number(relay.sent()),
    ]
}

/// `answered`, `issued`, `next` and `sum`.
fn agent_values(agent: &Agent) -> [Shown; 4]
    ensures { result ≡ values (agent_fields agent.now) }
{
    [
        Shown::Number(u64::from(agent.answered())),
        Shown::Number(u64::from(agent.issued())),
        Shown::Number(agent.next()),
        Shown::Number(u64::from(agent.sum())),
    ]
}

/// `queue` and `served`.
fn memory_values(memory: &Memory) -> [Shown; 2]
    ensures { result ≡ values (memory_fields memory.now) }
{
    [
        Shown::Number(u64::from(memory.queue())),
        Shown::Number(memory.served()),
    ]
}

/// `cause`, `pc`, `phase` and `retired`.
fn core_head(core: &Core) -> [Shown; 4]
    ensures { result ≡ values (core_head core.now) }
{
    [
        cause_or_nothing(core),
        Shown::Number(u64::from(core.pc())),
        Shown::CorePhase(core.phase()),
        Shown::Number(core.retired()),
    ]
}

/// `hits`, `misses`, `pending` and `phase`.
fn cache_values(cache: &Cache) -> [Shown; 4]
    ensures { result ≡ values (cache_fields cache.now) }
{
    [
        Shown::Number(cache.hits()),
        Shown::Number(cache.misses()),
        Shown::Number(u64::from(cache.pending())),
        Shown::CachePhase(cache.phase()),
    ]
}

/// Appends what the registers show.
fn add_registers(shown: &mut Values, core: &Core)
    requires { array_vec_len shown.old + 32 ≤ MOST_FIELDS }
    ensures { shown.new.items ≡ shown.old.items ++ values (register_fields core.now.regs 32) }
{
    for no in 0..REGISTERS {
        shown.push(Shown::Number(u64::from(core.reg(no))));
    }
}

/// These values alone.
fn only(shown: &[Shown]) -> Values
    requires { length shown.now ≤ MOST_FIELDS }
    ensures { result.items ≡ shown.now }
{
    let mut values = Values::new();
    let added = values.try_extend_from_slice(shown);
    prove!(added.is_ok());
    values
}

fn core_values(core: &Core) -> Values
    ensures { result.items ≡ values (core_fields core.now) }
{
    let mut values = only(&core_head(core));
    add_registers(&mut values, core);
    values
}

/// What the fields of a part show, in their order.
pub fn values_of(part: &Part) -> Values
    ensures { result.items ≡ values_of part.now }
{
    match part {
        Part::Relay(relay) => only(&relay_values(relay)),
        Part::Agent(agent) => only(&agent_values(agent)),
        Part::Memory(memory) => only(&memory_values(memory)),
        Part::Core(core) => core_values(core),
        Part::Cache(cache) => only(&cache_values(cache)),
    }
}

ghost use Rattle.std.specs.Prelude.{◌≡◌, ◌*◌, ◌/◌, ◌≤◌, length, IfOk};
ghost use Rattle.toml.specs.View.{table_view};
ghost use Rattle.sim_config.specs.Keys;
ghost use Rattle.sim_config.specs.Tables.{AreKeys};
ghost use Rattle.sim_config.specs.Values.{Gives, list_at, number_in};
ghost use Rattle.sim_config.specs.Meaning as spec;

use crate::element::Words;
use crate::fault::{ConfigFault, TableNo};
use crate::keys::{
    ADDRESS_LIMIT, AGENT_BASE, BASE, BUFFER, COUNT, DEPTH, DRAW, GAP, KIND, LATENCY, LINE,
    MEMORY_SIZE, MISSES, NAME, PART_WORDS, PC, PERIOD, SETS, SPAN, START, TOKEN, WAYS, WINDOW,
    WORDS,
};
use crate::kinds::PartKind;
use crate::list::optional_list;
use crate::list_of::ListOf;
use crate::part_text::{PartKeys, PartText};
use crate::section::Section;
use crate::table_reader::TableReader;
use crate::version::Version;
use sim_base::Mode;
use std::alloc::Global;
use toml::Table;

#[tactic(auto, unfolding(crate::specs::Meaning::relay_at))]
fn relay(section: &Section) -> Result<PartKeys, ConfigFault>
    ensures meaning { result ≡ spec.relay_at section.now.place (table_view section.now.table.now) }
    ensures keys { IfOk result AreKeys }
{
    let to = section.name("to")?;
    let start = match section.optional_number(&TOKEN)? {
        Some(start) => Some(start as u32),
        None => None,
    };
    Ok(PartKeys::Relay { to, start })
}

#[tactic(auto, unfolding(crate::specs::Meaning::agent_at))]
fn agent(section: &Section) -> Result<PartKeys, ConfigFault>
    ensures meaning { result ≡ spec.agent_at section.now.place (table_view section.now.table.now) }
    ensures keys { IfOk result AreKeys }
{
    let map = section.name("map")?;
    let base = section.number(&AGENT_BASE)?;
    let span = section.number(&SPAN.at_most(ADDRESS_LIMIT - base))?;
    let count = section.number(&COUNT)?;
    let window = section.number(&WINDOW)?;
    let gap = section.number(&GAP)?;
    let start = section.number(&START)?;
    let mode = section.choice_or(Mode::Read, "mode")?;
    let draw = section.number(&DRAW)?;
    Ok(PartKeys::Agent {
        map,
        base: base as u32,
        span,
        count: count as u32,
        window: window as u32,
        gap: gap as u32,
        start: start as u32,
        mode,
        draw: draw as u32,
    })
}

/// The words of a memory of `size` bytes.
fn words(alloc: Global, section: &Section, size: u64) -> Result<ListOf<u32>, ConfigFault>
    ensures meaning { Gives result (list_at (number_in Keys.word_values) section.now.place (Keys.no_longer_than (size / 4) Keys.words) (table_view section.now.table.now)) }
    ensures length { IfOk result (λ words. 4 * length words ≤ size) }
{
    optional_list::<Words>(alloc, section, &WORDS.no_longer_than(size / 4))
}

#[tactic(auto, unfolding(crate::specs::Meaning::memory_at))]
fn memory(alloc: Global, section: &Section) -> Result<PartKeys, ConfigFault>
    ensures meaning { Gives result (spec.memory_at section.now.place (table_view section.now.table.now)) }
    ensures keys { IfOk result AreKeys }
{
    let base = section.number(&BASE)?;
    let size = section.number(&MEMORY_SIZE.at_most(ADDRESS_LIMIT - base))?;
    let latency = section.number(&LATENCY)?;
    let depth = section.number(&DEPTH)?;
    let words = words(alloc, section, size)?;
    Ok(PartKeys::Memory {
        base: base as u32,
        size: size as u32,
        latency: latency as u32,
        depth: depth as u32,
        words,
    })
}

/// How many misses a cache can have under way at once.
fn misses(version: Version, section: &Section) -> Result<u64, ConfigFault>
    ensures meaning { result ≡ spec.misses_at version section.now.place (table_view section.now.table.now) }
    ensures allowed { IfOk result (Keys.IsAllowed Keys.misses.allowed) }
{
    match version {
        Version::One => Ok(1),
        Version::Two => section.number(&MISSES),
    }
}

#[tactic(auto, unfolding(crate::specs::Meaning::cache_at))]
fn cache(version: Version, section: &Section) -> Result<PartKeys, ConfigFault>
    ensures meaning { result ≡ spec.cache_at version section.now.place (table_view section.now.table.now) }
    ensures keys { IfOk result AreKeys }
{
    let map = section.name("map")?;
    let line = section.number(&LINE)?;
    let sets = section.number(&SETS)?;
    let ways = section.number(&WAYS)?;
    let misses = misses(version, section)?;
    Ok(PartKeys::Cache {
        map,
        line: line as u32,
        sets: sets as u32,
        ways: ways as u32,
        misses: misses as u32,
    })
}

#[tactic(auto, unfolding(crate::specs::Meaning::core_at))]
fn core(section: &Section) -> Result<PartKeys, ConfigFault>
    ensures meaning { result ≡ spec.core_at section.now.place (table_view section.now.table.now) }
    ensures keys { IfOk result AreKeys }
{
    let inst_map = section.name("inst")?;
    let data_map = section.name("data")?;
    let pc = section.number(&PC)?;
    Ok(PartKeys::Core {
        inst_map,
        data_map,
        pc: pc as u32,
    })
}

/// The keys that a part has by its kind.
fn keys(
    alloc: Global,
    version: Version,
    kind: PartKind,
    section: &Section,
) -> Result<PartKeys, ConfigFault>
    ensures meaning { Gives result (spec.part_keys_at version kind section.now.place (table_view section.now.table.now)) }
    ensures keys { IfOk result AreKeys }
{
    match kind {
        PartKind::Relay => relay(section),
        PartKind::Agent => agent(section),
        PartKind::Memory => memory(alloc, section),
        PartKind::Cache => cache(version, section),
        PartKind::Core => core(section),
    }
}

#[tactic(auto, unfolding(crate::specs::Meaning::part_at))]
fn part(
    alloc: Global,
    version: Version,
    number: u32,
    table: &Table,
) -> Result<PartText, ConfigFault>
    ensures { Gives result (spec.part_at version number (table_view table.now)) }
{
    let section = Section {
        place: TableNo::Part(number),
        table,
    };
    let name = section.name(NAME)?;
    let kind = section.choice::<PartKind>(KIND)?;
    section.known(&PART_WORDS, kind.words(version))?;
    let period = section.number(&PERIOD)?;
    let buffer = section.number(&BUFFER)?;
    let keys = keys(alloc, version, kind, &section)?;
    Ok(PartText {
        name,
        period,
        buffer: buffer as u32,
        kind: keys,
    })
}

/// The parts of a configuration of a version.
#[derive(Clone, Copy)]
pub(crate) struct Parts {
    pub version: Version,
}

impl TableReader for Parts {
    type Text = PartText;

    ghost text_at = { λ parts n. spec.part_at parts.version n };

    fn read(&self, alloc: Global, number: u32, table: &Table) -> Result<PartText, ConfigFault> {
        part(alloc, self.version, number, table)
    }
}

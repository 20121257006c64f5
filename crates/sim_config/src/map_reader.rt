ghost use Rattle.std.specs.Prelude.{◌≡◌, IfOk, length};
ghost use Rattle.toml.specs.View.{table_view};
ghost use Rattle.sim_config.specs.Values.{Gives};
ghost use Rattle.sim_config.specs.Meaning as spec;

use crate::element::Names;
use crate::fault::{ConfigFault, TableNo};
use crate::keys::{ADDRESS_LIMIT, BASE, GRANULE, MAP_WORDS, NAME, RANGE_WORDS, RANGES, SIZE, TO};
use crate::list::list;
use crate::map_text::{MapText, RangeText};
use crate::section::Section;
use crate::table_reader::{TableReader, each, tables};
use std::alloc::Global;
use toml::Table;

/// The ranges of the map of a number.
#[derive(Clone, Copy)]
struct Ranges {
    map: u32,
}

#[tactic(auto, unfolding(crate::specs::Meaning::range_at))]
fn range(alloc: Global, map: u32, number: u32, table: &Table) -> Result<RangeText, ConfigFault>
    ensures { Gives result (spec.range_at map number (table_view table.now)) }
{
    let section = Section {
        place: TableNo::Range(map, number),
        table,
    };
    section.known(&RANGE_WORDS, &[])?;
    let base = section.number(&BASE)?;
    let size = section.number(&SIZE.at_most(ADDRESS_LIMIT - base))?;
    let to = list::<Names>(alloc, &section, &TO)?;
    let granule = section.number(&GRANULE)?;
    Ok(RangeText {
        base: base as u32,
        size,
        to,
        granule: granule as u32,
    })
}

impl TableReader for Ranges {
    type Text = RangeText;

    ghost text_at = { λ ranges n. spec.range_at ranges.map n };

    fn read(&self, alloc: Global, number: u32, table: &Table) -> Result<RangeText, ConfigFault> {
        range(alloc, self.map, number, table)
    }
}

#[derive(Clone, Copy)]
pub(crate) struct Maps;

#[tactic(auto, unfolding(crate::specs::Meaning::map_at))]
fn map(alloc: Global, number: u32, table: &Table) -> Result<MapText, ConfigFault>
    ensures { Gives result (spec.map_at number (table_view table.now)) }
{
    let section = Section {
        place: TableNo::Map(number),
        table,
    };
    let name = section.name(NAME)?;
    section.known(&MAP_WORDS, &[])?;
    let ranges = tables(&section, &RANGES)?;
    let ranges = each(alloc, &Ranges { map: number }, ranges)?;
    Ok(MapText { name, ranges })
}

impl TableReader for Maps {
    type Text = MapText;

    ghost text_at = { λ maps n. spec.map_at n };

    fn read(&self, alloc: Global, number: u32, table: &Table) -> Result<MapText, ConfigFault> {
        map(alloc, number, table)
    }
}

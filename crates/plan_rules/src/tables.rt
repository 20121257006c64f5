//! All tables of a text in the order in which a rule is tried on them.
ghost use Rattle.std.specs.Prelude.{◌≡◌, ◌++◌, length, IfOk, OnOk};
ghost use Rattle.plan_rules.specs.Text.{ranges_at};
ghost use Rattle.plan_rules.specs.First as spec;

use sim_base::OutOfMemory;
use sim_config::{PlanText, TableNo};
use std::alloc::Global;

/// The sorts of tables; ranges are those of a map.
#[derive(Clone, Copy)]
pub(crate) enum Sort {
    Maps,
    Ranges(u32),
    Parts,
    Links,
    Programs,
}

impl Sort {
    fn table(self, no: u32) -> TableNo
        ensures { result ≡ spec.table_of self no }
    {
        match self {
            Sort::Maps => TableNo::Map(no),
            Sort::Ranges(map) => TableNo::Range(map, no),
            Sort::Parts => TableNo::Part(no),
            Sort::Links => TableNo::Link(no),
            Sort::Programs => TableNo::Program(no),
        }
    }
}

/// The number of tables as faults count them. A text within its bounds has far fewer tables than there are such numbers.
fn table_count(count: usize) -> Result<u32, OutOfMemory>
    ensures { IfOk result (λ n. n ≡ count) }
{
    u32::try_from(count).ok().ok_or(OutOfMemory)
}

/// Adds so many tables of a sort.
fn add_tables(tables: &mut Vec<TableNo>, sort: Sort, count: usize) -> Result<(), OutOfMemory>
    ensures { OnOk result (tables.new.items ≡ tables.old.items ++ spec.tables_of sort count) }
{
    let count = table_count(count)?;
    for no in 0..count {
        tables.push(sort.table(no))?;
    }
    Ok(())
}

/// How many ranges a map has.
fn range_count(text: &PlanText, map: u32) -> usize
    ensures { result ≡ length (ranges_at text.now map) }
{
    match text.maps.items().get(map as usize) {
        Some(map) => map.ranges.items().len(),
        None => 0,
    }
}

/// Adds the ranges of all maps.
fn add_ranges(tables: &mut Vec<TableNo>, text: &PlanText) -> Result<(), OutOfMemory>
    ensures { OnOk result (tables.new.items ≡ tables.old.items ++ spec.ranges_to text.now (length text.now.maps)) }
{
    let count = table_count(text.maps.items().len())?;
    for no in 0..count {
        add_tables(tables, Sort::Ranges(no), range_count(text, no))?;
    }
    Ok(())
}

/// All tables: the maps, the ranges of each map, the parts, the links, the programs.
#[tactic(auto, unfolding(crate::specs::First::all_tables))]
pub(crate) fn all_tables(alloc: Global, text: &PlanText) -> Result<Vec<TableNo>, OutOfMemory>
    ensures { IfOk result (λ v. v.items ≡ spec.all_tables text.now) }
{
    let mut tables = Vec::new(alloc);
    add_tables(&mut tables, Sort::Maps, text.maps.items().len())?;
    add_ranges(&mut tables, text)?;
    add_tables(&mut tables, Sort::Parts, text.parts.items().len())?;
    add_tables(&mut tables, Sort::Links, text.links.items().len())?;
    add_tables(&mut tables, Sort::Programs, text.programs.items().len())?;
    Ok(tables)
}

ghost use Rattle.toml.specs.View.{table_view};
ghost use Rattle.sim_config.specs.Values.{Gives};
ghost use Rattle.sim_config.specs.Meaning as spec;

use crate::fault::{ConfigFault, TableNo};
use crate::keys::PROGRAM_WORDS;
use crate::program_text::ProgramText;
use crate::section::Section;
use crate::table_reader::TableReader;
use std::alloc::Global;
use toml::Table;

#[tactic(auto, unfolding(crate::specs::Meaning::program_at))]
fn program(alloc: Global, number: u32, table: &Table) -> Result<ProgramText, ConfigFault>
    ensures { Gives result (spec.program_at number (table_view table.now)) }
{
    let section = Section {
        place: TableNo::Program(number),
        table,
    };
    section.known(&PROGRAM_WORDS, &[])?;
    let core = section.name("core")?;
    let file = section.file(alloc, "file")?;
    Ok(ProgramText { core, file })
}

#[derive(Clone, Copy)]
pub(crate) struct Programs;

impl TableReader for Programs {
    type Text = ProgramText;

    ghost text_at = { λ programs n. spec.program_at n };

    fn read(&self, alloc: Global, number: u32, table: &Table) -> Result<ProgramText, ConfigFault> {
        program(alloc, number, table)
    }
}

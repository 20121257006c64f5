ghost use Rattle.toml.specs.View.{table_view};
ghost use Rattle.sim_config.specs.Values.{Gives};
ghost use Rattle.sim_config.specs.Meaning as spec;

use crate::element::Ports;
use crate::fault::{ConfigFault, TableNo};
use crate::keys::{KIND, LINK_WORDS, NAME, PERIOD, PORTS};
use crate::kinds::LinkKind;
use crate::link_text::{LinkKeys, LinkText};
use crate::list::list;
use crate::section::Section;
use crate::table_reader::TableReader;
use std::alloc::Global;
use toml::Table;

#[tactic(auto, unfolding(crate::specs::Meaning::link_at))]
fn link(alloc: Global, number: u32, table: &Table) -> Result<LinkText, ConfigFault>
    ensures { Gives result (spec.link_at number (table_view table.now)) }
{
    let section = Section {
        place: TableNo::Link(number),
        table,
    };
    let name = section.name(NAME)?;
    let kind = section.choice::<LinkKind>(KIND)?;
    section.known(&LINK_WORDS, kind.words())?;
    let period = section.number(&PERIOD)?;
    let ports = list::<Ports>(alloc, &section, &PORTS)?;
    let kind = match kind {
        LinkKind::Direct => LinkKeys::Direct,
    };
    Ok(LinkText {
        name,
        period,
        ports,
        kind,
    })
}

#[derive(Clone, Copy)]
pub(crate) struct Links;

impl TableReader for Links {
    type Text = LinkText;

    ghost text_at = { λ links n. spec.link_at n };

    fn read(&self, alloc: Global, number: u32, table: &Table) -> Result<LinkText, ConfigFault> {
        link(alloc, number, table)
    }
}

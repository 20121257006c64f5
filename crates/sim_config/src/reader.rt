ghost use Rattle.std.specs.Prelude.{◌≡◌, ◌≢◌, ◌<◌, length, true, false, Some, None, Err, IfOk, IfErr, IfSome, IfNone};
ghost use Rattle.std.specs.Str.{is_utf8};
ghost use Rattle.toml.specs.View.{table_view};
ghost use Rattle.sim_config.specs.declared.fault.ConfigFault.TheVariants.{Broken, OutOfMemory};
ghost use Rattle.sim_config.specs.declared.fault.ConfigRule.TheVariants.{NotToml, TooLong};
ghost use Rattle.sim_config.specs.declared.fault.TableNo.TheVariants.{Top};
ghost use Rattle.sim_config.specs.Values.{Gives};
ghost use Rattle.sim_config.specs.Meaning as spec;

use crate::fault::{ConfigFault, ConfigRule, TableNo};
use crate::keys::{LINKS, MAPS, PARTS, PROGRAMS, TOP_WORDS, UNTIL, VERSION};
use crate::link_reader::Links;
use crate::map_reader::Maps;
use crate::part_reader::Parts;
use crate::plan_text::PlanText;
use crate::program_reader::Programs;
use crate::section::Section;
use crate::table_reader::{each, tables};
use crate::version::Version;
use sim_base::Time;
use std::alloc::Global;
use toml::Table;

/// The most bytes that a configuration has.
pub const LONGEST_CONFIG: usize = 1_048_576;

fn broken(rule: ConfigRule) -> ConfigFault
    ensures { result ≡ Broken rule Top None }
{
    ConfigFault::Broken {
        rule,
        table: TableNo::Top,
        key: None,
    }
}

#[tactic(auto, unfolding(crate::specs::Meaning::version_at))]
fn version(section: &Section) -> Result<Version, ConfigFault>
    ensures { result ≡ spec.version_at section.now.place (table_view section.now.table.now) }
{
    match section.number(&VERSION) {
        Ok(number) => Ok(Version::of(number)),
        Err(fault) => Err(fault),
    }
}

#[tactic(auto, unfolding(crate::specs::Meaning::plan_at))]
fn plan(alloc: Global, table: &Table) -> Result<PlanText, ConfigFault>
    ensures { Gives result (spec.plan_at (table_view table.now)) }
{
    let section = Section {
        place: TableNo::Top,
        table,
    };
    section.known(&TOP_WORDS, &[])?;
    let version = version(&section)?;
    let until = section.number(&UNTIL)?;
    let maps = tables(&section, &MAPS)?;
    let parts = tables(&section, &PARTS)?;
    let links = tables(&section, &LINKS)?;
    let programs = tables(&section, &PROGRAMS)?;
    Ok(PlanText {
        until: Time(until),
        maps: each(alloc, &Maps, maps)?,
        parts: each(alloc, &Parts { version }, parts)?,
        links: each(alloc, &Links, links)?,
        programs: each(alloc, &Programs, programs)?,
    })
}

/// The text that these bytes are, None where they are not UTF-8.
fn text_of(bytes: &[u8]) -> Option<&str>
    ensures some { IfSome result (λ text. (is_utf8 bytes.now ≡ true) × (text.now ≡ bytes.now)) }
    ensures none { IfNone result (is_utf8 bytes.now ≡ false) }
{
    match std::str::from_utf8(bytes) {
        Ok(text) => Some(text),
        Err(_) => None,
    }
}

/// The TOML document that these bytes are.
fn document(alloc: Global, bytes: &[u8]) -> Result<Table, ConfigFault>
    ensures ok { IfOk result (λ table. spec.document_of bytes.now ≡ Some (table_view table)) }
    ensures err { IfErr result (λ fault. fault ≢ OutOfMemory → (spec.document_of bytes.now ≡ None) × (fault ≡ Broken NotToml Top None)) }
{
    let Some(text) = text_of(bytes) else {
        return Err(broken(ConfigRule::NotToml));
    };
    match toml::table_from_str(alloc, text) {
        Ok(table) => Ok(table),
        Err(error) => {
            if error.is_memory() {
                Err(ConfigFault::OutOfMemory)
            } else {
                Err(broken(ConfigRule::NotToml))
            }
        }
    }
}

#[tactic(auto, unfolding(crate::specs::Meaning::config_of))]
/// The plan that a configuration writes.
///
/// The bytes are a TOML document in UTF-8, at most [`LONGEST_CONFIG`] of them. Names are not resolved: a part, a map or a port that
/// is named need not be there.
///
/// Errors: `Broken` tells the first rule that the file breaks, in the order of docs/FORMATS.md, with its table and, where the rule
/// is about one, its key; a file that is too long is refused unread, without memory. `OutOfMemory` comes where no memory is found,
/// whatever the file has.
///
/// A call takes up to about 602 MB of memory and 1.6 MB of stack. That was measured at the worst files that are not too long; no
/// clause says it.
pub fn read_config(alloc: Global, bytes: &[u8]) -> Result<PlanText, ConfigFault>
    ensures meaning { Gives result (spec.config_of bytes.now) }

    // A file that is too long is told before any of it is looked at, so that no memory is needed.
    ensures too_long { spec.longest_file < length bytes.now → result ≡ Err (Broken TooLong Top None) }
{
    if bytes.len() > LONGEST_CONFIG {
        return Err(broken(ConfigRule::TooLong));
    }
    let table = document(alloc, bytes)?;
    plan(alloc, &table)
}

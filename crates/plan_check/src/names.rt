ghost use Rattle.std.specs.Prelude.{◌≡◌, IfOk, map};
ghost use Rattle.sim_config.specs.Tables.{PartTable, LinkTable};

use sim_base::{Name, OutOfMemory};
use sim_config::{LinkText, PartText};
use std::alloc::Global;

/// A name that is known to be one, or want of memory, which does not come for another reason.
pub(crate) fn known_name(text: &str) -> Result<Name, OutOfMemory>
    ensures { IfOk result (λ name. name ≡ text.now) }
{
    Name::read(text.as_bytes()).ok_or(OutOfMemory)
}

/// The names of parts.
pub(crate) fn part_names(alloc: Global, parts: &[PartText]) -> Result<Vec<Name>, OutOfMemory>
    ensures { IfOk result (λ v. v.items ≡ map (λ (p : PartTable). p.name) parts.now) }
{
    let mut names = Vec::new(alloc);
    for part in parts {
        names.push(part.name)?;
    }
    Ok(names)
}

/// The names of links.
pub(crate) fn link_names(alloc: Global, links: &[LinkText]) -> Result<Vec<Name>, OutOfMemory>
    ensures { IfOk result (λ v. v.items ≡ map (λ (l : LinkTable). l.name) links.now) }
{
    let mut names = Vec::new(alloc);
    for link in links {
        names.push(link.name)?;
    }
    Ok(names)
}

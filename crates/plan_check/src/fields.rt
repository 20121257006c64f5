//! The fields that are shown of each kind of part.
ghost use Rattle.std.specs.Prelude.{◌≡◌, IfOk, map};
ghost use Rattle.sim_config.specs.Tables.{PartTable};
ghost use Rattle.plan_check.specs.Fields as spec;

use crate::names::known_name;
use sim_base::{Name, OutOfMemory};
use sim_config::{PartKeys, PartText};
use std::alloc::Global;

/// The names of the fields of a part in their order.
pub fn field_names(keys: &PartKeys) -> &'static [&'static str]
    ensures { map (λ w. w.now) result.now ≡ spec.field_names keys.now }
{
    match keys {
        PartKeys::Relay { .. } => &["ended", "holds", "sent"],
        PartKeys::Agent { .. } => &["answered", "issued", "next", "sum"],
        PartKeys::Memory { .. } => &["queue", "served"],
        PartKeys::Cache { .. } => &["hits", "misses", "pending", "phase"],
        PartKeys::Core { .. } => &[
            "cause", "pc", "phase", "retired", "x0", "x1", "x2", "x3", "x4", "x5", "x6", "x7",
            "x8", "x9", "x10", "x11", "x12", "x13", "x14", "x15", "x16", "x17", "x18", "x19",
            "x20", "x21", "x22", "x23", "x24", "x25", "x26", "x27", "x28", "x29", "x30", "x31",
        ],
    }
}

fn known_names(alloc: Global, words: &[&str]) -> Result<Vec<Name>, OutOfMemory>
    ensures { IfOk result (λ v. v.items ≡ map (λ w. w.now) words.now) }
{
    let mut names = Vec::new(alloc);
    for word in words {
        names.push(known_name(word)?)?;
    }
    Ok(names)
}

/// The fields of parts.
pub(crate) fn all_fields(alloc: Global, parts: &[PartText]) -> Result<Vec<Vec<Name>>, OutOfMemory>
    ensures { IfOk result (λ v. map (λ f. f.items) v.items ≡ map (λ (p : PartTable). spec.field_names p.kind) parts.now) }
{
    let mut fields = Vec::new(alloc);
    for part in parts {
        fields.push(known_names(alloc, field_names(&part.kind))?)?;
    }
    Ok(fields)
}

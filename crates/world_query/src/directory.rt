ghost use Rattle.std.specs.Prelude.{◌≡◌, ◌<◌, length, map, option_map, IfOk, IfSome};
ghost use Rattle.sim_base.specs.declared.numbers.PartNo.{PartNo};
ghost use Rattle.world_query.specs.declared.query.FieldNo.{FieldNo};
ghost use Rattle.world_query.specs.Directory.{number_of, number_in, field_number, IsDirectoryOf};

use crate::name_table::NameTable;
use crate::query::FieldNo;
use sim_base::{Name, OutOfMemory, PartNo};
use std::alloc::Global;
use std::marker::Model;
use tick_law::{Actor, Plan};

/// The numbers of a plan's parts and of their fields by their names. A name is found in time that grows with its length and the
/// logarithm of the number of names.
#[derive(Drop)]
pub struct Directory {
    parts: NameTable,
    fields: Vec<NameTable>,
}

impl Model for Directory {
    ghost use Rattle.std.specs.Prelude.{length};
    ghost use Rattle.world_query.specs.Directory.{DirectoryView, AreBelow};

    ghost Value = { DirectoryView };

    ghost view = { λ d. record { parts = d.parts; fields = d.fields.items } };

    ghost invariant = { λ d. AreBelow d.parts (length d.fields.items) };
}

/// A table for the fields of each part.
fn field_tables(alloc: Global, fields: &[Vec<Name>]) -> Result<Vec<NameTable>, OutOfMemory>
    ensures tables { IfOk result (λ v. map number_in v.items ≡ map (λ names. number_of names.items) fields.now) }
    ensures long { IfOk result (λ v. length v.items ≡ length fields.now) }
{
    let mut tables = Vec::new(alloc);
    for names in fields {
        tables.push(NameTable::of(alloc, names)?)?;
    }
    Ok(tables)
}

impl Directory {
    /// The directory of a plan.
    pub fn open<P: Actor + Drop, N: Actor + Drop>(
        alloc: Global,
        plan: &Plan<P, N>,
    ) -> Result<Directory, OutOfMemory>
        ensures { IfOk result (IsDirectoryOf plan.now) }
    {
        let parts = NameTable::of(alloc, &plan.part_names)?;
        let fields = field_tables(alloc, &plan.fields)?;
        Ok(Directory { parts, fields })
    }

    /// The first part of this name, or None where no part has it.
    pub fn part(&self, name: &[u8]) -> Option<PartNo>
        ensures value { option_map (λ (part : PartNo). part.0) result ≡ number_in self.now.parts name.now }
        ensures within { IfSome result (λ part. part.0 < length self.now.fields) }
    {
        self.parts.number(name).map(PartNo)
    }

    /// The first field of this name of a part, or None where the part has no such field.
    pub fn field(&self, part: PartNo, name: &[u8]) -> Option<FieldNo>
        requires { part.0 < length self.now.fields }
        ensures { option_map (λ (field : FieldNo). field.0) result ≡ field_number self.now part.0 name.now }
    {
        let table = &self.fields[part.0 as usize];
        table.number(name).map(FieldNo)
    }
}

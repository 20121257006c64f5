ghost use Rattle.std.specs.Prelude.{◌≡◌, ◌≤◌, ◌^◌, ℕ, Result, IfOk, IfErr, Ok, Err, length, false};
ghost use Rattle.toml.specs.Data.{Members};
ghost use Rattle.toml.specs.View.{items_view, table_view, view};
ghost use Rattle.sim_config.specs.declared.fault.ConfigFault.{ConfigFault};
ghost use Rattle.sim_config.specs.Keys.{IsAllowed, list_row};
ghost use Rattle.sim_config.specs.Values.{list_in, some_wrong_type, table_in, tables_at, tables_of, Gives};
ghost use Rattle.sim_config.specs.Meaning.{each};

use crate::fault::{ConfigFault, ConfigRule};
use crate::keys::{Allowed, ListKey};
use crate::list::{has_length, some_other};
use crate::list_of::ListOf;
use crate::section::Section;
use std::alloc::Global;
use toml::{Table, Value};

/// How the tables of a list are read.
pub(crate) trait TableReader {
    type Text: Drop;

    /// What the table of a number means.
    ghost text_at: { Self → ℕ → Members → Result Self.Text ConfigFault };

    fn read(&self, alloc: Global, number: u32, table: &Table) -> Result<Self::Text, ConfigFault>
        ensures { Gives result (text_at self.now number (table_view table.now)) };
}

/// The number of a table as faults tell it. A file within its bounds has far fewer tables than there are such numbers.
fn table_number(index: usize) -> Result<u32, ConfigFault>
    ensures ok { IfOk result (λ number. number ≡ index) }
    ensures err { IfErr result (λ fault. (2 ^ 32 ≤ index) × (fault ≡ ConfigFault.OutOfMemory)) }
{
    match u32::try_from(index) {
        Ok(number) => Ok(number),
        Err(_) => Err(ConfigFault::OutOfMemory),
    }
}

/// Each table of a list.
pub(crate) fn each<R: TableReader>(
    alloc: Global,
    reader: &R,
    values: &[Value],
) -> Result<ListOf<R::Text>, ConfigFault>
    requires { some_wrong_type table_in (items_view values.now) ≡ false }

    ensures meaning { Gives result (each (R.text_at reader.now) 0 (tables_of (items_view values.now))) }
    ensures length { IfOk result (λ list. length list ≡ length values.now) }
{
    let mut texts = Vec::new(alloc);
    for (index, value) in values.iter().enumerate() {
        let Value::Table(table) = value else {
            unreachable!();
        };
        let number = table_number(index)?;
        texts.push(reader.read(alloc, number, table)?)?;
    }
    Ok(ListOf::of(texts))
}

/// The elements of a list of tables, or the rule that it breaks.
fn tables_in<'a>(value: &'a Value, lengths: &Allowed) -> Result<&'a [Value], ConfigRule>
    ensures ok { IfOk result (λ values. list_in table_in lengths.now (view value.now) ≡ Ok (tables_of (items_view values.now))) }
    ensures err { IfErr result (λ rule. list_in table_in lengths.now (view value.now) ≡ Err rule) }
    ensures tables { IfOk result (λ values. some_wrong_type table_in (items_view values.now) ≡ false) }
    ensures lengths { IfOk result (λ values. IsAllowed lengths.now (length values.now)) }
{
    let Value::Array(values) = value else {
        return Err(ConfigRule::WrongType);
    };
    let values = values.as_slice();
    if some_other(values) {
        Err(ConfigRule::WrongType)
    } else if has_length(values, lengths) {
        Ok(values)
    } else {
        Err(ConfigRule::OutOfRange)
    }
}

/// The tables of a list at a key.
pub(crate) fn tables<'a>(section: &Section<'a>, key: &ListKey) -> Result<&'a [Value], ConfigFault>
    ensures ok { IfOk result (λ values. tables_at section.now.place (list_row key.now) (table_view section.now.table.now) ≡ Ok (tables_of (items_view values.now))) }
    ensures err { IfErr result (λ fault. tables_at section.now.place (list_row key.now) (table_view section.now.table.now) ≡ Err fault) }
    ensures tables { IfOk result (λ values. some_wrong_type table_in (items_view values.now) ≡ false) }
    ensures lengths { key.now.is_optional ≡ false → IfOk result (λ values. IsAllowed key.now.lengths (length values.now)) }
{
    let Some(value) = section.value(key.word()) else {
        if key.is_optional {
            return Ok(&[]);
        }
        return Err(section.fault(ConfigRule::Missing, key.word()));
    };
    match tables_in(value, &key.lengths) {
        Ok(values) => Ok(values),
        Err(rule) => Err(section.fault(rule, key.word())),
    }
}

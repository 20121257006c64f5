ghost use Rattle.std.specs.Prelude.{◌≡◌, ◌≤◌, IfOk, length, true, false};
ghost use Rattle.toml.specs.View.{view, items_view, table_view};
ghost use Rattle.sim_config.specs.Keys.{IsAllowed, allows, list_row};
ghost use Rattle.sim_config.specs.Values.{is_wrong_type, some_wrong_type, elements, item_count, at_key, list_in, list_at, table_in, Gives};

use crate::element::Element;
use crate::fault::{ConfigFault, ConfigRule};
use crate::keys::{Allowed, ListKey};
use crate::list_of::ListOf;
use crate::section::Section;
use std::alloc::Global;
use toml::Value;

fn is_wrong_type<E: Element>(value: &Value) -> bool
    ensures { result ≡ is_wrong_type (E.value_in (view value.now)) }
{
    matches!(E::read(value), Err(ConfigRule::WrongType))
}

/// Whether an element is of another type than the list has.
fn some_wrong_type<E: Element>(values: &[Value]) -> bool
    ensures { result ≡ some_wrong_type E.value_in (items_view values.now) }
{
    for value in values {
        if is_wrong_type::<E>(value) {
            return true;
        }
    }
    false
}

/// Whether an element is no table.
pub(crate) fn some_other(values: &[Value]) -> bool
    ensures { result ≡ some_wrong_type table_in (items_view values.now) }
{
    for value in values {
        let Value::Table(_) = value else {
            return true;
        };
    }
    false
}

pub(crate) fn has_length(values: &[Value], lengths: &Allowed) -> bool
    ensures value { result ≡ allows lengths.now (item_count (items_view values.now)) }
    ensures allowed { result ≡ true → IsAllowed lengths.now (length values.now) }
{
    lengths.allows(values.len() as u64)
}

/// Each element, or the rule that the first wrong one breaks, at the key of this word.
fn elements<E: Element>(
    alloc: Global,
    section: &Section,
    word: &str,
    values: &[Value],
) -> Result<ListOf<E::Read>, ConfigFault>
    ensures meaning { Gives result (at_key section.now.place word.now (elements E.value_in (items_view values.now))) }
    ensures length { IfOk result (λ list. length list ≡ length values.now) }
{
    let mut read = Vec::new(alloc);
    for value in values {
        read.push(section.at_key(word, E::read(value))?)?;
    }
    Ok(ListOf::of(read))
}

/// The elements of a list, or the rule that it breaks, at the key of this word.
fn list_in<E: Element>(
    alloc: Global,
    section: &Section,
    word: &str,
    lengths: &Allowed,
    value: &Value,
) -> Result<ListOf<E::Read>, ConfigFault>
    ensures meaning { Gives result (at_key section.now.place word.now (list_in E.value_in lengths.now (view value.now))) }
    ensures lengths { IfOk result (λ list. IsAllowed lengths.now (length list)) }
{
    let Value::Array(values) = value else {
        return Err(section.fault(ConfigRule::WrongType, word));
    };
    if some_wrong_type::<E>(values) {
        return Err(section.fault(ConfigRule::WrongType, word));
    }
    if !has_length(values, lengths) {
        return Err(section.fault(ConfigRule::OutOfRange, word));
    }
    elements::<E>(alloc, section, word, values)
}

/// The elements of a list at a key that must be there.
pub(crate) fn list<E: Element>(
    alloc: Global,
    section: &Section,
    key: &ListKey,
) -> Result<ListOf<E::Read>, ConfigFault>
    requires { key.now.is_optional ≡ false }

    ensures meaning { Gives result (list_at E.value_in section.now.place (list_row key.now) (table_view section.now.table.now)) }
    ensures lengths { IfOk result (λ list. IsAllowed key.now.lengths (length list)) }
{
    match section.value(key.word()) {
        Some(value) => list_in::<E>(alloc, section, key.word(), &key.lengths, value),
        None => Err(section.fault(ConfigRule::Missing, key.word())),
    }
}

/// The elements of a list at a key, none where the key is left out.
pub(crate) fn optional_list<E: Element>(
    alloc: Global,
    section: &Section,
    key: &ListKey,
) -> Result<ListOf<E::Read>, ConfigFault>
    requires { key.now.is_optional ≡ true }

    ensures meaning { Gives result (list_at E.value_in section.now.place (list_row key.now) (table_view section.now.table.now)) }
    ensures length { IfOk result (λ list. length list ≤ key.now.lengths.greatest) }
{
    match section.value(key.word()) {
        Some(value) => list_in::<E>(alloc, section, key.word(), &key.lengths, value),
        None => Ok(ListOf::of(Vec::new(alloc))),
    }
}

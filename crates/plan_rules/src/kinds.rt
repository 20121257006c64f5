//! What the rules ask of the kinds of parts: a row for each kind in each table.
ghost use Rattle.std.specs.Prelude.{◌≡◌, ◌≤◌, ◌<◌, length, option_map, IfSome};
ghost use Rattle.plan_rules.specs.Kinds as kinds;
ghost use Rattle.plan_rules.specs.Text.{place_of};

use crate::named::is_same_text;
use crate::port_word::PortWord;
use sim_base::Name;
use sim_config::PartKeys;

/// The ports of a part in their order. What is sent to the part comes in at the first.
pub fn port_words(keys: &PartKeys) -> &'static [PortWord]
    ensures words { result.now ≡ kinds.port_words keys.now }
    ensures some { 1 ≤ length result.now }
    ensures few { length result.now ≤ 2 }
{
    match keys {
        PartKeys::Relay { .. } | PartKeys::Agent { .. } => &[PortWord::Io],
        PartKeys::Memory { .. } => &[PortWord::Top],
        PartKeys::Cache { .. } => &[PortWord::Top, PortWord::Bottom],
        PartKeys::Core { .. } => &[PortWord::Inst, PortWord::Data],
    }
}

/// How many ports a part has.
pub fn port_count(keys: &PartKeys) -> usize
    ensures count { result ≡ kinds.port_count keys.now }
    ensures few { result ≤ 2 }
{
    port_words(keys).len()
}

/// The part that it names as its target.
pub(crate) fn target_name(keys: &PartKeys) -> Option<&Name>
    ensures { option_map (λ n. n.now) result ≡ kinds.target_name keys.now }
{
    match keys {
        PartKeys::Relay { to, .. } => Some(to),
        _ => None,
    }
}

/// The map by which it sends from its first port.
pub(crate) fn first_map(keys: &PartKeys) -> Option<&Name>
    ensures { option_map (λ n. n.now) result ≡ kinds.first_map keys.now }
{
    match keys {
        PartKeys::Agent { map, .. } => Some(map),
        PartKeys::Core { inst_map, .. } => Some(inst_map),
        PartKeys::Relay { .. } | PartKeys::Memory { .. } | PartKeys::Cache { .. } => None,
    }
}

/// The map by which it sends from its second port.
pub(crate) fn second_map(keys: &PartKeys) -> Option<&Name>
    ensures { option_map (λ n. n.now) result ≡ kinds.second_map keys.now }
{
    match keys {
        PartKeys::Cache { map, .. } => Some(map),
        PartKeys::Core { data_map, .. } => Some(data_map),
        PartKeys::Relay { .. } | PartKeys::Memory { .. } | PartKeys::Agent { .. } => None,
    }
}

/// How many bytes it holds as a memory.
pub(crate) fn memory_bytes(keys: &PartKeys) -> u32
    ensures { result ≡ kinds.memory_bytes keys.now }
{
    match keys {
        PartKeys::Memory { size, .. } => *size,
        _ => 0,
    }
}

/// The place of a word among the ports of a part.
pub(crate) fn place_of(keys: &PartKeys, word: &Name) -> Option<usize>
    ensures place { result ≡ place_of keys.now word.now }
    ensures few { IfSome result (λ place. place < 2) }
{
    port_words(keys)
        .iter()
        .position(|port| is_same_text(port.text(), word))
}

ghost use Rattle.std.specs.Prelude.{◌≡◌, length, option_map, Some, IfOk};
ghost use Rattle.serde_json.specs.Data.{string};
ghost use Rattle.serde_json.specs.View.{view};
ghost use Rattle.part_view.specs.Entries.{kind_entry, agent_entry, core_entry, unless, part_entry, lengths_entry, has_full_list, where_true, port_entry};
ghost use Rattle.part_kind.specs.Part.{part as kinds};
ghost use Rattle.part_kind.specs.declared.part.Part.TheVariants as parts;

use crate::fields::kind_word;
use crate::label::Label;
use crate::word::Word;
use part_kind::Part;
use port_msg::Port;
use rv_core::Core;
use serde_json::{Value, json};
use sim_base::OutOfMemory;
use std::alloc::Global;
use tick_law::Actor;
use traffic_parts::Agent;

/// A list of parts in a body.
#[derive(Clone, Copy, Debug, PartialEq, Eq)]
pub enum PartList {
    /// The kind and the name of each part.
    All,
    /// How far each agent has come.
    Agents,
    /// How far each core has come.
    Cores,
    /// The names of the parts that are not done.
    Busy,
}

/// A list of ports in a body.
#[derive(Clone, Copy, Debug, PartialEq, Eq)]
pub enum PortList {
    /// How many messages stand in the lists of each port.
    Lengths,
    /// The names of the ports with a full list.
    Full,
}

fn kind_entry(alloc: Global, name: &Word, part: &Part) -> Result<Value, OutOfMemory>
    ensures { IfOk result (λ v. view v ≡ kind_entry name.now part.now) }
{
    Ok(json!(in alloc; {"kind": kind_word(part), "name": name.as_str()})?)
}

fn agent_counts(alloc: Global, name: &Word, agent: &Agent) -> Result<Value, OutOfMemory>
    ensures { IfOk result (λ v. Some (view v) ≡ agent_entry name.now (parts.Agent agent.now)) }
{
    let (answered, count) = (agent.answered(), agent.count());
    Ok(json!(in alloc; {"answered": answered, "count": count, "name": name.as_str()})?)
}

fn core_counts(alloc: Global, name: &Word, core: &Core) -> Result<Value, OutOfMemory>
    ensures { IfOk result (λ v. Some (view v) ≡ core_entry name.now (parts.Core core.now)) }
{
    let (halted, retired) = (core.done(), core.retired());
    Ok(json!(in alloc; {"halted": halted, "name": name.as_str(), "retired": retired})?)
}

fn agent_entry(alloc: Global, name: &Word, part: &Part) -> Result<Option<Value>, OutOfMemory>
    ensures { IfOk result (λ v. option_map view v ≡ agent_entry name.now part.now) }
{
    match part {
        Part::Agent(agent) => Ok(Some(agent_counts(alloc, name, agent)?)),
        Part::Relay(_) | Part::Memory(_) | Part::Core(_) | Part::Cache(_) => Ok(None),
    }
}

fn core_entry(alloc: Global, name: &Word, part: &Part) -> Result<Option<Value>, OutOfMemory>
    ensures { IfOk result (λ v. option_map view v ≡ core_entry name.now part.now) }
{
    match part {
        Part::Core(core) => Ok(Some(core_counts(alloc, name, core)?)),
        Part::Relay(_) | Part::Agent(_) | Part::Memory(_) | Part::Cache(_) => Ok(None),
    }
}

fn busy_entry(alloc: Global, name: &Word, part: &Part) -> Result<Option<Value>, OutOfMemory>
    ensures { IfOk result (λ v. option_map view v
        ≡ unless (kinds.done part.now) (string name.now)) }
{
    if part.done() {
        return Ok(None);
    }
    Ok(Some(Value::try_from_str(alloc, name.as_str())?))
}

/// What stands in a list for a part.
pub fn part_entry(
    alloc: Global,
    list: PartList,
    name: &Word,
    part: &Part,
) -> Result<Option<Value>, OutOfMemory>
    ensures { IfOk result (λ v. option_map view v ≡ part_entry list name.now part.now) }
{
    match list {
        PartList::All => Ok(Some(kind_entry(alloc, name, part)?)),
        PartList::Agents => agent_entry(alloc, name, part),
        PartList::Cores => core_entry(alloc, name, part),
        PartList::Busy => busy_entry(alloc, name, part),
    }
}

/// How many messages stand in the incoming list, and in the outgoing one.
fn lengths_of(label: &Label, port: &Port) -> (u32, u32)
    requires { label.now.cap ≡ port.now.cap }
    ensures incoming { result.0 ≡ length port.now.incoming }
    ensures outgoing { result.1 ≡ length port.now.outgoing }
{
    (label.cap - port.in_room(), label.cap - port.out_room())
}

fn lengths_entry(alloc: Global, label: &Label, port: &Port) -> Result<Value, OutOfMemory>
    requires { label.now.cap ≡ port.now.cap }
    ensures { IfOk result (λ v. view v ≡ lengths_entry label.now port.now) }
{
    let (incoming, outgoing) = lengths_of(label, port);
    let name = label.name.as_str();
    Ok(json!(in alloc; {"cap": label.cap, "in": incoming, "out": outgoing, "port": name})?)
}

fn has_full_list(label: &Label, port: &Port) -> bool
    requires { label.now.cap ≡ port.now.cap }
    ensures { result ≡ has_full_list label.now port.now }
{
    let (incoming, outgoing) = lengths_of(label, port);
    incoming == label.cap || outgoing == label.cap
}

fn full_entry(alloc: Global, label: &Label, port: &Port) -> Result<Option<Value>, OutOfMemory>
    requires { label.now.cap ≡ port.now.cap }
    ensures { IfOk result (λ v. option_map view v
        ≡ where_true (has_full_list label.now port.now) (string label.now.name)) }
{
    if !has_full_list(label, port) {
        return Ok(None);
    }
    Ok(Some(Value::try_from_str(alloc, label.name.as_str())?))
}

/// What stands in a list for a port.
pub fn port_entry(
    alloc: Global,
    list: PortList,
    label: &Label,
    port: &Port,
) -> Result<Option<Value>, OutOfMemory>
    requires { label.now.cap ≡ port.now.cap }
    ensures { IfOk result (λ v. option_map view v ≡ port_entry list label.now port.now) }
{
    match list {
        PortList::Lengths => Ok(Some(lengths_entry(alloc, label, port)?)),
        PortList::Full => full_entry(alloc, label, port),
    }
}

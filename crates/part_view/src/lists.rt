ghost use Rattle.std.specs.Prelude.{◌≡◌, ◌≤◌, ◌++◌, length, map, option_map, option_to_list, IfOk, OnOk};
ghost use Rattle.port_msg.specs.PortView.{PortView};
ghost use Rattle.port_rows.specs.World.{state_of};
ghost use Rattle.serde_json.specs.View.{view};
ghost use Rattle.world_query.specs.Legend.{PortLabel};
ghost use Rattle.part_view.specs.Entries.{part_entry, port_entry, entries};

use crate::entries::{PartList, PortList, part_entry, port_entry};
use crate::label::Label;
use crate::word::Word;
use part_kind::{LinkKind, Part};
use port_rows::World;
use serde_json::Value;
use sim_base::{OutOfMemory, PortNo};
use std::alloc::Global;

/// Appends a value, where there is one.
fn add(list: &mut Vec<Value>, entry: Option<Value>) -> Result<(), OutOfMemory>
    ensures { OnOk result (map view list.new.items
        ≡ map view list.old.items ++ option_to_list (option_map view entry)) }
{
    if let Some(value) = entry {
        list.push(value)?;
    }
    Ok(())
}

/// A list of parts, which have these names.
pub fn part_values(
    alloc: Global,
    list: PartList,
    names: &[Word],
    parts: &[Part],
) -> Result<Vec<Value>, OutOfMemory>
    requires { length names.now ≡ length parts.now }
    ensures { IfOk result (λ v. map view v.items ≡ entries (part_entry list) names.now parts.now) }
{
    let mut values = Vec::new(alloc);
    for no in 0..parts.len() {
        let entry = part_entry(alloc, list, &names[no], &parts[no])?;
        add(&mut values, entry)?;
    }
    Ok(values)
}

/// A list of the ports of a world, which have these labels.
pub fn port_values(
    alloc: Global,
    list: PortList,
    labels: &[Label],
    world: &World<Part, LinkKind>,
) -> Result<Vec<Value>, OutOfMemory>
    requires few { length labels.now ≤ 1024 }
    requires caps { map (λ (p : PortView). p.cap) (state_of world.now).ports
        ≡ map (λ (l : PortLabel). l.cap) labels.now }

    ensures { IfOk result (λ v. map view v.items
        ≡ entries (port_entry list) labels.now (state_of world.now).ports) }
{
    let mut values = Vec::new(alloc);
    for no in 0..labels.len() {
        let port = world.port(PortNo(no as u32));
        let entry = port_entry(alloc, list, &labels[no], port)?;
        add(&mut values, entry)?;
    }
    Ok(values)
}

ghost use Rattle.std.specs.Prelude.{◌≡◌, ◌<◌, length, slice_get, IfOk};
ghost use Rattle.port_rows.specs.World.{state_of};
ghost use Rattle.serde_json.specs.View.{view, members_view};
ghost use Rattle.world_query.specs.Legend.{IsQueryOf, IsWorldOf, fields_of};
ghost use Rattle.part_view.specs.Bodies.{field_members, value_of, part_list, port_list, now_data, parts_data, part_data, field_data, buffers_data, progress_data, stuck_data, part_body, field_body, body_data};
ghost use Rattle.part_view.specs.declared.entries.PartList.TheVariants.{All, Agents, Cores, Busy};
ghost use Rattle.part_view.specs.declared.entries.PortList.TheVariants.{Lengths, Full};

use crate::entries::{PartList, PortList};
use crate::fields::{kind_word, values_of};
use crate::lists::{part_values, port_values};
use crate::part_viewer::PartViewer;
use crate::shown::Shown;
use crate::word::Word;
use part_kind::{LinkKind, Part};
use port_rows::World;
use serde_json::{Map, Value, json};
use sim_base::{OutOfMemory, PartNo, Time};
use std::alloc::Global;
use tick_law::Actor;
use world_query::{FieldNo, Query};

type PartWorld = World<Part, LinkKind>;

/// What these names show, as members of an object.
fn fields_object(
    alloc: Global,
    names: &[Word],
    values: &[Shown],
) -> Result<Map<String, Value>, OutOfMemory>
    ensures { IfOk result (λ m. members_view m.entries ≡ field_members names.now values.now) }
{
    let mut members = Map::new(alloc);
    for no in 0..names.len().min(values.len()) {
        let value = values[no].to_value(alloc)?;
        serde_json::put(&mut members, alloc, names[no].as_str(), value)?;
    }
    Ok(members)
}

/// All fields of a part, and whether it is done.
fn part_value(
    alloc: Global,
    name: &Word,
    names: &[Word],
    part: &Part,
    at: Time,
) -> Result<Value, OutOfMemory>
    ensures { IfOk result (λ v. view v ≡ part_data name.now names.now part.now at.0) }
{
    let fields = fields_object(alloc, names, values_of(part).as_slice())?;
    Ok(json!(in alloc; {
        "at": at.0, "done": part.done(), "fields": fields, "kind": kind_word(part), "name": name.as_str()
    })?)
}

/// What a field of a part shows.
fn value_of(alloc: Global, part: &Part, field: FieldNo) -> Result<Value, OutOfMemory>
    ensures { IfOk result (λ v. view v ≡ value_of part.now field.0) }
{
    let values = values_of(part);
    let shown = values.get(field.0 as usize).copied();
    shown.unwrap_or(Shown::Nothing).to_value(alloc)
}

fn field_value(
    alloc: Global,
    name: &Word,
    field: &Word,
    value: Value,
    at: Time,
) -> Result<Value, OutOfMemory>
    ensures { IfOk result (λ v. view v ≡ field_data name.now field.now (view value) at.0) }
{
    Ok(json!(in alloc; {
        "at": at.0, "field": field.as_str(), "name": name.as_str(), "value": value
    })?)
}

/// Who is not done, and what is full.
fn stuck_value(alloc: Global, busy: Value, full: Value, at: Time) -> Result<Value, OutOfMemory>
    ensures { IfOk result (λ v. view v ≡ stuck_data (view busy) (view full) at.0) }
{
    Ok(json!(in alloc; {"at": at.0, "busy": busy, "full": full})?)
}

impl PartViewer {
    fn part_list(
        &self,
        alloc: Global,
        world: &PartWorld,
        list: PartList,
    ) -> Result<Value, OutOfMemory>
        requires { IsWorldOf self.now (state_of world.now) }
        ensures { IfOk result (λ v. view v ≡ part_list self.now (state_of world.now) list) }
    {
        let values = part_values(alloc, list, &self.part_names, &world.parts)?;
        Ok(Value::Array(values))
    }

    fn port_list(
        &self,
        alloc: Global,
        world: &PartWorld,
        list: PortList,
    ) -> Result<Value, OutOfMemory>
        requires { IsWorldOf self.now (state_of world.now) }
        ensures { IfOk result (λ v. view v ≡ port_list self.now (state_of world.now) list) }
    {
        let values = port_values(alloc, list, &self.ports, world)?;
        Ok(Value::Array(values))
    }

    fn parts_body(&self, alloc: Global, world: &PartWorld, at: Time) -> Result<Value, OutOfMemory>
        requires { IsWorldOf self.now (state_of world.now) }
        ensures { IfOk result (λ v. view v
            ≡ parts_data (part_list self.now (state_of world.now) All) at.0) }
    {
        let parts = self.part_list(alloc, world, PartList::All)?;
        Ok(json!(in alloc; {"at": at.0, "parts": parts})?)
    }

    fn buffers_body(&self, alloc: Global, world: &PartWorld, at: Time) -> Result<Value, OutOfMemory>
        requires { IsWorldOf self.now (state_of world.now) }
        ensures { IfOk result (λ v. view v
            ≡ buffers_data (port_list self.now (state_of world.now) Lengths) at.0) }
    {
        let buffers = self.port_list(alloc, world, PortList::Lengths)?;
        Ok(json!(in alloc; {"at": at.0, "buffers": buffers})?)
    }

    fn progress_body(
        &self,
        alloc: Global,
        world: &PartWorld,
        at: Time,
    ) -> Result<Value, OutOfMemory>
        requires { IsWorldOf self.now (state_of world.now) }
        ensures { IfOk result (λ v. view v
            ≡ progress_data (part_list self.now (state_of world.now) Agents)
            (part_list self.now (state_of world.now) Cores) at.0) }
    {
        let agents = self.part_list(alloc, world, PartList::Agents)?;
        let cores = self.part_list(alloc, world, PartList::Cores)?;
        Ok(json!(in alloc; {"agents": agents, "at": at.0, "cores": cores})?)
    }

    fn stuck_body(&self, alloc: Global, world: &PartWorld, at: Time) -> Result<Value, OutOfMemory>
        requires { IsWorldOf self.now (state_of world.now) }
        ensures { IfOk result (λ v. view v
            ≡ stuck_data (part_list self.now (state_of world.now) Busy)
            (port_list self.now (state_of world.now) Full) at.0) }
    {
        let busy = self.part_list(alloc, world, PartList::Busy)?;
        let full = self.port_list(alloc, world, PortList::Full)?;
        stuck_value(alloc, busy, full, at)
    }

    fn part_body(
        &self,
        alloc: Global,
        world: &PartWorld,
        no: PartNo,
        at: Time,
    ) -> Result<Value, OutOfMemory>
        requires world { IsWorldOf self.now (state_of world.now) }
        requires query { no.0 < length self.now.part_names }
        ensures { IfOk result (λ v. view v
            ≡ part_body self.now no.0 (slice_get (state_of world.now).parts no.0) at.0) }
    {
        let place = no.0 as usize;
        let fields = &self.fields[place];
        part_value(
            alloc,
            &self.part_names[place],
            fields,
            &world.parts[place],
            at,
        )
    }

    fn field_body(
        &self,
        alloc: Global,
        world: &PartWorld,
        no: PartNo,
        field: FieldNo,
        at: Time,
    ) -> Result<Value, OutOfMemory>
        requires world { IsWorldOf self.now (state_of world.now) }
        requires part { no.0 < length self.now.part_names }
        requires field { field.0 < length (fields_of self.now no.0) }
        ensures { IfOk result (λ v. view v
            ≡ field_body self.now no.0 field.0 (slice_get (state_of world.now).parts no.0) at.0) }
    {
        let place = no.0 as usize;
        let name = &self.fields[place][field.0 as usize];
        let value = value_of(alloc, &world.parts[place], field)?;
        field_value(alloc, &self.part_names[place], name, value, at)
    }

    /// The JSON that answers a query.
    pub fn body(
        &self,
        alloc: Global,
        query: &Query,
        world: &PartWorld,
        at: Time,
    ) -> Result<Value, OutOfMemory>
        requires query { IsQueryOf self.now query.now }
        requires world { IsWorldOf self.now (state_of world.now) }
        ensures { IfOk result (λ v. view v
            ≡ body_data self.now query.now (state_of world.now) at.0) }
    {
        match *query {
            Query::Now => Ok(json!(in alloc; {"at": at.0})?),
            Query::Parts => self.parts_body(alloc, world, at),
            Query::Part(part) => self.part_body(alloc, world, part, at),
            Query::Field(part, field) => self.field_body(alloc, world, part, field, at),
            Query::Buffers => self.buffers_body(alloc, world, at),
            Query::Progress => self.progress_body(alloc, world, at),
            Query::Stuck => self.stuck_body(alloc, world, at),
        }
    }
}

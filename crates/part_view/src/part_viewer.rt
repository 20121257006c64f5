ghost use Rattle.std.specs.Prelude.{◌≡◌, ◌<◌, length, map, IfOk, All};
ghost use Rattle.world_query.specs.Legend.{legend_of, port_label};
ghost use Rattle.tick_law.specs.declared.port_plan.PortPlan.{PortPlan};
ghost use Rattle.part_view.specs.Bodies.{body_of};

use crate::label::Label;
use crate::word::Word;
use part_kind::{LinkKind, Part};
use port_rows::World;
use sim_base::{Body, Name, OutOfMemory, Time};
use std::alloc::Global;
use std::marker::Model;
use tick_law::{Plan, PortPlan};
use world_query::{Query, Viewer};

/// Who answers queries about the worlds of a plan. It keeps the plan's names, and the capacities of its ports.
#[derive(Drop)]
pub struct PartViewer {
    pub(crate) part_names: Vec<Word>,
    pub(crate) fields: Vec<Vec<Word>>,
    pub(crate) ports: Vec<Label>,
}

impl Model for PartViewer {
    ghost use Rattle.std.specs.Prelude.{◌≡◌, ◌≤◌, length, map};
    ghost use Rattle.world_query.specs.Legend.{Legend};

    ghost Value = { Legend };

    ghost view = { λ v. record { part_names = v.part_names.items; fields = map (λ f. f.items) v.fields.items; ports = v.ports.items } };

    ghost invariant = { λ v. (length v.fields.items ≡ length v.part_names.items) × (length v.ports.items ≤ 1024) };
}

fn words_of(alloc: Global, names: &[Name]) -> Result<Vec<Word>, OutOfMemory>
    ensures { IfOk result (λ v. v.items ≡ names.now) }
{
    let mut words = Vec::new(alloc);
    for name in names {
        words.push(Word::of(alloc, name)?)?;
    }
    Ok(words)
}

fn field_words(alloc: Global, fields: &[Vec<Name>]) -> Result<Vec<Vec<Word>>, OutOfMemory>
    ensures { IfOk result (λ v. map (λ f. f.items) v.items ≡ map (λ f. f.items) fields.now) }
{
    let mut words = Vec::new(alloc);
    for names in fields {
        words.push(words_of(alloc, names)?)?;
    }
    Ok(words)
}

fn labels_of(
    alloc: Global,
    part_names: &[Word],
    ports: &[PortPlan],
) -> Result<Vec<Label>, OutOfMemory>
    requires { All (λ (p : PortPlan). p.part.0 < length part_names.now) ports.now }
    ensures { IfOk result (λ v. v.items ≡ map (port_label part_names.now) ports.now) }
{
    let mut labels = Vec::new(alloc);
    for port in ports {
        labels.push(Label::of(alloc, part_names, port)?)?;
    }
    Ok(labels)
}

impl PartViewer {
    /// The viewer of a plan.
    pub fn open(alloc: Global, plan: &Plan<Part, LinkKind>) -> Result<PartViewer, OutOfMemory>
        ensures { IfOk result (λ viewer. viewer ≡ legend_of plan.now) }
    {
        let part_names = words_of(alloc, &plan.part_names)?;
        let fields = field_words(alloc, &plan.fields)?;
        let ports = labels_of(alloc, &part_names, &plan.ports)?;
        Ok(PartViewer {
            part_names,
            fields,
            ports,
        })
    }
}

impl Viewer<Part, LinkKind> for PartViewer {
    ghost legend = { λ v. v };

    ghost shown = { body_of };

    fn view(
        &self,
        alloc: Global,
        query: &Query,
        world: &World<Part, LinkKind>,
        at: Time,
    ) -> Result<Body, OutOfMemory> {
        let value = self.body(alloc, query, world, at)?;
        let text = value.to_vec(alloc)?;
        Ok(Body::of(text))
    }
}

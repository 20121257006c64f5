ghost use Rattle.std.specs.Prelude.{◌≡◌, ◌<◌, length, IfOk};
ghost use Rattle.world_query.specs.Legend.{port_label};

use crate::word::Word;
use sim_base::OutOfMemory;
use std::alloc::Global;
use std::marker::Model;
use tick_law::PortPlan;

/// A port as it is shown: its name `PART.PORT`, and the capacity of each of its lists.
#[derive(Drop)]
pub struct Label {
    pub name: Word,
    pub cap: u32,
}

impl Model for Label {
    ghost use Rattle.world_query.specs.Legend.{PortLabel};

    ghost Value = { PortLabel };

    ghost view = { λ l. record { name = l.name; cap = l.cap } };
}

impl Label {
    /// The label of a port of one of these parts.
    pub fn of(alloc: Global, part_names: &[Word], port: &PortPlan) -> Result<Label, OutOfMemory>
        requires { port.now.part.0 < length part_names.now }
        ensures { IfOk result (λ label. label ≡ port_label part_names.now port.now) }
    {
        let name = Word::of_port(alloc, &part_names[port.part.0 as usize], &port.word)?;
        Ok(Label {
            name,
            cap: port.cap,
        })
    }
}

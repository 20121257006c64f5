ghost use Rattle.part_kind.specs.Part.{part, IsValid, part_framed, part_stays, part_quiet, part_due_later, part_due_steady, part_period_within};

use cache_comp::Cache;
use mem_ctrl::Memory;
use port_msg::RecList;
use port_row::Ports;
use rv_core::Core;
use sim_base::Steps;
use std::sync::ledger::Ledger;
use tick_law::Actor;
use traffic_parts::{Agent, Relay};

/// A part of any kind.
#[derive(Drop)]
pub enum Part {
    Relay(Relay),
    Agent(Agent),
    Memory(Memory),
    Core(Core),
    Cache(Cache),
}

impl Actor for Part {
    ghost machine = { part };

    ghost valid = { IsValid };

    fn tick<L: Ledger>(
        &mut self,
        ports: &mut Ports,
        cycle: u64,
        recs: &mut RecList,
        steps: &mut Steps<L>,
    ) -> bool {
        match self {
            Part::Relay(relay) => relay.tick(ports, cycle, recs, steps),
            Part::Agent(agent) => agent.tick(ports, cycle, recs, steps),
            Part::Memory(memory) => memory.tick(ports, cycle, recs, steps),
            Part::Core(core) => core.tick(ports, cycle, recs, steps),
            Part::Cache(cache) => cache.tick(ports, cycle, recs, steps),
        }
    }

    fn due(&self, cycle: u64) -> Option<u64> {
        match self {
            Part::Relay(relay) => relay.due(cycle),
            Part::Agent(agent) => agent.due(cycle),
            Part::Memory(memory) => memory.due(cycle),
            Part::Core(core) => core.due(cycle),
            Part::Cache(cache) => cache.due(cycle),
        }
    }

    fn period(&self) -> u64 {
        match self {
            Part::Relay(relay) => relay.period(),
            Part::Agent(agent) => agent.period(),
            Part::Memory(memory) => memory.period(),
            Part::Core(core) => core.period(),
            Part::Cache(cache) => cache.period(),
        }
    }

    fn done(&self) -> bool {
        match self {
            Part::Relay(relay) => relay.done(),
            Part::Agent(agent) => agent.done(),
            Part::Memory(memory) => memory.done(),
            Part::Core(core) => core.done(),
            Part::Cache(cache) => cache.done(),
        }
    }

    fn known(&self) {
        match self {
            Part::Relay(relay) => relay.known(),
            Part::Agent(agent) => agent.known(),
            Part::Memory(memory) => memory.known(),
            Part::Core(core) => core.known(),
            Part::Cache(cache) => cache.known(),
        }
    }

    ghost framed = { part_framed };

    ghost stays = { part_stays };

    ghost quiet = { part_quiet };

    ghost due_later = { part_due_later };

    ghost due_steady = { part_due_steady };

    ghost period_within = { part_period_within };
}

ghost use Rattle.std.specs.Prelude.{◌≡◌, ◌≤◌, length, IfOk};
ghost use Rattle.direct_link.specs.Direct.{direct, IsDirect, opening};

use crate::port_index::PortIndex;
use crate::serving::serve_all;
use port_msg::RecList;
use port_row::Ports;
use sim_base::{ActorNo, LONGEST_PERIOD, OutOfMemory, PortList, Steps};
use std::alloc::Global;
use std::marker::Model;
use std::sync::ledger::Ledger;
use tick_law::Actor;

/// The most ports of a link.
pub const MOST_PORTS: usize = 1024;

/// What a direct link is opened with: its number, its period in picoseconds, and its ports in order, 1 to 1024 different ones.
#[derive(Drop)]
pub struct DirectText {
    pub actor: ActorNo,
    pub period: u64,
    pub ports: PortList,
}

/// A link that moves each message as soon as its target has room, in turn from a pointer that moves on with each step in
/// which messages were moved.
#[derive(Drop)]
pub struct Direct {
    index: PortIndex,
    period: u64,
    pointer: u32,
    moved: u64,
}

impl Model for Direct {
    ghost use Rattle.direct_link.specs.Direct.{DirectState, IsDirect};

    ghost Value = { DirectState };

    ghost view = { λ r. record { numbers = r.index; period = r.period; pointer = r.pointer; moved = r.moved } };

    ghost invariant = { λ r. IsDirect (record { numbers = r.index; period = r.period; pointer = r.pointer; moved = r.moved }) };
}

impl Direct {
    /// A link that has moved nothing and serves its first port first.
    pub fn open(alloc: Global, text: &DirectText) -> Result<Direct, OutOfMemory>
        requires some { 1 ≤ text.now.period }
        requires short { text.now.period ≤ LONGEST_PERIOD }
        requires few { length text.now.ports ≤ MOST_PORTS }

        ensures { IfOk result (λ link. link ≡ opening text.now) }
    {
        let index = PortIndex::open(alloc, text.ports.items())?;
        Ok(Direct {
            index,
            period: text.period,
            pointer: 0,
            moved: 0,
        })
    }

    /// How many messages it has moved. The count stays at its greatest number.
    pub fn moved(&self) -> u64
        ensures { result ≡ self.now.moved }
    {
        self.moved
    }

    /// The place among its ports of the one that is served first in the next step.
    pub fn pointer(&self) -> u32
        ensures { result ≡ self.now.pointer }
    {
        self.pointer
    }
}

impl Actor for Direct {
    ghost use Rattle.direct_link.specs.DirectLaws.{direct_framed, direct_stays, direct_quiet};

    ghost machine = { direct };

    ghost valid = { IsDirect };

    fn tick<L: Ledger>(
        &mut self,
        ports: &mut Ports,
        _cycle: u64,
        recs: &mut RecList,
        steps: &mut Steps<L>,
    ) -> bool {
        steps.charge();
        let moved = serve_all(&self.index, self.pointer as usize, ports, recs);
        if moved == 0 {
            return false;
        }
        self.pointer = (self.pointer + 1) % (self.index.len() as u32);
        self.moved = self.moved.saturating_add(moved as u64);
        true
    }

    fn due(&self, _cycle: u64) -> Option<u64> {
        None
    }

    fn period(&self) -> u64 {
        self.period
    }

    fn done(&self) -> bool {
        true
    }

    fn known(&self) {
        let _period = &self.period;
    }

    ghost framed = { direct_framed };

    ghost stays = { direct_stays };

    ghost quiet = { direct_quiet };

    ghost due_later = { λ s n t v e. Prim.cc };

    ghost due_steady = { λ s n k v l h. Prim.cc };

    ghost period_within = { λ s v. (v.0, v.1) };
}

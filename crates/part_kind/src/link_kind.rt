ghost use Rattle.part_kind.specs.LinkKind.{link, IsValid, link_framed, link_stays, link_quiet, link_due_later, link_due_steady, link_period_within};

use direct_link::Direct;
use port_msg::RecList;
use port_row::Ports;
use sim_base::Steps;
use std::sync::ledger::Ledger;
use tick_law::Actor;

/// A link of any kind.
#[derive(Drop)]
pub enum LinkKind {
    Direct(Direct),
}

impl Actor for LinkKind {
    ghost machine = { link };

    ghost valid = { IsValid };

    fn tick<L: Ledger>(
        &mut self,
        ports: &mut Ports,
        cycle: u64,
        recs: &mut RecList,
        steps: &mut Steps<L>,
    ) -> bool {
        match self {
            LinkKind::Direct(direct) => direct.tick(ports, cycle, recs, steps),
        }
    }

    fn due(&self, cycle: u64) -> Option<u64> {
        match self {
            LinkKind::Direct(direct) => direct.due(cycle),
        }
    }

    fn period(&self) -> u64 {
        match self {
            LinkKind::Direct(direct) => direct.period(),
        }
    }

    fn done(&self) -> bool {
        match self {
            LinkKind::Direct(direct) => direct.done(),
        }
    }

    fn known(&self) {
        match self {
            LinkKind::Direct(direct) => direct.known(),
        }
    }

    ghost framed = { link_framed };

    ghost stays = { link_stays };

    ghost quiet = { link_quiet };

    ghost due_later = { link_due_later };

    ghost due_steady = { link_due_steady };

    ghost period_within = { link_period_within };
}

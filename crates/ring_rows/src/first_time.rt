ghost use Rattle.std.specs.Prelude.{◌≡◌, ◌+◌, IfOk, OnOk};
ghost use Rattle.port_rows.specs.World.{state_of};
ghost use Rattle.ring_rows.specs.Lone.{lone_after_one};

use crate::lone::lone_plan;
use part_kind::{LinkKind, Part};
use run_gear::{Ending, Kept, RunFault};
use serial_loop::run_serial;
use sim_base::{Name, Steps, Time};
use sim_io::Sink;
use std::alloc::Global;
use std::sync::ledger::Ledger;
use tick_law::Verdict;

/// Runs time 0 of the ring of one relay: the token is sent and comes back, which takes two steps, and there is more to do.
pub fn lone_first_time<K: Sink, L: Ledger>(
    alloc: Global,
    name: Name,
    sink: &mut K,
    steps: &mut Steps<L>,
) -> Result<Ending<Part, LinkKind>, RunFault>
    ensures world { IfOk result (λ e. state_of e.world ≡ lone_after_one) }
    ensures verdict { IfOk result (λ e. e.verdict ≡ Verdict.Cut) }
    ensures end { IfOk result (λ e. e.end.0 ≡ 0) }
    ensures steps { OnOk result (steps.new ≡ steps.old + 2) }
{
    let plan = lone_plan(alloc, name, Time(0))?;
    let kept = Kept {
        all: false,
        stats: None,
    };
    run_serial(alloc, plan, kept, sink, steps)
}

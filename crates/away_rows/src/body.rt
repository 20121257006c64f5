ghost use Rattle.std.specs.Prelude.{◌≡◌, ◌+◌, ◌*◌, ◌≤◌, length};
ghost use Rattle.sim_base.specs.declared.time.TheConstants.{LATEST_TICK};
ghost use Rattle.away_rows.specs.Bodies.{body_step, body_after};

use port_msg::RecList;
use port_row::Ports;
use sim_base::{ActorNo, Steps, Time};
use std::sync::ledger::Ledger;
use tick_law::Actor;

/// An actor with what it takes along for a step: a row for its ports, and room for the records of a step. While the actor is at
/// home the row has ports that nobody uses.
#[derive(Drop)]
pub struct Body<S: Drop> {
    pub actor: S,
    pub row: Ports,
    pub recs: RecList,
}

impl<S: Actor + Drop> Body<S> {
    /// The step of this actor, number `who` of all, at its edge `t` (picoseconds). One step is charged. The answer says whether
    /// it made progress.
    pub fn step<L: Ledger>(body: &mut Body<S>, who: ActorNo, t: u64, steps: &mut Steps<L>) -> bool
        requires own { length body.old.row.ports ≡ S.machine.own body.old.actor }
        requires time { t ≤ LATEST_TICK }
        requires room { length body.old.recs.items + 64 * length body.old.row.ports
            ≤ body.old.recs.room }

        ensures body { body.new ≡ body_after S.machine who.0 t body.old }
        ensures flag { result ≡ (body_step S.machine t body.old).flag }
        ensures long { length body.new.row.ports ≡ length body.old.row.ports }
        ensures steps { steps.new ≡ steps.old + 1 }
    {
        body.recs.begin(Time(t), who);
        let period = body.actor.period();
        body.actor
            .tick(&mut body.row, t / period, &mut body.recs, steps)
    }
}

ghost use Rattle.std.specs.Prelude.{◌≡◌, ℕ, List, IfOk};
ghost use Rattle.port_rows.specs.World.{state_of};
ghost use Rattle.tick_law.specs.SerialLoop.{WorldState};
ghost use Rattle.world_query.specs.declared.query.Query.{Query};
ghost use Rattle.world_query.specs.Legend.{Legend, IsQueryOf, IsWorldOf};

use crate::query::Query;
use port_rows::World;
use sim_base::{Body, OutOfMemory, Time};
use std::alloc::Global;
use tick_law::Actor;

/// Who answers queries about the worlds of one plan.
pub trait Viewer<P: Actor + Drop, N: Actor + Drop> {
    /// What it knows of its plan. It is a viewer of each plan that has this legend.
    ghost legend: { Self → Legend };

    /// The body that answers a query about a world at a boundary.
    ghost shown: { Self → Query → WorldState P N → ℕ → List ℕ };

    /// Answers a query about a world of its plan, at a boundary in picoseconds.
    fn view(
        &self,
        alloc: Global,
        query: &Query,
        world: &World<P, N>,
        at: Time,
    ) -> Result<Body, OutOfMemory>
        requires query { IsQueryOf (legend self.now) query.now }
        requires world { IsWorldOf (legend self.now) (state_of world.now) }
        ensures { IfOk result (λ body. body ≡ shown self.now query.now (state_of world.now) at.0) };
}

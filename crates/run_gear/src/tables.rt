ghost use Rattle.std.specs.Prelude.{◌≡◌, ℕ, map, IfOk, Some, slice_get};

use actor_turn::beat::Beat;
use sim_base::OutOfMemory;
use std::alloc::Global;
use tick_law::Actor;

/// The periods of these actors, in picoseconds.
pub fn periods<S: Actor>(alloc: Global, actors: &[S]) -> Result<Vec<u64>, OutOfMemory>
    ensures each { IfOk result (λ v. v.items ≡ map S.machine.period actors.now) }
{
    let mut periods = Vec::with_capacity(alloc, actors.len())?;
    for actor in actors {
        periods.push(actor.period())?;
    }
    Ok(periods)
}

/// The first edge of the first actor's clock.
pub fn first_beat<S: Actor>(actors: &[S]) -> Beat {
    match actors.first() {
        Some(actor) => Beat::of(actor.period()),
        None => Beat::of(1),
    }
}

/// Tells contracts that these states are ones that the actors can be in.
pub fn all_known<S: Actor>(actors: &[S])
    ensures { (i : ℕ) (s : S) → slice_get actors.now i ≡ Some s → S.valid s }
{
    for actor in actors {
        actor.known();
    }
}

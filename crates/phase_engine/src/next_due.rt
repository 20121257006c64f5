ghost use Rattle.std.specs.Prelude.{◌≡◌, ℕ, ◌<◌, ◌≤◌, ◌⊎◌, Some};
ghost use Rattle.sim_base.specs.declared.time.Time.{Time};
ghost use Rattle.event_queue.specs.NextTimes.{time_of};
ghost use Rattle.phase_engine.specs.RunGear.{IsDueBy};

use event_queue::NextTimes;
use sim_base::Steps;
use std::sync::ledger::Ledger;

/// The first time from `at` at which somebody is due, or the bound where that is no later.
pub fn next_due<M: Ledger>(next: &NextTimes, at: u64, bound: u64, looks: &mut Steps<M>) -> u64
    requires { at ≤ bound }
    ensures from { at ≤ result }
    ensures within { result ≤ bound }
    ensures none { at < result → (i : ℕ) (t : Time) → time_of next.now i ≡ Some t → result ≤ t.0 }
    ensures due { (result ≡ bound) ⊎ IsDueBy next.now result }
{
    match next.first(0, looks) {
        Some((time, _)) => time.0.max(at).min(bound),
        None => bound,
    }
}

ghost use Rattle.std.specs.Prelude.{◌≡◌, ◌&&◌, false};
ghost use Rattle.tick_law.specs.Verdict.{all_done, verdict_by};

use tick_law::{Actor, Verdict};

fn both(a: bool, b: bool) -> bool
    ensures { result ≡ (a && b) }
{
    a && b
}

/// Whether every actor is done.
pub fn are_done<S: Actor>(actors: &[S]) -> bool
    ensures { result ≡ all_done S.machine actors.now }
{
    let mut done = true;
    for actor in actors {
        done = both(done, actor.done());
    }
    done
}

/// The verdict where nobody has a next time.
pub fn verdict_at_rest(done: bool) -> Verdict
    ensures { result ≡ verdict_by false done }
{
    if done {
        Verdict::Finished
    } else {
        Verdict::Stuck
    }
}

ghost use Rattle.std.specs.Prelude.{◌≡◌, ◌<◌, ◌||◌, length, replicate, slice_set, IfOk, Some};
ghost use Rattle.model_laws.specs.NextTable.{next_at_place};
ghost use Rattle.serial_loop.specs.HasNext.{has_next};

use sim_base::OutOfMemory;
use std::alloc::Global;
use std::marker::Model;

/// The next time or none of each actor of one side, in picoseconds.
#[derive(Drop)]
pub struct NextTable {
    times: Vec<Option<u64>>,
}

impl Model for NextTable {
    ghost use Rattle.std.specs.Prelude.{ℕ, List, Option};

    ghost Value = { List (Option ℕ) };

    ghost view = { λ t. t.times.items };
}

/// The next times of both sides.
#[derive(Drop)]
pub struct NextTables {
    pub parts: NextTable,
    pub links: NextTable,
}

impl NextTable {
    /// A next time of 0 for each of so many actors.
    pub fn open(alloc: Global, count: usize) -> Result<NextTable, OutOfMemory>
        ensures { IfOk result (λ t. t ≡ replicate count (Some 0)) }
    {
        let mut times = Vec::with_capacity(alloc, count)?;
        for _ in 0..count {
            times.push(Some(0))?;
        }
        Ok(NextTable { times })
    }

    /// The next time of an actor, or None where it has none.
    pub fn get(&self, no: u32) -> Option<u64>
        requires { no < length self.now }
        ensures { result ≡ next_at_place self.now no }
    {
        self.times[no as usize]
    }

    /// Sets the next time of an actor.
    pub fn set(&mut self, no: u32, time: Option<u64>)
        requires { no < length self.old }
        ensures { self.new ≡ slice_set self.old no time }
    {
        self.times[no as usize] = time;
    }

    /// Whether some actor has a next time.
    pub fn any(&self) -> bool
        ensures { result ≡ has_next self.now }
    {
        any_next(&self.times)
    }
}

fn any_next(next: &[Option<u64>]) -> bool
    ensures { result ≡ has_next next.now }
{
    let mut found = false;
    for no in 0..next.len() {
        found = found || next[no].is_some();
    }
    found
}

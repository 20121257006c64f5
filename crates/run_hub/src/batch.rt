//! The tasks of one turn.
ghost use Rattle.std.specs.Prelude.{◌≡◌, ◌+◌, ◌<◌, ◌≤◌, ◌++◌, [], ◌∷◌, length, drop, slice_get, IfOk};
ghost use Rattle.tick_law.specs.SerialLoop.{pick};
ghost use Rattle.run_hub.specs.Batch.{empty_batch, has_some, worked};

use crate::task::{Done, Task, work};
use circular_buffer::HeapCircularBuffer;
use sim_base::{OutOfMemory, Steps};
use std::alloc::Global;
use std::marker::Model;
use std::sync::ledger::Ledger;
use tick_law::{Actor, Charter};

/// How many tasks and steps a batch has room for.
pub const BATCH_ROOM: usize = 8;

/// Room for the tasks of one turn, and for the steps that were made of them, in their order. Its memory is taken in `open`.
#[derive(Drop)]
pub struct Batch<P: Actor + Drop, N: Actor + Drop, C: Charter<P, N>> {
    tasks: HeapCircularBuffer<Task<P, N, C>>,
    dones: HeapCircularBuffer<Done<P, N, C>>,
}

impl<P: Actor + Drop, N: Actor + Drop, C: Charter<P, N>> Model for Batch<P, N, C> {
    ghost use Rattle.std.specs.Prelude.{◌≡◌, ◌+◌, ◌≤◌, length};
    ghost use Rattle.run_hub.specs.declared.batch.TheConstants.{BATCH_ROOM};
    ghost use Rattle.run_hub.specs.Batch.{BatchView};

    ghost Value = { BatchView };

    ghost view = { λ b. record { tasks = b.tasks.items; dones = b.dones.items } };

    ghost invariant = { λ b. (b.tasks.capacity ≡ BATCH_ROOM) × (b.dones.capacity ≡ BATCH_ROOM) × (length b.tasks.items + length b.dones.items ≤ BATCH_ROOM) };
}

impl<P: Actor + Drop, N: Actor + Drop, C: Charter<P, N>> Batch<P, N, C> {
    /// There are no tasks, and no steps.
    pub fn open(alloc: Global) -> Result<Batch<P, N, C>, OutOfMemory>
        ensures { IfOk result (λ batch. batch ≡ empty_batch) }
    {
        let tasks = HeapCircularBuffer::with_capacity(alloc, BATCH_ROOM)?;
        let dones = HeapCircularBuffer::with_capacity(alloc, BATCH_ROOM)?;
        Ok(Batch { tasks, dones })
    }

    /// Makes the step of the first task, which is then the last of the steps that were made. One step is charged. False, with nothing
    /// changed, where there is no task. It takes no memory.
    pub fn work_one<L: Ledger>(&mut self, steps: &mut Steps<L>) -> bool
        ensures some { result ≡ has_some self.old.tasks }
        ensures worked { self.new ≡ worked self.old }
        ensures steps { steps.new ≡ steps.old + pick result 1 0 }
    {
        let Some(task) = self.tasks.pop_front() else {
            return false;
        };
        let kept = self.dones.try_push_back(work(task, steps));
        prove!(kept.is_ok());
        true
    }

    /// Puts a task behind the others.
    pub(crate) fn put(&mut self, task: Task<P, N, C>)
        requires { length self.old.tasks + length self.old.dones < BATCH_ROOM }
        ensures { self.new ≡ record self.old { tasks = self.old.tasks ++ task ∷ [] } }
    {
        let kept = self.tasks.try_push_back(task);
        prove!(kept.is_ok());
    }

    /// Takes the first of the steps that were made, or answers None where there is none.
    pub(crate) fn take_done(&mut self) -> Option<Done<P, N, C>>
        ensures first { result ≡ slice_get self.old.dones 0 }
        ensures rest { self.new ≡ record self.old { dones = drop 1 self.old.dones } }
        ensures few { length self.old.dones ≤ BATCH_ROOM }
    {
        self.dones.pop_front()
    }
}

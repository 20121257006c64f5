ghost use Rattle.std.specs.Prelude.{◌≡◌, IfOk};

use port_msg::RecList;
use port_row::Ports;
use sim_base::{OutOfMemory, Steps};
use std::alloc::Global;
use std::marker::Model;
use std::sync::Arc;
use std::sync::atomic::{AtomicU64, Ordering};
use std::sync::ledger::Ledger;
use tick_law::{Actor, Plan};

/// An actor that counts its ticks in a word that it shares with others. All else is that of the actor inside.
#[derive(Drop)]
pub struct Counted<S: Actor + Drop> {
    inner: S,
    ticks: Arc<AtomicU64, Global>,
}

impl<S: Actor + Drop> Model for Counted<S> {
    ghost Value = { S };

    ghost view = { λ c. c.inner };
}

impl<S: Actor + Drop> Counted<S> {
    /// An actor whose ticks are counted in this word.
    pub fn of(inner: S, ticks: &Arc<AtomicU64, Global>) -> Result<Self, OutOfMemory>
        ensures { IfOk result (λ counted. counted ≡ inner) }
    {
        let ticks = Arc::try_clone(ticks)?;
        Ok(Counted { inner, ticks })
    }

    /// The actor inside.
    pub fn inner(&self) -> &S
        ensures { result.now ≡ self.now }
    {
        &self.inner
    }
}

impl<S: Actor + Drop> Actor for Counted<S> {
    ghost machine = { S.machine };

    ghost valid = { S.valid };

    fn tick<L: Ledger>(
        &mut self,
        ports: &mut Ports,
        cycle: u64,
        recs: &mut RecList,
        steps: &mut Steps<L>,
    ) -> bool {
        let _before = self.ticks.fetch_add(1, Ordering::SeqCst);
        self.inner.tick(ports, cycle, recs, steps)
    }

    fn due(&self, cycle: u64) -> Option<u64> {
        self.inner.due(cycle)
    }

    fn period(&self) -> u64 {
        self.inner.period()
    }

    fn done(&self) -> bool {
        self.inner.done()
    }

    fn known(&self) {
        self.inner.known();
    }

    ghost framed = { S.framed };

    ghost stays = { S.stays };

    ghost quiet = { S.quiet };

    ghost due_later = { S.due_later };

    ghost due_steady = { S.due_steady };

    ghost period_within = { S.period_within };
}

fn all_counted<S: Actor + Drop>(
    alloc: Global,
    actors: Vec<S>,
    ticks: &Arc<AtomicU64, Global>,
) -> Result<Vec<Counted<S>>, OutOfMemory>
    ensures { IfOk result (λ counted. counted.items ≡ actors.items) }
{
    let mut counted = Vec::with_capacity(alloc, actors.len())?;
    for actor in actors {
        counted.push(Counted::of(actor, ticks)?)?;
    }
    Ok(counted)
}

/// The same plan, of actors whose ticks are counted in this word.
pub fn counted_plan<P: Actor + Drop, N: Actor + Drop>(
    alloc: Global,
    plan: Plan<P, N>,
    ticks: &Arc<AtomicU64, Global>,
) -> Result<Plan<Counted<P>, Counted<N>>, OutOfMemory>
    ensures { IfOk result (λ counted. counted ≡ plan) }
{
    let Plan {
        parts,
        links,
        part_names,
        link_names,
        fields,
        ports,
        own,
        until,
    } = plan;
    let parts = all_counted(alloc, parts, ticks)?;
    let links = all_counted(alloc, links, ticks)?;
    Ok(Plan {
        parts,
        links,
        part_names,
        link_names,
        fields,
        ports,
        own,
        until,
    })
}

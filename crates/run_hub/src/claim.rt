//! A claim: the step of an actor that is due is handed out, or it is told why there is none.
ghost use Rattle.std.specs.Prelude.{◌≡◌, ◌<◌, ◌^◌, length, false};
ghost use Rattle.tick_law.specs.PlanView.{system_from};
ghost use Rattle.hub_floor.specs.Floor.{hub_state, RestsOf};
ghost use Rattle.run_hub.specs.Stands.{PartsOpen, LinksOpen, IsPass, Stands, WentOn};
ghost use Rattle.run_hub.specs.Claims.{count_in, ClaimsInPass, Claims};

use crate::task::{Away, Task, TaskName};
use bit_set::BitSet;
use hub_floor::{Begun, Floor, begin_time, link_out, part_out};
use hub_laws::Stage;
use sim_base::{ActorNo, Phase, Steps, Time};
use std::marker::PhantomData;
use std::sync::ledger::{Blank, Ledger};
use tick_law::{Actor, Charter};

/// Why there is no task now.
#[derive(Clone, Copy, Debug, PartialEq, Eq, Drop)]
pub enum Why {
    /// So many tasks are out, and nobody else is due in the pass that is open.
    Running(u32),
    /// It is paused.
    Paused,
    /// So many want to look first.
    Held(u32),
}

/// What a claim answers.
#[derive(Drop)]
pub enum Claim<P: Actor + Drop, N: Actor + Drop, C: Charter<P, N>> {
    Got(Task<P, N, C>),
    Wait(Why),
    /// The run is over.
    Over,
}

/// How many are in a set.
fn count_in(set: &BitSet) -> u32
    requires { length set.now < 2 ^ 32 }
    ensures { result ≡ count_in set.now }
{
    let mut count = 0;
    let mut at = 0;
    while let Some(no) = set.next(at) {
        count += 1;
        at = no + 1;
    }
    count
}

/// In the pass of the parts, the one of least number that waits goes out.
fn claim_part<P: Actor + Drop, N: Actor + Drop, C: Charter<P, N>>(
    floor: &mut Floor<P, N>,
) -> Claim<P, N, C>
    requires pass { PartsOpen (system_from P.machine N.machine C.plan C.start)
        P.valid N.valid C.plan.until floor.old }

    ensures pass { PartsOpen (system_from P.machine N.machine C.plan C.start)
        P.valid N.valid C.plan.until floor.new }
    ensures claims { ClaimsInPass (length C.start.world.parts)
        (hub_state floor.old) (hub_state floor.new) result }
    ensures at { floor.new.at ≡ floor.old.at }
{
    let Some(no) = floor.part_marks.waiting.next(0) else {
        return Claim::Wait(Why::Running(count_in(&floor.part_marks.out)));
    };
    let no = no as u32;
    let name = TaskName {
        at: Time(floor.at),
        phase: Phase::Primary,
        actor: ActorNo(no),
    };
    let body = part_out::<P, N, C>(floor, no);
    Claim::Got(Task {
        name,
        no,
        away: Away::Part(body),
        of: PhantomData,
    })
}

/// In the pass of the links, the one of least number that waits goes out.
fn claim_link<P: Actor + Drop, N: Actor + Drop, C: Charter<P, N>>(
    floor: &mut Floor<P, N>,
) -> Claim<P, N, C>
    requires pass { LinksOpen (system_from P.machine N.machine C.plan C.start)
        P.valid N.valid C.plan.until floor.old }

    ensures pass { LinksOpen (system_from P.machine N.machine C.plan C.start)
        P.valid N.valid C.plan.until floor.new }
    ensures claims { ClaimsInPass (length C.start.world.parts)
        (hub_state floor.old) (hub_state floor.new) result }
    ensures at { floor.new.at ≡ floor.old.at }
{
    let Some(no) = floor.link_marks.waiting.next(0) else {
        return Claim::Wait(Why::Running(count_in(&floor.link_marks.out)));
    };
    let no = no as u32;
    let name = TaskName {
        at: Time(floor.at),
        phase: Phase::Secondary,
        actor: ActorNo(floor.link_side.first + no),
    };
    let body = link_out::<P, N, C>(floor, no);
    Claim::Got(Task {
        name,
        no,
        away: Away::Link(body),
        of: PhantomData,
    })
}

/// In the pass that is open, the one of least number that waits goes out.
pub(crate) fn claim_opened<P: Actor + Drop, N: Actor + Drop, C: Charter<P, N>>(
    floor: &mut Floor<P, N>,
) -> Claim<P, N, C>
    requires pass { IsPass (system_from P.machine N.machine C.plan C.start)
        P.valid N.valid C.plan.until floor.old }

    ensures stands { Stands (system_from P.machine N.machine C.plan C.start)
        P.valid N.valid C.plan.until floor.new }
    ensures claims { ClaimsInPass (length C.start.world.parts)
        (hub_state floor.old) (hub_state floor.new) result }
    ensures at { floor.new.at ≡ floor.old.at }
    ensures written { floor.new.failed ≡ false }
{
    match floor.stage {
        Stage::Primary => claim_part(floor),
        Stage::Secondary => claim_link(floor),
        Stage::Boundary | Stage::Over => unreachable!(),
    }
}

/// At a boundary the least time begins, and its actor of least number goes out; or the run is over, or it waits.
fn claim_time<P: Actor + Drop, N: Actor + Drop, C: Charter<P, N>, M: Ledger>(
    floor: &mut Floor<P, N>,
    until: u64,
    looks: &mut Steps<M>,
) -> Claim<P, N, C>
    requires floor { RestsOf (system_from P.machine N.machine C.plan C.start)
        P.valid N.valid C.plan.until floor.old }
    requires stage { floor.old.stage ≡ Stage.Boundary }
    requires until { until ≡ C.plan.until }

    ensures stands { Stands (system_from P.machine N.machine C.plan C.start)
        P.valid N.valid C.plan.until floor.new }
    ensures claims { Claims (length C.start.world.parts) C.plan.until
        (hub_state floor.old) (hub_state floor.new) result }
    ensures on { WentOn (system_from P.machine N.machine C.plan C.start) floor.old floor.new }
{
    match begin_time::<P, N, C, M>(floor, until, looks) {
        Begun::Opened => claim_opened(floor),
        Begun::Over => Claim::Over,
        Begun::Paused => Claim::Wait(Why::Paused),
        Begun::Held(wants) => Claim::Wait(Why::Held(wants)),
    }
}

/// What a claim answers, wherever the run has come.
pub(crate) fn claim_from<P: Actor + Drop, N: Actor + Drop, C: Charter<P, N>, M: Ledger>(
    floor: &mut Floor<P, N>,
    until: u64,
    looks: &mut Steps<M>,
) -> Claim<P, N, C>
    requires stands { Stands (system_from P.machine N.machine C.plan C.start)
        P.valid N.valid C.plan.until floor.old }
    requires until { until ≡ C.plan.until }

    ensures stands { Stands (system_from P.machine N.machine C.plan C.start)
        P.valid N.valid C.plan.until floor.new }
    ensures claims { Claims (length C.start.world.parts) C.plan.until
        (hub_state floor.old) (hub_state floor.new) result }
    ensures on { WentOn (system_from P.machine N.machine C.plan C.start) floor.old floor.new }
{
    match floor.stage {
        Stage::Boundary => claim_time(floor, until, looks),
        Stage::Primary => claim_part(floor),
        Stage::Secondary => claim_link(floor),
        Stage::Over => Claim::Over,
    }
}

/// The same, where looks at the next times are counted by a counter that is made of `blank`.
pub(crate) fn claim_with<P: Actor + Drop, N: Actor + Drop, C: Charter<P, N>, M: Ledger>(
    floor: &mut Floor<P, N>,
    until: u64,
    blank: Blank,
) -> Claim<P, N, C>
    requires name { blank.name ≡ M.name }
    requires parts { blank.parts ≡ M.parts }
    requires some { 0 < blank.parts }
    requires stands { Stands (system_from P.machine N.machine C.plan C.start)
        P.valid N.valid C.plan.until floor.old }
    requires until { until ≡ C.plan.until }

    ensures stands { Stands (system_from P.machine N.machine C.plan C.start)
        P.valid N.valid C.plan.until floor.new }
    ensures claims { Claims (length C.start.world.parts) C.plan.until
        (hub_state floor.old) (hub_state floor.new) result }
    ensures on { WentOn (system_from P.machine N.machine C.plan C.start) floor.old floor.new }
{
    let mut looks = Steps::<M>::open(blank);
    claim_from(floor, until, &mut looks)
}

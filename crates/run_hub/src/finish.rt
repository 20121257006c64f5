//! A finish: an actor that was out is back, and what follows happens.
ghost use Rattle.std.specs.Prelude.{◌≡◌, ◌+◌, ◌==◌, ◌<◌, length, true, false};
ghost use Rattle.bit_set.specs.Bits.{is_in};
ghost use Rattle.tick_law.specs.PlanView.{system_from};
ghost use Rattle.tick_law.specs.Course.{part_course, link_course};
ghost use Rattle.away_rows.specs.SidePass.{IsAfter};
ghost use Rattle.trace_out.specs.Names.{actors_of};
ghost use Rattle.hub_floor.specs.Floor.{hub_state};
ghost use Rattle.run_hub.specs.GoesOn.{trace_view};
ghost use Rattle.run_hub.specs.Stands.{PartsOpen, LinksOpen, Stands};
ghost use Rattle.run_hub.specs.Written.{IsWritten};
ghost use Rattle.run_hub.specs.Finishes.{pass_of, part_is_out, link_is_out, is_out, PartFinishes, LinkFinishes, GoneOn, finished, Finishes};

use crate::opening::Opening;
use crate::task::{Away, Done};
use crate::trace::Trace;
use crate::turn::{after_link, after_part};
use away_rows::Body;
use bit_set::BitSet;
use hub_floor::{Floor, link_back, part_back};
use hub_laws::Stage;
use sim_base::{Phase, Steps, Time};
use sim_io::Sink;
use std::sync::ledger::{Blank, Ledger};
use tick_law::{Actor, Charter};

/// What a finish answers.
#[derive(Drop)]
pub enum Finish<P: Actor + Drop, N: Actor + Drop, C: Charter<P, N>> {
    /// The actor is back.
    Taken,
    /// This step is not out here. It is given back, with the pass that is open, or None between passes.
    NotOut {
        done: Done<P, N, C>,
        now: Option<(Time, Phase)>,
    },
}

/// The pass that is open, or None between passes.
pub(crate) fn pass_of(stage: Stage, t: u64) -> Option<(Time, Phase)>
    ensures { result ≡ pass_of stage t }
{
    match stage {
        Stage::Primary => Some((Time(t), Phase::Primary)),
        Stage::Secondary => Some((Time(t), Phase::Secondary)),
        Stage::Boundary | Stage::Over => None,
    }
}

/// Whether a number is in a set of so many.
fn has(set: &BitSet, count: usize, no: u32) -> bool
    requires { count ≡ length set.now }
    ensures { result ≡ is_in set.now no }
{
    let no = no as usize;
    if no < count { set.has(no) } else { false }
}

/// Whether part `no` is out for its step at `t`.
fn is_part_out<P: Actor + Drop, N: Actor + Drop, C: Charter<P, N>>(
    floor: &Floor<P, N>,
    t: u64,
    no: u32,
) -> bool
    requires { Stands (system_from P.machine N.machine C.plan C.start)
        P.valid N.valid C.plan.until floor.now }
    ensures { result ≡ part_is_out (hub_state floor.now) t no }
{
    match floor.stage {
        Stage::Primary => {
            let out = has(&floor.part_marks.out, floor.parts.len(), no);
            floor.at == t && out
        }
        Stage::Boundary | Stage::Secondary | Stage::Over => false,
    }
}

/// Whether link `no` is out for its step at `t`.
fn is_link_out<P: Actor + Drop, N: Actor + Drop, C: Charter<P, N>>(
    floor: &Floor<P, N>,
    t: u64,
    no: u32,
) -> bool
    requires { Stands (system_from P.machine N.machine C.plan C.start)
        P.valid N.valid C.plan.until floor.now }
    ensures { result ≡ link_is_out (hub_state floor.now) t no }
{
    match floor.stage {
        Stage::Secondary => {
            let out = has(&floor.link_marks.out, floor.links.len(), no);
            floor.at == t && out
        }
        Stage::Boundary | Stage::Primary | Stage::Over => false,
    }
}

/// Whether the actor of a step is out for it.
fn is_out<P: Actor + Drop, N: Actor + Drop, C: Charter<P, N>>(
    floor: &Floor<P, N>,
    done: &Done<P, N, C>,
) -> bool
    requires { Stands (system_from P.machine N.machine C.plan C.start)
        P.valid N.valid C.plan.until floor.now }
    ensures { result ≡ is_out (length C.start.world.parts) (hub_state floor.now) done.now }
{
    let t = done.name.at.0;
    match &done.away {
        Away::Part(_) => is_part_out::<P, N, C>(floor, t, done.no),
        Away::Link(_) => is_link_out::<P, N, C>(floor, t, done.no),
    }
}

/// Part `no` is back from its step, which made progress or not. Where all parts are back the links' pass opens, or the time is over.
fn finish_part<P: Actor + Drop, N: Actor + Drop, C: Charter<P, N>, K: Sink + Drop, M: Ledger>(
    floor: &mut Floor<P, N>,
    trace: &mut Trace<K>,
    no: u32,
    body: Box<Body<P>>,
    flag: bool,
    looks: &mut Steps<M>,
)
    requires pass { PartsOpen (system_from P.machine N.machine C.plan C.start)
        P.valid N.valid C.plan.until floor.old }
    requires named { actors_of trace.old.names
        ≡ length C.start.world.parts + length C.start.world.links }
    requires out { is_in floor.old.part_marks.out no ≡ true }
    requires done { IsAfter (part_course (system_from P.machine N.machine C.plan C.start))
        0 floor.old.at no true body.value flag }
    ensures { PartFinishes (system_from P.machine N.machine C.plan C.start)
        P.valid N.valid C.plan.until no floor.old floor.new
        (trace_view K.told K.faults trace.old) (trace_view K.told K.faults trace.new) }
{
    part_back::<P, N, C, M>(floor, no, body, flag, looks);
    after_part::<P, N, C, K, M>(floor, trace, looks);
}

/// Link `no` is back from its step, which made progress or not. Where all links are back the time is over.
fn finish_link<P: Actor + Drop, N: Actor + Drop, C: Charter<P, N>, K: Sink + Drop, M: Ledger>(
    floor: &mut Floor<P, N>,
    trace: &mut Trace<K>,
    no: u32,
    body: Box<Body<N>>,
    flag: bool,
    looks: &mut Steps<M>,
)
    requires pass { LinksOpen (system_from P.machine N.machine C.plan C.start)
        P.valid N.valid C.plan.until floor.old }
    requires named { actors_of trace.old.names
        ≡ length C.start.world.parts + length C.start.world.links }
    requires out { is_in floor.old.link_marks.out no ≡ true }
    requires done { IsAfter (link_course (system_from P.machine N.machine C.plan C.start))
        (length C.start.world.parts) floor.old.at no false body.value flag }
    ensures { LinkFinishes (system_from P.machine N.machine C.plan C.start)
        P.valid N.valid C.plan.until no floor.old floor.new
        (trace_view K.told K.faults trace.old) (trace_view K.told K.faults trace.new) }
{
    link_back::<P, N, C, M>(floor, no, body, flag, looks);
    after_link::<P, N, C, K>(floor, trace);
}

/// Takes back the step of an actor that is out for it.
fn take_back<
    P: Actor + Drop,
    N: Actor + Drop,
    C: Charter<P, N> + Opening,
    K: Sink + Drop,
    M: Ledger,
>(floor: &mut Floor<P, N>, trace: &mut Trace<K>, done: Done<P, N, C>, looks: &mut Steps<M>)
    requires stands { Stands (system_from P.machine N.machine C.plan C.start)
        P.valid N.valid C.plan.until floor.old }
    requires written { IsWritten C.plan (system_from P.machine N.machine C.plan C.start)
        C.all C.told C.faults floor.old.at floor.old.failed
        (trace_view K.told K.faults trace.old) }
    requires out { is_out (length C.start.world.parts) (hub_state floor.old) done ≡ true }
    ensures { GoneOn (system_from P.machine N.machine C.plan C.start) P.valid N.valid
        C.plan C.all C.told C.faults
        (λ failed. finished (system_from P.machine N.machine C.plan C.start)
        (length C.start.world.parts) failed (hub_state floor.old) done)
        floor.new (trace_view K.told K.faults trace.old) (trace_view K.told K.faults trace.new) }
{
    let Done {
        name: _,
        no,
        away,
        flag,
        of: _,
    } = done;
    match away {
        Away::Part(body) => finish_part::<P, N, C, K, M>(floor, trace, no, body, flag, looks),
        Away::Link(body) => finish_link::<P, N, C, K, M>(floor, trace, no, body, flag, looks),
    }
}

/// Takes a step back, where it is out here.
pub(crate) fn finish_from<
    P: Actor + Drop,
    N: Actor + Drop,
    C: Charter<P, N> + Opening,
    K: Sink + Drop,
    M: Ledger,
>(
    floor: &mut Floor<P, N>,
    trace: &mut Trace<K>,
    done: Done<P, N, C>,
    looks: &mut Steps<M>,
) -> Finish<P, N, C>
    requires stands { Stands (system_from P.machine N.machine C.plan C.start)
        P.valid N.valid C.plan.until floor.old }
    requires written { IsWritten C.plan (system_from P.machine N.machine C.plan C.start)
        C.all C.told C.faults floor.old.at floor.old.failed
        (trace_view K.told K.faults trace.old) }

    ensures stands { Stands (system_from P.machine N.machine C.plan C.start)
        P.valid N.valid C.plan.until floor.new }
    ensures written { IsWritten C.plan (system_from P.machine N.machine C.plan C.start)
        C.all C.told C.faults floor.new.at floor.new.failed
        (trace_view K.told K.faults trace.new) }
    ensures finishes { Finishes (system_from P.machine N.machine C.plan C.start)
        (length C.start.world.parts) (hub_state floor.old) (hub_state floor.new)
        (trace_view K.told K.faults trace.old) (trace_view K.told K.faults trace.new) done result }
{
    if !is_out(floor, &done) {
        let now = pass_of(floor.stage, floor.at);
        return Finish::NotOut { done, now };
    }
    take_back::<P, N, C, K, M>(floor, trace, done, looks);
    Finish::Taken
}

/// The same, where looks at the next times are counted by a counter that is made of `blank`.
pub(crate) fn finish_with<
    P: Actor + Drop,
    N: Actor + Drop,
    C: Charter<P, N> + Opening,
    K: Sink + Drop,
    M: Ledger,
>(
    floor: &mut Floor<P, N>,
    trace: &mut Trace<K>,
    done: Done<P, N, C>,
    blank: Blank,
) -> Finish<P, N, C>
    requires name { blank.name ≡ M.name }
    requires parts { blank.parts ≡ M.parts }
    requires some { 0 < blank.parts }
    requires stands { Stands (system_from P.machine N.machine C.plan C.start)
        P.valid N.valid C.plan.until floor.old }
    requires written { IsWritten C.plan (system_from P.machine N.machine C.plan C.start)
        C.all C.told C.faults floor.old.at floor.old.failed
        (trace_view K.told K.faults trace.old) }

    ensures stands { Stands (system_from P.machine N.machine C.plan C.start)
        P.valid N.valid C.plan.until floor.new }
    ensures written { IsWritten C.plan (system_from P.machine N.machine C.plan C.start)
        C.all C.told C.faults floor.new.at floor.new.failed
        (trace_view K.told K.faults trace.new) }
    ensures finishes { Finishes (system_from P.machine N.machine C.plan C.start)
        (length C.start.world.parts) (hub_state floor.old) (hub_state floor.new)
        (trace_view K.told K.faults trace.old) (trace_view K.told K.faults trace.new) done result }
{
    let mut looks = Steps::<M>::open(blank);
    finish_from::<P, N, C, K, M>(floor, trace, done, &mut looks)
}

ghost use Rattle.std.specs.Prelude.{◌≡◌, ◌<◌, length};

use bit_set::BitSet;
use event_queue::NextTimes;
use sim_base::{ActorNo, OutOfMemory, Phase, Steps, Time};
use std::alloc::Global;
use std::marker::Brand;
use std::sync::ledger::{Blank, Ledger};

/// The plain program: a time for each of seven actors, and a scan for each question.
#[derive(Clone, Copy)]
struct Scan {
    times: [Option<u64>; 7],
}

impl Scan {
    fn first(&self, parts: u32) -> Option<(Time, Phase)> {
        let mut first = None;
        for (i, time) in self.times.iter().enumerate() {
            if let Some(time) = *time {
                let phase = if i < parts as usize {
                    Phase::Primary
                } else {
                    Phase::Secondary
                };
                match first {
                    Some((Time(t), _)) if t <= time => {}
                    _ => first = Some((Time(time), phase)),
                }
            }
        }
        first
    }

    fn due_at(&self, t: u64, from: u32, below: u32) -> Option<ActorNo> {
        for i in 0..7u32 {
            if from <= i && i < below && self.times[i as usize] == Some(t) {
                return Some(ActorNo(i));
            }
        }
        None
    }
}

/// The next number of a linear congruential generator.
fn drawn(state: &mut u64) -> u64 {
    *state = state
        .wrapping_mul(6_364_136_223_846_793_005)
        .wrapping_add(1_442_695_040_888_963_407);
    *state >> 33
}

fn change<L: Ledger>(next: &mut NextTimes, scan: &mut Scan, state: &mut u64, looks: &mut Steps<L>)
    requires { length next.old ≡ 7 }
    ensures { length next.new ≡ 7 }
{
    let who = (drawn(state) % 7) as u32;
    let t = drawn(state) % 5;
    let kind = drawn(state) % 4;
    if kind == 0 {
        next.clear(ActorNo(who), looks);
        scan.times[who as usize] = None;
    } else if kind < 3 {
        next.set(ActorNo(who), Time(t), looks);
        scan.times[who as usize] = Some(t);
    } else {
        next.set_earlier(ActorNo(who), Time(t), looks);
        let time = scan.times[who as usize].unwrap_or(t);
        scan.times[who as usize] = Some(time.min(t));
    }
}

fn marks_agree<L: Ledger>(
    next: &NextTimes,
    scan: &Scan,
    due: &mut BitSet,
    looks: &mut Steps<L>,
) -> bool
    requires next { length next.now ≡ 7 }
    requires due { length due.old ≡ 4 }
    ensures { length due.new ≡ 4 }
{
    for t in 0..5u64 {
        next.mark_due(Time(t), ActorNo(2), ActorNo(6), due, looks);
        for i in 0..4usize {
            if due.has(i) != (scan.times[i + 2] == Some(t)) {
                return false;
            }
        }
    }
    true
}

fn agrees<L: Ledger>(next: &NextTimes, scan: &Scan, looks: &mut Steps<L>) -> bool
    requires { length next.now ≡ 7 }
{
    for who in 0..7u32 {
        let time = scan.times[who as usize];
        if next.next_of(ActorNo(who), looks) != time.map(Time) {
            return false;
        }
    }
    for parts in 0..8u32 {
        if next.first(parts, looks) != scan.first(parts) {
            return false;
        }
    }
    for t in 0..5u64 {
        for from in 0..8u32 {
            for below in 0..8u32 {
                let due = next.due_at(Time(t), ActorNo(from), ActorNo(below), looks);
                if due != scan.due_at(t, from, below) {
                    return false;
                }
            }
        }
    }
    true
}

/// Whether the heap answers as the scan does in each of 200 sequences of 40 calls.
fn run<L: Ledger>(alloc: Global, blank: Blank) -> Result<bool, OutOfMemory>
    requires name { blank.name ≡ L.name }
    requires parts { blank.parts ≡ L.parts }
    requires some { 0 < blank.parts }
{
    let mut looks = Steps::<L>::open(blank);
    let mut state = 1;
    let mut due = BitSet::open(alloc, 4)?;
    for _sequence in 0..200u32 {
        let mut next = NextTimes::open(alloc, 7)?;
        let mut scan = Scan { times: [None; 7] };
        for _call in 0..40u32 {
            change(&mut next, &mut scan, &mut state, &mut looks);
            if !agrees(&next, &scan, &mut looks)
                || !marks_agree(&next, &scan, &mut due, &mut looks)
            {
                return Ok(false);
            }
        }
    }
    Ok(true)
}

#[test]
fn the_heap_answers_as_the_scan_does(rt: HostRuntime) -> Result<(), OutOfMemory> {
    let agreed = run::<Brand>(rt.alloc(), Blank::new(1))?;
    assert_eq!(rt; agreed, true);
    Ok(())
}

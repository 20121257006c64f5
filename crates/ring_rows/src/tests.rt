ghost use Rattle.std.specs.Prelude.{◌≡◌, ◌<◌, ◌≤◌};
ghost use Rattle.sim_base.specs.declared.time.TheConstants.{LATEST_TIME};

use crate::{lone_first_time, lone_plan};
use direct_link::Direct;
use part_kind::{LinkKind, Part};
use port_rows::World;
use run_gear::{Ending, Kept, RunFault};
use serial_loop::run_serial;
use sim_base::{LinkNo, Name, PartNo, Steps, Time};
use sim_io::MemSink;
use std::alloc::Global;
use std::marker::Brand;
use std::sync::ledger::{Blank, Ledger};
use std::test::Fail;
use tick_law::Verdict;
use traffic_parts::Relay;

fn run<L: Ledger>(
    alloc: Global,
    blank: Blank,
    name: Name,
    until: u64,
    sink: &mut MemSink,
) -> Result<Ending<Part, LinkKind>, RunFault>
    requires name { blank.name ≡ L.name }
    requires parts { blank.parts ≡ L.parts }
    requires some { 0 < blank.parts }
    requires time { until ≤ LATEST_TIME }
{
    let mut steps = Steps::<L>::open(blank);
    if until == 0 {
        return lone_first_time(alloc, name, sink, &mut steps);
    }
    let plan = lone_plan(alloc, name, Time(until))?;
    let kept = Kept {
        all: false,
        stats: None,
    };
    run_serial(alloc, plan, kept, sink, &mut steps)
}

fn relay(world: &World<Part, LinkKind>) -> Option<&Relay> {
    match world.part(PartNo(0)) {
        Some(Part::Relay(relay)) => Some(relay),
        _ => None,
    }
}

fn link(world: &World<Part, LinkKind>) -> Option<&Direct> {
    match world.link(LinkNo(0)) {
        Some(LinkKind::Direct(link)) => Some(link),
        _ => None,
    }
}

#[test]
fn a_token_of_two_hops_goes_round_twice(rt: HostRuntime) -> Result<(), Fail> {
    let name = Name::read(b"r0").ok_or("no name")?;
    let rows = [
        (0, Verdict::Cut, 0, 1, 0, 1),
        (1999, Verdict::Cut, 1000, 1, 0, 1),
        (3999, Verdict::Cut, 3000, 2, 1, 2),
        (4000, Verdict::Finished, 3000, 2, 1, 2),
    ];
    let mut sink = MemSink::of(Vec::new(rt.alloc()), Vec::new(rt.alloc()));
    for (until, verdict, end, sent, ended, moved) in rows {
        assert!(rt; until <= 4000);
        let Ok(ending) = run::<Brand>(rt.alloc(), Blank::new(1), name, until, &mut sink) else {
            return Err("no run".into());
        };
        assert_eq!(rt; ending.verdict, verdict, "until {until}");
        assert_eq!(rt; ending.end, Time(end), "until {until}");
        let relay = relay(&ending.world).ok_or("no relay")?;
        assert_eq!(rt; relay.sent(), sent, "until {until}");
        assert_eq!(rt; relay.ended(), ended, "until {until}");
        let link = link(&ending.world).ok_or("no link")?;
        assert_eq!(rt; link.moved(), moved, "until {until}");
        assert_eq!(rt; link.pointer(), 0, "until {until}");
    }
    assert_eq!(rt; sink.bytes(), b"".as_slice());
    Ok(())
}

ghost use Rattle.std.specs.Prelude.{◌-◌};
ghost use Rattle.tick_law.specs.OnePort.{lone};
ghost use Rattle.traffic_parts.specs.Relay.{token, relay};
ghost use Rattle.std.specs.Prelude.{◌≡◌, ◌<◌, ◌≤◌, length, IfOk};
ghost use Rattle.std.specs.Option.{ForSome};

use port_msg::{DATA_BYTES, Msg, MsgId, MsgKind, Port, RecList, What};
use port_row::Ports;
use sim_base::{ActorNo, OutOfMemory, PartNo, PortNo, Steps};
use std::alloc::Global;
use std::marker::Brand;
use std::sync::ledger::{Blank, Ledger};
use tick_law::Actor;
use traffic_parts::{MOST_HOPS, Relay, RelayText};

/// What a step leaves: the hops that it sent and that it holds, and both counts.
#[derive(Clone, Copy, Debug, PartialEq, Eq)]
struct After {
    out: Option<u32>,
    holds: Option<u32>,
    sent: u64,
    ended: u64,
}

/// A token of these hops, or none for 0.
fn hops_of(hops: u32) -> Option<u32>
    ensures { ForSome result (λ h. (1 ≤ h) × (h ≤ MOST_HOPS)) }
{
    if hops == 0 || hops > MOST_HOPS {
        return None;
    }
    Some(hops)
}

fn open_relay(alloc: Global, hops: u32) -> Result<Relay, OutOfMemory> {
    let text = RelayText {
        actor: ActorNo(2),
        period: 3,
        io: PortNo(2),
        to: PortNo(0),
        start: hops_of(hops),
    };
    Relay::open(alloc, &text)
}

/// A row of one port with room for one message.
fn open_row(alloc: Global) -> Result<Ports, OutOfMemory>
    ensures { IfOk result (λ row. length row.ports ≡ 1) }
{
    let mut ports = Vec::new(alloc);
    ports.push(Port::open(alloc, 1)?)?;
    Ports::open(alloc, ports)
}

fn token(hops: u32) -> Msg {
    let id = MsgId {
        part: PartNo(1),
        seq: 5,
    };
    Msg {
        id,
        src: PortNo(1),
        dst: PortNo(2),
        kind: MsgKind::Token,
        addr: hops,
        len: 0,
        bytes: [0; DATA_BYTES],
    }
}

/// A step of a relay that starts with a token of these hops, or with none for 0, and has another at the head.
fn step<L: Ledger>(alloc: Global, blank: Blank, hops: u32, head: u32) -> Result<After, OutOfMemory>
    requires name { blank.name ≡ L.name }
    requires parts { blank.parts ≡ L.parts }
    requires some { 0 < blank.parts }
{
    let mut steps = Steps::<L>::open(blank);
    let mut relay = open_relay(alloc, hops)?;
    let mut ports = open_row(alloc)?;
    let _ = ports.deliver(0, token(head));
    let mut recs = RecList::open(alloc, 64)?;
    let _ = relay.tick(&mut ports, 0, &mut recs, &mut steps);
    Ok(After {
        out: ports.out_head(0).map(|msg| msg.addr),
        holds: relay.holds(),
        sent: relay.sent(),
        ended: relay.ended(),
    })
}

#[test]
fn a_token_is_sent_before_another_is_taken(rt: HostRuntime) -> Result<(), OutOfMemory> {
    let alloc = rt.alloc();
    let rows = [
        (0, 0, None, None, 0, 1),
        (0, 4, None, Some(4), 0, 0),
        (4, 0, Some(3), None, 1, 1),
        (1, 2, Some(0), Some(2), 1, 0),
    ];
    for (hops, head, out, holds, sent, ended) in rows {
        let after = step::<Brand>(alloc, Blank::new(1), hops, head)?;
        let expected = After {
            out,
            holds,
            sent,
            ended,
        };
        assert_eq!(rt; after, expected, "{hops} hops, and {head} at the head");
    }
    Ok(())
}

ghost use Rattle.std.specs.Prelude.{◌≡◌, ◌<◌, IfOk, length};

use direct_link::{Direct, DirectText};
use port_msg::{DATA_BYTES, Msg, MsgId, MsgKind, Port, RecList};
use port_row::Ports;
use sim_base::{ActorNo, OutOfMemory, PartNo, PortList, PortNo, Steps};
use std::alloc::Global;
use std::marker::Brand;
use std::sync::ledger::{Blank, Ledger};
use tick_law::Actor;

/// What a step leaves: the room in each port's incoming list, the count of moves and the pointer.
#[derive(Clone, Copy, Debug, PartialEq, Eq)]
struct After {
    first_room: u32,
    second_room: u32,
    moved: u64,
    pointer: u32,
}

fn token(dst: u32) -> Msg {
    let id = MsgId {
        part: PartNo(0),
        seq: 0,
    };
    Msg {
        id,
        src: PortNo(3),
        dst: PortNo(dst),
        kind: MsgKind::Token,
        addr: 0,
        len: 0,
        bytes: [0; DATA_BYTES],
    }
}

/// A link of the ports 3 and 8.
fn open_link(alloc: Global) -> Result<Direct, OutOfMemory>
    ensures { IfOk result (λ link. length link.numbers ≡ 2) }
{
    let numbers = Vec::from_slice(alloc, &[PortNo(3), PortNo(8)])?;
    let text = DirectText {
        actor: ActorNo(2),
        period: 7,
        ports: PortList::of(numbers),
    };
    Direct::open(alloc, &text)
}

/// A row of two ports with room for two messages each.
fn open_row(alloc: Global) -> Result<Ports, OutOfMemory>
    ensures { IfOk result (λ row. length row.ports ≡ 2) }
{
    let mut ports = Vec::new(alloc);
    ports.push(Port::open(alloc, 2)?)?;
    ports.push(Port::open(alloc, 2)?)?;
    Ports::open(alloc, ports)
}

/// A step in which port 3 has sent to these two, where port 8 has room for one message more.
fn step<L: Ledger>(
    alloc: Global,
    blank: Blank,
    first: u32,
    second: u32,
) -> Result<After, OutOfMemory>
    requires name { blank.name ≡ L.name }
    requires parts { blank.parts ≡ L.parts }
    requires some { 0 < blank.parts }
{
    let mut steps = Steps::<L>::open(blank);
    let mut link = open_link(alloc)?;
    let mut ports = open_row(alloc)?;
    let _ = ports.deliver(1, token(8));
    let _ = ports.send(0, token(first));
    let _ = ports.send(0, token(second));
    let mut recs = RecList::open(alloc, 128)?;
    let _ = link.tick(&mut ports, 0, &mut recs, &mut steps);
    Ok(After {
        first_room: ports.in_room(0),
        second_room: ports.in_room(1),
        moved: link.moved(),
        pointer: link.pointer(),
    })
}

#[test]
fn messages_are_moved_while_their_target_has_room(rt: HostRuntime) -> Result<(), OutOfMemory> {
    let alloc = rt.alloc();
    let rows = [
        (8, 8, 2, 0, 1, 1),
        (3, 8, 1, 0, 2, 1),
        (3, 3, 0, 1, 2, 1),
        (8, 5, 2, 0, 1, 1),
        (5, 8, 2, 1, 0, 0),
    ];
    for (first, second, first_room, second_room, moved, pointer) in rows {
        let after = step::<Brand>(alloc, Blank::new(1), first, second)?;
        let expected = After {
            first_room,
            second_room,
            moved,
            pointer,
        };
        assert_eq!(rt; after, expected, "to {first} and {second}");
    }
    Ok(())
}

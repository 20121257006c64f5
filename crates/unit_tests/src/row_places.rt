use port_msg::{DATA_BYTES, Msg, MsgId, MsgKind, Port};
use port_row::Ports;
use sim_base::{OutOfMemory, PartNo, PortNo};

fn token() -> Msg {
    Msg {
        id: MsgId {
            part: PartNo(0),
            seq: 0,
        },
        src: PortNo(0),
        dst: PortNo(1),
        kind: MsgKind::Token,
        addr: 4,
        len: 0,
        bytes: [0; DATA_BYTES],
    }
}

#[test]
fn a_place_is_found_while_it_has_something_to_send(rt: HostRuntime) -> Result<(), OutOfMemory> {
    let alloc = rt.alloc();
    let mut ports = Vec::new(alloc);
    ports.push(Port::open(alloc, 1)?)?;
    ports.push(Port::open(alloc, 1)?)?;
    let mut row = Ports::open(alloc, ports)?;
    assert_eq!(rt;
        (row.len(), row.next_out(0), row.next_touched(0)),
        (2, None, None)
    );
    assert!(rt; row.send(1, token()).is_ok());
    assert_eq!(rt; (row.next_out(0), row.next_touched(0)), (Some(1), Some(1)));
    row.settle();
    assert_eq!(rt; (row.next_out(0), row.next_touched(0)), (Some(1), None));
    assert!(rt; row.out_take(1) == Some(token()));
    assert_eq!(rt; (row.next_out(0), row.next_touched(0)), (None, Some(1)));
    Ok(())
}

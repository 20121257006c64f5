use port_msg::{DATA_BYTES, Msg, MsgId, MsgKind, Port};
use sim_base::{PartNo, PortNo};
use std::test::Fail;

fn token(seq: u64) -> Msg {
    let id = MsgId {
        part: PartNo(0),
        seq,
    };
    Msg {
        id,
        src: PortNo(0),
        dst: PortNo(1),
        kind: MsgKind::Token,
        addr: 4,
        len: 0,
        bytes: [0; DATA_BYTES],
    }
}

#[test]
fn messages_leave_in_the_order_in_which_they_came(rt: HostRuntime) -> Result<(), Fail> {
    let mut port = Port::open(rt.alloc(), 2)?;
    assert!(rt; port.send(token(0)).is_ok());
    assert!(rt; port.deliver(token(7)).is_ok());
    assert!(rt; port.send(token(1)).is_ok());
    assert_eq!(rt; (port.in_room(), port.out_room()), (1, 0));
    assert!(rt; port.send(token(2)).is_err());
    for seq in 0..2 {
        assert!(rt; port.out_head() == Some(token(seq)));
        assert!(rt; port.out_take() == Some(token(seq)));
    }
    assert!(rt; port.out_take().is_none());
    assert!(rt; port.in_take() == Some(token(7)));
    Ok(())
}

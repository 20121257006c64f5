use run_gear::open_ports;
use sim_base::{LinkNo, Name, PartNo};
use std::test::Fail;
use tick_law::PortPlan;

#[test]
fn ports_have_the_capacities_of_their_plan(rt: HostRuntime) -> Result<(), Fail> {
    let word = Name::read(b"io").ok_or("no name")?;
    let plans = [1, 64].map(|cap| PortPlan {
        cap,
        part: PartNo(0),
        link: LinkNo(0),
        word,
    });
    let ports = open_ports(rt.alloc(), &plans)?;
    assert_eq!(rt; ports.len(), 2);
    assert_eq!(rt; (ports[0].in_room(), ports[1].out_room()), (1, 64));
    Ok(())
}

use sim_base::Mode;
use sim_config::PartKeys;
use std::test::Fail;
use storm_gen::storm_plan;

#[test]
fn a_storm_of_two_agents(rt: HostRuntime) -> Result<(), Fail> {
    let text = storm_plan(rt.alloc(), 2)?;
    assert_eq!(rt; text.until.0, 1_000_000_000);
    assert_eq!(rt; text.parts.items().len(), 6);
    let part = text.parts.items().get(1).ok_or("a part")?;
    assert_eq!(rt; part.name.text(), b"a1".as_slice());
    assert_eq!(rt; part.period, 1010);
    match &part.kind {
        PartKeys::Agent {
            gap,
            start,
            mode,
            draw,
            ..
        } => assert_eq!(rt; (*gap, *start, *mode, *draw), (2, 1, Mode::Mixed, 2)),
        _ => return Err(Fail::from("an agent")),
    }
    let link = text.links.items().first().ok_or("a link")?;
    assert_eq!(rt; link.ports.items().len(), 6);
    let port = link.ports.items().get(2).ok_or("a port")?;
    assert_eq!(rt; port.part.text(), b"m0".as_slice());
    assert_eq!(rt; port.word.text(), b"top".as_slice());
    Ok(())
}

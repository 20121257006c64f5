ghost use Rattle.std.specs.Prelude.{◌<◌, ◌≤◌};

use plan_check::{PlanFault, build};
use plan_rules::PlanRule;
use sim_config::{TableNo, read_config};
use std::alloc::{AllocError, Global};
use std::test::Fail;

/// So many relays, each of which sends to itself, and a memory where there are maps.
fn add_parts(alloc: Global, text: &mut String, relays: u32, maps: u32) -> Result<(), AllocError> {
    for no in 0..relays {
        let part = format!(in alloc;
            "[[part]]\nname='r{no}'\nkind='relay'\nperiod=1\nto='r{no}'\n"
        )?;
        text.push_str(part.as_str())?;
    }
    if maps > 0 {
        text.push_str("[[part]]\nname='m'\nkind='memory'\nperiod=1\nbase=0\nsize=64\n")?;
    }
    Ok(())
}

/// The ports of every relay whose number leaves this rest.
fn add_ports(
    alloc: Global,
    text: &mut String,
    relays: u32,
    links: u32,
    rest: u32,
) -> Result<(), AllocError>
    requires { 0 < links }
{
    for no in 0..relays {
        if no % links == rest {
            text.push_str(format!(in alloc; "'r{no}.io',")?.as_str())?;
        }
    }
    Ok(())
}

/// So many links, over which the relays are dealt out; the memory's port is on the first.
fn add_links(
    alloc: Global,
    text: &mut String,
    relays: u32,
    links: u32,
    maps: u32,
) -> Result<(), AllocError> {
    for no in 0..links {
        let link = format!(in alloc; "[[link]]\nname='l{no}'\nkind='direct'\nperiod=1\nports=[")?;
        text.push_str(link.as_str())?;
        if no == 0 && maps > 0 {
            text.push_str("'m.top',")?;
        }
        add_ports(alloc, text, relays, links, no)?;
        text.push_str("]\n")?;
    }
    Ok(())
}

fn add_maps(alloc: Global, text: &mut String, maps: u32) -> Result<(), AllocError> {
    for no in 0..maps {
        let map = format!(in alloc;
            "[[map]]\nname='x{no}'\nrange=[{{base=0,size=64,to=['m']}}]\n"
        )?;
        text.push_str(map.as_str())?;
    }
    Ok(())
}

/// A machine of so many relays, links and maps, and of a memory where there are maps.
fn machine(alloc: Global, relays: u32, links: u32, maps: u32) -> Result<String, AllocError> {
    let mut text = String::new(alloc);
    text.push_str("version=1\n")?;
    add_maps(alloc, &mut text, maps)?;
    add_parts(alloc, &mut text, relays, maps)?;
    add_links(alloc, &mut text, relays, links, maps)?;
    Ok(text)
}

/// How many parts, links and ports the plan of such a machine has, or why it has none.
fn sizes(
    alloc: Global,
    relays: u32,
    links: u32,
    maps: u32,
) -> Result<Result<(usize, usize, usize), PlanFault>, Fail> {
    let text = machine(alloc, relays, links, maps)?;
    let text = read_config(alloc, text.as_bytes())?;
    if text.programs.items().len() != 0 {
        return Err(Fail::new("the machine names a program"));
    }
    match build(alloc, &text, &[]) {
        Ok(plan) => Ok(Ok((plan.parts.len(), plan.links.len(), plan.ports.len()))),
        Err(fault) => Ok(Err(fault)),
    }
}

#[test]
fn the_greatest_machine_has_a_plan(rt: HostRuntime) -> Result<(), Fail> {
    let alloc = rt.alloc();
    assert_eq!(rt; sizes(alloc, 0, 0, 0)?, Ok((0, 0, 0)));
    assert_eq!(rt; sizes(alloc, 256, 64, 0)?, Ok((256, 64, 256)));
    assert_eq!(rt; sizes(alloc, 255, 64, 64)?, Ok((256, 64, 256)));
    Ok(())
}

#[test]
fn one_table_more_than_the_most_is_refused(rt: HostRuntime) -> Result<(), Fail> {
    let rows = [
        (255, 64, 65, TableNo::Map(64)),
        (256, 64, 64, TableNo::Part(256)),
        (257, 64, 0, TableNo::Part(256)),
        (255, 65, 64, TableNo::Link(64)),
    ];
    for (relays, links, maps, table) in rows {
        let fault = PlanFault::Broken {
            rule: PlanRule::TooMany,
            table,
        };
        assert_eq!(rt; sizes(rt.alloc(), relays, links, maps)?, Err(fault));
    }
    Ok(())
}

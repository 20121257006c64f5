ghost use Rattle.std.specs.Prelude.{◌≡◌, [], ◌∷◌, IfOk};
ghost use Rattle.port_rows.specs.Opening.{IsSide};

use port_msg::Port;
use port_rows::{SideOf, World};
use sim_base::{LinkNo, OutOfMemory, PartNo, PortNo};
use std::alloc::Global;
use tick_law::Wiring;

fn one<T: Drop>(alloc: Global, item: T) -> Result<Vec<T>, OutOfMemory>
    ensures { IfOk result (λ v. v.items ≡ item ∷ []) }
{
    let mut items = Vec::new(alloc);
    items.push(item)?;
    Ok(items)
}

fn two<T: Drop>(alloc: Global, first: T, second: T) -> Result<Vec<T>, OutOfMemory>
    ensures { IfOk result (λ v. v.items ≡ first ∷ second ∷ []) }
{
    let mut items = one(alloc, first)?;
    items.push(second)?;
    Ok(items)
}

/// Two links, the first of port 1 and the second of port 0.
fn crossed(alloc: Global) -> Result<Wiring, OutOfMemory>
    ensures { IfOk result (λ wiring. IsSide wiring 2) }
{
    let first = one(alloc, 1)?;
    let second = one(alloc, 0)?;
    let own = two(alloc, first, second)?;
    let owner = two(alloc, 1, 0)?;
    Ok(Wiring::of(own, owner))
}

#[test]
fn a_port_is_found_by_its_number(rt: HostRuntime) -> Result<(), OutOfMemory> {
    let alloc = rt.alloc();
    let ports = two(alloc, Port::open(alloc, 2)?, Port::open(alloc, 3)?)?;
    let parts: Vec<u8> = Vec::new(alloc);
    let links: Vec<u8> = two(alloc, 7, 8)?;
    let world = World::open(alloc, parts, links, ports, crossed(alloc)?)?;
    assert_eq!(rt; world.port(PortNo(0)).in_room(), 2);
    assert_eq!(rt; world.port(PortNo(1)).in_room(), 3);
    assert_eq!(rt;
        (world.part(PartNo(0)), world.link(LinkNo(1))),
        (None, Some(&8))
    );
    assert!(rt; !world.rows.has_changed(1, SideOf::Parts));
    Ok(())
}

ghost use Rattle.std.specs.Prelude.{◌≡◌, ◌≤◌, [], ◌∷◌, map, IfOk};
ghost use Rattle.sim_base.specs.declared.time.TheConstants.{LATEST_TIME};
ghost use Rattle.sim_base.specs.declared.numbers.PortNo.{PortNo};
ghost use Rattle.part_kind.specs.Part.{part};
ghost use Rattle.part_kind.specs.LinkKind.{link};
ghost use Rattle.tick_law.specs.PlanView.{system_of};
ghost use Rattle.ring_rows.specs.Lone.{lone, lone_relay, lone_link};

use direct_link::{Direct, DirectText};
use part_kind::{LinkKind, Part};
use sim_base::{ActorNo, LinkNo, Name, OutOfMemory, PartNo, PortList, PortNo, Time};
use std::alloc::Global;
use tick_law::{Plan, PortPlan};
use traffic_parts::{Relay, RelayText};

/// The period of the relay and of the link, in picoseconds.
const PERIOD: u64 = 1000;

fn one<T: Drop>(alloc: Global, item: T) -> Result<Vec<T>, OutOfMemory>
    ensures { IfOk result (λ v. v.items ≡ item ∷ []) }
{
    let mut items = Vec::new(alloc);
    items.push(item)?;
    Ok(items)
}

fn open_relay(alloc: Global) -> Result<Part, OutOfMemory>
    ensures { IfOk result (λ relay. relay ≡ lone_relay (Some 2) 0 0) }
{
    let text = RelayText {
        actor: ActorNo(0),
        period: PERIOD,
        io: PortNo(0),
        to: PortNo(0),
        start: Some(2),
    };
    let relay = Relay::open(alloc, &text)?;
    Ok(Part::Relay(relay))
}

fn open_link(alloc: Global) -> Result<LinkKind, OutOfMemory>
    ensures { IfOk result (λ link. link ≡ lone_link 0 0) }
{
    let text = DirectText {
        actor: ActorNo(1),
        period: PERIOD,
        ports: PortList::of(one(alloc, PortNo(0))?),
    };
    let link = Direct::open(alloc, &text)?;
    Ok(LinkKind::Direct(link))
}

/// The ports of the relay, and those of the link.
fn own_ports(alloc: Global) -> Result<Vec<Vec<PortNo>>, OutOfMemory>
    ensures { IfOk result (λ own. map (λ v. map (λ (q : PortNo). q.0) v.items) own.items ≡ (0 ∷ []) ∷ (0 ∷ []) ∷ []) }
{
    let mut own = one(alloc, one(alloc, PortNo(0))?)?;
    let of_link = one(alloc, PortNo(0))?;
    own.push(of_link)?;
    Ok(own)
}

/// The plan of the ring of one relay, which sends a token of two hops to itself, up to a time. All its names are `name`.
pub fn lone_plan(
    alloc: Global,
    name: Name,
    until: Time,
) -> Result<Plan<Part, LinkKind>, OutOfMemory>
    requires { until.0 ≤ LATEST_TIME }
    ensures system { IfOk result (λ plan. system_of part link plan ≡ lone) }
    ensures until { IfOk result (λ plan. plan.until ≡ until.0) }
{
    let parts = one(alloc, open_relay(alloc)?)?;
    let links = one(alloc, open_link(alloc)?)?;
    let part_names = one(alloc, name)?;
    let link_names = one(alloc, name)?;
    let fields = one(alloc, Vec::new(alloc))?;
    let port = PortPlan {
        cap: 4,
        part: PartNo(0),
        link: LinkNo(0),
        word: name,
    };
    let ports = one(alloc, port)?;
    let own = own_ports(alloc)?;
    Ok(Plan {
        parts,
        links,
        part_names,
        link_names,
        fields,
        ports,
        own,
        until,
    })
}

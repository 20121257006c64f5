ghost use Rattle.std.specs.Prelude.{◌≡◌, ℕ, ◌≤◌, [], map, IfOk, Some, slice_get};
ghost use Rattle.port_msg.specs.PortView.{port_view};
ghost use Rattle.tick_law.specs.declared.port_plan.PortPlan.{PortPlan};

use port_msg::Port;
use sim_base::OutOfMemory;
use std::alloc::Global;
use tick_law::PortPlan;

/// The ports of a plan, in order, each with two empty lists.
pub fn open_ports(alloc: Global, plans: &[PortPlan]) -> Result<Vec<Port>, OutOfMemory>
    requires { (q : ℕ) (p : PortPlan) → slice_get plans.now q ≡ Some p → (1 ≤ p.cap)
        × (p.cap ≤ 64) }
    ensures { IfOk result (λ ports. ports.items
        ≡ map (λ (p : PortPlan). port_view [] [] p.cap) plans.now) }
{
    let mut ports = Vec::with_capacity(alloc, plans.len())?;
    for plan in plans {
        let port = Port::open(alloc, plan.cap)?;
        ports.push(port)?;
    }
    Ok(ports)
}

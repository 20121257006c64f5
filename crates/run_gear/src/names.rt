ghost use Rattle.std.specs.Prelude.{◌≡◌, map, IfOk};
ghost use Rattle.run_gear.specs.PlanNames.{port_name, names_of};

use sim_base::OutOfMemory;
use std::alloc::Global;
use tick_law::{Actor, Plan, PortPlan};
use trace_out::{Names, PortName};

fn port_names(alloc: Global, ports: &[PortPlan]) -> Result<Vec<PortName>, OutOfMemory>
    ensures { IfOk result (λ v. v.items ≡ map port_name ports.now) }
{
    let mut names = Vec::with_capacity(alloc, ports.len())?;
    for port in ports {
        names.push(PortName {
            part: port.part,
            word: port.word,
        })?;
    }
    Ok(names)
}

/// The names of a plan's parts, links and ports.
pub fn plan_names<P: Actor + Drop, N: Actor + Drop>(
    alloc: Global,
    plan: &Plan<P, N>,
) -> Result<Names, OutOfMemory>
    ensures { IfOk result (λ names. names ≡ names_of plan.now) }
{
    let ports = port_names(alloc, &plan.ports)?;
    Names::open(alloc, &plan.part_names, &plan.link_names, &ports)
}

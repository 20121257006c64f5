//! The rules on the ports that links join.
ghost use Rattle.std.specs.Prelude.{◌≡◌, ◌+◌, ◌≤◌, [], map, take, is_none};
ghost use Rattle.std.specs.List.{list_any};
ghost use Rattle.plan_rules.specs.Text.{passes, some_below, keys_at, first_port, link_ports};
ghost use Rattle.plan_rules.specs.Kinds.{port_count};
ghost use Rattle.plan_rules.specs.Rules as rules;

use crate::kinds::port_count;
use crate::numbered::{Numbered, has_port};
use sim_config::TableNo;

#[tactic(auto, using(crate::proofs::Lists::list_any_mapped))]
fn some_has_port(lists: &[Vec<Option<u32>>], port: Option<u32>) -> bool
    ensures { result ≡ list_any (list_any (rules.is_port port)) (map (λ v. v.items) lists.now) }
{
    for ports in lists {
        if has_port(ports, port) {
            return true;
        }
    }
    false
}

/// Whether one of these ports stands in front of it, or in an earlier list.
fn has_twice(earlier: &[Vec<Option<u32>>], ports: &[Option<u32>]) -> bool
    ensures { result ≡ rules.has_twice (map (λ v. v.items) earlier.now) [] ports.now }
{
    for (place, port) in ports.iter().enumerate() {
        if has_port(&ports[..place], *port) || some_has_port(earlier, *port) {
            return true;
        }
    }
    false
}

/// The first so many lists, all where there are no more.
#[tactic(auto, using(crate::proofs::Lists::mapped_front))]
fn first_lists(lists: &[Vec<Option<u32>>], count: usize) -> &[Vec<Option<u32>>]
    ensures { map (λ v. v.items) result.now ≡ take count (map (λ v. v.items) lists.now) }
{
    if count < lists.len() {
        &lists[..count]
    } else {
        lists
    }
}

fn link_has_twice(plan: &Numbered, no: usize) -> bool
    ensures { result ≡ rules.has_twice (take no (link_ports plan.now)) [] (rules.ports_at plan.now no) }
{
    has_twice(first_lists(plan.link_ports(), no), plan.ports(no))
}

/// Whether a link names a port that an earlier place names.
#[tactic(auto, unfolding(crate::specs::Rules::port_twice))]
pub(crate) fn port_twice(plan: &Numbered, table: TableNo) -> bool
    ensures { result ≡ rules.port_twice plan.now table }
{
    match table {
        TableNo::Link(no) => link_has_twice(plan, no as usize),
        TableNo::Top
        | TableNo::Map(_)
        | TableNo::Range(..)
        | TableNo::Part(_)
        | TableNo::Program(_) => false,
    }
}

/// Whether one of so many ports from the first on is on no link.
#[tactic(auto, using(crate::proofs::Below::some_below_more, crate::proofs::Below::some_below_here))]
fn some_unplugged(plan: &Numbered, first: u32, count: u32) -> bool
    requires first { first ≤ 1024 }
    requires count { count ≤ 2 }

    ensures { result ≡ some_below count (λ k. is_none (rules.link_of plan.now (first + k))) }
{
    for place in 0..count {
        if plan.link_of(first + place).is_none() {
            return true;
        }
    }
    false
}

fn part_is_unplugged(plan: &Numbered, no: usize) -> bool
    ensures { result ≡ passes (keys_at plan.now no)
        (λ kind. some_below (port_count kind) (λ k. is_none (rules.link_of plan.now (first_port plan.now no + k)))) }
{
    match plan.keys(no) {
        Some(keys) => some_unplugged(plan, plan.first_port(no), port_count(keys) as u32),
        None => false,
    }
}

/// Whether a part has a port on no link.
#[tactic(auto, unfolding(crate::specs::Rules::port_unplugged))]
pub(crate) fn port_unplugged(plan: &Numbered, table: TableNo) -> bool
    ensures { result ≡ rules.port_unplugged plan.now table }
{
    match table {
        TableNo::Part(no) => part_is_unplugged(plan, no as usize),
        TableNo::Top
        | TableNo::Map(_)
        | TableNo::Range(..)
        | TableNo::Link(_)
        | TableNo::Program(_) => false,
    }
}

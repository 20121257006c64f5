//! The caches of a plan: the map of each, where an address ends up through them, and those to which a map leads.
ghost use Rattle.std.specs.Prelude.{◌≡◌, ◌++◌, ◌∷◌, [], None, filter, IfOk, OnOk};
ghost use Rattle.std.specs.List.{list_any};
ghost use Rattle.plan_rules.specs.First.{first_broken};
ghost use Rattle.plan_check.specs.Caches as spec;

use crate::maps::{addr_map, port_to};
use addr_map::{AddrMap, Range};
use plan_rules::Numbered;
use sim_base::{OutOfMemory, PortList, PortNo};
use sim_config::PartKeys;
use std::alloc::Global;

/// A cache: the port at which it is asked, and the map by which it asks others.
#[derive(Drop)]
pub(crate) struct CacheMap {
    pub top: PortNo,
    pub map: AddrMap,
}

/// Whether a target is this port.
pub(crate) fn is_at(port: PortNo, target: Option<PortNo>) -> bool
    ensures { result ≡ spec.is_at port target }
{
    match target {
        Some(target) => target.0 == port.0,
        None => false,
    }
}

impl CacheMap {
    /// Where an address goes on that has come to a port.
    fn passed_on(&self, addr: u32, port: Option<PortNo>) -> Option<PortNo>
        ensures { result ≡ spec.passed_on self.now addr port }
    {
        if is_at(self.top, port) {
            self.map.find(addr)
        } else {
            port
        }
    }
}

/// Where an address ends up that has come to a port, through the caches in their order.
pub(crate) fn end_from(caches: &[CacheMap], addr: u32, port: Option<PortNo>) -> Option<PortNo>
    ensures { result ≡ spec.end_from caches.now addr port }
{
    let mut end = port;
    for cache in caches {
        end = cache.passed_on(addr, end);
    }
    end
}

/// The part of a number as a cache, None where it is of another kind.
fn cache_at(alloc: Global, plan: &Numbered, no: usize) -> Result<Option<CacheMap>, OutOfMemory>
    requires { first_broken plan.now ≡ None }
    ensures { IfOk result (λ cache. cache ≡ spec.cache_at plan.now no) }
{
    match plan.keys(no) {
        Some(PartKeys::Cache { map, .. }) => {
            let top = port_to(plan, Some(no));
            let map = addr_map(alloc, plan, map)?;
            Ok(Some(CacheMap { top, map }))
        }
        _ => Ok(None),
    }
}

/// All caches, in the order of the file.
pub(crate) fn cache_maps(alloc: Global, plan: &Numbered) -> Result<Vec<CacheMap>, OutOfMemory>
    requires { first_broken plan.now ≡ None }
    ensures { IfOk result (λ v. v.items ≡ spec.all_caches plan.now) }
{
    let parts = plan.text().parts.items().len();
    let mut caches = Vec::new(alloc);
    for no in 0..parts {
        if let Some(cache) = cache_at(alloc, plan, no)? {
            caches.push(cache)?;
        }
    }
    Ok(caches)
}

fn is_port(a: PortNo, b: PortNo) -> bool
    ensures { result ≡ spec.is_port a b }
{
    a.0 == b.0
}

/// Whether a cache is asked at a port.
fn is_top(caches: &[CacheMap], port: PortNo) -> bool
    ensures { result ≡ spec.is_top caches.now port }
{
    caches.iter().any(|cache| is_port(cache.top, port))
}

fn is_among(ports: &[PortNo], port: PortNo) -> bool
    ensures { result ≡ list_any (spec.is_port port) ports.now }
{
    ports.iter().any(|other| is_port(port, *other))
}

/// Adds a port, where a cache is asked at it and it is not there yet.
fn add_top(tops: &mut Vec<PortNo>, caches: &[CacheMap], port: PortNo) -> Result<(), OutOfMemory>
    ensures { OnOk result (tops.new.items
        ≡ tops.old.items ++ spec.unseen tops.old.items (filter (spec.is_top caches.now) (port ∷ []))) }
{
    if is_top(caches, port) && !is_among(tops, port) {
        tops.push(port)?;
    }
    Ok(())
}

/// Adds those of a range's targets at which caches are asked and that are not there yet, in their order.
fn add_tops(
    tops: &mut Vec<PortNo>,
    caches: &[CacheMap],
    targets: &[PortNo],
) -> Result<(), OutOfMemory>
    ensures { OnOk result (tops.new.items
        ≡ tops.old.items ++ spec.unseen tops.old.items (filter (spec.is_top caches.now) targets.now)) }
{
    for target in targets {
        add_top(tops, caches, *target)?;
    }
    Ok(())
}

/// The ports of the caches among the targets of a map, each once, in the order in which they first come.
#[tactic(auto, unfolding(crate::specs::Caches::tops_of))]
pub(crate) fn tops_of(
    alloc: Global,
    caches: &[CacheMap],
    ranges: &[Range],
) -> Result<PortList, OutOfMemory>
    ensures { IfOk result (λ tops. tops ≡ spec.tops_of caches.now ranges.now) }
{
    let mut tops = Vec::new(alloc);
    for range in ranges {
        add_tops(&mut tops, caches, range.to.items())?;
    }
    Ok(PortList::of(tops))
}

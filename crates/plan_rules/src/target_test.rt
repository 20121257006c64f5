//! Tests of the parts that a map leads to.
ghost use Rattle.std.specs.Prelude.{◌≡◌, ℕ, Bool, Option, map, not, option_map};
ghost use Rattle.std.specs.List.{list_any};
ghost use Rattle.sim_config.specs.Tables.{PlanTables};
ghost use Rattle.plan_rules.specs.Rules as rules;

use crate::named::map_no;
use crate::numbered::Numbered;
use sim_base::Name;
use sim_config::PartKeys;

/// A test of a part by its number.
pub(crate) trait TargetTest {
    ghost test: { Self → PlanTables → Option ℕ → Bool };

    fn passes(&self, plan: &Numbered, target: Option<usize>) -> bool
        ensures { result ≡ test self.now plan.now target };
}

/// Whether one of these parts passes.
pub(crate) fn some_target<T: TargetTest>(
    plan: &Numbered,
    targets: &[Option<usize>],
    test: &T,
) -> bool
    ensures { result ≡ list_any (T.test test.now plan.now) targets.now }
{
    for target in targets {
        if test.passes(plan, *target) {
            return true;
        }
    }
    false
}

#[tactic(auto, using(crate::proofs::Lists::list_any_mapped))]
fn some_in_ranges<T: TargetTest>(plan: &Numbered, ranges: &[Vec<Option<usize>>], test: &T) -> bool
    ensures { result ≡ list_any (list_any (T.test test.now plan.now)) (map (λ v. v.items) ranges.now) }
{
    for targets in ranges {
        if some_target(plan, targets, test) {
            return true;
        }
    }
    false
}

/// Whether a part to which the map of a name leads passes.
pub(crate) fn leads_to<T: TargetTest>(plan: &Numbered, name: &Name, test: &T) -> bool
    ensures { result ≡ rules.leads_to plan.now (T.test test.now plan.now) (Some name.now) }
{
    match map_no(plan.text(), name) {
        Some(no) => some_in_ranges(plan, plan.map_targets(no), test),
        None => false,
    }
}

pub(crate) fn is_relay(plan: &Numbered, target: Option<usize>) -> bool
    ensures { result ≡ rules.is_relay (rules.keys_of plan.now target) }
{
    matches!(plan.keys_of(target), Some(PartKeys::Relay { .. }))
}

fn is_agent(plan: &Numbered, target: Option<usize>) -> bool
    ensures { result ≡ rules.is_agent (rules.keys_of plan.now target) }
{
    matches!(plan.keys_of(target), Some(PartKeys::Agent { .. }))
}

fn is_cache(plan: &Numbered, target: Option<usize>) -> bool
    ensures { result ≡ rules.is_cache (rules.keys_of plan.now target) }
{
    matches!(plan.keys_of(target), Some(PartKeys::Cache { .. }))
}

pub(crate) fn is_core(plan: &Numbered, target: Option<usize>) -> bool
    ensures { result ≡ rules.is_core (rules.keys_of plan.now target) }
{
    matches!(plan.keys_of(target), Some(PartKeys::Core { .. }))
}

fn not_behind(no: usize, target: Option<usize>) -> bool
    ensures { result ≡ rules.not_behind no target }
{
    match target {
        Some(target) => target <= no,
        None => false,
    }
}

/// A part that answers no requests of ranges.
#[derive(Clone, Copy)]
pub(crate) struct NoAnswer;

impl TargetTest for NoAnswer {
    ghost test = { λ s text target. not (rules.answers_ranges (rules.keys_of text target)) };

    fn passes(&self, plan: &Numbered, target: Option<usize>) -> bool {
        match plan.keys_of(target) {
            Some(PartKeys::Memory { .. } | PartKeys::Cache { .. } | PartKeys::Agent { .. }) =>
                false,
            Some(PartKeys::Relay { .. } | PartKeys::Core { .. }) | None => true,
        }
    }
}

/// An agent.
#[derive(Clone, Copy)]
pub(crate) struct AnAgent;

impl TargetTest for AnAgent {
    ghost test = { λ s. rules.leads_to_agent };

    fn passes(&self, plan: &Numbered, target: Option<usize>) -> bool {
        is_agent(plan, target)
    }
}

/// An agent, or a cache that does not stand behind the cache of this number.
#[derive(Clone, Copy)]
pub(crate) struct Above {
    pub no: usize,
}

impl TargetTest for Above {
    ghost test = { λ s text. rules.is_above text s.no };

    fn passes(&self, plan: &Numbered, target: Option<usize>) -> bool {
        is_agent(plan, target) || is_cache(plan, target) && not_behind(self.no, target)
    }
}

/// A part whose first port is not on the link of this port.
#[derive(Clone, Copy)]
pub(crate) struct OffLink {
    pub port: u32,
}

impl TargetTest for OffLink {
    ghost test = { λ s text. rules.is_off_link text s.port };

    fn passes(&self, plan: &Numbered, target: Option<usize>) -> bool {
        match target {
            Some(target) => !is_same_link(
                plan.link_of(plan.first_port(target)),
                plan.link_of(self.port),
            ),
            None => false,
        }
    }
}

fn is_same_link(a: Option<usize>, b: Option<usize>) -> bool
    ensures { result ≡ rules.is_same a b }
{
    match (a, b) {
        (Some(a), Some(b)) => a == b,
        _ => false,
    }
}

/// A cache with a shorter line.
#[derive(Clone, Copy)]
pub(crate) struct ShorterLine {
    pub line: u32,
}

impl TargetTest for ShorterLine {
    ghost test = { λ s text target. rules.is_shorter s.line (rules.keys_of text target) };

    fn passes(&self, plan: &Numbered, target: Option<usize>) -> bool {
        match plan.keys_of(target) {
            Some(PartKeys::Cache { line, .. }) => *line < self.line,
            _ => false,
        }
    }
}

//! The rules on what parts send to.
ghost use Rattle.std.specs.Prelude.{◌≡◌, ◌≤◌, not, slice_get, option_map};
ghost use Rattle.plan_rules.specs.Text.{passes, keys_at, part_no, first_port};
ghost use Rattle.plan_rules.specs.Rules as rules;

use crate::kinds::{first_map, second_map, target_name};
use crate::named::part_no;
use crate::numbered::Numbered;
use crate::target_test::{
    Above, AnAgent, NoAnswer, OffLink, ShorterLine, TargetTest, is_core, is_relay, leads_to,
    some_target,
};
use sim_base::Name;
use sim_config::{PartKeys, TableNo};

fn has_wrong_target(plan: &Numbered, no: usize, keys: &PartKeys) -> bool
    ensures { result ≡ rules.has_wrong_target plan.now no keys.now }
{
    match keys {
        PartKeys::Relay { to, .. } => !is_relay(plan, part_no(plan.text(), to)),
        PartKeys::Cache { map, .. } => leads_to(plan, map, &Above { no }),
        PartKeys::Core {
            inst_map,
            data_map,
            ..
        } => leads_to(plan, inst_map, &AnAgent) || leads_to(plan, data_map, &AnAgent),
        PartKeys::Agent { .. } | PartKeys::Memory { .. } => false,
    }
}

fn part_has_wrong_target(plan: &Numbered, no: usize) -> bool
    ensures { result ≡ passes (keys_at plan.now no) (rules.has_wrong_target plan.now no) }
{
    match plan.keys(no) {
        Some(keys) => has_wrong_target(plan, no, keys),
        None => false,
    }
}

fn has_no_core(plan: &Numbered, no: usize) -> bool
    ensures { result ≡ passes (slice_get plan.now.programs no)
        (λ t. not (rules.is_core (rules.keys_of plan.now (part_no plan.now t.core)))) }
{
    let text = plan.text();
    let programs = text.programs.items();
    match programs.get(no) {
        Some(program) => !is_core(plan, part_no(text, &program.core)),
        None => false,
    }
}

/// Whether a range leads to a part of another kind than memory, cache or agent; a relay's target is no relay; a core's map
/// leads to an agent; a cache's map leads to an agent, or to a cache that does not stand behind it; a program's core is no core.
#[tactic(auto, unfolding(crate::specs::Rules::wrong_target))]
pub(crate) fn wrong_target(plan: &Numbered, table: TableNo) -> bool
    ensures { result ≡ rules.wrong_target plan.now table }
{
    match table {
        TableNo::Range(map, no) => {
            some_target(plan, plan.targets(map as usize, no as usize), &NoAnswer)
        }
        TableNo::Part(no) => part_has_wrong_target(plan, no as usize),
        TableNo::Program(no) => has_no_core(plan, no as usize),
        TableNo::Top | TableNo::Map(_) | TableNo::Link(_) => false,
    }
}

fn map_is_off_link(plan: &Numbered, port: u32, name: Option<&Name>) -> bool
    ensures { result ≡ rules.leads_to plan.now (rules.is_off_link plan.now port) (option_map (λ n. n.now) name.entry) }
{
    match name {
        Some(name) => leads_to(plan, name, &OffLink { port }),
        None => false,
    }
}

fn target_is_off_link(plan: &Numbered, port: u32, name: Option<&Name>) -> bool
    ensures { result ≡ passes (option_map (λ n. n.now) name.entry)
        (λ n. rules.is_off_link plan.now port (part_no plan.now n)) }
{
    match name {
        Some(name) => OffLink { port }.passes(plan, part_no(plan.text(), name)),
        None => false,
    }
}

#[tactic(auto, unfolding(crate::specs::Rules::sends_off_link))]
fn sends_off_link(plan: &Numbered, port: u32, keys: &PartKeys) -> bool
    requires { port ≤ 1024 }
    ensures { result ≡ rules.sends_off_link plan.now port keys.now }
{
    target_is_off_link(plan, port, target_name(keys))
        || map_is_off_link(plan, port, first_map(keys))
        || map_is_off_link(plan, port + 1, second_map(keys))
}

fn part_sends_off_link(plan: &Numbered, no: usize) -> bool
    ensures { result ≡ passes (keys_at plan.now no) (rules.sends_off_link plan.now (first_port plan.now no)) }
{
    match plan.keys(no) {
        Some(keys) => sends_off_link(plan, plan.first_port(no), keys),
        None => false,
    }
}

/// Whether a target of a part is not on the link of the port that the part sends from.
#[tactic(auto, unfolding(crate::specs::Rules::not_on_link))]
pub(crate) fn not_on_link(plan: &Numbered, table: TableNo) -> bool
    ensures { result ≡ rules.not_on_link plan.now table }
{
    match table {
        TableNo::Part(no) => part_sends_off_link(plan, no as usize),
        TableNo::Top
        | TableNo::Map(_)
        | TableNo::Range(..)
        | TableNo::Link(_)
        | TableNo::Program(_) => false,
    }
}

fn has_longer_line(plan: &Numbered, keys: &PartKeys) -> bool
    ensures { result ≡ rules.has_longer_line plan.now keys.now }
{
    match keys {
        PartKeys::Cache { map, line, .. } => leads_to(plan, map, &ShorterLine { line: *line }),
        _ => false,
    }
}

fn part_has_longer_line(plan: &Numbered, no: usize) -> bool
    ensures { result ≡ passes (keys_at plan.now no) (rules.has_longer_line plan.now) }
{
    match plan.keys(no) {
        Some(keys) => has_longer_line(plan, keys),
        None => false,
    }
}

/// Whether a cache's map leads to a cache with a shorter line.
#[tactic(auto, unfolding(crate::specs::Rules::line_too_long))]
pub(crate) fn line_too_long(plan: &Numbered, table: TableNo) -> bool
    ensures { result ≡ rules.line_too_long plan.now table }
{
    match table {
        TableNo::Part(no) => part_has_longer_line(plan, no as usize),
        TableNo::Top
        | TableNo::Map(_)
        | TableNo::Range(..)
        | TableNo::Link(_)
        | TableNo::Program(_) => false,
    }
}

//! The rules on numbers of tables and on names.
ghost use Rattle.std.specs.Prelude.{◌≡◌, ◌+◌, ◌<◌, ◌≤◌, ◌||◌, length, take, sum_by, slice_get, option_map, is_none};
ghost use Rattle.std.specs.List.{list_any};
ghost use Rattle.sim_config.specs.Tables.{PartTable};
ghost use Rattle.plan_rules.specs.Kinds as kinds;
ghost use Rattle.plan_rules.specs.Text.{passes, first_port, keys_at, part_no};
ghost use Rattle.plan_rules.specs.Rules as rules;

use crate::kinds::{first_map, port_count, second_map, target_name};
use crate::limits::{MOST_LINKS, MOST_MAPS, MOST_PARTS, MOST_PORTS, MOST_PROGRAMS};
use crate::named::{front, has_link, has_map, has_part, has_program, map_no, part_no};
use crate::numbered::Numbered;
use sim_base::Name;
use sim_config::{PartKeys, PartText, PlanText, TableNo};

/// How many ports these parts have.
fn ports_of(parts: &[PartText]) -> usize
    requires { length parts.now ≤ 256 }
    ensures { result ≡ sum_by (λ (p : PartTable). kinds.port_count p.kind) parts.now }
{
    let mut count = 0;
    for part in parts {
        count += port_count(&part.kind);
    }
    count
}

/// How many ports the parts have up to and with the part of a number below 256.
#[tactic(auto, unfolding(crate::specs::Text::first_port))]
fn ports_up_to(text: &PlanText, no: u32) -> usize
    requires { no < MOST_PARTS }
    ensures { result ≡ first_port text.now (no + 1) }
{
    ports_of(front(text.parts.items(), no as usize + 1))
}

/// Whether the table's number is not below its limit, or its ports pass theirs.
#[tactic(auto, unfolding(crate::specs::Rules::too_many))]
pub(crate) fn too_many(text: &PlanText, table: TableNo) -> bool
    ensures { result ≡ rules.too_many text.now table }
{
    match table {
        TableNo::Map(no) => no >= MOST_MAPS,
        TableNo::Part(no) => no >= MOST_PARTS || ports_up_to(text, no) > MOST_PORTS as usize,
        TableNo::Link(no) => no >= MOST_LINKS,
        TableNo::Program(no) => no >= MOST_PROGRAMS,
        TableNo::Top | TableNo::Range(..) => false,
    }
}

fn has_earlier_map(text: &PlanText, no: usize) -> bool
    ensures { result ≡ passes (slice_get text.now.maps no) (λ t. rules.has_map (take no text.now.maps) t.name) }
{
    let maps = text.maps.items();
    match maps.get(no) {
        Some(map) => has_map(&maps[..no], &map.name),
        None => false,
    }
}

fn has_earlier_part(text: &PlanText, no: usize) -> bool
    ensures { result ≡ passes (slice_get text.now.parts no) (λ t. rules.has_part (take no text.now.parts) t.name) }
{
    let parts = text.parts.items();
    match parts.get(no) {
        Some(part) => has_part(&parts[..no], &part.name),
        None => false,
    }
}

fn has_earlier_link(text: &PlanText, no: usize) -> bool
    ensures { result ≡ passes (slice_get text.now.links no)
        (λ t. rules.has_part text.now.parts t.name || rules.has_link (take no text.now.links) t.name) }
{
    let links = text.links.items();
    match links.get(no) {
        Some(link) => {
            has_part(text.parts.items(), &link.name) || has_link(&links[..no], &link.name)
        }
        None => false,
    }
}

fn has_earlier_program(text: &PlanText, no: usize) -> bool
    ensures { result ≡ passes (slice_get text.now.programs no)
        (λ t. rules.has_program (take no text.now.programs) t.core) }
{
    let programs = text.programs.items();
    match programs.get(no) {
        Some(program) => has_program(&programs[..no], &program.core),
        None => false,
    }
}

/// Whether a part or link has the name of an earlier part or link, a map that of an earlier map, a program the core of an
/// earlier program.
#[tactic(auto, unfolding(crate::specs::Rules::duplicate_name))]
pub(crate) fn duplicate_name(plan: &Numbered, table: TableNo) -> bool
    ensures { result ≡ rules.duplicate_name plan.now table }
{
    let text = plan.text();
    match table {
        TableNo::Map(no) => has_earlier_map(text, no as usize),
        TableNo::Part(no) => has_earlier_part(text, no as usize),
        TableNo::Link(no) => has_earlier_link(text, no as usize),
        TableNo::Program(no) => has_earlier_program(text, no as usize),
        TableNo::Top | TableNo::Range(..) => false,
    }
}

/// Whether one of the parts is not there.
fn lacks_one(parts: &[Option<usize>]) -> bool
    ensures { result ≡ list_any is_none parts.now }
{
    parts.iter().any(|part| part.is_none())
}

/// Whether one of the ports is not there.
fn lacks_port(ports: &[Option<u32>]) -> bool
    ensures { result ≡ list_any is_none ports.now }
{
    ports.iter().any(|port| port.is_none())
}

fn lacks_part(text: &PlanText, name: Option<&Name>) -> bool
    ensures { result ≡ rules.lacks_part text.now (option_map (λ n. n.now) name.entry) }
{
    match name {
        Some(name) => part_no(text, name).is_none(),
        None => false,
    }
}

fn lacks_map(text: &PlanText, name: Option<&Name>) -> bool
    ensures { result ≡ rules.lacks_map text.now (option_map (λ n. n.now) name.entry) }
{
    match name {
        Some(name) => map_no(text, name).is_none(),
        None => false,
    }
}

fn lacks_name(text: &PlanText, keys: &PartKeys) -> bool
    ensures { result ≡ rules.lacks_name text.now keys.now }
{
    lacks_part(text, target_name(keys))
        || lacks_map(text, first_map(keys))
        || lacks_map(text, second_map(keys))
}

fn part_lacks_name(plan: &Numbered, no: usize) -> bool
    ensures { result ≡ passes (keys_at plan.now no) (rules.lacks_name plan.now) }
{
    match plan.keys(no) {
        Some(keys) => lacks_name(plan.text(), keys),
        None => false,
    }
}

fn core_is_missing(text: &PlanText, no: usize) -> bool
    ensures { result ≡ passes (slice_get text.now.programs no) (λ t. is_none (part_no text.now t.core)) }
{
    let programs = text.programs.items();
    match programs.get(no) {
        Some(program) => part_no(text, &program.core).is_none(),
        None => false,
    }
}

/// Whether a named part, map or port is not there.
#[tactic(auto, unfolding(crate::specs::Rules::no_such_name))]
pub(crate) fn no_such_name(plan: &Numbered, table: TableNo) -> bool
    ensures { result ≡ rules.no_such_name plan.now table }
{
    match table {
        TableNo::Range(map, no) => lacks_one(plan.targets(map as usize, no as usize)),
        TableNo::Part(no) => part_lacks_name(plan, no as usize),
        TableNo::Link(no) => lacks_port(plan.ports(no as usize)),
        TableNo::Program(no) => core_is_missing(plan.text(), no as usize),
        TableNo::Top | TableNo::Map(_) => false,
    }
}

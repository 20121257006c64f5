//! The first broken rule.
ghost use Rattle.std.specs.Prelude.{◌≡◌, find};
ghost use Rattle.plan_rules.specs.First as spec;
ghost use Rattle.plan_rules.specs.Rules as rules;

use crate::breach::Breach;
use crate::name_rules::{duplicate_name, no_such_name, too_many};
use crate::numbered::Numbered;
use crate::rule::{PlanRule, RULES};
use crate::size_rules::{map_outside, map_overlap, memory_over};
use crate::target_rules::{line_too_long, not_on_link, wrong_target};
use crate::wire_rules::{port_twice, port_unplugged};
use sim_config::{PlanText, TableNo};

/// Whether a table breaks a rule.
#[tactic(auto, unfolding(crate::specs::Rules::breaks))]
fn breaks(plan: &Numbered, rule: PlanRule, table: TableNo) -> bool
    ensures { result ≡ rules.breaks plan.now rule table }
{
    match rule {
        PlanRule::TooMany => too_many(plan.text(), table),
        PlanRule::DuplicateName => duplicate_name(plan, table),
        PlanRule::NoSuchName => no_such_name(plan, table),
        PlanRule::WrongTarget => wrong_target(plan, table),
        PlanRule::PortTwice => port_twice(plan, table),
        PlanRule::PortUnplugged => port_unplugged(plan, table),
        PlanRule::NotOnLink => not_on_link(plan, table),
        PlanRule::MapOverlap => map_overlap(plan, table),
        PlanRule::MapOutside => map_outside(plan, table),
        PlanRule::LineTooLong => line_too_long(plan, table),
        PlanRule::MemoryOver => memory_over(plan, table),
    }
}

/// The first of these tables that breaks a rule.
fn first_table(plan: &Numbered, rule: PlanRule, tables: &[TableNo]) -> Option<TableNo>
    ensures { result ≡ find (rules.breaks plan.now rule) tables.now }
{
    for table in tables {
        if breaks(plan, rule, *table) {
            return Some(*table);
        }
    }
    None
}

/// The first of these tables that is one too many.
pub(crate) fn first_too_many(text: &PlanText, tables: &[TableNo]) -> Option<TableNo>
    ensures { result ≡ find (rules.too_many text.now) tables.now }
{
    for table in tables {
        if too_many(text, *table) {
            return Some(*table);
        }
    }
    None
}

/// The first broken rule, and the first of all tables that breaks it.
#[tactic(auto, unfolding(crate::specs::First::first_broken))]
pub(crate) fn first_broken(plan: &Numbered, tables: &[TableNo]) -> Option<Breach>
    requires { tables.now ≡ spec.all_tables plan.now }
    ensures { result ≡ spec.first_broken plan.now }
{
    for rule in RULES {
        if let Some(table) = first_table(plan, rule, tables) {
            return Some(Breach { rule, table });
        }
    }
    None
}

//! The rules of plans: what a configuration must keep beyond its keys, and the first rule that one breaks.
#![tactic(auto)]

mod breach;
mod checked;
mod covers;
mod fault;
mod first;
mod kinds;
mod limits;
mod name_rules;
mod named;
mod numbered;
mod numbers;
mod port_word;
mod rule;
mod size_rules;
mod tables;
mod target_rules;
mod target_test;
mod wire_rules;

pub use breach::Breach;
pub use checked::check;
pub use covers::is_uncovered;
pub use fault::PlanFault;
pub use kinds::{port_count, port_words};
pub use limits::{MOST_LINKS, MOST_MAPS, MOST_MEMORY, MOST_PARTS, MOST_PORTS, MOST_PROGRAMS};
pub use numbered::Numbered;
pub use port_word::PortWord;
pub use rule::{PlanRule, RULES};

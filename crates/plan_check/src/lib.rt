//! From a configuration to the plan that it means, or the first rule of plans that it breaks.
#![tactic(auto)]

mod bytes;
mod caches;
mod fields;
mod links;
mod load;
mod maps;
mod names;
mod parts;
mod placing;
mod ports;
mod programs;
mod unmapped;
mod whole;

pub use fields::field_names;
pub use plan_rules::{PlanFault, PlanRule};
pub use whole::build;

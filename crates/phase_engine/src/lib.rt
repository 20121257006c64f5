//! The sleeping engine of one thread: from one time at which somebody is due to the next, it steps those who are due and writes the
//! lines of what they did.
#![tactic(auto)]

mod advance;
mod engine;
mod first_times;
mod next_due;
mod one_time;
mod plan_run;
mod run;
mod run_lines;
mod run_open;
mod verdict;

pub use engine::Engine;
pub use plan_run::run_plan;
pub use run_gear::{RunFault, TraceFault};

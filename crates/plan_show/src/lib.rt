//! What is shown of a plan's machine at a boundary: the machine is run up to there, and a query is answered.
#![tactic(auto)]

mod question;
mod show;

pub use question::{Question, Unknown, query_of};
pub use show::show_plan;

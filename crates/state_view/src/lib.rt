//! What is shown of a world: the report at the end of a run.
#![tactic(auto)]

mod lines;
mod memory_rows;
mod regs_line;
mod run_end;
mod task_lines;
mod text;
mod world_report;

pub use run_end::RunEnd;
pub use world_report::report;

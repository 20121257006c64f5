use crate::rule::PlanRule;
use sim_config::TableNo;

/// A broken rule, and the table that breaks it.
#[derive(Clone, Copy, Debug, PartialEq, Eq)]
pub struct Breach {
    pub rule: PlanRule,
    pub table: TableNo,
}

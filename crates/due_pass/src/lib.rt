//! One time of a run over ports in rows: the pass of the parts that are due, and that of the links.
#![tactic(auto)]

pub mod link_pass;
pub mod part_pass;
pub mod time;

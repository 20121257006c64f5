//! What may happen to a run whose actors step in any order: the machine of events, and what is true of its states.
#![tactic(auto)]

mod stage;

pub use stage::Stage;

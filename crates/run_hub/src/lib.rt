//! A hub: a run whose actors step in any order, with the lines that they leave. It hands out the steps of actors that are due, and
//! takes them back.
#![tactic(auto)]

mod ask;
mod batch;
mod claim;
mod count;
mod ending;
mod finish;
mod home;
mod hub;
mod lines;
mod opening;
mod seats;
mod swap;
mod task;
mod trace;
mod turn;
mod words;

pub use batch::{BATCH_ROOM, Batch};
pub use claim::{Claim, Why};
pub use count::count_time;
pub use ending::Ending;
pub use finish::Finish;
pub use home::Home;
pub use hub::Hub;
pub use lines::write_time;
pub use opening::Opening;
pub use swap::{MOST_WORKERS, Swap, Swapped};
pub use task::{Away, Done, Task, TaskName, work};
pub use trace::Trace;
pub use turn::{after_link, after_part};

//! All ports of a world, in the rows of its links: a link steps where its row stands, and a part borrows its ports from rows.
#![tactic(auto)]

mod hands;
mod opening;
mod rows;
mod side;
mod world;

pub use hands::open_hands;
pub use rows::PortRows;
pub use side::SideOf;
pub use world::World;

//! One actor's turn over ports in rows: it steps, its next time is noted, and those to whom its ports show something else are woken.
//! A turn's cost follows the ports that it touches.
#![tactic(auto)]

pub mod act;
pub mod beat;
pub mod gear;
pub mod next;
pub mod side;
pub mod turn;
pub mod wake;

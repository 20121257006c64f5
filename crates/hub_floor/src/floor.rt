use actor_turn::side::SideGear;
use away_rows::{Body, Marks};
use event_queue::NextTimes;
use hub_laws::Stage;
use port_rows::PortRows;

/// What a run has whose actors step in any order. Each actor has a seat, which is empty while it is out for its step. Times are in
/// picoseconds.
#[derive(Drop)]
pub struct Floor<P: Drop, N: Drop> {
    pub parts: Vec<Option<Box<Body<P>>>>,
    pub links: Vec<Option<Box<Body<N>>>>,
    /// The ports of those who are not out.
    pub rows: PortRows,
    pub part_side: SideGear,
    pub link_side: SideGear,
    /// The next time of each actor, the parts' first.
    pub next: NextTimes,
    /// The edge at which each part was asked to step.
    pub asked: NextTimes,
    pub part_marks: Marks,
    pub link_marks: Marks,
    pub stage: Stage,
    /// The boundary, or the time whose pass is open.
    pub at: u64,
    /// No pass opens while this holds, and while somebody wants to look.
    pub paused: bool,
    pub wants: u32,
    /// How many ticks were asked for, and how many steps were made for that alone.
    pub asks: u64,
    pub extra: u64,
    /// The last time below `at` of progress, or 0, and whether there was progress at `at` itself.
    pub end: u64,
    pub stirred: bool,
    /// A write of the trace failed.
    pub failed: bool,
    /// Nobody lingers at the end.
    pub left: bool,
}
